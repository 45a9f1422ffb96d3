// Fields in the bytes B4 6C F1, in both orders.
use requests::Reply;
use rules::{Number, Order, Refusal, Sign, Significance, Span};
use show::{Bytes, Hex, Shown};
use std::io;

// Prints three tables, each with a column for each order: loads, stores, and the limits of both.
pub fn run(rt: &impl Print) -> io::Result<()> {
    println!(rt; "{:<40} | Lsb0 | Msb0", "fields in B4 6C F1")?;
    eight_bits(rt)?;
    three_bits(rt)?;
    sixteen_bits(rt)?;
    println!(rt; "\n{:<40} | Lsb0 | Msb0", "fields stored into 00 00 00")?;
    stores(rt)?;
    println!(rt; "\n{:<40} | Lsb0 | Msb0", "limits of fields")?;
    heads(rt)?;
    lengths(rt)?;
    values(rt)
}

// Loads of 8 bits that lie in two bytes.
fn eight_bits(rt: &impl Print) -> io::Result<()> {
    for (name, significance, sign) in [
        ("head 4, 8 bits, le", Significance::Le, Sign::Unsigned),
        ("same, be", Significance::Be, Sign::Unsigned),
        ("same, signed K = 8, le", Significance::Le, Sign::Signed),
    ] {
        load(rt, name, Field::new(4, 8, 8, significance, sign))?;
    }
    Ok(())
}

// Loads of 3 bits of one byte.
fn three_bits(rt: &impl Print) -> io::Result<()> {
    for (name, sign) in [
        ("head 3, 3 bits, le", Sign::Unsigned),
        ("same, signed", Sign::Signed),
    ] {
        load(rt, name, Field::new(3, 3, 8, Significance::Le, sign))?;
    }
    Ok(())
}

// Loads of 16 bits that lie in three bytes.
fn sixteen_bits(rt: &impl Print) -> io::Result<()> {
    for (name, significance) in [
        ("head 4, 16 bits, le", Significance::Le),
        ("same, be", Significance::Be),
    ] {
        let field = Field::new(4, 16, 16, significance, Sign::Unsigned);
        load(rt, name, field)?;
    }
    Ok(())
}

// Stores of CB, the number that the first load gives in Lsb0.
fn stores(rt: &impl Print) -> io::Result<()> {
    for (name, significance) in [
        ("CB le at head 4, 8 bits", Significance::Le),
        ("CB be at head 4, 8 bits", Significance::Be),
    ] {
        print!(rt; "{name:<40}")?;
        for order in [Order::Lsb0, Order::Msb0] {
            let mut bytes = [0u8; 3];
            let field = Field::new(4, 8, 8, significance, Sign::Unsigned);
            let answer = field.store(order, &mut bytes, 0xCB);
            print!(rt; " | {}", Shown(answer.map(|()| Bytes(&bytes))))?;
        }
        println!(rt)?;
    }
    Ok(())
}

// Loads at the last head of a byte and at the one past it, which is refused.
fn heads(rt: &impl Print) -> io::Result<()> {
    for (name, head) in [("load, head 7, 8 bits", 7), ("load, head 8, 8 bits", 8)] {
        let field = Field::new(head, 8, 8, Significance::Le, Sign::Unsigned);
        load(rt, name, field)?;
    }
    Ok(())
}

// Loads of as many bits as the number has, of one more and of none. The last two are refused.
fn lengths(rt: &impl Print) -> io::Result<()> {
    for (name, len) in [
        ("load, K = 8, 8 bits", 8),
        ("load, K = 8, 9 bits", 9),
        ("load, K = 8, 0 bits", 0),
    ] {
        let field = Field::new(0, len, 8, Significance::Le, Sign::Unsigned);
        load(rt, name, field)?;
    }
    Ok(())
}

// Strict stores of the greatest value that fits, and of one more, as a number of 16 bits and of 8. Both of these are refused.
fn values(rt: &impl Print) -> io::Result<()> {
    for (name, k, value) in [
        ("strict store, 255 in 8 bits, K = 8", 8, 255),
        ("strict store, 256 in 8 bits, K = 16", 16, 256),
        ("strict store, 256 in 8 bits, K = 8", 8, 256),
    ] {
        print!(rt; "{name:<40}")?;
        for order in [Order::Lsb0, Order::Msb0] {
            let mut bytes = [0u8; 3];
            let field = Field::new(4, 8, k, Significance::Le, Sign::Unsigned);
            let answer = field.store_strict(order, &mut bytes, value);
            let answer = Shown(answer.map(|()| Reply::Done));
            print!(rt; " | {answer}, {}", Bytes(&bytes))?;
        }
        println!(rt)?;
    }
    Ok(())
}

// A field of `len` bits from a head of the first byte on, which holds a number of k bits.
#[derive(Clone, Copy)]
struct Field {
    head: usize,
    len: usize,
    k: usize,
    significance: Significance,
    sign: Sign,
}

impl Field {
    // The field of these parts.
    fn new(head: usize, len: usize, k: usize, significance: Significance, sign: Sign) -> Field {
        Field {
            head,
            len,
            k,
            significance,
            sign,
        }
    }

    // Its bits in an order.
    fn span(self, order: Order) -> Span {
        Span::new(order, 0, self.head, self.len)
    }

    // The number that it holds.
    fn load(self, order: Order, bytes: &[u8]) -> Result<Number, Refusal> {
        field::load(
            bytes,
            self.span(order),
            self.k,
            self.significance,
            self.sign,
        )
    }

    // The low bits of a value, placed in it.
    fn store(self, order: Order, bytes: &mut [u8], value: u64) -> Result<(), Refusal> {
        let value = Number::Up(value);
        field::store(
            bytes,
            self.span(order),
            self.k,
            self.significance,
            self.sign,
            value,
        )
    }

    // A value placed in it only if it fits.
    fn store_strict(self, order: Order, bytes: &mut [u8], value: u64) -> Result<(), Refusal> {
        let value = Number::Up(value);
        field::store_strict(
            bytes,
            self.span(order),
            self.k,
            self.significance,
            self.sign,
            value,
        )
    }
}

// Prints the line on a load. An unsigned number is shown in hexadecimal, a signed one in decimal.
fn load(rt: &impl Print, name: &str, field: Field) -> io::Result<()> {
    let bytes = [0xB4u8, 0x6C, 0xF1];
    let left = field.load(Order::Lsb0, &bytes);
    let right = field.load(Order::Msb0, &bytes);
    match field.sign {
        Sign::Unsigned => {
            let left = Shown(left.map(|n| Hex(i128::from(n))));
            let right = Shown(right.map(|n| Hex(i128::from(n))));
            println!(rt; "{name:<40} | {left} | {right}")
        }
        Sign::Signed => { println!(rt; "{name:<40} | {} | {}", Shown(left), Shown(right)) }
    }
}
