// Rows: copies, boolean operations and comparisons of B4, the four searches, and rows at the limit of their length.
use requests::Reply;
use rules::{Operation, Order, Refusal, Span};
use show::{Bytes, Shown};
use std::io;
use word::Word;

// Prints three tables: calls on rows, the four searches, and rows of as many words as may be lent and of one more.
pub fn run(rt: &impl Print) -> io::Result<()> {
    println!(rt; "{:<40} | answer", "rows")?;
    copies(rt)?;
    booleans(rt)?;
    comparisons(rt)?;
    println!(rt; "\nB4 alone: first one, last one, first zero, last zero")?;
    searches(rt)?;
    println!(rt; "\n{:<40} | W = 8 | W = 64", "rows of many words")?;
    long_rows(rt)
}

// The span of `len` bits from a head of the first word on.
fn at(order: Order, head: usize, len: usize) -> Span {
    Span::new(order, 0, head, len)
}

// Prints a line each on a copy inside B4 whose parts overlap, a copy between two buffers, and a swap.
fn copies(rt: &impl Print) -> io::Result<()> {
    let mut row = [0xB4u8];
    let answer = within::copy_within(&mut row, at(Order::Lsb0, 0, 8), 0, 5, 2);
    left_with(rt, "B4, copy 5 bits from 0 to 2, Lsb0", answer, &row)?;
    let mut target = [0u8, 0];
    let source = [0xB4u8];
    let to = at(Order::Msb0, 3, 8);
    let answer = copy::copy_from(&mut target, to, &source, at(Order::Msb0, 0, 8));
    left_with(rt, "B4 copied to head 3 of 00 00, Msb0", answer, &target)?;
    let mut left = [0xB4u8];
    let mut right = [0x6Cu8];
    let low = at(Order::Lsb0, 0, 4);
    let answer = swap::swap(&mut left, low, &mut right, at(Order::Lsb0, 4, 4));
    let both = [left[0], right[0]];
    left_with(
        rt,
        "low half of B4, high half of 6C, swapped",
        answer,
        &both,
    )
}

// Prints the lines on B4 joined with four ones. The right side is shorter, and counts as 0 past its end.
fn booleans(rt: &impl Print) -> io::Result<()> {
    for (name, operation) in [
        ("B4 and four ones, Lsb0", Operation::And),
        ("B4 or four ones, Lsb0", Operation::Or),
        ("B4 xor four ones, Lsb0", Operation::Xor),
    ] {
        let mut row = [0xB4u8];
        let right = [0x0Fu8];
        let ones = at(Order::Lsb0, 0, 4);
        let operation = operation.number();
        let answer = boolean::boolean(&mut row, at(Order::Lsb0, 0, 8), &right, ones, operation);
        left_with(rt, name, answer, &row)?;
    }
    Ok(())
}

// Prints the line on a write: the bytes that it leaves, or its refusal.
fn left_with(
    rt: &impl Print,
    name: &str,
    answer: Result<(), Refusal>,
    bytes: &[u8],
) -> io::Result<()> {
    println!(rt; "{name:<40} | {}", Shown(answer.map(|()| Bytes(bytes))))
}

// Prints a line each on two spans whose bits differ, whose lengths differ, and whose orders differ, which is refused.
fn comparisons(rt: &impl Print) -> io::Result<()> {
    let row = [0xB4u8, 0xB4];
    for (name, right) in [
        ("bits 0 to 3 and 4 to 7 of B4", at(Order::Lsb0, 4, 4)),
        ("4 bits and 5 bits", at(Order::Lsb0, 0, 5)),
        ("an Lsb0 and an Msb0 span", at(Order::Msb0, 0, 4)),
    ] {
        let answer = equal::equal(&row, at(Order::Lsb0, 0, 4), &row, right);
        println!(rt; "{name:<40} | {}", Shown(answer.map(Reply::Equal)))?;
    }
    Ok(())
}

// Prints a line each with the first one, the last one, the first zero and the last zero of a byte.
fn searches(rt: &impl Print) -> io::Result<()> {
    for (name, byte, span) in [
        ("Lsb0", 0xB4u8, at(Order::Lsb0, 0, 8)),
        ("Msb0", 0xB4, at(Order::Msb0, 0, 8)),
        ("nothing to find, 00, Msb0", 0x00, at(Order::Msb0, 0, 8)),
        ("nothing to find, FF, Msb0", 0xFF, at(Order::Msb0, 0, 8)),
        ("an empty span", 0xB4, at(Order::Lsb0, 3, 0)),
    ] {
        let row = [byte];
        let first_one = Shown(search::first_one(&row, span).map(Reply::Found));
        let last_one = Shown(search::last_one(&row, span).map(Reply::Found));
        let first_zero = Shown(search::first_zero(&row, span).map(Reply::Found));
        let last_zero = Shown(search::last_zero(&row, span).map(Reply::Found));
        println!(rt; "{name:<40} | {first_one}, {last_one}, {first_zero}, {last_zero}")?;
    }
    Ok(())
}

// Prints a line each on a search in as many words as may be lent, and in one more, which is refused.
fn long_rows(rt: &impl Print) -> io::Result<()> {
    let bytes = first_zero(&[0u8; 65536]);
    let words = first_zero(&[0u64; 65536]);
    println!(rt; "{:<40} | {bytes} | {words}", "first zero in 65,536 words")?;
    let bytes = first_zero(&[0u8; 65537]);
    let words = first_zero(&[0u64; 65537]);
    println!(rt; "{:<40} | {bytes} | {words}", "first zero in 65,537 words")
}

// What a search for the first zero of 8 bits of some words answers.
fn first_zero<T: Word<W>, const W: usize>(words: &[T]) -> Shown<Reply> {
    Shown(search::first_zero(words, at(Order::Lsb0, 0, 8)).map(Reply::Found))
}
