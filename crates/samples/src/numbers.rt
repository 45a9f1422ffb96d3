// Numbers of K bits: refusals 4, 5, 8 and 9, the low bits of a value, loaded bits with their sign, the machine's i64.
use rules::{Number, Sign};
use show::{Hex, Shown};
use std::io;

// Prints four tables: lengths of fields, values to store, bits that are loaded, and numbers as the machine has them.
pub fn run(rt: &impl Print) -> io::Result<()> {
    println!(rt; "{:<40} | answer", "fields")?;
    fields(rt)?;
    println!(rt; "\n{:<40} | stored | stored strictly", "values")?;
    unsigned_values(rt)?;
    signed_values(rt)?;
    large_values(rt)?;
    println!(rt; "\n{:<40} | unsigned | signed", "loaded bits")?;
    loaded_bits(rt)?;
    println!(rt; "\n{:<40} | answer", "as the machine's i64")?;
    machine_numbers(rt)
}

// Lengths at K, above it and 0, and K that is none of 8, 16, 32 and 64.
fn fields(rt: &impl Print) -> io::Result<()> {
    for (name, k, len) in [
        ("K = 8, length 8", 8, 8),
        ("K = 8, length 9", 8, 9),
        ("K = 8, length 0", 8, 0),
        ("K = 7, length 0", 7, 0),
        ("K = 64, length 64", 64, 64),
        ("K = 64, length 65", 64, 65),
        ("K = 2^64 - 1, length 2^64 - 1", usize::MAX, usize::MAX),
    ] {
        let answer = Shown(refusals::check_field(k, len).map(|()| "accepted"));
        println!(rt; "{name:<40} | {answer}")?;
    }
    Ok(())
}

// Unsigned values at the limits of K bits and of the field.
fn unsigned_values(rt: &impl Print) -> io::Result<()> {
    for (name, k, number) in [
        ("255 unsigned, K = 8, 8 bits", 8, Number::Up(255)),
        ("256 unsigned, K = 8, 8 bits", 8, Number::Up(256)),
        ("256 unsigned, K = 16, 8 bits", 16, Number::Up(256)),
        ("-1 unsigned, K = 16, 8 bits", 16, Number::Down(0)),
    ] {
        value(rt, name, k, 8, Sign::Unsigned, number)?;
    }
    Ok(())
}

// Signed values at the limits of K bits and of the field. A strict store takes magnitudes below 128 in 8 bits, so not -128.
fn signed_values(rt: &impl Print) -> io::Result<()> {
    for (name, k, number) in [
        ("127 signed, K = 8, 8 bits", 8, Number::Up(127)),
        ("128 signed, K = 8, 8 bits", 8, Number::Up(128)),
        ("-127 signed, K = 8, 8 bits", 8, Number::Down(126)),
        ("-128 signed, K = 8, 8 bits", 8, Number::Down(127)),
        ("-129 signed, K = 8, 8 bits", 8, Number::Down(128)),
        ("-129 signed, K = 16, 8 bits", 16, Number::Down(128)),
    ] {
        value(rt, name, k, 8, Sign::Signed, number)?;
    }
    Ok(())
}

// Values at the limits of 64 bits.
fn large_values(rt: &impl Print) -> io::Result<()> {
    for (name, sign, number) in [
        (
            "2^64 - 1 unsigned, K = 64, 64 bits",
            Sign::Unsigned,
            Number::Up(u64::MAX),
        ),
        (
            "2^63 signed, K = 64, 64 bits",
            Sign::Signed,
            Number::Up(1 << 63),
        ),
        (
            "-2^63 signed, K = 64, 64 bits",
            Sign::Signed,
            Number::Down((1 << 63) - 1),
        ),
        (
            "-2^63 - 1 signed, K = 64, 64 bits",
            Sign::Signed,
            Number::Down(1 << 63),
        ),
        (
            "-2^64 signed, K = 64, 64 bits",
            Sign::Signed,
            Number::Down(u64::MAX),
        ),
    ] {
        value(rt, name, 64, 64, sign, number)?;
    }
    Ok(())
}

// Bits whose highest is set or not, read without a sign and with one.
fn loaded_bits(rt: &impl Print) -> io::Result<()> {
    for (name, bits, k, len) in [
        ("CB, 8 bits", 0xCB, 8, 8),
        ("64, 8 bits", 0x64, 8, 8),
        ("6, 3 bits", 6, 8, 3),
        ("5, 3 bits", 5, 8, 3),
        ("1, 1 bit", 1, 8, 1),
        ("8000000000000000, 64 bits", 1 << 63, 64, 64),
    ] {
        let unsigned = Shown(wordless::read(bits, k, len, Sign::Unsigned));
        let signed = Shown(wordless::read(bits, k, len, Sign::Signed));
        println!(rt; "{name:<40} | {unsigned} | {signed}")?;
    }
    Ok(())
}

// Numbers at the limits of i64.
fn machine_numbers(rt: &impl Print) -> io::Result<()> {
    for (name, number) in [
        ("2^63 - 1", Number::Up((1 << 63) - 1)),
        ("2^63", Number::Up(1 << 63)),
        ("-2^63", Number::Down((1 << 63) - 1)),
        ("-2^63 - 1", Number::Down(1 << 63)),
    ] {
        let answer = Shown(wordless::to_i64(number));
        println!(rt; "{name:<40} | {answer}")?;
    }
    Ok(())
}

// Prints the line on a value: the bits that a store writes, and those that a strict store writes.
fn value(
    rt: &impl Print,
    name: &str,
    k: usize,
    len: usize,
    sign: Sign,
    number: Number,
) -> io::Result<()> {
    let stored = Shown(wordless::low_bits(number, k, len, sign).map(Hex));
    let strictly = Shown(wordless::fitting_bits(number, k, len, sign).map(Hex));
    println!(rt; "{name:<40} | {stored} | {strictly}")
}
