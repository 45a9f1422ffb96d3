// Positions, selectors and masks, at both widths and in both orders.
use rules::{End, Index, Order, Width};
use show::{Hex, Shown};
use std::io;

// Prints the table: a line for each request, a column for each order.
pub fn run(rt: &impl Print) -> io::Result<()> {
    println!(rt; "{:<40} | Lsb0 | Msb0", "positions, selectors and masks")?;
    positions(rt)?;
    selectors(rt)?;
    masks_of_bytes(rt)?;
    masks_refused(rt)?;
    masks_of_words(rt)
}

// Positions of the first index of a word, of the last, and of those past it, which are refused.
fn positions(rt: &impl Print) -> io::Result<()> {
    for (name, width, index) in [
        ("position of index 0, W = 8", Width::W8, 0),
        ("position of index 7, W = 8", Width::W8, 7),
        ("position of index 8, W = 8", Width::W8, 8),
        ("position of index 0, W = 64", Width::W64, 0),
        ("position of index 63, W = 64", Width::W64, 63),
        ("position of index 64, W = 64", Width::W64, 64),
        ("position of index 2^64 - 1, W = 64", Width::W64, usize::MAX),
    ] {
        let index = Index(index);
        let left = Shown(wordless::position(width, Order::Lsb0, index).map(|p| p.0));
        let right = Shown(wordless::position(width, Order::Msb0, index).map(|p| p.0));
        println!(rt; "{name:<40} | {left} | {right}")?;
    }
    Ok(())
}

// Selectors of an index in a byte, of the first index of a word of 64 bits, and of the one past its last, which is refused.
fn selectors(rt: &impl Print) -> io::Result<()> {
    for (name, width, index) in [
        ("selector of index 2, W = 8", Width::W8, 2),
        ("selector of index 0, W = 64", Width::W64, 0),
        ("selector of index 64, W = 64", Width::W64, 64),
    ] {
        let index = Index(index);
        let left = Shown(wordless::selector(width, Order::Lsb0, index).map(|s| Hex(s.0)));
        let right = Shown(wordless::selector(width, Order::Msb0, index).map(|s| Hex(s.0)));
        println!(rt; "{name:<40} | {left} | {right}")?;
    }
    Ok(())
}

// Masks of some bits, all, none and the last of a byte.
fn masks_of_bytes(rt: &impl Print) -> io::Result<()> {
    for (name, from, upto) in [
        ("mask 2 up to 5, W = 8", 2, 5),
        ("mask 0 up to 8, W = 8", 0, 8),
        ("mask 3 up to 3, W = 8", 3, 3),
        ("mask 7 up to 8, W = 8", 7, 8),
    ] {
        mask(rt, name, Width::W8, from, upto)?;
    }
    Ok(())
}

// Masks of a byte that are refused: by where they begin, by where they end, or since they end before they begin.
fn masks_refused(rt: &impl Print) -> io::Result<()> {
    for (name, from, upto) in [
        ("mask 8 up to 8, W = 8", 8, 8),
        ("mask 2 up to 9, W = 8", 2, 9),
        ("mask 5 up to 2, W = 8", 5, 2),
        ("mask 9 up to 2, W = 8", 9, 2),
    ] {
        mask(rt, name, Width::W8, from, upto)?;
    }
    Ok(())
}

// Masks of all bits and of the last of a word of 64 bits, and one from past its end, which is refused.
fn masks_of_words(rt: &impl Print) -> io::Result<()> {
    for (name, from, upto) in [
        ("mask 0 up to 64, W = 64", 0, 64),
        ("mask 63 up to 64, W = 64", 63, 64),
        ("mask 64 up to 2^64 - 1, W = 64", 64, usize::MAX),
    ] {
        mask(rt, name, Width::W64, from, upto)?;
    }
    Ok(())
}

// Prints the line on the mask of the indexes from `from` up to but without `upto`.
fn mask(rt: &impl Print, name: &str, width: Width, from: usize, upto: usize) -> io::Result<()> {
    let left = Shown(wordless::mask(width, Order::Lsb0, Index(from), End(upto)).map(|m| Hex(m.0)));
    let right = Shown(wordless::mask(width, Order::Msb0, Index(from), End(upto)).map(|m| Hex(m.0)));
    println!(rt; "{name:<40} | {left} | {right}")
}
