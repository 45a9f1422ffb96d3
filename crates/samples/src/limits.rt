// The limits of spans: at, below and above each, and sums that pass 2^64. A span is written word:head+length.
use rules::{Order, Span, Width};
use show::Shown;
use std::io;

// Prints the table: a line for each request, a column for each width.
pub fn run(rt: &impl Print) -> io::Result<()> {
    println!(rt; "{:<40} | W = 8 | W = 64", "spans")?;
    heads(rt)?;
    ends(rt)?;
    empty_spans(rt)?;
    large_numbers(rt)?;
    splits(rt)?;
    cuts(rt)
}

// As many words as may be lent and one more, and heads at and past the last of either width.
fn heads(rt: &impl Print) -> io::Result<()> {
    for (name, lent, span) in [
        ("0:0+8 of 65,536 words", 65536, at(0, 0, 8)),
        ("0:0+8 of 65,537 words", 65537, at(0, 0, 8)),
        ("0:7+1 of 1 word", 1, at(0, 7, 1)),
        ("0:8+1 of 2 words", 2, at(0, 8, 1)),
        ("0:63+1 of 1 word", 1, at(0, 63, 1)),
        ("0:64+1 of 2 words", 2, at(0, 64, 1)),
    ] {
        check(rt, name, lent, span)?;
    }
    Ok(())
}

// Spans that end with the only word, and one bit past it, at either width.
fn ends(rt: &impl Print) -> io::Result<()> {
    for (name, len) in [
        ("0:0+8 of 1 word", 8),
        ("0:0+9 of 1 word", 9),
        ("0:0+64 of 1 word", 64),
        ("0:0+65 of 1 word", 65),
    ] {
        check(rt, name, 1, at(0, 0, len))?;
    }
    Ok(())
}

// Empty spans: at the very end of the words, where they are in bounds, and past it, where they are not.
fn empty_spans(rt: &impl Print) -> io::Result<()> {
    for (name, lent, span) in [
        ("1:0+0 of 1 word (empty, at the very end)", 1, at(1, 0, 0)),
        ("1:1+0 of 1 word", 1, at(1, 1, 0)),
        ("2:0+0 of 1 word", 1, at(2, 0, 0)),
        ("0:0+0 of no words", 0, at(0, 0, 0)),
    ] {
        check(rt, name, lent, span)?;
    }
    Ok(())
}

// Spans whose sums pass 2^64. They are refused as whole numbers ask; a sum that wraps would accept some.
fn large_numbers(rt: &impl Print) -> io::Result<()> {
    for (name, lent, span) in [
        ("2^61:0+0 of 1 word", 1, at(1 << 61, 0, 0)),
        (
            "2^64-1:7+(2^64-1) of 65,536 words",
            65536,
            at(usize::MAX, 7, usize::MAX),
        ),
        ("0:7+(2^64-1) of 65,536 words", 65536, at(0, 7, usize::MAX)),
        ("0:(2^64-1)+1 of 65,537 words", 65537, at(0, usize::MAX, 1)),
    ] {
        check(rt, name, lent, span)?;
    }
    Ok(())
}

// Splits at the start, inside, at the end and past it.
fn splits(rt: &impl Print) -> io::Result<()> {
    let span = at(0, 4, 16);
    for (name, place) in [
        ("0:4+16 of 3 words split at 0", 0),
        ("0:4+16 of 3 words split at 6", 6),
        ("0:4+16 of 3 words split at 16", 16),
        ("0:4+16 of 3 words split at 17", 17),
        ("0:4+16 of 3 words split at 2^64 - 1", usize::MAX),
    ] {
        let left = Shown(span.split(Width::W8, 3, place));
        let right = Shown(span.split(Width::W64, 3, place));
        println!(rt; "{name:<40} | {left} | {right}")?;
    }
    Ok(())
}

// Spans shortened and shifted, inside and past the end: two lines each, of the first bits and of those after them.
fn cuts(rt: &impl Print) -> io::Result<()> {
    let span = at(0, 4, 16);
    for (shortened, shifted, place) in [
        (
            "0:4+16 of 3 words shortened to 6",
            "0:4+16 of 3 words shifted by 6",
            6,
        ),
        (
            "0:4+16 of 3 words shortened to 17",
            "0:4+16 of 3 words shifted by 17",
            17,
        ),
    ] {
        let left = Shown(span.shorten(Width::W8, 3, place));
        let right = Shown(span.shorten(Width::W64, 3, place));
        println!(rt; "{shortened:<40} | {left} | {right}")?;
        let left = Shown(span.shift(Width::W8, 3, place));
        let right = Shown(span.shift(Width::W64, 3, place));
        println!(rt; "{shifted:<40} | {left} | {right}")?;
    }
    Ok(())
}

// The span of `len` bits from a head of a word on. The order is Lsb0; no limit depends on it.
fn at(word: usize, head: usize, len: usize) -> Span {
    Span::new(Order::Lsb0, word, head, len)
}

// Prints the line on whether a span lies in so many words.
fn check(rt: &impl Print, name: &str, lent: usize, span: Span) -> io::Result<()> {
    let left = Shown(span.check(Width::W8, lent).map(|()| "accepted"));
    let right = Shown(span.check(Width::W64, lent).map(|()| "accepted"));
    println!(rt; "{name:<40} | {left} | {right}")
}
