// What the program says of a disagreement.
use records::record::Record;
use records::seen::{Difference, Seen};
use std::{fmt, io};

// What is said of the out-values, in their order.
const VALUES: [&str; 3] = ["first", "second", "third"];

// A number that was expected, and the one that was given.
#[derive(Clone, Copy)]
struct Pair {
    expected: u64,
    given: u64,
}

impl fmt::Display for Pair {
    // The two, in hexadecimal.
    fn fmt<W: fmt::Write>(&self, f: &mut fmt::Formatter<W>) -> fmt::Result {
        write!(
            f,
            "expected 0x{:02x}, given 0x{:02x}",
            self.expected, self.given
        )
    }
}

// Tells of the first record whose call gave something else than it says: all that was expected and given.
pub fn disagreement(
    rt: &impl Print,
    number: u64,
    record: Record<'_>,
    seen: Seen,
) -> io::Result<()> {
    let call = record.call();
    let width = record.width();
    let expected = record.answer();
    let given = seen.given;
    println!(rt; "the first disagreement: record {number}, width {width}")?;
    println!(rt;
        "{call:<12} | returns: expected {}, given {}",
        expected.code, given.code
    )?;
    for (index, of) in VALUES.iter().enumerate().take(call.results()) {
        let pair = Pair {
            expected: expected.values[index],
            given: given.values[index],
        };
        println!(rt; "             | {of} out-value: {pair}")?;
    }
    word(rt, "first", seen.first)?;
    word(rt, "second", seen.second)
}

// Tells of the first word that differs, if one does, and in which buffer it stands.
fn word(rt: &impl Print, lent: &str, difference: Option<Difference>) -> io::Result<()> {
    if let Some(difference) = difference {
        let at = difference.at;
        let pair = Pair {
            expected: difference.expected,
            given: difference.given,
        };
        println!(rt; "             | word {at} of those lent {lent}: {pair}")?;
    }
    Ok(())
}
