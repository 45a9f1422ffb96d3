// Answers and numbers as the programs print them.
#![tactic(auto)]

use rules::Refusal;
use std::fmt;

// What a call answered: its value, or "refused" and the number of the refusal.
#[derive(Clone, Copy, Debug, PartialEq, Eq)]
pub struct Shown<A>(pub Result<A, Refusal>);

impl<A: fmt::Display> fmt::Display for Shown<A> {
    // The value as it is printed by itself.
    fn fmt<W: fmt::Write>(&self, f: &mut fmt::Formatter<W>) -> fmt::Result {
        match &self.0 {
            Ok(value) => fmt::Display::fmt(value, f),
            Err(no) => write!(f, "refused {}", no.number()),
        }
    }
}

// A number in hexadecimal, in at least two digits.
#[derive(Clone, Copy, Debug, PartialEq, Eq)]
pub struct Hex<N>(pub N);

impl<N: fmt::Radix + Copy> fmt::Display for Hex<N> {
    fn fmt<W: fmt::Write>(&self, f: &mut fmt::Formatter<W>) -> fmt::Result {
        let number = self.0;
        write!(f, "{number:02x}")
    }
}

// Bytes in hexadecimal, with a space between any two.
#[derive(Clone, Copy, Debug, PartialEq, Eq)]
pub struct Bytes<'a>(pub &'a [u8]);

impl fmt::Display for Bytes<'_> {
    fn fmt<W: fmt::Write>(&self, f: &mut fmt::Formatter<W>) -> fmt::Result {
        let mut space = "";
        for byte in self.0 {
            write!(f, "{space}{byte:02x}")?;
            space = " ";
        }
        Ok(())
    }
}
