// The numbers that widths, refusals, boolean operations and numbers themselves stand for, as values and as text, and the most words that a call takes.
ghost use Rattle.std.specs.Prelude.{◌≡◌};
ghost use Rattle.rules.specs.Bits.{bits};
ghost use Rattle.rules.specs.Rows.{operation};
ghost use Rattle.rules.specs.Fields.{whole};
ghost use Rattle.rules.specs.Refusals.{number};

use crate::{Number, Operation, Refusal, Width};
use std::error::Error;
use std::fmt;

// How many words a call takes at most. More are refusal 1.
pub const MOST_WORDS: usize = 65536;

// The truth tables of the named operations, as numbers: the result for left bit a and right bit b is bit 2a + b.
pub const AND: u8 = 8;

pub const OR: u8 = 14;

pub const XOR: u8 = 6;

impl Width {
    // How many bits a word has.
    pub fn bits(self) -> usize
        ensures { result ≡ bits self }
    {
        let width = self;
        match width {
            Width::W8 => 8,
            Width::W64 => 64,
        }
    }
}

impl Refusal {
    // The number by which document 01 knows it.
    pub fn number(self) -> u8
        ensures { result ≡ number self }
    {
        u8::from(self)
    }
}

impl From<Refusal> for u8 {
    ghost from_gives = { λ refusal n. n ≡ number refusal };

    fn from(refusal: Refusal) -> u8 {
        refusal as u8
    }
}

impl fmt::Display for Refusal {
    // The number, and in a few words what it stands for.
    fn fmt<W: fmt::Write>(&self, f: &mut fmt::Formatter<W>) -> fmt::Result {
        let refusal = *self;
        let meaning = match refusal {
            Refusal::TooManyWords => "more than 65,536 words lent",
            Refusal::IndexTooLarge => "an index that is the width or more",
            Refusal::OutOfBounds => "a span that is not in bounds",
            Refusal::NoSuchK => "a K that is not 8, 16, 32 or 64",
            Refusal::FieldLength => "a field of no bits or of more than K",
            Refusal::OrdersDiffer => "two orders",
            Refusal::LengthsDiffer => "two lengths",
            Refusal::NotAnInteger => "a value that is no K-bit integer",
            Refusal::DoesNotFit => "a value that does not fit its field",
            Refusal::NotBelow => "a place past the span's end",
        };
        write!(f, "refusal {}: {meaning}", refusal.number())
    }
}

impl Error for Refusal {}

impl Operation {
    // The number of its truth table.
    pub fn number(self) -> u8
        ensures { result ≡ operation self }
    {
        self as u8
    }
}

impl From<Number> for i128 {
    ghost from_gives = { λ number z. z ≡ whole number };

    fn from(number: Number) -> i128 {
        match number {
            Number::Up(n) => i128::from(n),
            Number::Down(n) => -1 - i128::from(n),
        }
    }
}

impl fmt::Display for Number {
    // The number in decimal.
    fn fmt<W: fmt::Write>(&self, f: &mut fmt::Formatter<W>) -> fmt::Result {
        fmt::Display::fmt(&i128::from(*self), f)
    }
}
