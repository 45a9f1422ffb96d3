// The calls, by the numbers that a record names them with, and what a call takes, gives and writes.
ghost use Rattle.std.specs.Prelude.{◌≡◌, ◌≤◌, ◌<◌};
ghost use Rattle.records.specs.Calls.{number, Decodes};

use std::error::Error;
use std::fmt;

// The calls of the library.
#[derive(Clone, Copy, Debug, PartialEq, Eq, PartialOrd, Ord, Hash)]
pub enum Call {
    // The real position of an index in a word.
    Position = 0,
    // The word with the one bit of an index set.
    Selector = 1,
    // The word with the bits of a range of indexes set.
    Mask = 2,
    // A span cut in two.
    Split = 3,
    // One bit read. From here on, calls are lent words.
    ReadBit = 4,
    // One bit written.
    WriteBit = 5,
    // A field read as a number.
    Load = 6,
    // The low bits of a number written to a field.
    Store = 7,
    // A number written to a field that can hold it.
    StoreStrict = 8,
    // A row copied from a second buffer.
    CopyFrom = 9,
    // A part of a row copied to another place of it.
    CopyWithin = 10,
    // A row joined with one of a second buffer by and, or, or xor.
    Boolean = 11,
    // Rows of two buffers exchanged.
    Swap = 12,
    // Rows compared.
    Equal = 13,
    // The first one of a row sought.
    FirstOne = 14,
    // The last one of a row sought.
    LastOne = 15,
    // The first zero of a row sought.
    FirstZero = 16,
    // The last zero of a row sought.
    LastZero = 17,
}

// A number that no call has.
#[derive(Clone, Copy, Debug, PartialEq, Eq, Hash)]
pub struct NoCall(pub u8);

// How many calls there are: every call's number is below it.
pub const CALLS: usize = 18;

// The most arguments that a call has.
pub const MOST_ARGUMENTS: usize = 11;

impl Call {
    // All calls, in the order of their numbers.
    pub const ALL: [Call; CALLS] = [
        Call::Position,
        Call::Selector,
        Call::Mask,
        Call::Split,
        Call::ReadBit,
        Call::WriteBit,
        Call::Load,
        Call::Store,
        Call::StoreStrict,
        Call::CopyFrom,
        Call::CopyWithin,
        Call::Boolean,
        Call::Swap,
        Call::Equal,
        Call::FirstOne,
        Call::LastOne,
        Call::FirstZero,
        Call::LastZero,
    ];

    // The number that a record names it with.
    pub fn number(self) -> u8
        ensures { (result ≡ number self) × (result < CALLS) }
    {
        self as u8
    }

    // How many arguments a record of the call has: those of the C signature, pointers left out.
    pub fn arguments(self) -> usize
        ensures { result ≤ 11 }
    {
        match self {
            Call::Position | Call::Selector => 3,
            Call::Mask => 4,
            Call::FirstOne | Call::LastOne | Call::FirstZero | Call::LastZero => 5,
            Call::ReadBit => 6,
            Call::Split | Call::WriteBit => 7,
            Call::Load | Call::CopyWithin => 8,
            Call::Store | Call::StoreStrict | Call::CopyFrom | Call::Swap | Call::Equal => 10,
            Call::Boolean => MOST_ARGUMENTS,
        }
    }

    // How many out-values the call has, which are the record's results.
    pub fn results(self) -> usize
        ensures { result ≤ 3 }
    {
        match self {
            Call::Position | Call::Selector | Call::Mask => 1,
            Call::ReadBit | Call::Load | Call::Equal => 1,
            Call::FirstOne | Call::LastOne | Call::FirstZero | Call::LastZero => 2,
            Call::Split => 3,
            _ => 0,
        }
    }

    // Whether the call is lent words at all.
    pub fn lends(self) -> bool {
        Call::ReadBit <= self
    }

    // Whether the call is lent words of two buffers.
    pub fn lends_twice(self) -> bool {
        matches!(
            self,
            Call::CopyFrom | Call::Boolean | Call::Swap | Call::Equal
        )
    }

    // Whether the call may write the words lent first.
    pub fn writes(self) -> bool {
        match self {
            Call::WriteBit | Call::Store | Call::StoreStrict => true,
            Call::CopyFrom | Call::CopyWithin | Call::Boolean | Call::Swap => true,
            _ => false,
        }
    }

    // Whether the call may write the words lent second too: only a swap may.
    pub fn writes_both(self) -> bool {
        self == Call::Swap
    }
}

impl TryFrom<u8> for Call {
    type Error = NoCall;

    ghost try_from_gives = { Decodes };

    // The call with a number.
    fn try_from(number: u8) -> Result<Call, NoCall> {
        match number {
            0 => Ok(Call::Position),
            1 => Ok(Call::Selector),
            2 => Ok(Call::Mask),
            3 => Ok(Call::Split),
            4 => Ok(Call::ReadBit),
            5 => Ok(Call::WriteBit),
            6 => Ok(Call::Load),
            7 => Ok(Call::Store),
            8 => Ok(Call::StoreStrict),
            9 => Ok(Call::CopyFrom),
            10 => Ok(Call::CopyWithin),
            11 => Ok(Call::Boolean),
            12 => Ok(Call::Swap),
            13 => Ok(Call::Equal),
            14 => Ok(Call::FirstOne),
            15 => Ok(Call::LastOne),
            16 => Ok(Call::FirstZero),
            17 => Ok(Call::LastZero),
            _ => Err(NoCall(number)),
        }
    }
}

impl fmt::Display for Call {
    // The call's name.
    fn fmt<W: fmt::Write>(&self, f: &mut fmt::Formatter<W>) -> fmt::Result {
        f.pad(match self {
            Call::Position => "position",
            Call::Selector => "selector",
            Call::Mask => "mask",
            Call::Split => "split",
            Call::ReadBit => "read_bit",
            Call::WriteBit => "write_bit",
            Call::Load => "load",
            Call::Store => "store",
            Call::StoreStrict => "store_strict",
            Call::CopyFrom => "copy_from",
            Call::CopyWithin => "copy_within",
            Call::Boolean => "boolean",
            Call::Swap => "swap",
            Call::Equal => "equal",
            Call::FirstOne => "first_one",
            Call::LastOne => "last_one",
            Call::FirstZero => "first_zero",
            Call::LastZero => "last_zero",
        })
    }
}

impl fmt::Display for NoCall {
    // The number, and that no call has it.
    fn fmt<W: fmt::Write>(&self, f: &mut fmt::Formatter<W>) -> fmt::Result {
        let number = self.0;
        write!(f, "no call has the number {number}")
    }
}

impl Error for NoCall {}
