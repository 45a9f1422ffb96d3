// Whether bytes are a record: that their codes, their lent words and their length are such as vectors/README.md says.
ghost use Rattle.std.specs.Prelude.{◌≡◌, ◌≤◌};
ghost use Rattle.records.specs.declared.form.Fault.{Fault};

use crate::arguments::{
    BELOW, BIT, OPERATION, ORDER, SECOND_ORDER, SIGN, SIGNIFICANCE, indexed, split,
};
use crate::calls::{Call, NoCall};
use crate::numbers::{byte_at, number_at};
use crate::owners::NoOwner;
use crate::record::{FRONT_BYTES, Record};
use std::error::Error;
use std::fmt;

// Where a record has the width.
const WIDTH_AT: usize = 1;

// Where it has its length, in two bytes.
const LENGTH_AT: usize = 4;

// Where it has two bytes that mean nothing and are 0.
const SPARE_AT: usize = 6;

// The most words that a record may lend: one more than the rules accept, so that their refusal can be recorded.
pub const MOST_LENT: usize = 65537;

// What is wrong with bytes that are no record: the call, the width, whose answer it is, the bytes that mean nothing, a code above 255,
// too many lent words, or a length that does not come from the rest.
#[derive(Clone, Copy, Debug, PartialEq, Eq, Hash)]
pub enum Fault {
    Call,
    Width,
    Whose,
    Spare,
    Code,
    Lent,
    Length,
}

// The length that a record gives itself.
pub(crate) fn length_of(bytes: &[u8]) -> usize
    ensures { result ≤ 65535 }
{
    u16::from_le_bytes([byte_at(bytes, LENGTH_AT), byte_at(bytes, LENGTH_AT + 1)]) as usize
}

// The width that bytes name, where it is one that the call can have: 8 or 64, or for calls without lent words the first argument again.
pub(crate) fn width_of(bytes: &[u8], call: Call) -> Result<u8, Fault> {
    let width = byte_at(bytes, WIDTH_AT);
    let fits = if call.lends() {
        width == 8 || width == 64
    } else {
        width == byte_at(bytes, FRONT_BYTES)
    };
    if fits { Ok(width) } else { Err(Fault::Width) }
}

impl Record<'_> {
    // The first fault of bytes whose call, width and owner are right. The later checks rely on what the earlier ones found right.
    pub(crate) fn check(self) -> Result<(), Fault> {
        if !self.is_spare_zero() {
            return Err(Fault::Spare);
        }
        if !self.has_codes() {
            return Err(Fault::Code);
        }
        if MOST_LENT < self.first_lent() || MOST_LENT < self.second_lent() {
            return Err(Fault::Lent);
        }
        if length_of(self.bytes()) != self.due_length() {
            return Err(Fault::Length);
        }
        Ok(())
    }

    // Whether the bytes that mean nothing are 0.
    fn is_spare_zero(self) -> bool {
        byte_at(self.bytes(), SPARE_AT) == 0 && byte_at(self.bytes(), SPARE_AT + 1) == 0
    }

    // Whether every argument that is a code is below 256. The calls take codes as single bytes, and a greater one would reach them cut.
    fn has_codes(self) -> bool {
        match self.call() {
            Call::Position | Call::Selector | Call::Mask => {
                self.is_code(indexed::WIDTH) && self.is_code(indexed::ORDER)
            }
            Call::Split => self.is_code(split::WIDTH) && self.is_code(split::ORDER),
            _ => self.is_code(ORDER) && self.has_later_codes(),
        }
    }

    // The same, of the codes after the first span of a call on lent words.
    fn has_later_codes(self) -> bool {
        match self.call() {
            Call::WriteBit => self.is_code(BIT),
            Call::Load => self.is_code(SIGNIFICANCE) && self.is_code(SIGN),
            Call::Store | Call::StoreStrict => {
                self.is_code(SIGNIFICANCE) && self.is_code(SIGN) && self.is_code(BELOW)
            }
            Call::CopyFrom | Call::Swap | Call::Equal => self.is_code(SECOND_ORDER),
            Call::Boolean => self.is_code(SECOND_ORDER) && self.is_code(OPERATION),
            _ => true,
        }
    }

    // Whether an argument is below 256.
    fn is_code(self, index: usize) -> bool {
        self.number(index) < 256
    }
}

impl From<NoCall> for Fault {
    ghost from_gives = { λ _ e. e ≡ Fault.Call };

    // A number that no call has.
    fn from(_no: NoCall) -> Fault {
        Fault::Call
    }
}

impl From<NoOwner> for Fault {
    ghost from_gives = { λ _ e. e ≡ Fault.Whose };

    // A number that stands for no owner.
    fn from(_no: NoOwner) -> Fault {
        Fault::Whose
    }
}

impl fmt::Display for Fault {
    // What bytes have or lack that are no record.
    fn fmt<W: fmt::Write>(&self, f: &mut fmt::Formatter<W>) -> fmt::Result {
        f.write_str(match self {
            Fault::Call => "has no call's number",
            Fault::Width => "has a width that its call has not",
            Fault::Whose => "does not say whose answer it is",
            Fault::Spare => "has bytes 6 and 7 that are not 0",
            Fault::Code => "has a code above 255",
            Fault::Lent => "lends more than 65537 words",
            Fault::Length => "has another length than its call and its words take",
        })
    }
}

impl Error for Fault {}
