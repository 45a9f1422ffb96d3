// A record: which call it is, whose answer it has, and the call's arguments and results.
ghost use Rattle.std.specs.Prelude.{◌≤◌};

use crate::arguments::{ORDER, SECOND_ORDER, split};
use crate::calls::{Call, MOST_ARGUMENTS};
use crate::form::{Fault, width_of};
use crate::numbers::{NUMBER_BYTES, byte_at, number_at};
use crate::owners::Whose;
use crate::seen::Given;

// Where a record has the call's number.
const CALL_AT: usize = 0;

// Where it has what the call returned.
const RETURNED_AT: usize = 2;

// Where it says whose answer it is.
const WHOSE_AT: usize = 3;

// How many bytes stand in front of the arguments.
pub const FRONT_BYTES: usize = 8;

// The bytes of a well-formed record, with the call and the width that they name, and with whose answer they are.
#[derive(Clone, Copy, Debug)]
pub struct Record<'a> {
    bytes: &'a [u8],
    call: Call,
    width: u8,
    whose: Whose,
}

// The arguments that name a span: its order as a code, the word where it begins, the index in that word, and how many bits it has.
#[derive(Clone, Copy, Debug, PartialEq, Eq, Hash)]
pub struct SpanArguments {
    pub order: u8,
    pub word: usize,
    pub head: usize,
    pub length: usize,
}

impl<'a> Record<'a> {
    // The record that bytes are, or the first of the faults why they are none. What stands past the record's length is no part of it.
    pub fn new(bytes: &'a [u8]) -> Result<Record<'a>, Fault> {
        let call = Call::try_from(byte_at(bytes, CALL_AT))?;
        let width = width_of(bytes, call)?;
        let whose = Whose::try_from(byte_at(bytes, WHOSE_AT))?;
        let record = Record {
            bytes,
            call,
            width,
            whose,
        };
        record.check()?;
        Ok(record)
    }

    // The bytes, from the front on.
    pub(crate) fn bytes(self) -> &'a [u8] {
        self.bytes
    }

    // The call.
    pub fn call(self) -> Call {
        self.call
    }

    // The width, 8 or 64, or for calls without lent words what is asked as one.
    pub fn width(self) -> u8 {
        self.width
    }

    // Whose answer it is.
    pub fn whose(self) -> Whose {
        self.whose
    }

    // The argument at an index, which the module `arguments` names. No call has one past the last index, and it reads as 0.
    pub fn number(self, index: usize) -> u64 {
        if MOST_ARGUMENTS <= index {
            return 0;
        }
        number_at(self.bytes, FRONT_BYTES + NUMBER_BYTES * index)
    }

    // The same, of an argument that counts words or bits.
    pub fn size(self, index: usize) -> usize {
        self.number(index) as usize
    }

    // The same, of an argument that is a code: its lowest byte, which is all of it in a well-formed record.
    pub fn code(self, index: usize) -> u8 {
        (self.number(index) & 0xff) as u8
    }

    // The span in the words lent, or lent first.
    pub fn span(self) -> SpanArguments {
        self.span_from(ORDER)
    }

    // The span in the words lent second.
    pub fn second_span(self) -> SpanArguments {
        self.span_from(SECOND_ORDER)
    }

    // The span that is split.
    pub fn split_span(self) -> SpanArguments {
        self.span_from(split::ORDER)
    }

    // Where the results begin.
    pub fn results_at(self) -> usize
        ensures { result ≤ 96 }
    {
        FRONT_BYTES + NUMBER_BYTES * self.call.arguments()
    }

    // The result at an index, 0 where the call has fewer.
    pub fn result(self, index: usize) -> u64 {
        if self.call.results() <= index {
            return 0;
        }
        number_at(self.bytes, self.results_at() + NUMBER_BYTES * index)
    }

    // What the call returned and left as out-values.
    pub fn answer(self) -> Given {
        Given {
            code: byte_at(self.bytes, RETURNED_AT),
            values: [self.result(0), self.result(1), self.result(2)],
        }
    }

    // The span whose arguments begin with that of its order.
    fn span_from(self, order: usize) -> SpanArguments
        requires { order ≤ MOST_ARGUMENTS }
    {
        SpanArguments {
            order: self.code(order),
            word: self.size(order + 1),
            head: self.size(order + 2),
            length: self.size(order + 3),
        }
    }
}
