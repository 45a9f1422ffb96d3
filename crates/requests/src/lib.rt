// A one-buffer call as a value, and its answer as a value: what the isolation theorem calls a call, in a form that code can run.
#![tactic(auto)]

use rules::{Number, Sign, Significance, Span};
use std::fmt;

// Where a side of a comparison lies: here, in the buffer itself, or there, in the second one, which is only read.
#[derive(Clone, Copy, Debug, PartialEq, Eq, Hash)]
pub enum Side {
    Here,
    There,
}

// A call on one buffer with its arguments. A comparison says of each span on which side it lies, and a search which bit it seeks. The words
// are no part of a request: the buffer, and a second one that is only read, are handed over beside it.
#[derive(Clone, Copy, Debug, PartialEq, Eq, Hash)]
pub enum Request {
    ReadBit(Span, usize),
    WriteBit(Span, usize, bool),
    Load(Span, usize, Significance, Sign),
    Store(Span, usize, Significance, Sign, Number),
    StoreStrict(Span, usize, Significance, Sign, Number),
    CopyFrom(Span, Span),
    CopyWithin(Span, usize, usize, usize),
    Boolean(Span, Span, u8),
    Equal(Side, Span, Side, Span),
    FindFirst(bool, Span),
    FindLast(bool, Span),
}

// What a call that is not refused answers: that a write is done, the bit that was read, the number that was loaded, whether two rows are
// equal, or where a search found its bit, if anywhere. A refused one answers `Err` of its refusal.
#[derive(Clone, Copy, Debug, PartialEq, Eq, Hash)]
pub enum Reply {
    Done,
    Bit(bool),
    Number(Number),
    Equal(bool),
    Found(Option<usize>),
}

impl fmt::Display for Reply {
    // "done", a bit as 0 or 1, a number, "equal" or "not equal", an index or "absent".
    fn fmt<W: fmt::Write>(&self, f: &mut fmt::Formatter<W>) -> fmt::Result {
        let reply = *self;
        match reply {
            Reply::Done => write!(f, "done"),
            Reply::Bit(bit) => write!(f, "{}", u8::from(bit)),
            Reply::Number(number) => write!(f, "{number}"),
            Reply::Equal(true) => write!(f, "equal"),
            Reply::Equal(false) => write!(f, "not equal"),
            Reply::Found(Some(index)) => write!(f, "{index}"),
            Reply::Found(None) => write!(f, "absent"),
        }
    }
}
