// What a call gave: the code that it returned, its out-values, and the lent words, held to a record.
use crate::record::Record;

// What a call returned, and its out-values in their order. Those that the call lacks are 0, as a record's missing results are.
#[derive(Clone, Copy, Debug, PartialEq, Eq, Hash)]
pub struct Given {
    pub code: u8,
    pub values: [u64; 3],
}

// The first word of a buffer that is not the record's after the call.
#[derive(Clone, Copy, Debug, PartialEq, Eq, Hash)]
pub struct Difference {
    pub at: usize,
    pub expected: u64,
    pub given: u64,
}

// All that can be seen after a call: what it gave, and where the words lent first and second are not the record's.
#[derive(Clone, Copy, Debug, PartialEq, Eq, Hash)]
pub struct Seen {
    pub given: Given,
    pub first: Option<Difference>,
    pub second: Option<Difference>,
}

impl Given {
    // What a call without out-values gave.
    pub fn none(code: u8) -> Given {
        Given::three(code, 0, 0, 0)
    }

    // What a call with one out-value gave.
    pub fn one(code: u8, first: u64) -> Given {
        Given::three(code, first, 0, 0)
    }

    // What a call with two out-values gave.
    pub fn two(code: u8, first: u64, second: u64) -> Given {
        Given::three(code, first, second, 0)
    }

    // What a call with three out-values gave.
    pub fn three(code: u8, first: u64, second: u64, third: u64) -> Given {
        Given {
            code,
            values: [first, second, third],
        }
    }
}

impl Seen {
    // Whether all that is seen is the record's.
    pub fn agrees(self, record: Record<'_>) -> bool {
        self.given == record.answer() && self.first.is_none() && self.second.is_none()
    }
}
