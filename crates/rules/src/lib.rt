// The types that every call speaks of, and the methods by value that have to stand beside them. What is right of them stands in specs/, the
// laws of that in proofs/. The other calls without words are functions of the crate `wordless`, and the refusals' code is in `refusals`.
#![tactic(auto)]

mod numbers;
mod span_calls;

pub use numbers::{AND, MOST_WORDS, OR, XOR};

// How many bits a word has.
#[derive(Clone, Copy, Debug, PartialEq, Eq, Hash)]
pub enum Width {
    W8,
    W64,
}

// In which order the bits of a word are indexed: from its least significant bit up, or from its most significant bit down.
#[derive(Clone, Copy, Debug, PartialEq, Eq, Hash)]
pub enum Order {
    Lsb0,
    Msb0,
}

// A bit's place in a word, counted from 0 in the word's order. Calls refuse one that is not below the width. Like the next four types it
// holds a plain number, and is a type of its own so that none can stand where another belongs.
#[derive(Clone, Copy, Debug, PartialEq, Eq, Hash)]
pub struct Index(pub usize);

// A bit's place in a word, counted from the least significant bit whatever the order: the bit is worth 2 to its position.
#[derive(Clone, Copy, Debug, PartialEq, Eq, Hash)]
pub struct Position(pub usize);

// The index at which a range of bits in a word ends, itself left out, so that it may be the width.
#[derive(Clone, Copy, Debug, PartialEq, Eq, Hash)]
pub struct End(pub usize);

// A word with one bit set: 2 to a position.
#[derive(Clone, Copy, Debug, PartialEq, Eq, Hash)]
pub struct Selector(pub u64);

// A word with the bits of a range set: the sum of their selectors.
#[derive(Clone, Copy, Debug, PartialEq, Eq, Hash)]
pub struct Mask(pub u64);

// A run of bits in lent words: their order, the word where it begins, the index in that word, called the head, and how many bits it has.
#[derive(Clone, Copy, Debug, PartialEq, Eq, Hash)]
pub struct Span {
    pub order: Order,
    pub word: usize,
    pub head: Index,
    pub len: usize,
}

// The two spans of a split: the first bits, and the rest.
#[derive(Clone, Copy, Debug, PartialEq, Eq, Hash)]
pub struct Halves {
    pub left: Span,
    pub rest: Span,
}

// Which piece of a field is the least significant: the first (le) or the last (be).
#[derive(Clone, Copy, Debug, PartialEq, Eq, Hash)]
pub enum Significance {
    Le,
    Be,
}

// Whether the number in a field is at least 0, or may lie below it and is held in two's complement.
#[derive(Clone, Copy, Debug, PartialEq, Eq, Hash)]
pub enum Sign {
    Unsigned,
    Signed,
}

// A whole number from -2^64 to 2^64 - 1: Up(n) is n, and Down(n) is -1 - n. No type of 64 bits holds both ends.
#[derive(Clone, Copy, Debug, PartialEq, Eq, Hash)]
pub enum Number {
    Up(u64),
    Down(u64),
}

// A boolean operation, numbered as its truth table is.
#[derive(Clone, Copy, Debug, PartialEq, Eq, Hash)]
pub enum Operation {
    And = 8,
    Or = 14,
    Xor = 6,
}

// Why a request is refused: one case for each number of the table of refusals, in its order. A call answers `Err` of it, and has then written nothing.
#[derive(Clone, Copy, Debug, PartialEq, Eq, Hash)]
pub enum Refusal {
    TooManyWords = 1,
    IndexTooLarge = 2,
    OutOfBounds = 3,
    NoSuchK = 4,
    FieldLength = 5,
    OrdersDiffer = 6,
    LengthsDiffer = 7,
    NotAnInteger = 8,
    DoesNotFit = 9,
    NotBelow = 10,
}
