// Which argument of a call stands where: indexes for the methods `number`, `size` and `code` of a record. A call on lent words begins with
// how many there are and a span in them; what follows depends on the call. Calls without lent words have modules of their own, at the end.

// How many words are lent, or lent first.
pub const LENT: usize = 0;

// The order of the span, with which its arguments begin: then come its word, its head and its length.
pub const ORDER: usize = 1;

// The index in the span of a bit to read or write.
pub const INDEX: usize = 5;

// The bit to write.
pub const BIT: usize = 6;

// How many bits the number of a load or store has.
pub const K: usize = 5;

// Which piece of the field is the least significant.
pub const SIGNIFICANCE: usize = 6;

// Whether the number of a load or store is signed.
pub const SIGN: usize = 7;

// Whether the value of a store is counted down from -1.
pub const BELOW: usize = 8;

// The value of a store.
pub const VALUE: usize = 9;

// The index in the span from which a copy within it takes its bits.
pub const START: usize = 5;

// How many bits a copy within the span takes.
pub const COUNT: usize = 6;

// The index in the span to which a copy within it brings them.
pub const DESTINATION: usize = 7;

// How many words are lent second.
pub const SECOND_LENT: usize = 5;

// The order of the span in the words lent second, with which its arguments begin.
pub const SECOND_ORDER: usize = 6;

// The number of a boolean operation.
pub const OPERATION: usize = 10;

// The arguments of position, selector and mask.
pub mod indexed {
    // The width of the word.
    pub const WIDTH: usize = 0;

    // The order of its indexes.
    pub const ORDER: usize = 1;

    // The index that is asked for.
    pub const INDEX: usize = 2;

    // The first index of a mask.
    pub const FROM: usize = 2;

    // The index at which a mask ends, itself left out.
    pub const UPTO: usize = 3;
}

// The arguments of split.
pub mod split {
    // The width of the words.
    pub const WIDTH: usize = 0;

    // How many words the span may lie in.
    pub const LENT: usize = 1;

    // The order of the span, with which its arguments begin.
    pub const ORDER: usize = 2;

    // How many of its bits go to the first half.
    pub const PLACE: usize = 6;
}
