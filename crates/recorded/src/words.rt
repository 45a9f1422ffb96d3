// Lent words: set as a record has them before the call, and held to what it has after.
use records::record::Record;
use records::seen::Difference;
use word::Word;

// Sets the words to those that begin at a place of the record.
pub fn fill<T: Word<W>, const W: usize>(words: &mut [T], record: Record<'_>, at: usize) {
    let lent = words.len();
    for (index, word) in words.iter_mut().enumerate() {
        *word = T::of(record.word(W, at, lent, index));
    }
}

// The first of the words that is not as it is among those that begin at a place of the record.
pub fn difference<T: Word<W>, const W: usize>(
    words: &[T],
    record: Record<'_>,
    at: usize,
) -> Option<Difference> {
    for (index, word) in words.iter().enumerate() {
        let expected = T::of(record.word(W, at, words.len(), index)).number();
        let given = word.number();
        if given != expected {
            return Some(Difference {
                at: index,
                expected,
                given,
            });
        }
    }
    None
}
