// A record's search of rows of words.
use records::record::Record;
use records::seen::Given;
use stableply::exported::searches;
use word::Word;

// Seeks the first one.
pub fn first_one<T: Word<W>, const W: usize>(record: Record<'_>, words: &[T]) -> Given {
    let span = record.span();
    let mut found = 0u8;
    let mut at = 0usize;
    let code = searches::first_one(
        words,
        span.order,
        span.word,
        span.head,
        span.length,
        &mut found,
        &mut at,
    );
    Given::two(code, found as u64, at as u64)
}

// Seeks the last one.
pub fn last_one<T: Word<W>, const W: usize>(record: Record<'_>, words: &[T]) -> Given {
    let span = record.span();
    let mut found = 0u8;
    let mut at = 0usize;
    let code = searches::last_one(
        words,
        span.order,
        span.word,
        span.head,
        span.length,
        &mut found,
        &mut at,
    );
    Given::two(code, found as u64, at as u64)
}

// Seeks the first zero.
pub fn first_zero<T: Word<W>, const W: usize>(record: Record<'_>, words: &[T]) -> Given {
    let span = record.span();
    let mut found = 0u8;
    let mut at = 0usize;
    let code = searches::first_zero(
        words,
        span.order,
        span.word,
        span.head,
        span.length,
        &mut found,
        &mut at,
    );
    Given::two(code, found as u64, at as u64)
}

// Seeks the last zero.
pub fn last_zero<T: Word<W>, const W: usize>(record: Record<'_>, words: &[T]) -> Given {
    let span = record.span();
    let mut found = 0u8;
    let mut at = 0usize;
    let code = searches::last_zero(
        words,
        span.order,
        span.word,
        span.head,
        span.length,
        &mut found,
        &mut at,
    );
    Given::two(code, found as u64, at as u64)
}
