// A record's call on rows of words.
use records::arguments::{COUNT, DESTINATION, OPERATION, START};
use records::record::Record;
use records::seen::Given;
use stableply::exported::rows;
use word::Word;

// Copies from the words lent second to those lent first.
pub fn copy_from<T: Word<W>, const W: usize>(
    record: Record<'_>,
    words: &mut [T],
    source: &[T],
) -> Given {
    let span = record.span();
    let from = record.second_span();
    Given::none(rows::copy_from(
        words,
        span.order,
        span.word,
        span.head,
        span.length,
        source,
        from.order,
        from.word,
        from.head,
        from.length,
    ))
}

// Copies within the words lent first.
pub fn copy_within<T: Word<W>, const W: usize>(record: Record<'_>, words: &mut [T]) -> Given {
    let span = record.span();
    Given::none(rows::copy_within(
        words,
        span.order,
        span.word,
        span.head,
        span.length,
        record.size(START),
        record.size(COUNT),
        record.size(DESTINATION),
    ))
}

// Joins the words lent first with those lent second by the record's operation.
pub fn boolean<T: Word<W>, const W: usize>(
    record: Record<'_>,
    words: &mut [T],
    right: &[T],
) -> Given {
    let span = record.span();
    let other = record.second_span();
    Given::none(rows::boolean(
        words,
        span.order,
        span.word,
        span.head,
        span.length,
        right,
        other.order,
        other.word,
        other.head,
        other.length,
        record.code(OPERATION),
    ))
}

// Exchanges the spans of the two buffers.
pub fn swap<T: Word<W>, const W: usize>(
    record: Record<'_>,
    left: &mut [T],
    right: &mut [T],
) -> Given {
    let span = record.span();
    let other = record.second_span();
    Given::none(rows::swap(
        left,
        span.order,
        span.word,
        span.head,
        span.length,
        right,
        other.order,
        other.word,
        other.head,
        other.length,
    ))
}

// Compares the spans of the two buffers.
pub fn equal<T: Word<W>, const W: usize>(record: Record<'_>, left: &[T], right: &[T]) -> Given {
    let span = record.span();
    let other = record.second_span();
    let mut out = 0u8;
    let code = rows::equal(
        left,
        span.order,
        span.word,
        span.head,
        span.length,
        right,
        other.order,
        other.word,
        other.head,
        other.length,
        &mut out,
    );
    Given::one(code, out as u64)
}
