// A record's call on single bits and fields.
use chunk::Chunk;
use records::arguments::{BELOW, BIT, INDEX, K, SIGN, SIGNIFICANCE, VALUE};
use records::record::Record;
use records::seen::Given;
use stableply::exported::fields;
use word::Word;

// Reads a bit.
pub fn read_bit<T: Word<W>, const W: usize>(record: Record<'_>, words: &[T]) -> Given {
    let span = record.span();
    let mut out = 0u8;
    let code = fields::read_bit(
        words,
        span.order,
        span.word,
        span.head,
        span.length,
        record.size(INDEX),
        &mut out,
    );
    Given::one(code, out as u64)
}

// Writes a bit.
pub fn write_bit<T: Word<W>, const W: usize>(record: Record<'_>, words: &mut [T]) -> Given {
    let span = record.span();
    Given::none(fields::write_bit(
        words,
        span.order,
        span.word,
        span.head,
        span.length,
        record.size(INDEX),
        record.code(BIT),
    ))
}

// Loads a field.
pub fn load<T: Chunk<W>, const W: usize>(record: Record<'_>, words: &[T]) -> Given {
    let span = record.span();
    let mut out = 0u64;
    let code = fields::load(
        words,
        span.order,
        span.word,
        span.head,
        span.length,
        record.size(K),
        record.code(SIGNIFICANCE),
        record.code(SIGN),
        &mut out,
    );
    Given::one(code, out)
}

// Stores the low bits of the record's value.
pub fn store<T: Chunk<W>, const W: usize>(record: Record<'_>, words: &mut [T]) -> Given {
    let span = record.span();
    Given::none(fields::store(
        words,
        span.order,
        span.word,
        span.head,
        span.length,
        record.size(K),
        record.code(SIGNIFICANCE),
        record.code(SIGN),
        record.code(BELOW),
        record.number(VALUE),
    ))
}

// Stores the record's value where it fits.
pub fn store_strict<T: Chunk<W>, const W: usize>(record: Record<'_>, words: &mut [T]) -> Given {
    let span = record.span();
    Given::none(fields::store_strict(
        words,
        span.order,
        span.word,
        span.head,
        span.length,
        record.size(K),
        record.code(SIGNIFICANCE),
        record.code(SIGN),
        record.code(BELOW),
        record.number(VALUE),
    ))
}
