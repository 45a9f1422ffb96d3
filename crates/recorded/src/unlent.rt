// A record's call without lent words.
use records::arguments::{indexed, split};
use records::record::Record;
use records::seen::Given;
use stableply::exported::unlent;

// Asks for the position of an index.
pub fn position(record: Record<'_>) -> Given {
    let mut out = 0u64;
    let code = unlent::position(
        record.code(indexed::WIDTH),
        record.code(indexed::ORDER),
        record.size(indexed::INDEX),
        &mut out,
    );
    Given::one(code, out)
}

// Asks for the selector of an index.
pub fn selector(record: Record<'_>) -> Given {
    let mut out = 0u64;
    let code = unlent::selector(
        record.code(indexed::WIDTH),
        record.code(indexed::ORDER),
        record.size(indexed::INDEX),
        &mut out,
    );
    Given::one(code, out)
}

// Asks for the mask of a range of indexes.
pub fn mask(record: Record<'_>) -> Given {
    let mut out = 0u64;
    let code = unlent::mask(
        record.code(indexed::WIDTH),
        record.code(indexed::ORDER),
        record.size(indexed::FROM),
        record.size(indexed::UPTO),
        &mut out,
    );
    Given::one(code, out)
}

// Splits a span. Its out-values are the word, the head and the length of the rest.
pub fn split(record: Record<'_>) -> Given {
    let span = record.split_span();
    let mut word = 0usize;
    let mut head = 0usize;
    let mut length = 0usize;
    let code = unlent::split(
        record.code(split::WIDTH),
        record.size(split::LENT),
        span.order,
        span.word,
        span.head,
        span.length,
        record.size(split::PLACE),
        &mut word,
        &mut head,
        &mut length,
    );
    Given::three(code, word as u64, head as u64, length as u64)
}
