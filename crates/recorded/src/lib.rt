// A record's call, made through the function that is exported to other languages: the words as the record has them, the call, and what is seen after it.
#![tactic(auto)]

mod fields;
mod rows;
mod searches;
mod unlent;
mod words;

use chunk::Chunk;
use records::calls::Call;
use records::record::Record;
use records::seen::{Given, Seen};

// Makes a record's call, and gives what is seen after it. The caller's two buffers have room for as many words as a record lends; what
// they hold is overwritten.
pub fn seen<T: Chunk<W>, const W: usize>(
    record: Record<'_>,
    first: &mut [T],
    second: &mut [T],
) -> Seen {
    let lent = record.first_lent().min(first.len());
    let other = record.second_lent().min(second.len());
    seen_on(record, &mut first[..lent], &mut second[..other])
}

// The same, on exactly as many words as the record lends.
fn seen_on<T: Chunk<W>, const W: usize>(
    record: Record<'_>,
    first: &mut [T],
    second: &mut [T],
) -> Seen {
    words::fill(first, record, record.first_at());
    words::fill(second, record, record.second_at());
    Seen {
        given: made(record, first, second),
        first: words::difference(first, record, record.first_after_at()),
        second: words::difference(second, record, record.second_after_at()),
    }
}

// Makes the call on words that are set.
fn made<T: Chunk<W>, const W: usize>(
    record: Record<'_>,
    first: &mut [T],
    second: &mut [T],
) -> Given {
    match record.call() {
        Call::Position => unlent::position(record),
        Call::Selector => unlent::selector(record),
        Call::Mask => unlent::mask(record),
        Call::Split => unlent::split(record),
        Call::ReadBit => fields::read_bit(record, first),
        Call::WriteBit => fields::write_bit(record, first),
        Call::Load => fields::load(record, first),
        Call::Store => fields::store(record, first),
        Call::StoreStrict => fields::store_strict(record, first),
        Call::CopyFrom => rows::copy_from(record, first, second),
        Call::CopyWithin => rows::copy_within(record, first),
        Call::Boolean => rows::boolean(record, first, second),
        Call::Swap => rows::swap(record, first, second),
        Call::Equal => rows::equal(record, first, second),
        Call::FirstOne => searches::first_one(record, first),
        Call::LastOne => searches::last_one(record, first),
        Call::FirstZero => searches::first_zero(record, first),
        Call::LastZero => searches::last_zero(record, first),
    }
}
