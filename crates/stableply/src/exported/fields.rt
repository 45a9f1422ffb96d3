// The exported calls on single bits and fields of rows of words.
ghost use Rattle.std.specs.Prelude.{◌||◌, map};
ghost use Rattle.rules.specs.Fields.{whole};
ghost use Rattle.rules.specs.Calls.{read_bit, write_bit, load, store, store_strict, answer};
ghost use Rattle.border.specs.Border.{span_of, bit_of, significance_of, sign_of, number_of, none, behind, Told, Wrote};

use crate::fields;
use border::{NamedSpan, leave_bit, leave_number, leave_write};
use chunk::Chunk;
use word::Word;

// One bit of a span, as 0 or 1.
pub fn read_bit<T: Word<W>, const W: usize>(
    words: &[T],
    order: u8,
    word: usize,
    head: usize,
    length: usize,
    index: usize,
    out: &mut u8,
) -> u8
    ensures { Told (behind (none order) (answer W (read_bit (span_of order word head length) index) (map T.value words.now))) out.old result
        out.new }
{
    let span = NamedSpan::new(order, word, head, length);
    leave_bit(fields::read_bit(words, span, index), out)
}

// Sets one bit of a span to 0 or 1.
pub fn write_bit<T: Word<W>, const W: usize>(
    words: &mut [T],
    order: u8,
    word: usize,
    head: usize,
    length: usize,
    index: usize,
    bit: u8,
) -> u8
    ensures { Wrote W (none order || none bit)
        (write_bit (span_of order word head length) index (bit_of bit))
        (map T.value words.old) result (map T.value words.new) }
{
    let span = NamedSpan::new(order, word, head, length);
    leave_write(fields::write_bit(words, span, index, bit))
}

// The number that a field holds; a signed one in two's complement.
pub fn load<T: Chunk<W>, const W: usize>(
    words: &[T],
    order: u8,
    word: usize,
    head: usize,
    length: usize,
    k: usize,
    significance: u8,
    sign: u8,
    out: &mut u64,
) -> u8
    ensures { Told
        (behind (none order || (none significance || none sign))
        (answer W (load (span_of order word head length) k (significance_of significance) (sign_of sign)) (map T.value words.now))) out.old result
        out.new }
{
    let span = NamedSpan::new(order, word, head, length);
    leave_number(fields::load(words, span, k, significance, sign), out)
}

// Places the low bits of a value in a field.
pub fn store<T: Chunk<W>, const W: usize>(
    words: &mut [T],
    order: u8,
    word: usize,
    head: usize,
    length: usize,
    k: usize,
    significance: u8,
    sign: u8,
    below: u8,
    value: u64,
) -> u8
    ensures { Wrote W (none order || (none significance || (none sign || none below)))
        (store (span_of order word head length) k (significance_of significance) (sign_of sign) (whole (number_of below value)))
        (map T.value words.old) result (map T.value words.new) }
{
    let span = NamedSpan::new(order, word, head, length);
    leave_write(fields::store(words, span, k, significance, sign, below, value))
}

// The same, but only for a value that fits.
pub fn store_strict<T: Chunk<W>, const W: usize>(
    words: &mut [T],
    order: u8,
    word: usize,
    head: usize,
    length: usize,
    k: usize,
    significance: u8,
    sign: u8,
    below: u8,
    value: u64,
) -> u8
    ensures { Wrote W (none order || (none significance || (none sign || none below)))
        (store_strict (span_of order word head length) k (significance_of significance) (sign_of sign) (whole (number_of below value)))
        (map T.value words.old) result (map T.value words.new) }
{
    let span = NamedSpan::new(order, word, head, length);
    leave_write(fields::store_strict(words, span, k, significance, sign, below, value))
}
