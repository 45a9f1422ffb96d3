// The exported calls on single bits and fields of rows of words of 64 bits.
ghost use Rattle.std.specs.Prelude.{◌||◌};
ghost use Rattle.rules.specs.Fields.{whole};
ghost use Rattle.rules.specs.Calls.{read_bit, write_bit, load, store, store_strict, answer};
ghost use Rattle.border.specs.Border.{span_of, bit_of, significance_of, sign_of, number_of, none, behind, Told, Wrote};

use stableply::exported::fields;

// One bit of a span, as 0 or 1.
#[unsafe(no_mangle)]
pub extern "C" fn stableply64_read_bit(
    words: &[u64],
    order: u8,
    word: usize,
    head: usize,
    length: usize,
    index: usize,
    out: &mut u8,
) -> u8
    ensures { Told (behind (none order) (answer 64 (read_bit (span_of order word head length) index) words.now)) out.old result
        out.new }
{
    fields::read_bit(words, order, word, head, length, index, out)
}

// Sets one bit of a span to 0 or 1.
#[unsafe(no_mangle)]
pub extern "C" fn stableply64_write_bit(
    words: &mut [u64],
    order: u8,
    word: usize,
    head: usize,
    length: usize,
    index: usize,
    bit: u8,
) -> u8
    ensures { Wrote 64 (none order || none bit)
        (write_bit (span_of order word head length) index (bit_of bit))
        words.old result words.new }
{
    fields::write_bit(words, order, word, head, length, index, bit)
}

// The number that a field holds; a signed one in two's complement.
#[unsafe(no_mangle)]
pub extern "C" fn stableply64_load(
    words: &[u64],
    order: u8,
    word: usize,
    head: usize,
    length: usize,
    k: usize,
    significance: u8,
    sign: u8,
    out: &mut u64,
) -> u8
    ensures { Told
        (behind (none order || (none significance || none sign))
        (answer 64 (load (span_of order word head length) k (significance_of significance) (sign_of sign)) words.now)) out.old result
        out.new }
{
    fields::load(words, order, word, head, length, k, significance, sign, out)
}

// Places the low bits of a value in a field.
#[unsafe(no_mangle)]
pub extern "C" fn stableply64_store(
    words: &mut [u64],
    order: u8,
    word: usize,
    head: usize,
    length: usize,
    k: usize,
    significance: u8,
    sign: u8,
    below: u8,
    value: u64,
) -> u8
    ensures { Wrote 64 (none order || (none significance || (none sign || none below)))
        (store (span_of order word head length) k (significance_of significance) (sign_of sign) (whole (number_of below value)))
        words.old result words.new }
{
    fields::store(
        words,
        order,
        word,
        head,
        length,
        k,
        significance,
        sign,
        below,
        value,
    )
}

// The same, but only for a value that fits.
#[unsafe(no_mangle)]
pub extern "C" fn stableply64_store_strict(
    words: &mut [u64],
    order: u8,
    word: usize,
    head: usize,
    length: usize,
    k: usize,
    significance: u8,
    sign: u8,
    below: u8,
    value: u64,
) -> u8
    ensures { Wrote 64 (none order || (none significance || (none sign || none below)))
        (store_strict (span_of order word head length) k (significance_of significance) (sign_of sign) (whole (number_of below value)))
        words.old result words.new }
{
    fields::store_strict(
        words,
        order,
        word,
        head,
        length,
        k,
        significance,
        sign,
        below,
        value,
    )
}
