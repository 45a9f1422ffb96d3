// The calls on single bits and fields of rows of words.
ghost use Rattle.std.specs.Prelude.{◌≡◌, ◌||◌, map};
ghost use Rattle.rules.specs.Fields.{whole};
ghost use Rattle.rules.specs.Calls.{read_bit, write_bit, load, store, store_strict, answer};
ghost use Rattle.border.specs.Border.{span_of, bit_of, significance_of, sign_of, number_of, none, behind};
ghost use Rattle.border.specs.Faults.{bit_told, number_told, write_told, Answered};

use border::{Fault, NamedSpan, named_bit, named_number, named_sign, named_significance};
use chunk::Chunk;
use rules::Number;
use word::Word;

// One bit of a span.
pub fn read_bit<T: Word<W>, const W: usize>(
    words: &[T],
    span: NamedSpan,
    index: usize,
) -> Result<bool, Fault>
    ensures { bit_told result ≡ behind (none span.order)
        (answer W (read_bit (span_of span.order span.word span.head span.length) index) (map T.value words.now)) }
{
    let span = span.span()?;
    Ok(field::read_bit(words, span, index)?)
}

// Sets one bit of a span to 0 or 1.
pub fn write_bit<T: Word<W>, const W: usize>(
    words: &mut [T],
    span: NamedSpan,
    index: usize,
    bit: u8,
) -> Result<(), Fault>
    ensures { Answered W (none span.order || none bit)
        (write_bit (span_of span.order span.word span.head span.length) index (bit_of bit))
        (map T.value words.old) (write_told result) (map T.value words.new) }
{
    let span = span.span()?;
    let bit = named_bit(bit)?;
    Ok(field::write_bit(words, span, index, bit)?)
}

// The number that a field holds.
pub fn load<T: Chunk<W>, const W: usize>(
    words: &[T],
    span: NamedSpan,
    k: usize,
    significance: u8,
    sign: u8,
) -> Result<Number, Fault>
    ensures { number_told result ≡ behind (none span.order || (none significance || none sign))
        (answer W (load (span_of span.order span.word span.head span.length) k (significance_of significance) (sign_of sign)) (map T.value words.now)) }
{
    let span = span.span()?;
    let significance = named_significance(significance)?;
    let sign = named_sign(sign)?;
    Ok(field::load(words, span, k, significance, sign)?)
}

// Places the low bits of a value in a field.
pub fn store<T: Chunk<W>, const W: usize>(
    words: &mut [T],
    span: NamedSpan,
    k: usize,
    significance: u8,
    sign: u8,
    below: u8,
    value: u64,
) -> Result<(), Fault>
    ensures { Answered W (none span.order || (none significance || (none sign || none below)))
        (store (span_of span.order span.word span.head span.length) k (significance_of significance) (sign_of sign) (whole (number_of below value)))
        (map T.value words.old) (write_told result) (map T.value words.new) }
{
    let span = span.span()?;
    let significance = named_significance(significance)?;
    let sign = named_sign(sign)?;
    let number = named_number(below, value)?;
    Ok(field::store(words, span, k, significance, sign, number)?)
}

// The same, but only for a value that fits.
pub fn store_strict<T: Chunk<W>, const W: usize>(
    words: &mut [T],
    span: NamedSpan,
    k: usize,
    significance: u8,
    sign: u8,
    below: u8,
    value: u64,
) -> Result<(), Fault>
    ensures { Answered W (none span.order || (none significance || (none sign || none below)))
        (store_strict (span_of span.order span.word span.head span.length) k (significance_of significance) (sign_of sign) (whole (number_of below value)))
        (map T.value words.old) (write_told result) (map T.value words.new) }
{
    let span = span.span()?;
    let significance = named_significance(significance)?;
    let sign = named_sign(sign)?;
    let number = named_number(below, value)?;
    Ok(field::store_strict(words, span, k, significance, sign, number)?)
}
