// Single bits and fields of words of W bits. Every call takes any arguments: its promise is the rules' answer to them, and each lent word.
#![tactic(auto)]

ghost use Rattle.std.specs.Prelude.{◌≡◌, map};
ghost use Rattle.rules.specs.Fields.{whole};
ghost use Rattle.rules.specs.Calls.{read_bit, write_bit, load as load_call, store as store_call, store_strict, answer, digit};
ghost use Rattle.rules.specs.Answers.{bit_says, number_says, write_says, Gives};

use bits::{load_by, put_piece, store_by};
use chunk::{Chunk, word_at};
use rules::{Index, Number, Refusal, Sign, Significance, Span};
use word::Word;

// Bit `index` of a span. Refusals 1 to 3, 10.
pub fn read_bit<T: Word<W>, const W: usize>(
    words: &[T],
    span: Span,
    index: usize,
) -> Result<bool, Refusal>
    ensures { bit_says result ≡ answer W (read_bit span index) (map T.value words.now) }
{
    refusals::check_bit(T::WIDTH, words.len(), span, index)?;
    let t = span.head.0 + index;
    let word = span.word + t / W;
    let position = wordless::position_of(T::WIDTH, span.order, Index(t % W));
    let selector = wordless::selector_at(position);
    let x = word_at(words, word);
    Ok(x & selector.0 != 0)
}

// Bit `index` of a span becomes `bit`; all others stay. Refusals 1 to 3, 10.
pub fn write_bit<T: Word<W>, const W: usize>(
    words: &mut [T],
    span: Span,
    index: usize,
    bit: bool,
) -> Result<(), Refusal>
    ensures { Gives W (write_bit span index bit) (map T.value words.old) (write_says result) (map T.value words.new) }
{
    refusals::check_bit(T::WIDTH, words.len(), span, index)?;
    let t = span.head.0 + index;
    let word = span.word + t / W;
    put_piece(words, span.order, word, Index(t % W), 1, bit as u64);
    Ok(())
}

// The number that a field holds: the span's 1 to k bits, read by the significance and the sign. Refusals 1 to 5.
pub fn load<T: Chunk<W>, const W: usize>(
    words: &[T],
    span: Span,
    k: usize,
    significance: Significance,
    sign: Sign,
) -> Result<Number, Refusal>
    ensures { number_says result ≡ answer W (load_call span k significance sign) (map T.value words.now) }
{
    refusals::check_load(T::WIDTH, words.len(), span, k)?;
    let u = load_by(words, span, significance);
    Ok(wordless::of_bits(u, span.len, sign))
}

// The low bits of a value, placed in the field so that a load returns them. Refusals 1 to 5, 8.
pub fn store<T: Chunk<W>, const W: usize>(
    words: &mut [T],
    span: Span,
    k: usize,
    significance: Significance,
    sign: Sign,
    value: Number,
) -> Result<(), Refusal>
    ensures { Gives W (store_call span k significance sign (whole value)) (map T.value words.old) (write_says result) (map T.value words.new) }
{
    refusals::check_store(T::WIDTH, words.len(), span, k, sign, value)?;
    let v = wordless::bits(value, k, sign);
    store_by(words, span, significance, v);
    Ok(())
}

// A value placed in the field only if it fits, so that a load returns the value itself. Refusals 1 to 5, 8, 9.
pub fn store_strict<T: Chunk<W>, const W: usize>(
    words: &mut [T],
    span: Span,
    k: usize,
    significance: Significance,
    sign: Sign,
    value: Number,
) -> Result<(), Refusal>
    ensures { Gives W (store_strict span k significance sign (whole value)) (map T.value words.old) (write_says result) (map T.value words.new) }
{
    refusals::check_store_strict(T::WIDTH, words.len(), span, k, sign, value)?;
    let v = wordless::bits(value, k, sign);
    store_by(words, span, significance, v);
    Ok(())
}
