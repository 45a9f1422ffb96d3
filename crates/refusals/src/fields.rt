// The refusals of the calls on single bits and fields: those of the span first, then the call's own.
ghost use Rattle.std.specs.Prelude.{◌≡◌, true, false, Ok, Err};
ghost use Rattle.rules.specs.Bits.{bits};
ghost use Rattle.rules.specs.Fields.{whole};
ghost use Rattle.rules.specs.Refusals.{verdict, bit_cases, load_cases, store_cases, store_strict_cases};
ghost use Rattle.rules.specs.Answers.{Judges};
ghost use Rattle.laws.proofs.Fields.Begun.{Begun};
ghost use Rattle.laws.proofs.Fields.Chunk.{chunk};

use crate::values::{check_field, check_fit, is_integer, is_size};
use pieces::CHUNK;
use rules::{MOST_WORDS, Number, Refusal, Sign, Span, Width};

// What a read or a write of one bit is refused for: 1 to 3 of its span, then 10 where the index is not below the span's length.
pub fn check_bit(width: Width, lent: usize, span: Span, index: usize) -> Result<(), Refusal>
    ensures { Judges (bit_cases (bits width) lent span index) result }
{
    span.check(width, lent)?;
    if span.len <= index {
        return Err(Refusal::NotBelow);
    }
    Ok(())
}

// What a load is refused for: 1 to 3 of its span, then 4 and 5 of K and the field's length.
pub fn check_load(width: Width, lent: usize, span: Span, k: usize) -> Result<(), Refusal>
    ensures { Judges (load_cases (bits width) lent span k) result }
{
    if width.bits() == CHUNK {
        return check_chunk(width, lent, span, k);
    }
    check_rows(width, lent, span, k)
}

// What a store is refused for: what a load is, then 8 where the value is no K-bit integer.
pub fn check_store(
    width: Width,
    lent: usize,
    span: Span,
    k: usize,
    sign: Sign,
    value: Number,
) -> Result<(), Refusal>
    ensures { Judges (store_cases (bits width) lent span k sign (whole value)) result }
{
    check_load(width, lent, span, k)?;
    if is_integer(value, k, sign) {
        return Ok(());
    }
    Err(Refusal::NotAnInteger)
}

// What a strict store is refused for: what a store is, then 9 where the value does not fit the field.
pub fn check_store_strict(
    width: Width,
    lent: usize,
    span: Span,
    k: usize,
    sign: Sign,
    value: Number,
) -> Result<(), Refusal>
    ensures { Judges (store_strict_cases (bits width) lent span k sign (whole value)) result }
{
    span.check(width, lent)?;
    check_fit(value, k, span.len, sign)
}

// The table of a load, row by row.
fn check_rows(width: Width, lent: usize, span: Span, k: usize) -> Result<(), Refusal>
    ensures { Judges (load_cases (bits width) lent span k) result }
{
    span.check(width, lent)?;
    check_field(k, span.len)
}

// The same table where a word holds the longest field, so that a field has one word or two: what is accepted is seen first, and in one word sooner.
fn check_chunk(width: Width, lent: usize, span: Span, k: usize) -> Result<(), Refusal>
    requires { bits width ≡ chunk }
    ensures { Judges (load_cases (bits width) lent span k) result }
{
    let begun = is_begun(lent, span.word, span.len, k);
    if !begun {
        return Err(reason(width, lent, span, k));
    }
    let head = span.head.0;
    if head <= CHUNK - span.len {
        return Ok(());
    }
    if CHUNK <= head {
        return Err(Refusal::IndexTooLarge);
    }
    if lent <= span.word + 1 {
        return Err(Refusal::OutOfBounds);
    }
    Ok(())
}

// Whether a field has begun well: 1, 4 and 5 do not hold, and its first word is lent. The longest test is the last, so that each is a jump of its
// own.
fn is_begun(lent: usize, word: usize, len: usize, k: usize) -> bool
    ensures { (result ≡ true → Begun lent word len k) × (result ≡ false → Begun lent word len k → ⊥) }
{
    if MOST_WORDS < lent {
        return false;
    }
    if lent <= word {
        return false;
    }
    if len == 0 {
        return false;
    }
    if k < len {
        return false;
    }
    is_size(k)
}

// The refusal of a load that the caller has seen to be refused.
fn reason(width: Width, lent: usize, span: Span, k: usize) -> Refusal
    requires { verdict (load_cases (bits width) lent span k) ≡ Ok tt → ⊥ }
    ensures { verdict (load_cases (bits width) lent span k) ≡ Err result }
{
    match check_rows(width, lent, span, k) {
        Err(no) => no,
        Ok(()) => Refusal::FieldLength,
    }
}
