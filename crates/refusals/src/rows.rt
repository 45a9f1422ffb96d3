// The refusals of the calls on two spans, and of copying inside one.
ghost use Rattle.rules.specs.Bits.{bits};
ghost use Rattle.rules.specs.Refusals.{pair_cases, copy_cases, within_cases};
ghost use Rattle.rules.specs.Answers.{Judges};

use rules::{Refusal, Span, Width};

// What a boolean operation and a comparison are refused for: 1 to 3 of the left span, 1 to 3 of the right one, then 6 where their orders differ.
pub fn check_pair(
    width: Width,
    lent: usize,
    left: Span,
    right_lent: usize,
    right: Span,
) -> Result<(), Refusal>
    ensures { Judges (pair_cases (bits width) lent left right_lent right) result }
{
    left.check(width, lent)?;
    right.check(width, right_lent)?;
    if left.order != right.order {
        return Err(Refusal::OrdersDiffer);
    }
    Ok(())
}

// What a copy between buffers and a swap are refused for: the same, then 7 where the lengths differ.
pub fn check_copy(
    width: Width,
    lent: usize,
    left: Span,
    right_lent: usize,
    right: Span,
) -> Result<(), Refusal>
    ensures { Judges (copy_cases (bits width) lent left right_lent right) result }
{
    check_pair(width, lent, left, right_lent, right)?;
    if left.len == right.len {
        return Ok(());
    }
    Err(Refusal::LengthsDiffer)
}

// What a copy inside a row is refused for: 1 to 3 of its span, then 10 where what is read or written passes the span's end. No sum is made that could
// be too large.
pub fn check_copy_within(
    width: Width,
    lent: usize,
    span: Span,
    from: usize,
    count: usize,
    to: usize,
) -> Result<(), Refusal>
    ensures { Judges (within_cases (bits width) lent span from count to) result }
{
    span.check(width, lent)?;
    let len = span.len;
    if len < count {
        return Err(Refusal::NotBelow);
    }
    let room = len - count;
    if room < from {
        return Err(Refusal::NotBelow);
    }
    if room < to {
        return Err(Refusal::NotBelow);
    }
    Ok(())
}
