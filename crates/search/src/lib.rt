// The four searches over words of W bits: the smallest or the largest index, counted from the span's start, of a one or a zero.
#![tactic(auto)]

mod backward;
mod forward;
mod leaves;
mod whole;

ghost use Rattle.std.specs.Prelude.{◌≡◌, map};
ghost use Rattle.rules.specs.Calls.{find_first, find_last, first_found, last_found, answer};
ghost use Rattle.rules.specs.Answers.{found_says, search_says};

use backward::last_in_row;
use forward::first_in_row;
use rules::{Refusal, Span};
use word::Word;

// The smallest index of a one, or `None` exactly if there is none. Refusals 1 to 3.
pub fn first_one<T: Word<W>, const W: usize>(
    words: &[T],
    span: Span,
) -> Result<Option<usize>, Refusal>
    ensures { search_says result ≡ answer W (find_first 1 span) (map T.value words.now) }
{
    span.check(T::WIDTH, words.len())?;
    Ok(first_answer(first_in_row(words, span, true), span.len))
}

// The smallest index of a zero, or `None` exactly if there is none. Refusals 1 to 3.
pub fn first_zero<T: Word<W>, const W: usize>(
    words: &[T],
    span: Span,
) -> Result<Option<usize>, Refusal>
    ensures { search_says result ≡ answer W (find_first 0 span) (map T.value words.now) }
{
    span.check(T::WIDTH, words.len())?;
    Ok(first_answer(first_in_row(words, span, false), span.len))
}

// The largest index of a one, or `None` exactly if there is none. Refusals 1 to 3.
pub fn last_one<T: Word<W>, const W: usize>(
    words: &[T],
    span: Span,
) -> Result<Option<usize>, Refusal>
    ensures { search_says result ≡ answer W (find_last 1 span) (map T.value words.now) }
{
    span.check(T::WIDTH, words.len())?;
    Ok(last_answer(last_in_row(words, span, true)))
}

// The largest index of a zero, or `None` exactly if there is none. Refusals 1 to 3.
pub fn last_zero<T: Word<W>, const W: usize>(
    words: &[T],
    span: Span,
) -> Result<Option<usize>, Refusal>
    ensures { search_says result ≡ answer W (find_last 0 span) (map T.value words.now) }
{
    span.check(T::WIDTH, words.len())?;
    Ok(last_answer(last_in_row(words, span, false)))
}

// What a first search found that ended at r of `len` bits; it ended at `len` where there is none.
fn first_answer(r: usize, len: usize) -> Option<usize>
    ensures { found_says result ≡ first_found len r }
{
    if r < len { Some(r) } else { None }
}

// What a last search found that ended just past the bit, at r; it ended at 0 where there is none.
fn last_answer(r: usize) -> Option<usize>
    ensures { found_says result ≡ last_found r }
{
    r.checked_sub(1)
}
