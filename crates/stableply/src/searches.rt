// The searches of rows of words.
ghost use Rattle.std.specs.Prelude.{◌≡◌, map};
ghost use Rattle.rules.specs.Calls.{find_first, find_last, answer};
ghost use Rattle.border.specs.Border.{span_of, none, behind};
ghost use Rattle.border.specs.Faults.{found_told};

use border::{Fault, NamedSpan};
use word::Word;

// The smallest index of a one, counted from the span's start, or `None`.
pub fn first_one<T: Word<W>, const W: usize>(
    words: &[T],
    span: NamedSpan,
) -> Result<Option<usize>, Fault>
    ensures { found_told result ≡ behind (none span.order)
        (answer W (find_first 1 (span_of span.order span.word span.head span.length)) (map T.value words.now)) }
{
    let span = span.span()?;
    Ok(search::first_one(words, span)?)
}

// The largest index of a one.
pub fn last_one<T: Word<W>, const W: usize>(
    words: &[T],
    span: NamedSpan,
) -> Result<Option<usize>, Fault>
    ensures { found_told result ≡ behind (none span.order)
        (answer W (find_last 1 (span_of span.order span.word span.head span.length)) (map T.value words.now)) }
{
    let span = span.span()?;
    Ok(search::last_one(words, span)?)
}

// The smallest index of a zero.
pub fn first_zero<T: Word<W>, const W: usize>(
    words: &[T],
    span: NamedSpan,
) -> Result<Option<usize>, Fault>
    ensures { found_told result ≡ behind (none span.order)
        (answer W (find_first 0 (span_of span.order span.word span.head span.length)) (map T.value words.now)) }
{
    let span = span.span()?;
    Ok(search::first_zero(words, span)?)
}

// The largest index of a zero.
pub fn last_zero<T: Word<W>, const W: usize>(
    words: &[T],
    span: NamedSpan,
) -> Result<Option<usize>, Fault>
    ensures { found_told result ≡ behind (none span.order)
        (answer W (find_last 0 (span_of span.order span.word span.head span.length)) (map T.value words.now)) }
{
    let span = span.span()?;
    Ok(search::last_zero(words, span)?)
}
