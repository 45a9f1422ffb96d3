// The calls on rows of words.
ghost use Rattle.std.specs.Prelude.{◌≡◌, ◌||◌, map};
ghost use Rattle.rules.specs.Calls.{here, there, copy_from, copy_within, boolean, equal, answer};
ghost use Rattle.border.specs.Border.{span_of, none, no_operation, behind};
ghost use Rattle.border.specs.Faults.{write_told, equal_told, Answered, Exchanged};

use border::{Fault, NamedSpan, named_operation};
use word::Word;

// Copies a span of another buffer, bit for bit.
pub fn copy_from<T: Word<W>, const W: usize>(
    words: &mut [T],
    span: NamedSpan,
    source: &[T],
    source_span: NamedSpan,
) -> Result<(), Fault>
    ensures { Answered W (none span.order || none source_span.order)
        (copy_from (span_of span.order span.word span.head span.length) (map T.value source.now)
        (span_of source_span.order source_span.word source_span.head source_span.length))
        (map T.value words.old) (write_told result) (map T.value words.new) }
{
    let span = span.span()?;
    let source_span = source_span.span()?;
    Ok(copy::copy_from(words, span, source, source_span)?)
}

// Copies bits of a span to another place in it, as if all were read first.
pub fn copy_within<T: Word<W>, const W: usize>(
    words: &mut [T],
    span: NamedSpan,
    start: usize,
    count: usize,
    destination: usize,
) -> Result<(), Fault>
    ensures { Answered W (none span.order)
        (copy_within (span_of span.order span.word span.head span.length) start count destination)
        (map T.value words.old) (write_told result) (map T.value words.new) }
{
    let span = span.span()?;
    Ok(within::copy_within(words, span, start, count, destination)?)
}

// Combines a span with a right side, into the span. The operation is its truth table's number: and 8, or 14, xor 6.
pub fn boolean<T: Word<W>, const W: usize>(
    words: &mut [T],
    span: NamedSpan,
    right: &[T],
    right_span: NamedSpan,
    operation: u8,
) -> Result<(), Fault>
    ensures { Answered W (none span.order || (none right_span.order || no_operation operation))
        (boolean operation (span_of span.order span.word span.head span.length) (map T.value right.now)
        (span_of right_span.order right_span.word right_span.head right_span.length))
        (map T.value words.old) (write_told result) (map T.value words.new) }
{
    let span = span.span()?;
    let right_span = right_span.span()?;
    let operation = named_operation(operation)?;
    Ok(boolean::boolean(words, span, right, right_span, operation.number())?)
}

// Exchanges two spans of two buffers.
pub fn swap<T: Word<W>, const W: usize>(
    left: &mut [T],
    left_span: NamedSpan,
    right: &mut [T],
    right_span: NamedSpan,
) -> Result<(), Fault>
    ensures { Exchanged W (none left_span.order || none right_span.order)
        (map T.value left.old) (span_of left_span.order left_span.word left_span.head left_span.length)
        (map T.value right.old) (span_of right_span.order right_span.word right_span.head right_span.length)
        (write_told result) (map T.value left.new) (map T.value right.new) }
{
    let left_span = left_span.span()?;
    let right_span = right_span.span()?;
    Ok(swap::swap(left, left_span, right, right_span)?)
}

// Whether two spans have the same length and bits.
pub fn equal<T: Word<W>, const W: usize>(
    left: &[T],
    left_span: NamedSpan,
    right: &[T],
    right_span: NamedSpan,
) -> Result<bool, Fault>
    ensures { equal_told result ≡ behind (none left_span.order || none right_span.order)
        (answer W
        (equal here (span_of left_span.order left_span.word left_span.head left_span.length) (there (map T.value right.now))
        (span_of right_span.order right_span.word right_span.head right_span.length))
        (map T.value left.now)) }
{
    let left_span = left_span.span()?;
    let right_span = right_span.span()?;
    Ok(equal::equal(left, left_span, right, right_span)?)
}
