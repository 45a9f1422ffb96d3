// The exported calls on rows of words.
ghost use Rattle.std.specs.Prelude.{◌||◌, map};
ghost use Rattle.rules.specs.Calls.{here, there, copy_from, copy_within, boolean, equal, answer};
ghost use Rattle.border.specs.Border.{span_of, none, no_operation, behind, Told, Wrote, Swapped};

use crate::rows;
use border::{NamedSpan, leave_equal, leave_write};
use word::Word;

// Copies a span of another buffer, bit for bit.
pub fn copy_from<T: Word<W>, const W: usize>(
    words: &mut [T],
    order: u8,
    word: usize,
    head: usize,
    length: usize,
    source: &[T],
    from_order: u8,
    from_word: usize,
    from_head: usize,
    from_length: usize,
) -> u8
    ensures { Wrote W (none order || none from_order)
        (copy_from (span_of order word head length) (map T.value source.now) (span_of from_order from_word from_head from_length))
        (map T.value words.old) result (map T.value words.new) }
{
    let span = NamedSpan::new(order, word, head, length);
    let source_span = NamedSpan::new(from_order, from_word, from_head, from_length);
    leave_write(rows::copy_from(words, span, source, source_span))
}

// Copies bits of a span to another place in it, as if all were read first.
pub fn copy_within<T: Word<W>, const W: usize>(
    words: &mut [T],
    order: u8,
    word: usize,
    head: usize,
    length: usize,
    start: usize,
    count: usize,
    destination: usize,
) -> u8
    ensures { Wrote W (none order)
        (copy_within (span_of order word head length) start count destination)
        (map T.value words.old) result (map T.value words.new) }
{
    let span = NamedSpan::new(order, word, head, length);
    leave_write(rows::copy_within(words, span, start, count, destination))
}

// Combines a span with a right side, into the span. The operation is its truth table's number: and 8, or 14, xor 6.
pub fn boolean<T: Word<W>, const W: usize>(
    words: &mut [T],
    order: u8,
    word: usize,
    head: usize,
    length: usize,
    right: &[T],
    right_order: u8,
    right_word: usize,
    right_head: usize,
    right_length: usize,
    operation: u8,
) -> u8
    ensures { Wrote W (none order || (none right_order || no_operation operation))
        (boolean operation (span_of order word head length) (map T.value right.now) (span_of right_order right_word right_head right_length))
        (map T.value words.old) result (map T.value words.new) }
{
    let span = NamedSpan::new(order, word, head, length);
    let right_span = NamedSpan::new(right_order, right_word, right_head, right_length);
    leave_write(rows::boolean(words, span, right, right_span, operation))
}

// Exchanges two spans of two buffers.
pub fn swap<T: Word<W>, const W: usize>(
    left: &mut [T],
    order: u8,
    word: usize,
    head: usize,
    length: usize,
    right: &mut [T],
    right_order: u8,
    right_word: usize,
    right_head: usize,
    right_length: usize,
) -> u8
    ensures { Swapped W (none order || none right_order)
        (map T.value left.old) (span_of order word head length)
        (map T.value right.old) (span_of right_order right_word right_head right_length)
        result (map T.value left.new) (map T.value right.new) }
{
    let left_span = NamedSpan::new(order, word, head, length);
    let right_span = NamedSpan::new(right_order, right_word, right_head, right_length);
    leave_write(rows::swap(left, left_span, right, right_span))
}

// Whether two spans have the same length and bits, as 1 or 0.
pub fn equal<T: Word<W>, const W: usize>(
    left: &[T],
    order: u8,
    word: usize,
    head: usize,
    length: usize,
    right: &[T],
    right_order: u8,
    right_word: usize,
    right_head: usize,
    right_length: usize,
    out: &mut u8,
) -> u8
    ensures { Told
        (behind (none order || none right_order)
        (answer W
        (equal here (span_of order word head length) (there (map T.value right.now))
        (span_of right_order right_word right_head right_length)) (map T.value left.now))) out.old result out.new }
{
    let left_span = NamedSpan::new(order, word, head, length);
    let right_span = NamedSpan::new(right_order, right_word, right_head, right_length);
    leave_equal(rows::equal(left, left_span, right, right_span), out)
}
