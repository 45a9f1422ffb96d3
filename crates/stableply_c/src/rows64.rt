// The exported calls on rows of words of 64 bits.
ghost use Rattle.std.specs.Prelude.{◌||◌};
ghost use Rattle.rules.specs.Calls.{here, there, copy_from, copy_within, boolean, equal, answer};
ghost use Rattle.border.specs.Border.{span_of, none, no_operation, behind, Told, Wrote, Swapped};

use stableply::exported::rows;

// Copies a span of another buffer, bit for bit.
#[unsafe(no_mangle)]
pub extern "C" fn stableply64_copy_from(
    words: &mut [u64],
    order: u8,
    word: usize,
    head: usize,
    length: usize,
    source: &[u64],
    from_order: u8,
    from_word: usize,
    from_head: usize,
    from_length: usize,
) -> u8
    ensures { Wrote 64 (none order || none from_order)
        (copy_from (span_of order word head length) source.now (span_of from_order from_word from_head from_length))
        words.old result words.new }
{
    rows::copy_from(
        words,
        order,
        word,
        head,
        length,
        source,
        from_order,
        from_word,
        from_head,
        from_length,
    )
}

// Copies bits of a span to another place in it, as if all were read first.
#[unsafe(no_mangle)]
pub extern "C" fn stableply64_copy_within(
    words: &mut [u64],
    order: u8,
    word: usize,
    head: usize,
    length: usize,
    start: usize,
    count: usize,
    destination: usize,
) -> u8
    ensures { Wrote 64 (none order)
        (copy_within (span_of order word head length) start count destination)
        words.old result words.new }
{
    rows::copy_within(words, order, word, head, length, start, count, destination)
}

// Combines a span with a right side, into the span. The operation is its truth table's number: and 8, or 14, xor 6.
#[unsafe(no_mangle)]
pub extern "C" fn stableply64_boolean(
    words: &mut [u64],
    order: u8,
    word: usize,
    head: usize,
    length: usize,
    right: &[u64],
    right_order: u8,
    right_word: usize,
    right_head: usize,
    right_length: usize,
    operation: u8,
) -> u8
    ensures { Wrote 64 (none order || (none right_order || no_operation operation))
        (boolean operation (span_of order word head length) right.now (span_of right_order right_word right_head right_length))
        words.old result words.new }
{
    rows::boolean(
        words,
        order,
        word,
        head,
        length,
        right,
        right_order,
        right_word,
        right_head,
        right_length,
        operation,
    )
}

// Exchanges two spans of two buffers.
#[unsafe(no_mangle)]
pub extern "C" fn stableply64_swap(
    left: &mut [u64],
    order: u8,
    word: usize,
    head: usize,
    length: usize,
    right: &mut [u64],
    right_order: u8,
    right_word: usize,
    right_head: usize,
    right_length: usize,
) -> u8
    ensures { Swapped 64 (none order || none right_order)
        left.old (span_of order word head length)
        right.old (span_of right_order right_word right_head right_length)
        result left.new right.new }
{
    rows::swap(
        left,
        order,
        word,
        head,
        length,
        right,
        right_order,
        right_word,
        right_head,
        right_length,
    )
}

// Whether two spans have the same length and bits, as 1 or 0.
#[unsafe(no_mangle)]
pub extern "C" fn stableply64_equal(
    left: &[u64],
    order: u8,
    word: usize,
    head: usize,
    length: usize,
    right: &[u64],
    right_order: u8,
    right_word: usize,
    right_head: usize,
    right_length: usize,
    out: &mut u8,
) -> u8
    ensures { Told
        (behind (none order || none right_order)
        (answer 64
        (equal here (span_of order word head length) (there right.now)
        (span_of right_order right_word right_head right_length)) left.now)) out.old result out.new }
{
    rows::equal(
        left,
        order,
        word,
        head,
        length,
        right,
        right_order,
        right_word,
        right_head,
        right_length,
        out,
    )
}
