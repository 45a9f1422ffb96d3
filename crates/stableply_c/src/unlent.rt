// The exported calls without lent words.
ghost use Rattle.std.specs.Prelude.{◌||◌};
ghost use Rattle.rules.specs.Calls.{position_answer, selector_answer, mask_answer, split_answer};
ghost use Rattle.border.specs.Border.{order_of, span_of, none, no_width, behind, Told, Rest};

use stableply::exported::unlent;

// The real position of an index in a word of 8 or 64 bits.
#[unsafe(no_mangle)]
pub extern "C" fn stableply_position(width: u8, order: u8, index: usize, out: &mut u64) -> u8
    ensures { Told (behind (no_width width || none order) (position_answer width (order_of order) index)) out.old result out.new }
{
    unlent::position(width, order, index, out)
}

// The selector of an index in a word of 8 or 64 bits: 2 to its position.
#[unsafe(no_mangle)]
pub extern "C" fn stableply_selector(width: u8, order: u8, index: usize, out: &mut u64) -> u8
    ensures { Told (behind (no_width width || none order) (selector_answer width (order_of order) index)) out.old result out.new }
{
    unlent::selector(width, order, index, out)
}

// The mask of the indexes of a word of 8 or 64 bits from `from` up to but without `upto`.
#[unsafe(no_mangle)]
pub extern "C" fn stableply_mask(
    width: u8,
    order: u8,
    from: usize,
    upto: usize,
    out: &mut u64,
) -> u8
    ensures { Told (behind (no_width width || none order) (mask_answer width (order_of order) from upto)) out.old result out.new }
{
    unlent::mask(width, order, from, upto, out)
}

// The rest of a span of words of 8 or 64 bits after its first `place` bits. The first half is the span itself with the length `place`.
#[unsafe(no_mangle)]
pub extern "C" fn stableply_split(
    width: u8,
    lent: usize,
    order: u8,
    word: usize,
    head: usize,
    length: usize,
    place: usize,
    rest_word: &mut usize,
    rest_head: &mut usize,
    rest_length: &mut usize,
) -> u8
    ensures { Rest (behind (no_width width || none order) (split_answer width lent (span_of order word head length) place))
        rest_word.old rest_head.old rest_length.old result rest_word.new rest_head.new
        rest_length.new }
{
    unlent::split(
        width,
        lent,
        order,
        word,
        head,
        length,
        place,
        rest_word,
        rest_head,
        rest_length,
    )
}
