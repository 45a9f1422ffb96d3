// The calls without lent words, at words of 8 or 64 bits.
ghost use Rattle.std.specs.Prelude.{◌≡◌, ◌||◌};
ghost use Rattle.rules.specs.Calls.{position_answer, selector_answer, mask_answer, split_answer};
ghost use Rattle.border.specs.Border.{order_of, span_of, none, no_width, behind};
ghost use Rattle.border.specs.Faults.{position_told, selector_told, mask_told, rest_told};

use border::{Fault, NamedSpan, named_order, named_width};
use rules::{End, Halves, Index, Mask, Position, Selector};

// The real position of an index in a word.
pub fn position(width: u8, order: u8, index: usize) -> Result<Position, Fault>
    ensures { position_told result ≡ behind (no_width width || none order) (position_answer width (order_of order) index) }
{
    let width = named_width(width)?;
    let order = named_order(order)?;
    Ok(wordless::position(width, order, Index(index))?)
}

// The selector of an index in a word: 2 to its position.
pub fn selector(width: u8, order: u8, index: usize) -> Result<Selector, Fault>
    ensures { selector_told result ≡ behind (no_width width || none order) (selector_answer width (order_of order) index) }
{
    let width = named_width(width)?;
    let order = named_order(order)?;
    Ok(wordless::selector(width, order, Index(index))?)
}

// The mask of the indexes of a word from `from` up to but without `upto`.
pub fn mask(width: u8, order: u8, from: usize, upto: usize) -> Result<Mask, Fault>
    ensures { mask_told result ≡ behind (no_width width || none order) (mask_answer width (order_of order) from upto) }
{
    let width = named_width(width)?;
    let order = named_order(order)?;
    Ok(wordless::mask(width, order, Index(from), End(upto))?)
}

// A span cut after its first `place` bits.
pub fn split(width: u8, lent: usize, span: NamedSpan, place: usize) -> Result<Halves, Fault>
    ensures { rest_told result ≡ behind (no_width width || none span.order)
        (split_answer width lent (span_of span.order span.word span.head span.length) place) }
{
    let width = named_width(width)?;
    let span = span.span()?;
    Ok(span.split(width, lent, place)?)
}
