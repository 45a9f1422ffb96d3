// Positions, selectors and masks: bitvec's order.rs.
ghost use Rattle.std.specs.Prelude.{◌≡◌, ◌^◌, ◌≤◌, ◌<◌};
ghost use Rattle.rules.specs.Bits.{bits};
ghost use Rattle.rules.specs.Positions as positions;
ghost use Rattle.rules.specs.Calls.{position_answer, selector_answer, mask_answer};
ghost use Rattle.rules.specs.Answers.{position_says, selector_says, mask_says};

use pieces::mask_at;
use rules::{End, Index, Mask, Order, Position, Refusal, Selector, Width};

// The real position of an index in a word; an index of W or more is refused 2.
pub fn position(width: Width, order: Order, index: Index) -> Result<Position, Refusal>
    ensures { position_says result ≡ position_answer (bits width) order index.0 }
{
    let i = index.0;
    if width.bits() <= i {
        return Err(Refusal::IndexTooLarge);
    }
    Ok(position_of(width, order, index))
}

// The selector of an index, 2 to its position; an index of W or more is refused 2.
pub fn selector(width: Width, order: Order, index: Index) -> Result<Selector, Refusal>
    ensures { selector_says result ≡ selector_answer (bits width) order index.0 }
{
    let i = index.0;
    if width.bits() <= i {
        return Err(Refusal::IndexTooLarge);
    }
    let at = position_of(width, order, index);
    Ok(selector_at(at))
}

// The mask of the indexes from `from` up to but without `upto`: 2 where `from` is W or more, 10 where `upto` is above W or below `from`.
pub fn mask(width: Width, order: Order, from: Index, upto: End) -> Result<Mask, Refusal>
    ensures { mask_says result ≡ mask_answer (bits width) order from.0 upto.0 }
{
    let w = width.bits();
    let f = from.0;
    let u = upto.0;
    if w <= f {
        return Err(Refusal::IndexTooLarge);
    }
    if w < u {
        return Err(Refusal::NotBelow);
    }
    if u < f {
        return Err(Refusal::NotBelow);
    }
    Ok(mask_of(width, order, from, upto))
}

// The real position of an index that the caller has seen to be below the width.
pub fn position_of(width: Width, order: Order, index: Index) -> Position
    requires { index.0 < bits width }
    ensures { (result.0 ≡ positions.position (bits width) order index.0) × (result.0 < bits width) }
{
    let i = index.0;
    match order {
        Order::Lsb0 => Position(i),
        Order::Msb0 => Position(width.bits() - 1 - i),
    }
}

// The selector of a position that the caller has seen to be below 64.
pub fn selector_at(at: Position) -> Selector
    requires { at.0 < 64 }
    ensures { result.0 ≡ 2 ^ at.0 }
{
    let p = at.0;
    Selector(1u64 << p)
}

// The mask of the indexes from `from` up to but without `upto`, checked: a run of ones from its lowest position up.
fn mask_of(width: Width, order: Order, from: Index, upto: End) -> Mask
    requires { (from.0 < bits width) × (from.0 ≤ upto.0) × (upto.0 ≤ bits width) }
    ensures { result.0 ≡ positions.mask (bits width) order from.0 upto.0 }
{
    let f = from.0;
    let u = upto.0;
    if u == f {
        return Mask(0);
    }
    let n = u - f;
    match order {
        Order::Lsb0 => mask_at(Position(f), n),
        Order::Msb0 => mask_at(Position(width.bits() - u), n),
    }
}
