// Masks of the indexes of a word, and what they pick of words.
ghost use Rattle.std.specs.Prelude.{◌≡◌, ◌+◌, ◌-◌, ◌*◌, ◌^◌, ◌≤◌};
ghost use Rattle.std.specs.Int.Bits.{bit_and};
ghost use Rattle.rules.specs.Positions.{mask};
ghost use Rattle.laws.proofs.Words.Merged.{selected};

use crate::word::Word;
use rules::{Index, Mask, Order, Position};

// The mask of the n indexes from `head` on. There is at least one.
pub fn mask<T: Word<W>, const W: usize>(order: Order, head: Index, n: usize) -> Mask
    requires { (1 ≤ n) × (head.0 + n ≤ W) }
    ensures { result.0 ≡ mask W order head.0 (head.0 + n) }
{
    let h = head.0;
    match order {
        Order::Lsb0 => ones::<T, W>(Position(h), n),
        Order::Msb0 => ones::<T, W>(Position(W - h - n), n),
    }
}

// The bits of x where the mask has ones, and 0 elsewhere.
pub fn under<T: Word<W>, const W: usize>(m: Mask, x: T) -> T
    ensures { T.value result ≡ bit_and (T.value x) m.0 }
{
    T::of(x.number() & m.0)
}

// The bits of v where the mask has ones, and those of u elsewhere.
pub fn select<T: Word<W>, const W: usize>(m: Mask, u: T, v: T) -> T
    ensures { T.value result ≡ selected m.0 (T.value u) (T.value v) }
{
    u.xor(under(m, u.xor(v)))
}

// The mask of the n positions from `lowest` up. There is at least one.
fn ones<T: Word<W>, const W: usize>(lowest: Position, n: usize) -> Mask
    requires { (1 ≤ n) × (lowest.0 + n ≤ W) }
    ensures { result.0 ≡ (2 ^ n - 1) * 2 ^ lowest.0 }
{
    let p = lowest.0;
    let low = T::of(u64::MAX).shr(W - n);
    let moved = low.shl(p);
    Mask(moved.number())
}
