// Words moved along their indexes.
ghost use Rattle.std.specs.Prelude.{◌≡◌, ◌≤◌, ◌<◌};
ghost use Rattle.laws.proofs.Words.Funnel.{funneled};
ghost use Rattle.laws.proofs.Words.Moves.{down_of, up_of};

use crate::word::Word;
use rules::{Index, Order};

// A word moved k indexes down: its bit at index k + i is then at index i.
pub fn down<T: Word<W>, const W: usize>(order: Order, x: T, k: usize) -> T
    requires { k < W }
    ensures { T.value result ≡ down_of W order (T.value x) k }
{
    match order {
        Order::Lsb0 => x.shr(k),
        Order::Msb0 => x.shl(k),
    }
}

// A word moved k indexes up: its bit at index i is then at index k + i.
pub fn up<T: Word<W>, const W: usize>(order: Order, x: T, k: usize) -> T
    requires { k < W }
    ensures { T.value result ≡ up_of W order (T.value x) k }
{
    match order {
        Order::Lsb0 => x.shl(k),
        Order::Msb0 => x.shr(k),
    }
}

// The word that begins at index `head` of x and goes on in y, the next one. Two shifts of y make one by W - head, of which neither is by W.
pub fn joined<T: Word<W>, const W: usize>(order: Order, head: Index, x: T, y: T) -> T
    requires { (1 ≤ head.0) × (head.0 < W) }
    ensures { T.value result ≡ funneled W order head.0 (T.value x) (T.value y) }
{
    let h = head.0;
    let rest = W - 1 - h;
    match order {
        Order::Lsb0 => x.shr(h).or(y.shl(1).shl(rest)),
        Order::Msb0 => x.shl(h).or(y.shr(1).shr(rest)),
    }
}
