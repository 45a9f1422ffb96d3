// Searches within a word, by the machine's counts of zeros. To search for zeros, a word is turned over first.
ghost use Rattle.std.specs.Prelude.{◌≡◌};
ghost use Rattle.rules.specs.Bits.{bit_n};
ghost use Rattle.rules.specs.Positions.{position};
ghost use Rattle.rules.specs.Rows.{first_with, last_with};
ghost use Rattle.laws.proofs.Searches.WordSearch.{flipped};

use crate::word::Word;
use rules::{End, Order};

// What turns the sought bits of a word into ones, by exclusive or: no bit, or all.
pub fn flip<T: Word<W>, const W: usize>(sought: bool) -> T
    ensures { T.value result ≡ flipped W sought }
{
    if sought { T::of(0) } else { T::of(u64::MAX) }
}

// The smallest index with a one; W, which is no index, where there is none.
pub fn zeros_end<T: Word<W>, const W: usize>(order: Order, word: T) -> End
    ensures { result.0 ≡ first_with W (λ i. bit_n (T.value word) (position W order i)) 1 }
{
    match order {
        Order::Lsb0 => End(word.trailing_zeros()),
        Order::Msb0 => End(word.leading_zeros()),
    }
}

// One more than the largest index with a one; 0 where there is none.
pub fn last_end<T: Word<W>, const W: usize>(order: Order, word: T) -> End
    ensures { result.0 ≡ last_with W (λ i. bit_n (T.value word) (position W order i)) 1 }
{
    match order {
        Order::Lsb0 => End(W - word.leading_zeros()),
        Order::Msb0 => End(W - word.trailing_zeros()),
    }
}
