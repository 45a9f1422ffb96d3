// Whole words that have no bit of the kind that is sought: f is such a word, all zeros or all ones. Large blocks are passed over first,
// then small ones, then single words.
ghost use Rattle.std.specs.Prelude.{◌≢◌, map, ◌-◌, ◌≤◌, ◌<◌, length, get_or};
ghost use Rattle.laws.proofs.Searches.Alike.{Alike};

use crate::leaves::{pass_down, pass_up};
use rules::Width;
use word::Word;

// How many words a large block has, for speed alone.
fn large(width: Width) -> usize
    ensures { 1 ≤ result }
{
    match width {
        Width::W8 => 256,
        Width::W64 => 80,
    }
}

// How many words a small block has.
fn small(width: Width) -> usize
    ensures { 1 ≤ result }
{
    match width {
        Width::W8 => 64,
        Width::W64 => 16,
    }
}

// Up from word a to the first word that is not f, or to e.
pub fn skip_up<T: Word<W>, const W: usize>(words: &[T], a: usize, e: usize, f: T) -> usize
    requires { (a ≤ e) × (e ≤ length words.now) }
    ensures { (a ≤ result) × (result ≤ e) × Alike (T.value f) (map T.value words.now) a result
        × (result < e → get_or (map T.value words.now) result 0 ≢ T.value f) }
{
    let i = pass_up(words, a, e, f, large(T::WIDTH));
    let j = pass_up(words, i, e, f, small(T::WIDTH));
    pass_up(words, j, e, f, 1)
}

// Down from word e to just past the last word that is not f, or to a.
pub fn skip_down<T: Word<W>, const W: usize>(words: &[T], a: usize, e: usize, f: T) -> usize
    requires { (a ≤ e) × (e ≤ length words.now) }
    ensures { (a ≤ result) × (result ≤ e) × Alike (T.value f) (map T.value words.now) result e
        × (a < result → get_or (map T.value words.now) (result - 1) 0 ≢ T.value f) }
{
    let i = pass_down(words, a, e, f, large(T::WIDTH));
    let j = pass_down(words, a, i, f, small(T::WIDTH));
    pass_down(words, a, j, f, 1)
}
