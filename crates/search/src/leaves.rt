// What the searches do to words: the bits that are sought in one, and blocks that have none.
ghost use Rattle.std.specs.Prelude.{◌≡◌, map, ◌+◌, ◌-◌, ◌*◌, ◌≤◌, length, get_or};
ghost use Rattle.laws.proofs.Searches.WordSearch.{masked};
ghost use Rattle.laws.proofs.Searches.Alike.{Alike, Gathered};

use rules::{Index, Order};
use word::{Word, flip, mask, read, under};

// The bits that are sought among the n from index `head` of word k on, as the ones of a word.
pub fn sought_in<T: Word<W>, const W: usize>(
    words: &[T],
    order: Order,
    sought: bool,
    k: usize,
    head: Index,
    n: usize,
) -> T
    requires { (1 ≤ n) × (head.0 + n ≤ W) × (k * W + head.0 + n ≤ length words.now * W) }
    ensures { T.value result ≡ masked W order sought (get_or (map T.value words.now) k 0) head.0 n }
{
    let m = mask::<T, W>(order, head, n);
    under(m, read(words, k).xor(flip(sought)))
}

// Up from word a past blocks of `size` words that are all f: to a block that is not, or to where less than a block is left below e.
pub fn pass_up<T: Word<W>, const W: usize>(
    words: &[T],
    a: usize,
    e: usize,
    f: T,
    size: usize,
) -> usize
    requires { (a ≤ e) × (e ≤ length words.now) × (1 ≤ size) }
    ensures { (a ≤ result) × (result ≤ e) × Alike (T.value f) (map T.value words.now) a result
        × (result + size ≤ e → Alike (T.value f) (map T.value words.now) result (result + size) → ⊥) }
{
    let mut i = a;
    while size <= e - i {
        let j = i + size;
        if gather(&words[i..j], f).number() != 0 {
            return i;
        }
        i = j;
    }
    i
}

// Down from word e past blocks of `size` words that are all f: to a block that is not, or to where less than a block is left above a.
pub fn pass_down<T: Word<W>, const W: usize>(
    words: &[T],
    a: usize,
    e: usize,
    f: T,
    size: usize,
) -> usize
    requires { (a ≤ e) × (e ≤ length words.now) × (1 ≤ size) }
    ensures { (a ≤ result) × (result ≤ e) × Alike (T.value f) (map T.value words.now) result e
        × (a + size ≤ result → Alike (T.value f) (map T.value words.now) (result - size) result → ⊥) }
{
    let mut i = e;
    while size <= i - a {
        let j = i - size;
        if gather(&words[j..i], f).number() != 0 {
            return i;
        }
        i = j;
    }
    i
}

// 0 exactly if each word is f. There is no exit inside, so that the compiler makes vector code of it.
fn gather<T: Word<W>, const W: usize>(words: &[T], f: T) -> T
    ensures { Gathered (T.value f) (map T.value words.now) (length words.now) (T.value result) }
{
    let mut v = T::of(0);
    for &x in words {
        v = v.or(x.xor(f));
    }
    v
}
