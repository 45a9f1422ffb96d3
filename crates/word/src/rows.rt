// Words of a row: read, written, lent as a part, and bits of a row that are fetched or put within one word.
ghost use Rattle.std.specs.Prelude.{◌≡◌, map, min, ◌+◌, ◌-◌, ◌*◌, ◌%◌, ◌≤◌, ◌<◌, length, get_or, set, take, drop};
ghost use Rattle.rules.specs.Bits.{bit_n};
ghost use Rattle.rules.specs.Positions.{position, row, spliced};
ghost use Rattle.laws.proofs.Words.Moves.{Carries};

use crate::masks::{mask, select};
use crate::moves::{down, joined, up};
use crate::word::Word;
use rules::{Index, Order};

// Word i of those that are lent.
pub fn read<T: Word<W>, const W: usize>(words: &[T], i: usize) -> T
    requires { i < length words.now }
    ensures { T.value result ≡ get_or (map T.value words.now) i 0 }
{
    words[i]
}

// Word i of those that are lent becomes x.
pub fn write<T: Word<W>, const W: usize>(words: &mut [T], i: usize, x: T)
    requires { i < length words.old }
    ensures { map T.value words.new ≡ set (map T.value words.old) i (T.value x) }
{
    words[i] = x;
}

// The words from `start` on and below `end`, of those that are lent. A part to write is lent by its range: a function that handed it on could not
// promise what the slice holds afterwards.
pub fn part<T: Word<W>, const W: usize>(words: &[T], start: usize, end: usize) -> &[T]
    requires { (start ≤ end) × (end ≤ length words.now) }
    ensures { (map T.value result.now ≡ take (end - start) (drop start (map T.value words.now))) × (start + length result.now ≡ end) }
{
    &words[start..end]
}

// The smaller of two numbers.
pub fn least(a: usize, b: usize) -> usize
    ensures { result ≡ min a b }
{
    a.min(b)
}

// How many of `len` bits from place `at` on lie before the next word's start: none where a word starts there.
pub fn lead<T: Word<W>, const W: usize>(at: usize, len: usize) -> usize
    ensures { (result ≤ len) × (at % W + result ≤ W) × (result < len → (at + result) % W ≡ 0) }
{
    let h = at % W;
    if h == 0 {
        return 0;
    }
    least(len, W - h)
}

// n bits of a row from place s on, brought to the indexes from `head` on. What its other bits are is not said.
pub fn fetch<T: Word<W>, const W: usize>(
    source: &[T],
    order: Order,
    s: usize,
    head: Index,
    n: usize,
) -> T
    requires { (1 ≤ n) × (head.0 + n ≤ W) × (s + n ≤ length source.now * W) }
    ensures { Carries W order (T.value result) head.0 n (λ i. row W order (map T.value source.now) (s + i)) }
{
    let h = head.0;
    if s < h {
        return up(order, read(source, 0), h - s);
    }
    let b = (s - h) / W;
    let g = (s - h) % W;
    if g == 0 {
        return read(source, b);
    }
    if g + h + n <= W {
        return down(order, read(source, b), g);
    }
    joined(order, Index(g), read(source, b), read(source, b + 1))
}

// n bits within one word of a row, from place d on, become those that v has at the same indexes.
pub fn put<T: Word<W>, const W: usize>(words: &mut [T], order: Order, d: usize, n: usize, v: T)
    requires { (1 ≤ n) × (d % W + n ≤ W) × (d + n ≤ length words.old * W) }
    ensures { map T.value words.new ≡ spliced W order (map T.value words.old) d n
        (λ i. bit_n (T.value v) (position W order (d % W + i))) }
{
    let word = d / W;
    let m = mask::<T, W>(order, Index(d % W), n);
    let x = select(m, read(words, word), v);
    write(words, word, x);
}
