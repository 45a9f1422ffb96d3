// Copy from one buffer of words of W bits to another. The target's row is cut into a first piece up to a word's end, whole words and a
// last piece, so that each of its words is written once.
#![tactic(auto)]

ghost use Rattle.std.specs.Prelude.{map, ◌≡◌, ℕ, ◌+◌, ◌*◌, ◌%◌, ◌≤◌, ◌<◌, length, get_or};
ghost use Rattle.rules.specs.Positions.{row, spliced};
ghost use Rattle.rules.specs.Calls.{copy_from, answer, after};
ghost use Rattle.rules.specs.Answers.{write_says, Gives};
ghost use Rattle.laws.proofs.Words.Funnel.{funneled};

use refusals::check_copy;
use rules::{Index, Order, Refusal, Span};
use word::{Word, fetch, joined, lead, part, put};

// Each bit of the target's span becomes the source span's bit of the same index; the lengths are equal. Refusals 1 to 3 of the target, 1 to
// 3 of the source, 6, 7.
pub fn copy_from<T: Word<W>, const W: usize>(
    words: &mut [T],
    span: Span,
    source: &[T],
    source_span: Span,
) -> Result<(), Refusal>
    ensures { Gives W (copy_from span (map T.value source.now) source_span) (map T.value words.old) (write_says result) (map T.value words.new) }
{
    check_copy(T::WIDTH, words.len(), span, source.len(), source_span)?;
    let d = span.start(W);
    let s = source_span.start(W);
    copy_row(words, span.order, d, source, s, span.len);
    Ok(())
}

// `len` bits of the source's row from place s on replace those of the target's row from place d on. For callers that know both to be in
// bounds.
pub fn copy_row<T: Word<W>, const W: usize>(
    words: &mut [T],
    order: Order,
    d: usize,
    source: &[T],
    s: usize,
    len: usize,
)
    requires { (d + len ≤ length words.old * W) × (s + len ≤ length source.now * W) × (length words.old ≤ 65536) × (length source.now ≤ 65536) }
    ensures { map T.value words.new ≡ spliced W order (map T.value words.old) d len (λ i. row W order (map T.value source.now) (s + i)) }
{
    let first = lead::<T, W>(d, len);
    first_piece(words, order, d, source, s, first);
    let k = (len - first) / W;
    whole(words, order, d + first, source, s + first, k);
    let most = first + k * W;
    last_piece(words, order, d + most, source, s + most, len - most);
}

// The last piece of the target: n bits from a word's start on. Each order has code of its own, so that the compiler knows it there.
fn last_piece<T: Word<W>, const W: usize>(
    words: &mut [T],
    order: Order,
    d: usize,
    source: &[T],
    s: usize,
    n: usize,
)
    requires { (1 ≤ n → d % W ≡ 0) × (n ≤ W) × (d + n ≤ length words.old * W) × (s + n ≤ length source.now * W) × (length words.old ≤ 65536) }
    ensures { map T.value words.new ≡ spliced W order (map T.value words.old) d n (λ i. row W order (map T.value source.now) (s + i)) }
{
    if n == 0 {
        return;
    }
    let at = d / W * W;
    match order {
        Order::Lsb0 => {
            bits(words, Order::Lsb0, at, source, s, n);
        }
        Order::Msb0 => {
            bits(words, Order::Msb0, at, source, s, n);
        }
    }
}

// The first piece of the target: n bits that end in the word where they begin. Each order has code of its own, so that the compiler knows
// it there.
fn first_piece<T: Word<W>, const W: usize>(
    words: &mut [T],
    order: Order,
    d: usize,
    source: &[T],
    s: usize,
    n: usize,
)
    requires { (d % W + n ≤ W) × (d + n ≤ length words.old * W) × (s + n ≤ length source.now * W) }
    ensures { map T.value words.new ≡ spliced W order (map T.value words.old) d n (λ i. row W order (map T.value source.now) (s + i)) }
{
    if n == 0 {
        return;
    }
    match order {
        Order::Lsb0 => {
            bits(words, Order::Lsb0, d, source, s, n);
        }
        Order::Msb0 => {
            bits(words, Order::Msb0, d, source, s, n);
        }
    }
}

// n bits, at least one, within one word of the target.
fn bits<T: Word<W>, const W: usize>(
    words: &mut [T],
    order: Order,
    d: usize,
    source: &[T],
    s: usize,
    n: usize,
)
    requires { (1 ≤ n) × (d % W + n ≤ W) × (d + n ≤ length words.old * W) × (s + n ≤ length source.now * W) }
    ensures { map T.value words.new ≡ spliced W order (map T.value words.old) d n (λ i. row W order (map T.value source.now) (s + i)) }
{
    let v = fetch(source, order, s, Index(d % W), n);
    put(words, order, d, n, v);
}

// k whole words of the target from place d on. They are lent on as a part of their own, so that the loops below begin at word 0.
fn whole<T: Word<W>, const W: usize>(
    words: &mut [T],
    order: Order,
    d: usize,
    source: &[T],
    s: usize,
    k: usize,
)
    requires { (1 ≤ k → d % W ≡ 0) × (d + k * W ≤ length words.old * W) × (s + k * W ≤ length source.now * W) × (length source.now ≤ 65536) }
    ensures { map T.value words.new ≡ spliced W order (map T.value words.old) d (k * W) (λ i. row W order (map T.value source.now) (s + i)) }
{
    if k == 0 {
        return;
    }
    let a = d / W;
    let e = a + k;
    let b = s / W;
    let h = s % W;
    if h == 0 {
        let f = b + k;
        plain_words(&mut words[a..e], part(source, b, f));
        return;
    }
    let f = b + k + 1;
    funnel_words(&mut words[a..e], order, part(source, b, f), Index(h));
}

// Word i becomes the word that begins at index `head` of the source's word i and goes on in the next.
fn funnel_words<T: Word<W>, const W: usize>(
    words: &mut [T],
    order: Order,
    source: &[T],
    head: Index,
)
    requires { (1 ≤ head.0) × (head.0 < W) × (length words.old + 1 ≤ length source.now) }
    ensures { (k : ℕ) → k < length words.old → get_or (map T.value words.new) k 0 ≡ funneled W order head.0
        (get_or (map T.value source.now) k 0) (get_or (map T.value source.now) (k + 1) 0) }
{
    for (i, word) in words.iter_mut().enumerate() {
        *word = joined(order, head, source[i], source[i + 1]);
    }
}

// Word i becomes the source's word i. It is a loop of the library's own, so that the archive asks its user for no function that moves memory.
fn plain_words<T: Word<W>, const W: usize>(words: &mut [T], source: &[T])
    requires { length words.old ≤ length source.now }
    ensures { (k : ℕ) → k < length words.old → get_or (map T.value words.new) k 0 ≡ get_or (map T.value source.now) k 0 }
{
    for (i, word) in words.iter_mut().enumerate() {
        *word = source[i];
    }
}
