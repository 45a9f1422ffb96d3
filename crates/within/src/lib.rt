// Copy within one buffer of words, in place and without scratch words: a piece, whole words, a piece. Downward, the last bits first, exactly if the
// source range contains the destination; else upward.
#![tactic(auto)]

ghost use Rattle.std.specs.Prelude.{◌≡◌, ◌⊎◌, map, ◌+◌, ◌*◌, ◌%◌, ◌≤◌, ◌<◌, length};
ghost use Rattle.rules.specs.declared.Order.{Order};
ghost use Rattle.rules.specs.Rows.{moved};
ghost use Rattle.rules.specs.Calls.{copy_within, answer, after};
ghost use Rattle.rules.specs.Answers.{write_says, Gives};

use refusals::check_copy_within;
use rules::{Index, Order, Refusal, Span};
use word::{Word, fetch, joined, lead, put};

// Bit destination + i of the span becomes the old bit start + i, for all i below count, as if all were read first. Refusals 1 to 3, 10.
pub fn copy_within<T: Word<W>, const W: usize>(
    words: &mut [T],
    span: Span,
    start: usize,
    count: usize,
    destination: usize,
) -> Result<(), Refusal>
    ensures { Gives W (copy_within span start count destination) (map T.value words.old) (write_says result) (map T.value words.new) }
{
    check_copy_within(T::WIDTH, words.len(), span, start, count, destination)?;
    let order = span.order;
    let base = span.start(W);
    move_row(words, order, base + start, base + destination, count);
    Ok(())
}

// n bits of the row from place `from` on replace those from place `to` on, in the direction in which none is overwritten before it is read.
fn move_row<T: Word<W>, const W: usize>(
    words: &mut [T],
    order: Order,
    from: usize,
    to: usize,
    n: usize,
)
    requires { (from + n ≤ length words.old * W) × (to + n ≤ length words.old * W) × (length words.old ≤ 65536) }
    ensures { map T.value words.new ≡ moved W order (map T.value words.old) from to n }
{
    if from <= to && to < from + n {
        move_down(words, order, from, to, n);
    } else {
        move_up(words, order, from, to, n);
    }
}

// The last bits first: right where the destination is at the source's start or past it.
fn move_down<T: Word<W>, const W: usize>(
    words: &mut [T],
    order: Order,
    from: usize,
    to: usize,
    n: usize,
)
    requires { (from + n ≤ length words.old * W) × (to + n ≤ length words.old * W) × (from ≤ to) × (length words.old ≤ 65536) }
    ensures { map T.value words.new ≡ moved W order (map T.value words.old) from to n }
{
    let first = lead::<T, W>(to, n);
    let k = (n - first) / W;
    let most = first + k * W;
    last_piece(words, order, from + most, to + most, n - most);
    whole_down(words, order, from + first, to + first, k);
    first_piece(words, order, from, to, first);
}

// The first bits first: right where the source range does not contain the destination.
fn move_up<T: Word<W>, const W: usize>(
    words: &mut [T],
    order: Order,
    from: usize,
    to: usize,
    n: usize,
)
    requires { (from + n ≤ length words.old * W) × (to + n ≤ length words.old * W) × ((to ≤ from) ⊎ (from + n ≤ to)) × (length words.old ≤ 65536) }
    ensures { map T.value words.new ≡ moved W order (map T.value words.old) from to n }
{
    let first = lead::<T, W>(to, n);
    first_piece(words, order, from, to, first);
    let k = (n - first) / W;
    whole_up(words, order, from + first, to + first, k);
    let most = first + k * W;
    last_piece(words, order, from + most, to + most, n - most);
}

// k whole words of the destination, the last one first. Where a destination word is the one after its source word, a loop that says so: the
// compiler then makes vector code of it.
fn whole_down<T: Word<W>, const W: usize>(
    words: &mut [T],
    order: Order,
    from: usize,
    to: usize,
    k: usize,
)
    requires { (1 ≤ k → to % W ≡ 0) × (from + k * W ≤ length words.old * W) × (to + k * W ≤ length words.old * W) × (from ≤ to)
        × (length words.old ≤ 65536) }
    ensures { map T.value words.new ≡ moved W order (map T.value words.old) from to (k * W) }
{
    if k == 0 {
        return;
    }
    let a = to / W;
    let b = from / W;
    let h = from % W;
    if h == 0 {
        plain_down(words, b, a, k);
        return;
    }
    if a == b + 1 {
        joined_next(words, order, Index(h), b, k);
        return;
    }
    joined_down(words, order, Index(h), b, a, k);
}

// k whole words of the destination, the first one first. Where a destination word is its own source word, a loop that says so: the compiler
// then makes vector code of it.
fn whole_up<T: Word<W>, const W: usize>(
    words: &mut [T],
    order: Order,
    from: usize,
    to: usize,
    k: usize,
)
    requires { (1 ≤ k → to % W ≡ 0) × (from + k * W ≤ length words.old * W) × (to + k * W ≤ length words.old * W)
        × ((to ≤ from) ⊎ (from + k * W ≤ to)) × (length words.old ≤ 65536) }
    ensures { map T.value words.new ≡ moved W order (map T.value words.old) from to (k * W) }
{
    if k == 0 {
        return;
    }
    let a = to / W;
    let b = from / W;
    let h = from % W;
    if h == 0 {
        plain_up(words, b, a, k);
        return;
    }
    if a == b {
        joined_up(words, order, Index(h), a, a, k);
        return;
    }
    joined_up(words, order, Index(h), b, a, k);
}

// Each of the k words after word b becomes the one before it joined with itself at a head, the last one first. The loop speaks of word b alone, and
// of its two words by one place, so that the compiler sees which words overlap, and reads both: it is slower where one is carried from turn to turn.
fn joined_next<T: Word<W>, const W: usize>(
    words: &mut [T],
    order: Order,
    head: Index,
    b: usize,
    k: usize,
)
    requires { (1 ≤ head.0) × (head.0 < W) × (b + 1 + k ≤ length words.old) × (length words.old ≤ 65536) }
    ensures { map T.value words.new ≡ moved W order (map T.value words.old) (b * W + head.0) ((b + 1) * W) (k * W) }
{
    for i in (1..k + 1).rev() {
        let at = b + i;
        words[at] = joined(order, head, words[at - 1], words[at]);
    }
}

// The k words from word a on become those that begin at a head from word b on, the last one first.
fn joined_down<T: Word<W>, const W: usize>(
    words: &mut [T],
    order: Order,
    head: Index,
    b: usize,
    a: usize,
    k: usize,
)
    requires { (1 ≤ head.0) × (head.0 < W) × (b + k + 1 ≤ length words.old) × (a + k ≤ length words.old) × (b + 1 ≤ a)
        × (length words.old ≤ 65536) }
    ensures { map T.value words.new ≡ moved W order (map T.value words.old) (b * W + head.0) (a * W) (k * W) }
{
    for i in (0..k).rev() {
        words[a + i] = joined(order, head, words[b + i], words[b + i + 1]);
    }
}

// The k words from word a on become those from word b on, the last one first.
fn plain_down<T: Word<W>, const W: usize>(words: &mut [T], b: usize, a: usize, k: usize)
    requires { (b + k ≤ length words.old) × (a + k ≤ length words.old) × (b ≤ a) × (length words.old ≤ 65536) }
    ensures { (o : Order) → map T.value words.new ≡ moved W o (map T.value words.old) (b * W + 0) (a * W) (k * W) }
{
    for i in (0..k).rev() {
        words[a + i] = words[b + i];
    }
}

// The k words from word a on become those that begin at a head from word b on, the first one first.
fn joined_up<T: Word<W>, const W: usize>(
    words: &mut [T],
    order: Order,
    head: Index,
    b: usize,
    a: usize,
    k: usize,
)
    requires { (1 ≤ head.0) × (head.0 < W) × (b + k + 1 ≤ length words.old) × (a + k ≤ length words.old) × ((a ≤ b) ⊎ (b + k + 1 ≤ a))
        × (length words.old ≤ 65536) }
    ensures { map T.value words.new ≡ moved W order (map T.value words.old) (b * W + head.0) (a * W) (k * W) }
{
    for i in 0..k {
        words[a + i] = joined(order, head, words[b + i], words[b + i + 1]);
    }
}

// The k words from word a on become those from word b on, the first one first.
fn plain_up<T: Word<W>, const W: usize>(words: &mut [T], b: usize, a: usize, k: usize)
    requires { (b + k ≤ length words.old) × (a + k ≤ length words.old) × ((a ≤ b) ⊎ (b + k ≤ a)) × (length words.old ≤ 65536) }
    ensures { (o : Order) → map T.value words.new ≡ moved W o (map T.value words.old) (b * W + 0) (a * W) (k * W) }
{
    for i in 0..k {
        words[a + i] = words[b + i];
    }
}

// The last piece of the destination: n bits from a word's start on, all read before one is written.
fn last_piece<T: Word<W>, const W: usize>(
    words: &mut [T],
    order: Order,
    from: usize,
    to: usize,
    n: usize,
)
    requires { (1 ≤ n → to % W ≡ 0) × (n ≤ W) × (from + n ≤ length words.old * W) × (to + n ≤ length words.old * W) × (length words.old ≤ 65536) }
    ensures { map T.value words.new ≡ moved W order (map T.value words.old) from to n }
{
    if n == 0 {
        return;
    }
    let at = to / W * W;
    let v = fetch(words, order, from, Index(at % W), n);
    put(words, order, at, n, v);
}

// The first piece of the destination: n bits that end in the word where they begin, all read before one is written.
fn first_piece<T: Word<W>, const W: usize>(
    words: &mut [T],
    order: Order,
    from: usize,
    to: usize,
    n: usize,
)
    requires { (to % W + n ≤ W) × (from + n ≤ length words.old * W) × (to + n ≤ length words.old * W) }
    ensures { map T.value words.new ≡ moved W order (map T.value words.old) from to n }
{
    if n == 0 {
        return;
    }
    let v = fetch(words, order, from, Index(to % W), n);
    put(words, order, to, n, v);
}
