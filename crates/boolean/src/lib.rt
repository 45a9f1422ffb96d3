// Boolean operations on two rows of words, the result into the left one. An operation is the number of its truth table: the result for left bit a and
// right bit b is bit 2a + b of it (and 8, or 14, xor 6). The left row is cut into a first piece up to a word's end, whole words and a last piece.
#![tactic(auto)]

ghost use Rattle.std.specs.Prelude.{◌≡◌, ℕ, map, ◌+◌, ◌-◌, ◌*◌, ◌/◌, ◌%◌, ◌≤◌, ◌<◌, length, get_or};
ghost use Rattle.rules.specs.Bits.{bit_n};
ghost use Rattle.rules.specs.Positions.{position, row, spliced};
ghost use Rattle.rules.specs.Rows.{applied};
ghost use Rattle.rules.specs.Calls.{boolean, answer, after};
ghost use Rattle.rules.specs.Answers.{write_says, Gives};

use combine::{apply, funnel_cases, plain_cases, rest_words};
use refusals::check_pair;
use rules::{Index, Order, Refusal, Span};
use word::{Word, fetch, lead, least, part, put, read};

// Each bit of the left span becomes the operation of it and the right span's bit of the same index; where the right span has ended, its
// bits count as 0. Refusals 1 to 3 of the left, 1 to 3 of the right, 6.
pub fn boolean<T: Word<W>, const W: usize>(
    words: &mut [T],
    span: Span,
    right: &[T],
    right_span: Span,
    operation: u8,
) -> Result<(), Refusal>
    ensures { Gives W (boolean operation span (map T.value right.now) right_span) (map T.value words.old) (write_says result)
        (map T.value words.new) }
{
    check_pair(T::WIDTH, words.len(), span, right.len(), right_span)?;
    let order = span.order;
    let len = span.len;
    let d = span.start(W);
    let s = right_span.start(W);
    let m = least(len, right_span.len);
    between(words, order, d, m, operation, right, s);
    rest(words, order, d + m, len - m, operation);
    Ok(())
}

// The part of the left row, `len` bits from place d on, to which the right row does not reach: each bit is combined with 0.
fn rest<T: Word<W>, const W: usize>(
    words: &mut [T],
    order: Order,
    d: usize,
    len: usize,
    operation: u8,
)
    requires { (d + len ≤ length words.old * W) × (length words.old ≤ 65536) }
    ensures { map T.value words.new ≡ spliced W order (map T.value words.old) d len
        (λ i. applied operation (row W order (map T.value words.old) (d + i)) 0) }
{
    if len == 0 {
        return;
    }
    let first = lead::<T, W>(d, len);
    none_piece(words, order, d, first, operation);
    let k = (len - first) / W;
    rest_whole(words, order, d + first, k, operation);
    let most = first + k * W;
    none_piece(words, order, d + most, len - most, operation);
}

// Its whole words: k of them from place d on, which is a word's start.
fn rest_whole<T: Word<W>, const W: usize>(
    words: &mut [T],
    order: Order,
    d: usize,
    k: usize,
    operation: u8,
)
    requires { (1 ≤ k → d % W ≡ 0) × (d + k * W ≤ length words.old * W) }
    ensures { map T.value words.new ≡ spliced W order (map T.value words.old) d (k * W)
        (λ i. applied operation (row W order (map T.value words.old) (d + i)) 0) }
{
    if k == 0 {
        return;
    }
    let a = d / W;
    let e = a + k;
    rest_words(&mut words[a..e], operation);
}

// Its pieces: n bits within one word from place d on, combined with 0.
fn none_piece<T: Word<W>, const W: usize>(
    words: &mut [T],
    order: Order,
    d: usize,
    n: usize,
    operation: u8,
)
    requires { (d % W + n ≤ W) × (d + n ≤ length words.old * W) }
    ensures { map T.value words.new ≡ spliced W order (map T.value words.old) d n
        (λ i. applied operation (row W order (map T.value words.old) (d + i)) 0) }
{
    if n == 0 {
        return;
    }
    piece(words, order, d, n, operation, T::of(0));
}

// `len` bits of the left row from place d on, each combined with the right row's bit, which begins at place s.
fn between<T: Word<W>, const W: usize>(
    words: &mut [T],
    order: Order,
    d: usize,
    len: usize,
    operation: u8,
    right: &[T],
    s: usize,
)
    requires { (d + len ≤ length words.old * W) × (s + len ≤ length right.now * W) × (length words.old ≤ 65536) × (length right.now ≤ 65536) }
    ensures { map T.value words.new ≡ spliced W order (map T.value words.old) d len
        (λ i. applied operation (row W order (map T.value words.old) (d + i)) (row W order (map T.value right.now) (s + i))) }
{
    let first = lead::<T, W>(d, len);
    first_piece(words, order, d, first, operation, right, s);
    let k = (len - first) / W;
    whole_words(words, order, d + first, k, operation, right, s + first);
    let most = first + k * W;
    last_piece(
        words,
        order,
        d + most,
        len - most,
        operation,
        right,
        s + most,
    );
}

// The last piece of the left row: n bits from a word's start on. Each order has code of its own, so that the compiler knows it there.
fn last_piece<T: Word<W>, const W: usize>(
    words: &mut [T],
    order: Order,
    d: usize,
    n: usize,
    operation: u8,
    right: &[T],
    s: usize,
)
    requires { (1 ≤ n → d % W ≡ 0) × (n ≤ W) × (d + n ≤ length words.old * W) × (s + n ≤ length right.now * W) × (length words.old ≤ 65536) }
    ensures { map T.value words.new ≡ spliced W order (map T.value words.old) d n
        (λ i. applied operation (row W order (map T.value words.old) (d + i)) (row W order (map T.value right.now) (s + i))) }
{
    if n == 0 {
        return;
    }
    let at = d / W * W;
    match order {
        Order::Lsb0 => {
            let v = fetch(right, Order::Lsb0, s, Index(at % W), n);
            piece(words, Order::Lsb0, at, n, operation, v);
        }
        Order::Msb0 => {
            let v = fetch(right, Order::Msb0, s, Index(at % W), n);
            piece(words, Order::Msb0, at, n, operation, v);
        }
    }
}

// The first piece of the left row: n bits that end in the word where they begin. Each order has code of its own, so that the compiler knows
// it there.
fn first_piece<T: Word<W>, const W: usize>(
    words: &mut [T],
    order: Order,
    d: usize,
    n: usize,
    operation: u8,
    right: &[T],
    s: usize,
)
    requires { (d % W + n ≤ W) × (d + n ≤ length words.old * W) × (s + n ≤ length right.now * W) }
    ensures { map T.value words.new ≡ spliced W order (map T.value words.old) d n
        (λ i. applied operation (row W order (map T.value words.old) (d + i)) (row W order (map T.value right.now) (s + i))) }
{
    if n == 0 {
        return;
    }
    match order {
        Order::Lsb0 => {
            let v = fetch(right, Order::Lsb0, s, Index(d % W), n);
            piece(words, Order::Lsb0, d, n, operation, v);
        }
        Order::Msb0 => {
            let v = fetch(right, Order::Msb0, s, Index(d % W), n);
            piece(words, Order::Msb0, d, n, operation, v);
        }
    }
}

// n bits within one word of the left row, combined with the bits that v has at the same indexes.
fn piece<T: Word<W>, const W: usize>(
    words: &mut [T],
    order: Order,
    d: usize,
    n: usize,
    operation: u8,
    v: T,
)
    requires { (1 ≤ n) × (d % W + n ≤ W) × (d + n ≤ length words.old * W) }
    ensures { map T.value words.new ≡ spliced W order (map T.value words.old) d n
        (λ i. applied operation (row W order (map T.value words.old) (d + i)) (bit_n (T.value v) (position W order (d % W + i)))) }
{
    let word = d / W;
    let x = apply(operation, read(words, word), v);
    put(words, order, d, n, x);
}

// k whole words of the left row from place d on. They are lent on as a part of their own, so that the loops below begin at word 0.
fn whole_words<T: Word<W>, const W: usize>(
    words: &mut [T],
    order: Order,
    d: usize,
    k: usize,
    operation: u8,
    right: &[T],
    s: usize,
)
    requires { (1 ≤ k → d % W ≡ 0) × (d + k * W ≤ length words.old * W) × (s + k * W ≤ length right.now * W) × (length right.now ≤ 65536) }
    ensures { map T.value words.new ≡ spliced W order (map T.value words.old) d (k * W)
        (λ i. applied operation (row W order (map T.value words.old) (d + i)) (row W order (map T.value right.now) (s + i))) }
{
    if k == 0 {
        return;
    }
    let a = d / W;
    let e = a + k;
    let b = s / W;
    let h = s % W;
    if h == 0 {
        let f = b + k;
        plain_cases(&mut words[a..e], operation, part(right, b, f));
        return;
    }
    let f = b + k + 1;
    funnel_cases(
        &mut words[a..e],
        order,
        operation,
        part(right, b, f),
        Index(h),
    );
}
