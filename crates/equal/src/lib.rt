// Equality of two rows of words of W bits. The left row is cut into a first piece, whole words and a last piece. Words are compared in
// blocks with no exit inside, since the compiler makes vector code of such a loop alone.
#![tactic(auto)]

ghost use Rattle.std.specs.Prelude.{◌≡◌, map, ◌+◌, ◌*◌, ◌%◌, ◌≤◌, ◌<◌, length, get_or};
ghost use Rattle.rules.specs.Positions.{row};
ghost use Rattle.rules.specs.Rows.{same_bits};
ghost use Rattle.rules.specs.Calls.{equal, here, there, answer};
ghost use Rattle.rules.specs.Answers.{equal_says};
ghost use Rattle.laws.proofs.Words.Funnel.{funneled};
ghost use Rattle.laws.proofs.Words.Agree.{Differs, Tells};

use refusals::check_pair;
use rules::{Index, Order, Refusal, Span};
use word::{Word, fetch, joined, lead, mask, part, read, under};

// How many bits of words are compared before the first look at whether they differ.
const BLOCK: usize = 4096;

// True exactly if the spans have the same length and the same bits. Both may lie in one buffer. Refusals 1 to 3 of the left, 1 to 3 of the
// right, 6.
pub fn equal<T: Word<W>, const W: usize>(
    left: &[T],
    left_span: Span,
    right: &[T],
    right_span: Span,
) -> Result<bool, Refusal>
    ensures { equal_says result ≡ answer W (equal here left_span (there (map T.value right.now)) right_span) (map T.value left.now) }
{
    check_pair(T::WIDTH, left.len(), left_span, right.len(), right_span)?;
    if left_span.len != right_span.len {
        return Ok(false);
    }
    let p = left_span.start(W);
    let q = right_span.start(W);
    Ok(equal_row(left, left_span.order, p, right, q, left_span.len))
}

// Whether `len` bits of the left row from place p on are those of the right row from place q on. For callers that know both to be in
// bounds.
fn equal_row<T: Word<W>, const W: usize>(
    left: &[T],
    order: Order,
    p: usize,
    right: &[T],
    q: usize,
    len: usize,
) -> bool
    requires { (p + len ≤ length left.now * W) × (q + len ≤ length right.now * W) × (length left.now ≤ 65536) × (length right.now ≤ 65536) }
    ensures { result ≡ same_bits len (λ i. row W order (map T.value left.now) (p + i)) (λ i. row W order (map T.value right.now) (q + i)) }
{
    let first = lead::<T, W>(p, len);
    let one = differ_piece(left, order, p, first, right, q).number();
    if one != 0 {
        return false;
    }
    let k = (len - first) / W;
    let two = equal_whole(left, order, p + first, k, right, q + first);
    if !two {
        return false;
    }
    let most = first + k * W;
    let three = differ_piece(left, order, p + most, len - most, right, q + most).number();
    three == 0
}

// Where n bits within one word of the left row and as many of the right row differ: 0 exactly if they are the same.
fn differ_piece<T: Word<W>, const W: usize>(
    left: &[T],
    order: Order,
    p: usize,
    n: usize,
    right: &[T],
    q: usize,
) -> T
    requires { (p % W + n ≤ W) × (p + n ≤ length left.now * W) × (q + n ≤ length right.now * W) }
    ensures { Differs (T.value result) n (λ i. row W order (map T.value left.now) (p + i)) (λ i. row W order (map T.value right.now) (q + i)) }
{
    if n == 0 {
        return T::of(0);
    }
    let head = Index(p % W);
    let v = fetch(right, order, q, head, n);
    under(mask::<T, W>(order, head, n), read(left, p / W).xor(v))
}

// Whether k whole words of the left row from place p on are the bits of the right row from place q on.
fn equal_whole<T: Word<W>, const W: usize>(
    left: &[T],
    order: Order,
    p: usize,
    k: usize,
    right: &[T],
    q: usize,
) -> bool
    requires { (1 ≤ k → p % W ≡ 0) × (p + k * W ≤ length left.now * W) × (q + k * W ≤ length right.now * W) }
    ensures { Tells result (k * W) (λ i. row W order (map T.value left.now) (p + i)) (λ i. row W order (map T.value right.now) (q + i)) }
{
    if k == 0 {
        return true;
    }
    let a = p / W;
    let b = q / W;
    let h = q % W;
    if h == 0 {
        let ours = part(left, a, a + k);
        let theirs = part(right, b, b + k);
        return equal_plain(ours, theirs);
    }
    equal_joined(left, a, k, order, right, b, Index(h))
}

// Whether k words of the left are those that begin at index `head` of the right's words and go on in the next, block by block.
fn equal_joined<T: Word<W>, const W: usize>(
    left: &[T],
    a: usize,
    k: usize,
    order: Order,
    right: &[T],
    b: usize,
    head: Index,
) -> bool
    requires { (a + k ≤ length left.now) × (b + k + 1 ≤ length right.now) × (1 ≤ head.0) × (head.0 < W) }
    ensures { Tells result k (λ i. get_or (map T.value left.now) (a + i) 0)
        (λ i. funneled W order head.0 (get_or (map T.value right.now) (b + i) 0) (get_or (map T.value right.now) (b + i + 1) 0)) }
{
    let size = BLOCK / W;
    let mut i = 0;
    while size <= k - i {
        let v = differ_joined(left, a + i, size, order, right, b + i, head).number();
        if v != 0 {
            return false;
        }
        i = i + size;
    }
    differ_joined(left, a + i, k - i, order, right, b + i, head).number() == 0
}

// Whether the words of the left are those of the right as they stand, block by block.
fn equal_plain<T: Word<W>, const W: usize>(left: &[T], right: &[T]) -> bool
    requires { length left.now ≡ length right.now }
    ensures { Tells result (length left.now) (λ i. get_or (map T.value left.now) i 0) (λ i. get_or (map T.value right.now) i 0) }
{
    let size = BLOCK / W;
    let mut ours = left;
    let mut theirs = right;
    while size <= ours.len() {
        if differ_plain(&ours[..size], &theirs[..size]).number() != 0 {
            return false;
        }
        ours = &ours[size..];
        theirs = &theirs[size..];
    }
    differ_plain(ours, theirs).number() == 0
}

// Where n words of the left and n words of the right at a head differ, gathered in one word: 0 exactly if they are the same.
fn differ_joined<T: Word<W>, const W: usize>(
    left: &[T],
    a: usize,
    n: usize,
    order: Order,
    right: &[T],
    b: usize,
    head: Index,
) -> T
    requires { (a + n ≤ length left.now) × (b + n + 1 ≤ length right.now) × (1 ≤ head.0) × (head.0 < W) }
    ensures { Differs (T.value result) n (λ i. get_or (map T.value left.now) (a + i) 0)
        (λ i. funneled W order head.0 (get_or (map T.value right.now) (b + i) 0) (get_or (map T.value right.now) (b + i + 1) 0)) }
{
    let mut v = T::of(0);
    for i in 0..n {
        let x = joined(order, head, read(right, b + i), read(right, b + i + 1));
        v = v.or(read(left, a + i).xor(x));
    }
    v
}

// Where words of the left and as many of the right differ, gathered in one word: 0 exactly if they are the same.
fn differ_plain<T: Word<W>, const W: usize>(left: &[T], right: &[T]) -> T
    requires { length left.now ≡ length right.now }
    ensures { Differs (T.value result) (length left.now) (λ i. get_or (map T.value left.now) i 0) (λ i. get_or (map T.value right.now) i 0) }
{
    let mut v = T::of(0);
    for (i, &x) in left.iter().enumerate() {
        v = v.or(x.xor(right[i]));
    }
    v
}
