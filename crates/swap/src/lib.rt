// Swap of two rows in two buffers of words of W bits. Rows at the same head are exchanged in place, word by word. Rows at different heads
// go block by block: the left block waits in scratch words while the right one is copied over it.
#![tactic(auto)]

ghost use Rattle.std.specs.Prelude.{map, ◌≡◌, ℕ, ◌+◌, ◌*◌, ◌%◌, ◌≤◌, length};
ghost use Rattle.rules.specs.declared.Order.{Order};
ghost use Rattle.rules.specs.Positions.{row, spliced};
ghost use Rattle.rules.specs.Answers.{write_says, Swaps};

use copy::copy_row;
use refusals::check_copy;
use rules::{Order, Refusal, Span, Width};
use word::{Word, lead, least, put, read};

// Each span gets the other's old bits; the lengths are equal. Refusals 1 to 3 of the left, 1 to 3 of the right, 6, 7.
pub fn swap<T: Word<W>, const W: usize>(
    left: &mut [T],
    left_span: Span,
    right: &mut [T],
    right_span: Span,
) -> Result<(), Refusal>
    ensures { Swaps W (map T.value left.old) left_span (map T.value right.old) right_span (write_says result) (map T.value left.new)
        (map T.value right.new) }
{
    check_copy(T::WIDTH, left.len(), left_span, right.len(), right_span)?;
    let d = left_span.start(W);
    let s = right_span.start(W);
    swap_row(left, left_span.order, d, right, s, left_span.len);
    Ok(())
}

// `len` bits of the left row from place d on and of the right row from place s on change sides.
fn swap_row<T: Word<W>, const W: usize>(
    left: &mut [T],
    order: Order,
    d: usize,
    right: &mut [T],
    s: usize,
    len: usize,
)
    requires { (d + len ≤ length left.old * W) × (s + len ≤ length right.old * W) × (length left.old ≤ 65536) × (length right.old ≤ 65536) }
    ensures { (map T.value left.new ≡ spliced W order (map T.value left.old) d len (λ i. row W order (map T.value right.old) (s + i)))
        × (map T.value right.new ≡ spliced W order (map T.value right.old) s len (λ i. row W order (map T.value left.old) (d + i))) }
{
    if d % W == s % W {
        in_place(left, order, d, right, s, len);
        return;
    }
    by_scratch(left, order, d, right, s, len);
}

// The same where both begin at the same index of a word: a first piece, whole words, a last piece.
fn in_place<T: Word<W>, const W: usize>(
    left: &mut [T],
    order: Order,
    d: usize,
    right: &mut [T],
    s: usize,
    len: usize,
)
    requires { (d % W ≡ s % W) × (d + len ≤ length left.old * W) × (s + len ≤ length right.old * W) × (length left.old ≤ 65536)
        × (length right.old ≤ 65536) }
    ensures { (map T.value left.new ≡ spliced W order (map T.value left.old) d len (λ i. row W order (map T.value right.old) (s + i)))
        × (map T.value right.new ≡ spliced W order (map T.value right.old) s len (λ i. row W order (map T.value left.old) (d + i))) }
{
    let first = lead::<T, W>(d, len);
    piece(left, order, d, right, s, first);
    let k = (len - first) / W;
    whole(left, d + first, right, s + first, k);
    let most = first + k * W;
    piece(left, order, d + most, right, s + most, len - most);
}

// n bits that lie within one word of either row change sides.
fn piece<T: Word<W>, const W: usize>(
    left: &mut [T],
    order: Order,
    d: usize,
    right: &mut [T],
    s: usize,
    n: usize,
)
    requires { (d % W ≡ s % W) × (d % W + n ≤ W) × (d + n ≤ length left.old * W) × (s + n ≤ length right.old * W) × (length left.old ≤ 65536)
        × (length right.old ≤ 65536) }
    ensures { (map T.value left.new ≡ spliced W order (map T.value left.old) d n (λ i. row W order (map T.value right.old) (s + i)))
        × (map T.value right.new ≡ spliced W order (map T.value right.old) s n (λ i. row W order (map T.value left.old) (d + i))) }
{
    if n == 0 {
        return;
    }
    let a = d / W;
    let b = s / W;
    let x = read(left, a);
    let y = read(right, b);
    put(left, order, d, n, y);
    put(right, order, s, n, x);
}

// k whole words of either row change sides.
fn whole<T: Word<W>, const W: usize>(left: &mut [T], d: usize, right: &mut [T], s: usize, k: usize)
    requires { (1 ≤ k → d % W ≡ 0) × (d % W ≡ s % W) × (d + k * W ≤ length left.old * W) × (s + k * W ≤ length right.old * W)
        × (length left.old ≤ 65536) × (length right.old ≤ 65536) }
    ensures { (o : Order) → (map T.value left.new ≡ spliced W o (map T.value left.old) d (k * W) (λ i. row W o (map T.value right.old) (s + i)))
        × (map T.value right.new ≡ spliced W o (map T.value right.old) s (k * W) (λ i. row W o (map T.value left.old) (d + i))) }
{
    if k == 0 {
        return;
    }
    let a = d / W;
    let e = a + k;
    let b = s / W;
    let f = b + k;
    left[a..e].swap_with_slice(&mut right[b..f]);
}

// `len` bits at different heads change sides, through scratch words: 1024 bytes of them for a long row, and a few for a short one, so that it
// does not wait for many to be set.
fn by_scratch<T: Word<W>, const W: usize>(
    left: &mut [T],
    order: Order,
    d: usize,
    right: &mut [T],
    s: usize,
    len: usize,
)
    requires { (d + len ≤ length left.old * W) × (s + len ≤ length right.old * W) × (length left.old ≤ 65536) × (length right.old ≤ 65536) }
    ensures { (map T.value left.new ≡ spliced W order (map T.value left.old) d len (λ i. row W order (map T.value right.old) (s + i)))
        × (map T.value right.new ≡ spliced W order (map T.value right.old) s len (λ i. row W order (map T.value left.old) (d + i))) }
{
    match T::WIDTH {
        Width::W8 => through::<T, W, 16, 1024>(left, order, d, right, s, len),
        Width::W64 => through::<T, W, 4, 128>(left, order, d, right, s, len),
    }
}

// The same through FEW scratch words where they hold the row wherever in a word it begins, and else through MANY, block by block.
fn through<T: Word<W>, const W: usize, const FEW: usize, const MANY: usize>(
    left: &mut [T],
    order: Order,
    d: usize,
    right: &mut [T],
    s: usize,
    len: usize,
)
    requires { (d + len ≤ length left.old * W) × (s + len ≤ length right.old * W) × (length left.old ≤ 65536) × (length right.old ≤ 65536)
        × (1 ≤ FEW) × (FEW ≤ 65536) × (2 ≤ MANY) × (MANY ≤ 65536) }
    ensures { (map T.value left.new ≡ spliced W order (map T.value left.old) d len (λ i. row W order (map T.value right.old) (s + i)))
        × (map T.value right.new ≡ spliced W order (map T.value right.old) s len (λ i. row W order (map T.value left.old) (d + i))) }
{
    if len <= (FEW - 1) * W {
        let mut few = [T::of(0); FEW];
        block(left, order, d, right, s, len, &mut few);
        return;
    }
    let mut scratch = [T::of(0); MANY];
    blocks(left, order, d, right, s, len, &mut scratch, (MANY - 1) * W);
}

// `len` bits change sides, at most `most` of them at a time.
fn blocks<T: Word<W>, const W: usize>(
    left: &mut [T],
    order: Order,
    d: usize,
    right: &mut [T],
    s: usize,
    len: usize,
    scratch: &mut [T],
    most: usize,
)
    requires { (d + len ≤ length left.old * W) × (s + len ≤ length right.old * W) × (length left.old ≤ 65536) × (length right.old ≤ 65536)
        × (1 ≤ most) × (most + W ≤ length scratch.old * W) × (length scratch.old ≤ 65536) }
    ensures { (map T.value left.new ≡ spliced W order (map T.value left.old) d len (λ i. row W order (map T.value right.old) (s + i)))
        × (map T.value right.new ≡ spliced W order (map T.value right.old) s len (λ i. row W order (map T.value left.old) (d + i))) }
{
    let mut i: usize = 0;
    while i < len {
        let n = least(len - i, most);
        block(left, order, d + i, right, s + i, n, scratch);
        i += n;
    }
}

// n bits change sides through the scratch words.
fn block<T: Word<W>, const W: usize>(
    left: &mut [T],
    order: Order,
    d: usize,
    right: &mut [T],
    s: usize,
    n: usize,
    scratch: &mut [T],
)
    requires { (d + n ≤ length left.old * W) × (s + n ≤ length right.old * W) × (d % W + n ≤ length scratch.old * W)
        × (length left.old ≤ 65536) × (length right.old ≤ 65536) × (length scratch.old ≤ 65536) }
    ensures { (map T.value left.new ≡ spliced W order (map T.value left.old) d n (λ i. row W order (map T.value right.old) (s + i)))
        × (map T.value right.new ≡ spliced W order (map T.value right.old) s n (λ i. row W order (map T.value left.old) (d + i))) }
{
    let g = d % W;
    copy_row(scratch, order, g, left, d, n);
    copy_row(left, order, d, right, s, n);
    copy_row(right, order, s, scratch, g, n);
}
