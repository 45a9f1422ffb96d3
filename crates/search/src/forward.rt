// Searches from the first bit on. They end at the index of the bit, or at the number of bits where there is none.
ghost use Rattle.std.specs.Prelude.{◌≡◌, map, ◌+◌, ◌*◌, ◌≤◌, ◌<◌, length};
ghost use Rattle.rules.specs.Positions.{row};
ghost use Rattle.rules.specs.Rows.{first_with};
ghost use Rattle.rules.specs.Calls.{digit};

use crate::leaves::sought_in;
use crate::whole::skip_up;
use rules::{Index, Order, Span};
use word::{Word, flip, least, zeros_end};

// Where a search of a span ends. The first word settles it, or the words after it do. What is further is called
// apart for ones and for zeros, which keeps the loops out of line and this function short.
pub fn first_in_row<T: Word<W>, const W: usize>(words: &[T], span: Span, sought: bool) -> usize
    requires { (span.head.0 < W) × (span.word * W + span.head.0 + span.len ≤ length words.now * W) × (length words.now ≤ 65536) }
    ensures { result ≡ first_with span.len (λ i. row W span.order (map T.value words.now) (span.word * W + span.head.0 + i)) (digit sought) }
{
    let Span {
        order,
        word,
        head,
        len,
    } = span;
    let h = head.0;
    let t = least(W - h, len);
    let r = first_in_word(words, order, sought, word, head, t);
    if t == len {
        return r;
    }
    if r < t {
        return r;
    }
    if sought {
        t + first_further(words, order, true, word + 1, len - t)
    } else {
        t + first_further(words, order, false, word + 1, len - t)
    }
}

// Where a search of `len` bits from the start of word a on ends: whole words without the bit are passed over, and the next piece settles
// it.
fn first_further<T: Word<W>, const W: usize>(
    words: &[T],
    order: Order,
    sought: bool,
    a: usize,
    len: usize,
) -> usize
    requires { (a * W + len ≤ length words.now * W) × (length words.now ≤ 65536) }
    ensures { result ≡ first_with len (λ i. row W order (map T.value words.now) (a * W + i)) (digit sought) }
{
    let e = a + len / W;
    let j = skip_up(words, a, e, flip(sought));
    let i = (j - a) * W;
    let n = least(len - i, W);
    i + first_in_word(words, order, sought, j, Index(0), n)
}

// Where a search of n bits from index `head` of word k on ends.
fn first_in_word<T: Word<W>, const W: usize>(
    words: &[T],
    order: Order,
    sought: bool,
    k: usize,
    head: Index,
    n: usize,
) -> usize
    requires { (head.0 + n ≤ W) × (k * W + head.0 + n ≤ length words.now * W) }
    ensures { result ≡ first_with n (λ i. row W order (map T.value words.now) (k * W + head.0 + i)) (digit sought) }
{
    if n == 0 {
        return 0;
    }
    let h = head.0;
    let r = zeros_end(order, sought_in(words, order, sought, k, head, n)).0;
    if r < W { r - h } else { n }
}
