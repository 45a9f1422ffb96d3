// Searches from the last bit back. They end just past the bit, at one more than its index, or at 0 where there is none.
ghost use Rattle.std.specs.Prelude.{◌≡◌, map, ◌+◌, ◌*◌, ◌≤◌, ◌<◌, length};
ghost use Rattle.rules.specs.Positions.{row};
ghost use Rattle.rules.specs.Rows.{last_with};
ghost use Rattle.rules.specs.Calls.{digit};

use crate::leaves::sought_in;
use crate::whole::skip_down;
use rules::{Index, Order, Span};
use word::{Word, flip, last_end, least};

// Where a search of a span ends. The last word settles it, or the words before it do. What is further is called
// apart for ones and for zeros, which keeps the loops out of line and this function short. It stands in its callers, each of which seeks one kind.
#[inline(always)]
pub fn last_in_row<T: Word<W>, const W: usize>(words: &[T], span: Span, sought: bool) -> usize
    requires { (span.head.0 < W) × (span.word * W + span.head.0 + span.len ≤ length words.now * W) × (length words.now ≤ 65536) }
    ensures { result ≡ last_with span.len (λ i. row W span.order (map T.value words.now) (span.word * W + span.head.0 + i)) (digit sought) }
{
    let Span {
        order,
        word,
        head,
        len,
    } = span;
    let end = head.0 + len;
    if end <= W {
        return last_in_word(words, order, sought, word, head, len);
    }
    let e = word + end / W;
    let t = end % W;
    let m = len - t;
    let r = last_in_word(words, order, sought, e, Index(0), t);
    if 0 < r {
        return m + r;
    }
    if sought {
        last_further(words, order, true, word, head, e, m)
    } else {
        last_further(words, order, false, word, head, e, m)
    }
}

// Where a search of m bits from index `head` of a word up to the start of word e ends: whole words without the bit are passed over, and the
// next piece settles it.
fn last_further<T: Word<W>, const W: usize>(
    words: &[T],
    order: Order,
    sought: bool,
    word: usize,
    head: Index,
    e: usize,
    m: usize,
) -> usize
    requires { (head.0 < W) × (word < e) × (e * W ≡ word * W + head.0 + m) × (e ≤ length words.now) × (length words.now ≤ 65536) }
    ensures { result ≡ last_with m (λ i. row W order (map T.value words.now) (word * W + head.0 + i)) (digit sought) }
{
    let j = skip_down(words, word + 1, e, flip(sought));
    let i = m - (e - j) * W;
    let n = least(i, W);
    let h = W - n;
    i - n + last_in_word(words, order, sought, j - 1, Index(h), n)
}

// Where a search of n bits from index `head` of word k on ends.
fn last_in_word<T: Word<W>, const W: usize>(
    words: &[T],
    order: Order,
    sought: bool,
    k: usize,
    head: Index,
    n: usize,
) -> usize
    requires { (head.0 + n ≤ W) × (k * W + head.0 + n ≤ length words.now * W) }
    ensures { result ≡ last_with n (λ i. row W order (map T.value words.now) (k * W + head.0 + i)) (digit sought) }
{
    if n == 0 {
        return 0;
    }
    let h = head.0;
    let r = last_end(order, sought_in(words, order, sought, k, head, n)).0;
    if r == 0 { 0 } else { r - h }
}
