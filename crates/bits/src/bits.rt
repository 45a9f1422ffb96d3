// Fields of more than one piece, as numbers, for callers that know the span to be in bounds: a first piece, whole words, a last piece.
ghost use Rattle.std.specs.Prelude.{map, ◌≡◌, ◌+◌, ◌*◌, ◌^◌, ◌<◌, ◌≤◌, length};
ghost use Rattle.rules.specs.Fields.{load_of, store_of};
ghost use Rattle.laws.proofs.Fields.Chunk.{chunk};

use crate::parts::{load_middle, piece_at, put_piece, store_middle};
use pieces::Cut;
use rules::{Index, Order, Significance};
use word::Word;

// The number that a field's bits are, from index `head` of a word on.
pub fn load_bits<T: Word<W>, const W: usize>(
    words: &[T],
    order: Order,
    significance: Significance,
    word: usize,
    head: Index,
    len: usize,
) -> u64
    requires { (head.0 < W) × (W < head.0 + len) × (len ≤ chunk) × (word * W + head.0 + len ≤ length words.now * W) }
    ensures { (result ≡ load_of W order significance (map T.value words.now) (word * W + head.0) len) × (result < 2 ^ len) }
{
    let cut = Cut::across(W, head, len);
    let first = cut.first;
    let whole = cut.whole;
    let last = cut.last;
    let a = piece_at(words, order, word, head, first);
    let b = load_rest(words, order, significance, word + 1, whole, last);
    pieces::join(significance, a, first, b, len - first)
}

// The low bits of a number, placed in a field so that a load returns them. All other bits stay.
pub fn store_bits<T: Word<W>, const W: usize>(
    words: &mut [T],
    order: Order,
    significance: Significance,
    word: usize,
    head: Index,
    len: usize,
    v: u64,
)
    requires { (head.0 < W) × (W < head.0 + len) × (len ≤ chunk) × (word * W + head.0 + len ≤ length words.old * W) }
    ensures { map T.value words.new ≡ store_of W order significance (map T.value words.old) (word * W + head.0) len v }
{
    let cut = Cut::across(W, head, len);
    let first = cut.first;
    let whole = cut.whole;
    let last = cut.last;
    let a = pieces::first_of(significance, v, len - first);
    put_piece(words, order, word, head, first, a);
    let b = pieces::rest_of(significance, v, first);
    store_rest(words, order, significance, word + 1, whole, last, b);
}

// What follows the first piece: the low bits of a number, placed in `whole` words from word `start` on and in `last` bits of the word after
// them.
fn store_rest<T: Word<W>, const W: usize>(
    words: &mut [T],
    order: Order,
    significance: Significance,
    start: usize,
    whole: usize,
    last: usize,
    v: u64,
)
    requires { (last < W) × (whole * W + last ≤ 63) × (start * W + (whole * W + last) ≤ length words.old * W) }
    ensures { map T.value words.new ≡ store_of W order significance (map T.value words.old) (start * W) (whole * W + last) v }
{
    let a = pieces::first_of(significance, v, last);
    store_middle(words, significance, start, whole, a);
    if last == 0 {
        return;
    }
    let b = pieces::rest_of(significance, v, whole * W);
    put_piece(words, order, start + whole, Index(0), last, b);
}

// What follows the first piece: the number that `whole` words from word `start` on are together with `last` bits of the word after them.
fn load_rest<T: Word<W>, const W: usize>(
    words: &[T],
    order: Order,
    significance: Significance,
    start: usize,
    whole: usize,
    last: usize,
) -> u64
    requires { (last < W) × (whole * W + last ≤ 63) × (start * W + (whole * W + last) ≤ length words.now * W) }
    ensures { (result ≡ load_of W order significance (map T.value words.now) (start * W) (whole * W + last)) × (result < 2 ^ (whole * W + last)) }
{
    let a = load_middle(words, significance, start, whole);
    if last == 0 {
        return a;
    }
    let b = piece_at(words, order, start + whole, Index(0), last);
    pieces::join(significance, a, whole * W, b, last)
}
