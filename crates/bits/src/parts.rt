// The parts of a field in memory: a piece of one word, which does not depend on the significance, and whole words, which do not depend on
// the order.
ghost use Rattle.std.specs.Prelude.{map, ◌≡◌, ◌+◌, ◌-◌, ◌*◌, ◌%◌, ◌^◌, ◌<◌, ◌≤◌, length};
ghost use Rattle.rules.specs.declared.Order.{Order};
ghost use Rattle.rules.specs.declared.Significance.{Significance};
ghost use Rattle.rules.specs.Fields.{load_of, store_of};

use chunk::{put_word, word_at};
use rules::{Index, Order, Significance};
use word::{Word, part};

// The n bits of a word from index `head` on, as a number.
pub fn piece_at<T: Word<W>, const W: usize>(
    words: &[T],
    order: Order,
    word: usize,
    head: Index,
    n: usize,
) -> u64
    requires { (1 ≤ n) × (head.0 + n ≤ W) × (word < length words.now) }
    ensures { ((e : Significance) → result ≡ load_of W order e (map T.value words.now) (word * W + head.0) n) × (result < 2 ^ n) }
{
    let x = word_at(words, word);
    pieces::piece(W, x, order, head, n)
}

// The low n bits of a number, put in place of the n bits of a word from index `head` on.
pub fn put_piece<T: Word<W>, const W: usize>(
    words: &mut [T],
    order: Order,
    word: usize,
    head: Index,
    n: usize,
    v: u64,
)
    requires { (1 ≤ n) × (head.0 + n ≤ W) × (word < length words.old) }
    ensures { (e : Significance) → map T.value words.new ≡ store_of W order e (map T.value words.old) (word * W + head.0) n v }
{
    let x = word_at(words, word);
    let y = pieces::with_piece(W, x, order, head, n, v);
    put_word(words, word, y);
}

// The number that `whole` words from word `start` on are.
pub fn load_middle<T: Word<W>, const W: usize>(
    words: &[T],
    significance: Significance,
    start: usize,
    whole: usize,
) -> u64
    requires { (whole * W ≤ 63) × (start + whole ≤ length words.now) }
    ensures { (o : Order) → result ≡ load_of W o significance (map T.value words.now) (start * W) (whole * W) }
{
    let end = start + whole;
    load_whole(part(words, start, end), significance)
}

// The bits of a number, put in place of `whole` words from word `start` on. They are lent on as a part of their own.
pub fn store_middle<T: Word<W>, const W: usize>(
    words: &mut [T],
    significance: Significance,
    start: usize,
    whole: usize,
    v: u64,
)
    requires { (whole * W ≤ 63) × (start + whole ≤ length words.old) }
    ensures { (o : Order) → map T.value words.new ≡ store_of W o significance (map T.value words.old) (start * W) (whole * W) v }
{
    let end = start + whole;
    store_whole(&mut words[start..end], significance, v);
}

// All words of a part made anew, of the bits of a number.
fn store_whole<T: Word<W>, const W: usize>(part: &mut [T], significance: Significance, v: u64)
    requires { length part.old * W ≤ 63 }
    ensures { (o : Order) → map T.value part.new ≡ store_of W o significance (map T.value part.old) 0 (length part.old * W) v }
{
    let n = part.len();
    for (i, word) in part.iter_mut().enumerate() {
        let upper = pieces::first_of(significance, v, (n - 1 - i) * W);
        *word = T::of(pieces::rest_of(significance, upper, i * W));
    }
}

// The number that all words of a part are.
fn load_whole<T: Word<W>, const W: usize>(part: &[T], significance: Significance) -> u64
    requires { length part.now * W ≤ 63 }
    ensures { (o : Order) → result ≡ load_of W o significance (map T.value part.now) 0 (length part.now * W) }
{
    let mut x: u64 = 0;
    for (i, &word) in part.iter().enumerate() {
        x = pieces::join(significance, x, i * W, word.number(), W);
    }
    x
}
