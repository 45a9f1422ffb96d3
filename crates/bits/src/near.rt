// Fields whose significance goes with their order, le with Lsb0 and be with Msb0. Their bits follow each other as in one long number, so
// they are read through a chunk of 64 bits that begins with their first word, and a piece of the word after the chunk.
ghost use Rattle.std.specs.Prelude.{map, true, ◌≡◌, ◌+◌, ◌*◌, ◌^◌, ◌<◌, ◌≤◌, length};
ghost use Rattle.rules.specs.Fields.{load_of, store_of};
ghost use Rattle.laws.proofs.Fields.Chunk.{own, chunk};

use crate::parts::{piece_at, put_piece};
use chunk::Chunk;
use pieces::{CHUNK, Cut};
use rules::{Index, Order, Significance};
use word::Word;

// The number that such a field holds, where the chunk lies within the lent words.
pub fn load_near<T: Chunk<W>, const W: usize>(
    words: &[T],
    order: Order,
    significance: Significance,
    word: usize,
    head: Index,
    len: usize,
) -> u64
    requires { (head.0 < W) × (1 ≤ len) × (len ≤ chunk) × (word * W + head.0 + len ≤ length words.now * W)
        × (word * W + chunk ≤ length words.now * W) × (significance ≡ own order) }
    ensures { (result ≡ load_of W order significance (map T.value words.now) (word * W + head.0) len) × (result < 2 ^ len) }
{
    let cut = Cut::of(CHUNK, head, len);
    let first = cut.first;
    let last = cut.last;
    let x = T::chunk_at(words, order, word);
    let a = pieces::piece(CHUNK, x, order, head, first);
    if first == len {
        return a;
    }
    let b = piece_at(words, order, word + CHUNK / W, Index(0), last);
    pieces::join(significance, a, first, b, last)
}

// The low bits of a number, placed in such a field, where the chunk lies within the lent words.
#[inline(always)]
pub fn store_near<T: Chunk<W>, const W: usize>(
    words: &mut [T],
    order: Order,
    significance: Significance,
    word: usize,
    head: Index,
    len: usize,
    v: u64,
)
    requires { (head.0 < W) × (1 ≤ len) × (len ≤ chunk) × (word * W + head.0 + len ≤ length words.old * W)
        × (word * W + chunk ≤ length words.old * W) × (significance ≡ own order) }
    ensures { map T.value words.new ≡ store_of W order significance (map T.value words.old) (word * W + head.0) len v }
{
    let cut = Cut::of(CHUNK, head, len);
    let first = cut.first;
    let last = cut.last;
    let x = T::chunk_at(words, order, word);
    let a = pieces::first_of(significance, v, last);
    let y = pieces::with_piece(CHUNK, x, order, head, first, a);
    T::put_chunk(words, order, word, y);
    if first == len {
        return;
    }
    let b = pieces::rest_of(significance, v, first);
    put_piece(words, order, word + CHUNK / W, Index(0), last, b);
}

// Whether to go through a chunk where so many words are left: it has to be more than one word, and all of it has to be there. For words of
// 64 bits the answer is always no, and the code for it is left out.
pub fn pays<T: Word<W>, const W: usize>(room: usize) -> bool
    ensures { result ≡ true → chunk ≤ room * W }
{
    let many = CHUNK / W;
    if many == 1 {
        return false;
    }
    many <= room
}
