// 64 bits of a row at once, as a number of the significance that goes with the order: le for Lsb0, be for Msb0.
ghost use Rattle.std.specs.Prelude.{◌≡◌, map, ◌+◌, ◌*◌, ◌^◌, ◌<◌, ◌≤◌, length};
ghost use Rattle.rules.specs.Fields.{load_of, store_of};
ghost use Rattle.laws.proofs.Fields.Chunk.{own, chunk};

use crate::bytes::{eight_at, put_eight, turn_eight};
use crate::words::{put_word, word_at};
use rules::{Order, Significance};
use word::Word;

// A word of which as many as 64 bits take are read and written together.
pub trait Chunk<const W: usize>: Word<W> {
    // The chunk that begins with word `at`.
    fn chunk_at(words: &[Self], order: Order, at: usize) -> u64
        requires { at * W + chunk ≤ length words.now * W }
        ensures { (result ≡ load_of W order (own order) (map Self.value words.now) (at * W) chunk) × (result < 2 ^ chunk) };

    // The chunk that begins with word `at`, made anew.
    fn put_chunk(words: &mut [Self], order: Order, at: usize, v: u64)
        requires { at * W + chunk ≤ length words.old * W }
        ensures { map Self.value words.new ≡ store_of W order (own order) (map Self.value words.old) (at * W) chunk v };
}

// Eight bytes. They are read by le and turned for be: the compiler makes one read of the first and one instruction of the second.
impl Chunk<8> for u8 {
    fn chunk_at(words: &[u8], order: Order, at: usize) -> u64 {
        match order {
            Order::Lsb0 => eight_at(words, at),
            Order::Msb0 => {
                let x = eight_at(words, at);
                turn_eight(x)
            }
        }
    }

    fn put_chunk(words: &mut [u8], order: Order, at: usize, v: u64) {
        match order {
            Order::Lsb0 => put_eight(words, Significance::Le, at, v),
            Order::Msb0 => put_eight(words, Significance::Be, at, v),
        }
    }
}

// A word of 64 bits is a chunk.
impl Chunk<64> for u64 {
    fn chunk_at(words: &[u64], _order: Order, at: usize) -> u64 {
        word_at(words, at)
    }

    fn put_chunk(words: &mut [u64], _order: Order, at: usize, v: u64) {
        put_word(words, at, v);
    }
}
