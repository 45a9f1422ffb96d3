// Words as numbers, one at a time, and as many together as 64 bits take: a chunk.
#![tactic(auto)]

mod bytes;
mod chunks;
mod words;

pub use chunks::Chunk;
pub use words::{put_word, word_at};
