// Fields of rows of words of 8 bits, known to be Lsb0 le.
ghost use Rattle.std.specs.Prelude.{◌≡◌};
ghost use Rattle.known.specs.Known.{mixed, stored};

use crate::taken::{loads, stores};

// Loads the fields of k bits that begin at a head of a word each, and mixes their numbers. Where heads are missing, nothing is loaded.
#[unsafe(no_mangle)]
pub extern "C" fn known8_loads(
    words: &[u8],
    places: &[usize],
    heads: &[usize],
    k: usize,
    mix: &mut u64,
)
    ensures { mix.new ≡ mixed 8 k words.now places.now heads.now mix.old }
{
    loads(words, places, heads, k, mix);
}

// Stores a value in each of them. Where heads are missing, nothing is stored.
#[unsafe(no_mangle)]
pub extern "C" fn known8_stores(
    words: &mut [u8],
    places: &[usize],
    heads: &[usize],
    k: usize,
    value: u64,
)
    ensures { words.new ≡ stored 8 k value words.old places.now heads.now }
{
    stores(words, places, heads, k, value);
}
