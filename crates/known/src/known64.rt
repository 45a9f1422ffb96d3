// Fields of rows of words of 64 bits, known to be Lsb0 le.
ghost use Rattle.std.specs.Prelude.{◌≡◌};
ghost use Rattle.known.specs.Known.{mixed, stored};

use crate::taken::{loads, stores};

// Loads the fields of k bits that begin at a head of a word each, and mixes their numbers. Where heads are missing, nothing is loaded.
#[unsafe(no_mangle)]
pub extern "C" fn known64_loads(
    words: &[u64],
    places: &[usize],
    heads: &[usize],
    k: usize,
    mix: &mut u64,
)
    ensures { mix.new ≡ mixed 64 k words.now places.now heads.now mix.old }
{
    loads(words, places, heads, k, mix);
}

// Stores a value in each of them. Where heads are missing, nothing is stored.
#[unsafe(no_mangle)]
pub extern "C" fn known64_stores(
    words: &mut [u64],
    places: &[usize],
    heads: &[usize],
    k: usize,
    value: u64,
)
    ensures { words.new ≡ stored 64 k value words.old places.now heads.now }
{
    stores(words, places, heads, k, value);
}
