// The words themselves, as numbers.
ghost use Rattle.std.specs.Prelude.{◌≡◌, map, ◌%◌, ◌^◌, ◌<◌, length, get_or, set};

use word::{Word, read, write};

// A word as a number.
pub fn word_at<T: Word<W>, const W: usize>(words: &[T], at: usize) -> u64
    requires { at < length words.now }
    ensures { (result ≡ get_or (map T.value words.now) at 0) × (result < 2 ^ W) }
{
    read(words, at).number()
}

// A word made anew, of the low bits of a number.
pub fn put_word<T: Word<W>, const W: usize>(words: &mut [T], at: usize, v: u64)
    requires { at < length words.old }
    ensures { map T.value words.new ≡ set (map T.value words.old) at (v % 2 ^ W) }
{
    write(words, at, T::of(v));
}
