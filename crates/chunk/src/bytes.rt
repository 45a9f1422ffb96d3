// Eight bytes as a number of 64 bits, put together two by two: what whole words are does not depend on the order.
ghost use Rattle.std.specs.Prelude.{◌≡◌, map, ◌+◌, ◌*◌, ◌^◌, ◌<◌, ◌≤◌, length};
ghost use Rattle.rules.specs.declared.Order.{Order};
ghost use Rattle.rules.specs.declared.Significance.TheVariants.{Le};
ghost use Rattle.rules.specs.Fields.{load_of, store_of};
ghost use Rattle.laws.proofs.Fields.Turned.{turned};

use crate::words::{put_word, word_at};
use rules::Significance;
use word::Word;

// Eight words from word `at` on, made anew.
#[inline(always)]
pub fn put_eight<T: Word<8>>(words: &mut [T], significance: Significance, at: usize, v: u64)
    requires { at + 8 ≤ length words.old }
    ensures { (o : Order) → map T.value words.new ≡ store_of 8 o significance (map T.value words.old) (at * 8) 64 v }
{
    let a = pieces::first_of(significance, v, 32);
    put_four(words, significance, at, a);
    let b = pieces::rest_of(significance, v, 32);
    put_four(words, significance, at + 4, b);
}

// Four words from word `at` on, made anew.
#[inline(always)]
fn put_four<T: Word<8>>(words: &mut [T], significance: Significance, at: usize, v: u64)
    requires { at + 4 ≤ length words.old }
    ensures { (o : Order) → map T.value words.new ≡ store_of 8 o significance (map T.value words.old) (at * 8) 32 v }
{
    let a = pieces::first_of(significance, v, 16);
    put_two(words, significance, at, a);
    let b = pieces::rest_of(significance, v, 16);
    put_two(words, significance, at + 2, b);
}

// Two words from word `at` on, made anew.
#[inline(always)]
fn put_two<T: Word<8>>(words: &mut [T], significance: Significance, at: usize, v: u64)
    requires { at + 2 ≤ length words.old }
    ensures { (o : Order) → map T.value words.new ≡ store_of 8 o significance (map T.value words.old) (at * 8) 16 v }
{
    let a = pieces::first_of(significance, v, 8);
    put_word(words, at, a);
    let b = pieces::rest_of(significance, v, 8);
    put_word(words, at + 1, b);
}

// Eight bytes, the last first.
pub fn turn_eight(x: u64) -> u64
    ensures { result ≡ turned 8 3 x }
{
    let a = turn_four(x & 4_294_967_295);
    let b = turn_four(x >> 32);
    pieces::join(Significance::Be, a, 32, b, 32)
}

// Four bytes, the last first.
fn turn_four(x: u64) -> u64
    requires { x < 2 ^ 32 }
    ensures { (result ≡ turned 8 2 x) × (result < 2 ^ 32) }
{
    let a = turn_two(x & 65535);
    let b = turn_two(x >> 16);
    pieces::join(Significance::Be, a, 16, b, 16)
}

// Two bytes, the last first.
fn turn_two(x: u64) -> u64
    requires { x < 2 ^ 16 }
    ensures { (result ≡ turned 8 1 x) × (result < 2 ^ 16) }
{
    pieces::join(Significance::Be, x & 255, 8, x >> 8, 8)
}

// Eight words from word `at` on, by le.
pub fn eight_at<T: Word<8>>(words: &[T], at: usize) -> u64
    requires { at + 8 ≤ length words.now }
    ensures { ((o : Order) → result ≡ load_of 8 o Le (map T.value words.now) (at * 8) 64) × (result < 2 ^ 64) }
{
    let a = four_at(words, at);
    let b = four_at(words, at + 4);
    pieces::join(Significance::Le, a, 32, b, 32)
}

// Four words from word `at` on, by le.
fn four_at<T: Word<8>>(words: &[T], at: usize) -> u64
    requires { at + 4 ≤ length words.now }
    ensures { ((o : Order) → result ≡ load_of 8 o Le (map T.value words.now) (at * 8) 32) × (result < 2 ^ 32) }
{
    let a = two_at(words, at);
    let b = two_at(words, at + 2);
    pieces::join(Significance::Le, a, 16, b, 16)
}

// Two words from word `at` on, by le.
fn two_at<T: Word<8>>(words: &[T], at: usize) -> u64
    requires { at + 2 ≤ length words.now }
    ensures { ((o : Order) → result ≡ load_of 8 o Le (map T.value words.now) (at * 8) 16) × (result < 2 ^ 16) }
{
    let a = word_at(words, at);
    let b = word_at(words, at + 1);
    pieces::join(Significance::Le, a, 8, b, 8)
}
