// Many fields of rows of words of any width, and what of each the loops need: its span, the number that a load of it answers, and how
// numbers are mixed.
ghost use Rattle.std.specs.Prelude.{◌≡◌, map};
ghost use Rattle.rules.specs.Answers.{number_says};
ghost use Rattle.known.specs.Known.{field_at, unsigned_of, mix_in, mixed, stored};

use chunk::Chunk;
use field::{load, store};
use rules::{Number, Order, Refusal, Sign, Significance, Span};

// Loads the fields of k bits that begin at a head of a word each, and mixes their numbers. Where heads are missing, nothing is loaded.
pub fn loads<T: Chunk<W>, const W: usize>(
    words: &[T],
    places: &[usize],
    heads: &[usize],
    k: usize,
    mix: &mut u64,
)
    ensures { mix.new ≡ mixed W k (map T.value words.now) places.now heads.now mix.old }
{
    if heads.len() < places.len() {
        return;
    }
    let mut mixed = 0;
    for i in 0..places.len() {
        let span = field_at(places[i], heads[i], k);
        let answer = load(words, span, k, Significance::Le, Sign::Unsigned);
        mixed = mix_in(mixed, unsigned(answer));
    }
    *mix = mixed;
}

// Stores a value in each of them. Where heads are missing, nothing is stored, and where a store is refused, nothing by that one.
pub fn stores<T: Chunk<W>, const W: usize>(
    words: &mut [T],
    places: &[usize],
    heads: &[usize],
    k: usize,
    value: u64,
)
    ensures { map T.value words.new ≡ stored W k value (map T.value words.old) places.now heads.now }
{
    if heads.len() < places.len() {
        return;
    }
    for i in 0..places.len() {
        let span = field_at(places[i], heads[i], k);
        let _ = store(
            words,
            span,
            k,
            Significance::Le,
            Sign::Unsigned,
            Number::Up(value),
        );
    }
}

// The span of the field of k bits that begins at a head of a word, in Lsb0.
fn field_at(word: usize, head: usize, k: usize) -> Span
    ensures { result ≡ field_at word head k }
{
    Span::new(Order::Lsb0, word, head, k)
}

// The number that an unsigned load answers, 0 where the load is refused. No unsigned load answers a number below 0.
fn unsigned(answer: Result<Number, Refusal>) -> u64
    ensures { result ≡ unsigned_of (number_says answer) }
{
    match answer {
        Ok(Number::Up(n)) => n,
        _ => 0,
    }
}

// The mix of the numbers so far and of one more. Every number has its part in it, so that a caller sees whether all were loaded.
fn mix_in(mixed: u64, n: u64) -> u64
    ensures { result ≡ mix_in mixed n }
{
    mixed.rotate_left(1) ^ n
}
