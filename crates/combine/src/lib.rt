// What a boolean operation does to words: to two of them, and to a row of whole ones. An operation is the number of its truth table: the result for
// left bit a and right bit b is bit 2a + b of it (and 8, or 14, xor 6).
#![tactic(auto)]

ghost use Rattle.std.specs.Prelude.{◌≡◌, ℕ, map, ◌+◌, ◌/◌, ◌%◌, ◌≤◌, ◌<◌, length, get_or};
ghost use Rattle.std.specs.Int.Bits.{bit_and};
ghost use Rattle.rules.specs.Bits.{bit_n};
ghost use Rattle.laws.proofs.Words.Funnel.{funneled};
ghost use Rattle.laws.proofs.Words.Combine.{wordwise, spread_of};

use rules::{AND, Index, Mask, OR, Order, XOR};
use word::{Word, joined, select, under};

// The operation on all bits of two words at once.
pub fn apply<T: Word<W>, const W: usize>(operation: u8, a: T, b: T) -> T
    ensures { T.value result ≡ wordwise W operation (T.value a) (T.value b) }
{
    match operation {
        AND => and(a, b),
        OR => a.or(b),
        XOR => a.xor(b),
        _ => table(operation, a, b),
    }
}

// Whole words where the right row lies at the same head: a loop for each of and, or and xor, and one for any other number.
pub fn plain_cases<T: Word<W>, const W: usize>(words: &mut [T], operation: u8, right: &[T])
    requires { length words.old ≤ length right.now }
    ensures { (k : ℕ) → k < length words.old → get_or (map T.value words.new) k 0 ≡ wordwise W operation (get_or (map T.value words.old) k 0)
        (get_or (map T.value right.now) k 0) }
{
    match operation {
        AND => plain_words(words, right, and),
        OR => plain_words(words, right, T::or),
        XOR => plain_words(words, right, T::xor),
        _ => plain_words(
            words,
            right,
            |a, b|
                ensures { T.value result ≡ wordwise W operation (T.value a) (T.value b) }
            { table(operation, a, b) },
        ),
    }
}

// Whole words where the right row lies at another head: again a loop for each of and, or and xor, and one for any other number.
pub fn funnel_cases<T: Word<W>, const W: usize>(
    words: &mut [T],
    order: Order,
    operation: u8,
    right: &[T],
    head: Index,
)
    requires { (1 ≤ head.0) × (head.0 < W) × (length words.old + 1 ≤ length right.now) }
    ensures { (k : ℕ) → k < length words.old → get_or (map T.value words.new) k 0 ≡ wordwise W operation (get_or (map T.value words.old) k 0)
        (funneled W order head.0 (get_or (map T.value right.now) k 0) (get_or (map T.value right.now) (k + 1) 0)) }
{
    match operation {
        AND => funnel_words(words, order, right, head, and),
        OR => funnel_words(words, order, right, head, T::or),
        XOR => funnel_words(words, order, right, head, T::xor),
        _ => funnel_words(
            words,
            order,
            right,
            head,
            |a, b|
                ensures { T.value result ≡ wordwise W operation (T.value a) (T.value b) }
            { table(operation, a, b) },
        ),
    }
}

// Whole words, each combined with the word 0.
pub fn rest_words<T: Word<W>, const W: usize>(words: &mut [T], operation: u8)
    ensures { (k : ℕ) → k < length words.old → get_or (map T.value words.new) k 0 ≡ wordwise W operation (get_or (map T.value words.old) k 0) 0 }
{
    for word in words.iter_mut() {
        *word = apply(operation, *word, T::of(0));
    }
}

// Word i becomes the step's result for it and the word that begins at index `head` of the right word i and goes on in the next.
fn funnel_words<T: Word<W>, const W: usize, F: Fn(T, T) -> T>(
    words: &mut [T],
    order: Order,
    right: &[T],
    head: Index,
    step: F,
)
    requires { (1 ≤ head.0) × (head.0 < W) × (length words.old + 1 ≤ length right.now) × F.IsAlwaysCallable step }
    ensures { (f : ℕ → ℕ → ℕ) → ((a b r : T) → F.post step a b r → T.value r ≡ f (T.value a) (T.value b)) → (k : ℕ) → k < length words.old
        → get_or (map T.value words.new) k 0 ≡ f (get_or (map T.value words.old) k 0)
        (funneled W order head.0 (get_or (map T.value right.now) k 0) (get_or (map T.value right.now) (k + 1) 0)) }
{
    for (i, word) in words.iter_mut().enumerate() {
        let v = joined(order, head, right[i], right[i + 1]);
        *word = step(*word, v);
    }
}

// Word i becomes the step's result for it and the right word i.
fn plain_words<T: Word<W>, const W: usize, F: Fn(T, T) -> T>(words: &mut [T], right: &[T], step: F)
    requires { (length words.old ≤ length right.now) × F.IsAlwaysCallable step }
    ensures { (f : ℕ → ℕ → ℕ) → ((a b r : T) → F.post step a b r → T.value r ≡ f (T.value a) (T.value b)) → (k : ℕ) → k < length words.old
        → get_or (map T.value words.new) k 0 ≡ f (get_or (map T.value words.old) k 0) (get_or (map T.value right.now) k 0) }
{
    for (i, word) in words.iter_mut().enumerate() {
        *word = step(*word, right[i]);
    }
}

// The bits that both words have.
fn and<T: Word<W>, const W: usize>(a: T, b: T) -> T
    ensures { T.value result ≡ bit_and (T.value a) (T.value b) }
{
    under(Mask(b.number()), a)
}

// An operation whose number has no instruction of its own, on two words: the two halves of its truth table, chosen by the left bits.
fn table<T: Word<W>, const W: usize>(operation: u8, a: T, b: T) -> T
    ensures { T.value result ≡ wordwise W operation (T.value a) (T.value b) }
{
    let t0 = spread::<T, W>(operation, 0);
    let t1 = spread::<T, W>(operation, 1);
    let t2 = spread::<T, W>(operation, 2);
    let t3 = spread::<T, W>(operation, 3);
    let by_right = Mask(b.number());
    let low = select(by_right, t0, t1);
    let high = select(by_right, t2, t3);
    select(Mask(a.number()), low, high)
}

// All ones where bit k of the operation's number is 1, else all zeros: the result for one pair of bits, for a whole word.
fn spread<T: Word<W>, const W: usize>(operation: u8, k: u8) -> T
    requires { k < 8 }
    ensures { T.value result ≡ spread_of W (bit_n operation k) }
{
    let bit = (operation >> k) % 2;
    if bit == 0 { T::of(0) } else { T::of(u64::MAX) }
}
