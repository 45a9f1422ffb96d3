// The exported searches of rows of words.
ghost use Rattle.std.specs.Prelude.{map};
ghost use Rattle.rules.specs.Calls.{find_first, find_last, answer};
ghost use Rattle.border.specs.Border.{span_of, none, behind, Found};

use crate::searches;
use border::{NamedSpan, leave_found};
use word::Word;

// The smallest index of a one, counted from the span's start, or absent.
pub fn first_one<T: Word<W>, const W: usize>(
    words: &[T],
    order: u8,
    word: usize,
    head: usize,
    length: usize,
    found: &mut u8,
    at: &mut usize,
) -> u8
    ensures { Found (behind (none order) (answer W (find_first 1 (span_of order word head length)) (map T.value words.now))) found.old
        at.old result found.new at.new }
{
    let span = NamedSpan::new(order, word, head, length);
    leave_found(searches::first_one(words, span), found, at)
}

// The largest index of a one.
pub fn last_one<T: Word<W>, const W: usize>(
    words: &[T],
    order: u8,
    word: usize,
    head: usize,
    length: usize,
    found: &mut u8,
    at: &mut usize,
) -> u8
    ensures { Found (behind (none order) (answer W (find_last 1 (span_of order word head length)) (map T.value words.now))) found.old
        at.old result found.new at.new }
{
    let span = NamedSpan::new(order, word, head, length);
    leave_found(searches::last_one(words, span), found, at)
}

// The smallest index of a zero.
pub fn first_zero<T: Word<W>, const W: usize>(
    words: &[T],
    order: u8,
    word: usize,
    head: usize,
    length: usize,
    found: &mut u8,
    at: &mut usize,
) -> u8
    ensures { Found (behind (none order) (answer W (find_first 0 (span_of order word head length)) (map T.value words.now))) found.old
        at.old result found.new at.new }
{
    let span = NamedSpan::new(order, word, head, length);
    leave_found(searches::first_zero(words, span), found, at)
}

// The largest index of a zero.
pub fn last_zero<T: Word<W>, const W: usize>(
    words: &[T],
    order: u8,
    word: usize,
    head: usize,
    length: usize,
    found: &mut u8,
    at: &mut usize,
) -> u8
    ensures { Found (behind (none order) (answer W (find_last 0 (span_of order word head length)) (map T.value words.now))) found.old
        at.old result found.new at.new }
{
    let span = NamedSpan::new(order, word, head, length);
    leave_found(searches::last_zero(words, span), found, at)
}
