// The exported searches of rows of words of 8 bits.
ghost use Rattle.rules.specs.Calls.{find_first, find_last, answer};
ghost use Rattle.border.specs.Border.{span_of, none, behind, Found};

use stableply::exported::searches;

// The smallest index of a one, counted from the span's start, or absent.
#[unsafe(no_mangle)]
pub extern "C" fn stableply8_first_one(
    words: &[u8],
    order: u8,
    word: usize,
    head: usize,
    length: usize,
    found: &mut u8,
    at: &mut usize,
) -> u8
    ensures { Found (behind (none order) (answer 8 (find_first 1 (span_of order word head length)) words.now)) found.old
        at.old result found.new at.new }
{
    searches::first_one(words, order, word, head, length, found, at)
}

// The largest index of a one.
#[unsafe(no_mangle)]
pub extern "C" fn stableply8_last_one(
    words: &[u8],
    order: u8,
    word: usize,
    head: usize,
    length: usize,
    found: &mut u8,
    at: &mut usize,
) -> u8
    ensures { Found (behind (none order) (answer 8 (find_last 1 (span_of order word head length)) words.now)) found.old
        at.old result found.new at.new }
{
    searches::last_one(words, order, word, head, length, found, at)
}

// The smallest index of a zero.
#[unsafe(no_mangle)]
pub extern "C" fn stableply8_first_zero(
    words: &[u8],
    order: u8,
    word: usize,
    head: usize,
    length: usize,
    found: &mut u8,
    at: &mut usize,
) -> u8
    ensures { Found (behind (none order) (answer 8 (find_first 0 (span_of order word head length)) words.now)) found.old
        at.old result found.new at.new }
{
    searches::first_zero(words, order, word, head, length, found, at)
}

// The largest index of a zero.
#[unsafe(no_mangle)]
pub extern "C" fn stableply8_last_zero(
    words: &[u8],
    order: u8,
    word: usize,
    head: usize,
    length: usize,
    found: &mut u8,
    at: &mut usize,
) -> u8
    ensures { Found (behind (none order) (answer 8 (find_last 0 (span_of order word head length)) words.now)) found.old
        at.old result found.new at.new }
{
    searches::last_zero(words, order, word, head, length, found, at)
}
