// What every width shares as numbers: runs of ones, and the pieces of a field.
#![tactic(auto)]

ghost use Rattle.std.specs.Prelude.{◌≡◌, true, false, ◌+◌, ◌-◌, ◌*◌, ◌<◌, ◌≤◌, ◌^◌};
ghost use Rattle.rules.proofs.Fields.Field.{lowest};
ghost use Rattle.laws.proofs.Fields.Chunk.{masked};
ghost use Rattle.laws.proofs.Fields.Cuts.{Cuts, piece_of, joined, first_of_value, rest_of_value};

use rules::{Index, Mask, Order, Position, Significance};

// How many bits are read and written at once where that pays, and the most that a field has.
pub const CHUNK: usize = 64;

// A run of bits cut where words end: how many bits of the first word, how many whole words after it, how many bits of the last word. The
// first piece is never empty; it ends with its word unless it is all.
#[derive(Clone, Copy, Debug, PartialEq, Eq, Hash)]
pub struct Cut {
    pub first: usize,
    pub whole: usize,
    pub last: usize,
}

impl Cut {
    // The cut of `len` bits from index `head` of a word of `width` bits on.
    pub fn of(width: usize, head: Index, len: usize) -> Cut
        requires { (head.0 < width) × (1 ≤ len) × (len ≤ 64) }
        ensures { Cuts width head.0 len result.first result.whole result.last }
    {
        let h = head.0;
        if len <= width - h {
            return Cut {
                first: len,
                whole: 0,
                last: 0,
            };
        }
        Cut::across(width, head, len)
    }

    // The same of bits that do not end in the word.
    pub fn across(width: usize, head: Index, len: usize) -> Cut
        requires { (head.0 < width) × (width < head.0 + len) × (len ≤ 64) }
        ensures { Cuts width head.0 len result.first result.whole result.last }
    {
        let h = head.0;
        let room = width - h;
        let rest = len - room;
        if width == CHUNK {
            return Cut {
                first: room,
                whole: 0,
                last: rest,
            };
        }
        Cut {
            first: room,
            whole: rest / width,
            last: rest % width,
        }
    }
}

// Whether the n bits from index `head` of a word on end in it.
pub fn ends_within(width: usize, head: Index, n: usize) -> bool
    requires { (head.0 < width) × (width ≤ 64) × (n ≤ 64) }
    ensures { (result ≡ true → head.0 + n ≤ width) × (result ≡ false → width < head.0 + n) }
{
    let h = head.0;
    if width == CHUNK {
        return h <= CHUNK - n;
    }
    n <= width - h
}

// The n lowest bits, for n of 1 to 64.
pub fn low_ones(n: usize) -> u64
    requires { (0 < n) × (n ≤ 64) }
    ensures { result ≡ 2 ^ n - 1 }
{
    0xffff_ffff_ffff_ffff >> (64 - n)
}

// The mask of the n positions from the lowest up, of which there is one at least, for a caller that has seen that they end with 64.
pub fn mask_at(lowest: Position, n: usize) -> Mask
    requires { (0 < n) × (lowest.0 + n ≤ 64) }
    ensures { result.0 ≡ (2 ^ n - 1) * 2 ^ lowest.0 }
{
    let at = lowest.0;
    let ones = low_ones(n);
    Mask(ones << at)
}

// The lowest position of the n bits of a word from index `head` on.
pub fn lowest_of(width: usize, order: Order, head: Index, n: usize) -> Position
    requires { (1 ≤ n) × (head.0 + n ≤ width) }
    ensures { (result.0 ≡ lowest width order head.0 n) × (result.0 + n ≤ width) }
{
    let h = head.0;
    match order {
        Order::Lsb0 => Position(h),
        Order::Msb0 => Position(width - h - n),
    }
}

// The n bits of the word x from index `head` on, as a number.
pub fn piece(width: usize, x: u64, order: Order, head: Index, n: usize) -> u64
    requires { (1 ≤ n) × (head.0 + n ≤ width) × (width ≤ 64) }
    ensures { (result ≡ piece_of width x order head.0 n) × (result < 2 ^ n) }
{
    let rest = 64 - n;
    let up = room_above(width, order, head, rest);
    (x << up) >> rest
}

// The word x with the low n bits of v in place of its n bits from index `head` on.
pub fn with_piece(width: usize, x: u64, order: Order, head: Index, n: usize, v: u64) -> u64
    requires { (1 ≤ n) × (head.0 + n ≤ width) × (width ≤ 64) × (x < 2 ^ width) }
    ensures { (result ≡ masked width x (lowest width order head.0 n) n v) × (result < 2 ^ width) }
{
    let lowest = lowest_of(width, order, head, n);
    let mask = mask_at(lowest, n);
    let low = low_ones(n);
    let all = low_ones(width);
    let p = lowest.0;
    (x & (all - mask.0)) | (v & low) << p
}

// The number whose first part is the k bits a, and whose rest is the n bits b.
pub fn join(significance: Significance, a: u64, k: usize, b: u64, n: usize) -> u64
    requires { (k < 64) × (n < 64) × (k + n ≤ 64) × (a < 2 ^ k) × (b < 2 ^ n) }
    ensures { result ≡ joined significance a k b n }
{
    match significance {
        Significance::Le => b << k | a,
        Significance::Be => a << n | b,
    }
}

// What is to be stored in a first part that n bits follow.
pub fn first_of(significance: Significance, v: u64, n: usize) -> u64
    requires { n < 64 }
    ensures { result ≡ first_of_value significance v n }
{
    match significance {
        Significance::Le => v,
        Significance::Be => v >> n,
    }
}

// What is to be stored in a rest that k bits precede.
pub fn rest_of(significance: Significance, v: u64, k: usize) -> u64
    requires { k < 64 }
    ensures { result ≡ rest_of_value significance v k }
{
    match significance {
        Significance::Le => v >> k,
        Significance::Be => v,
    }
}

// How many of 64 bits lie above the bits of a word from index `head` on that are all but `rest` of 64.
fn room_above(width: usize, order: Order, head: Index, rest: usize) -> usize
    requires { (rest < 64) × (head.0 + (64 - rest) ≤ width) × (width ≤ 64) }
    ensures { result ≡ rest - lowest width order head.0 (64 - rest) }
{
    let h = head.0;
    match order {
        Order::Lsb0 => rest - h,
        Order::Msb0 => 64 - width + h,
    }
}
