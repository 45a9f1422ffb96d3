// What a word is: a machine integer of W bits, and what is done to one. A row of words of a type T is, to the rules, the list of the numbers
// that its words are: `map T.value words`.
ghost use Rattle.std.specs.Prelude.{◌≡◌, ℕ, ◌-◌, ◌*◌, ◌/◌, ◌%◌, ◌^◌, ◌<◌, ◌≤◌};
ghost use Rattle.std.specs.Int.Bits.{bit_or, bit_xor};
ghost use Rattle.std.specs.Mem.{type_size};
ghost use Rattle.std.specs.Int.Count.{count_trailing_zeros, count_leading_zeros};
ghost use Rattle.std.proofs.Common.{refl, rules};
ghost use Rattle.rules.specs.declared.Width.{Width};
ghost use Rattle.rules.specs.declared.Width.TheVariants.{W8, W64};
ghost use Rattle.rules.specs.Bits.{bits};

use rules::Width;

// A machine integer of W bits. All that is written over words is written once, for any such type.
pub trait Word<const W: usize>: Copy {
    // The number that a word is.
    ghost value: { Self → ℕ };

    // The same as one of document 01's widths.
    ghost WIDTH: { Width };

    const WIDTH: Width;

    // The word that is the low bits of a number.
    fn of(number: u64) -> Self
        ensures { value result ≡ number % 2 ^ W };

    // The number that the word is.
    fn number(self) -> u64
        ensures { result ≡ value self };

    // The bits that one of the two words has, but not both.
    fn xor(self, other: Self) -> Self
        ensures { value result ≡ bit_xor (value self) (value other) };

    // The bits that either word has.
    fn or(self, other: Self) -> Self
        ensures { value result ≡ bit_or (value self) (value other) };

    // Each bit k positions up; those that would leave the word are gone.
    fn shl(self, k: usize) -> Self
        requires { k < W }
        ensures { value result ≡ value self * 2 ^ k % 2 ^ W };

    // Each bit k positions down; those that would leave the word are gone.
    fn shr(self, k: usize) -> Self
        requires { k < W }
        ensures { value result ≡ value self / 2 ^ k };

    // How many zeros lie below the lowest one.
    fn trailing_zeros(self) -> usize
        ensures { result ≡ count_trailing_zeros W (value self) };

    // How many zeros lie above the highest one.
    fn leading_zeros(self) -> usize
        ensures { result ≡ count_leading_zeros W (value self) };

    // The width is one of document 01's, so that a word has a bit and 64 at most; and each word is a number of so many bits.
    ghost wide: { bits WIDTH ≡ W };

    ghost some: { 0 < W };

    ghost most: { W ≤ 64 };

    ghost below: { (x : Self) → value x < 2 ^ W };

    // A word takes 8 bytes at most, so that a function may keep an array of them.
    ghost small: { type_size Self.row ≤ 8 };
}

impl Word<8> for u8 {
    ghost value = { λ x. x % 2 ^ 8 };

    ghost WIDTH = { W8 };

    const WIDTH: Width = Width::W8;

    fn of(number: u64) -> u8 {
        (number % 256) as u8
    }

    fn number(self) -> u64 {
        self as u64
    }

    fn xor(self, other: u8) -> u8 {
        self ^ other
    }

    fn or(self, other: u8) -> u8 {
        self | other
    }

    fn shl(self, k: usize) -> u8 {
        self << k
    }

    fn shr(self, k: usize) -> u8 {
        self >> k
    }

    fn trailing_zeros(self) -> usize {
        u8::trailing_zeros(self) as usize
    }

    fn leading_zeros(self) -> usize {
        u8::leading_zeros(self) as usize
    }

    ghost wide = { refl };

    ghost some = { Prim.search rules };

    ghost most = { Prim.search rules };

    ghost below = { λ x. Prim.search rules };

    ghost small = { Prim.search rules };
}

impl Word<64> for u64 {
    ghost value = { λ x. x % 2 ^ 64 };

    ghost WIDTH = { W64 };

    const WIDTH: Width = Width::W64;

    fn of(number: u64) -> u64 {
        number
    }

    fn number(self) -> u64 {
        self
    }

    fn xor(self, other: u64) -> u64 {
        self ^ other
    }

    fn or(self, other: u64) -> u64 {
        self | other
    }

    fn shl(self, k: usize) -> u64 {
        self << k
    }

    fn shr(self, k: usize) -> u64 {
        self >> k
    }

    fn trailing_zeros(self) -> usize {
        u64::trailing_zeros(self) as usize
    }

    fn leading_zeros(self) -> usize {
        u64::leading_zeros(self) as usize
    }

    ghost wide = { refl };

    ghost some = { Prim.search rules };

    ghost most = { Prim.search rules };

    ghost below = { λ x. Prim.search rules };

    ghost small = { Prim.search rules };
}
