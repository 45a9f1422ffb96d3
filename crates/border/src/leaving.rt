// How an answer leaves the library: where the request was accepted, its value goes behind the caller's pointer and the call returns 0.
// Where it was not, the call returns the number of the fault, and nothing is written.
ghost use Rattle.std.specs.Prelude.{◌≡◌};
ghost use Rattle.border.specs.Border.{Told, Found, Rest, returned};
ghost use Rattle.border.specs.Faults.{position_told, selector_told, mask_told, rest_told, bit_told, number_told, write_told, equal_told};
ghost use Rattle.border.specs.Faults.{found_told, fault_or_0, value_or};
ghost use Rattle.rules.specs.Fields.{whole, bits_of};

use crate::faults::Fault;
use rules::{Halves, Mask, Number, Position, Selector};

// A position leaves as a number.
pub fn leave_position(answer: Result<Position, Fault>, out: &mut u64) -> u8
    ensures { Told (position_told answer) out.old result out.new }
{
    leave(answer.map(|position| position.0 as u64), out)
}

// A selector leaves as the word that it is; a byte's stands in the low 8 bits.
pub fn leave_selector(answer: Result<Selector, Fault>, out: &mut u64) -> u8
    ensures { Told (selector_told answer) out.old result out.new }
{
    leave(answer.map(|selector| selector.0), out)
}

// A mask leaves as the word that it is; a byte's stands in the low 8 bits.
pub fn leave_mask(answer: Result<Mask, Fault>, out: &mut u64) -> u8
    ensures { Told (mask_told answer) out.old result out.new }
{
    leave(answer.map(|mask| mask.0), out)
}

// A bit leaves as 0 or 1.
pub fn leave_bit(answer: Result<bool, Fault>, out: &mut u8) -> u8
    ensures { Told (bit_told answer) out.old result out.new }
{
    leave(answer.map(|bit| bit as u8), out)
}

// A loaded number leaves in 64 bits, one below 0 in two's complement.
pub fn leave_number(answer: Result<Number, Fault>, out: &mut u64) -> u8
    ensures { Told (number_told answer) out.old result out.new }
{
    leave(answer.map(in_64_bits), out)
}

// A comparison leaves 1 where the rows are equal, else 0.
pub fn leave_equal(answer: Result<bool, Fault>, out: &mut u8) -> u8
    ensures { Told (equal_told answer) out.old result out.new }
{
    leave(answer.map(|equal| equal as u8), out)
}

// A search leaves 1 and the index where it found the bit. Where there is none it leaves 0, and the index as it was.
pub fn leave_found(answer: Result<Option<usize>, Fault>, found: &mut u8, at: &mut usize) -> u8
    ensures { Found (found_told answer) found.old at.old result found.new at.new }
{
    match answer {
        Ok(Some(index)) => {
            *found = 1;
            *at = index;
            0
        }
        Ok(None) => {
            *found = 0;
            0
        }
        Err(fault) => fault.number(),
    }
}

// A split leaves the word, the head and the length of the rest. The first half has the span's own word and head, so that it need not leave.
pub fn leave_rest(
    answer: Result<Halves, Fault>,
    word: &mut usize,
    head: &mut usize,
    length: &mut usize,
) -> u8
    ensures { Rest (rest_told answer) word.old head.old length.old result word.new head.new
        length.new }
{
    match answer {
        Ok(halves) => {
            let rest = halves.rest;
            *word = rest.word;
            *head = rest.head.0;
            *length = rest.len;
            0
        }
        Err(fault) => fault.number(),
    }
}

// A write leaves nothing but what the call returns: the words are written already.
pub fn leave_write(answer: Result<(), Fault>) -> u8
    ensures { result ≡ returned (write_told answer) }
{
    match answer {
        Ok(()) => 0,
        Err(fault) => fault.number(),
    }
}

// A value goes behind the pointer, and 0 is returned; or a fault's number is, and nothing is written.
fn leave<T: Copy>(answer: Result<T, Fault>, out: &mut T) -> u8
    ensures number { result ≡ fault_or_0 answer }
    ensures value { out.new ≡ value_or answer out.old }
{
    match answer {
        Ok(value) => {
            *out = value;
            0
        }
        Err(fault) => fault.number(),
    }
}

// A number as 64 bits, one below 0 in two's complement.
#[tactic(auto, unfolding(rules::specs::Fields::bits_of))]
fn in_64_bits(number: Number) -> u64
    ensures { result ≡ bits_of 64 (whole number) }
{
    match number {
        Number::Up(n) => n,
        Number::Down(n) => 0xffff_ffff_ffff_ffff - n,
    }
}
