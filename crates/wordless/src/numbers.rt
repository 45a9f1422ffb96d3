// Numbers of K bits: the bits that a store places, the number that loaded bits stand for, and the machine's i64.
ghost use Rattle.std.specs.Prelude.{◌≡◌, true, ◌%◌, ◌^◌, ◌≤◌, ◌<◌};
ghost use Rattle.rules.specs.Fields.{whole, is_integer, bits_of, read_as};
ghost use Rattle.rules.specs.Calls.{low_bits_answer, fitting_answer, read_answer, machine_answer};
ghost use Rattle.rules.specs.Answers.{number_says, low_bits_says, machine_says};

use pieces::low_ones;
use refusals::{check_field, check_fit, check_value};
use rules::{Number, Refusal, Sign};

// The low `len` bits of a value, as a store places them; refusals 4, 5 and 8.
pub fn low_bits(value: Number, k: usize, len: usize, sign: Sign) -> Result<u64, Refusal>
    ensures { low_bits_says result ≡ low_bits_answer k len sign (whole value) }
{
    check_value(value, k, len, sign)?;
    Ok(bits(value, k, sign) & low_ones(len))
}

// The same of a value that fits, as a strict store places them; refusals 4, 5, 8 and 9.
pub fn fitting_bits(value: Number, k: usize, len: usize, sign: Sign) -> Result<u64, Refusal>
    ensures { low_bits_says result ≡ fitting_answer k len sign (whole value) }
{
    check_fit(value, k, len, sign)?;
    Ok(bits(value, k, sign) & low_ones(len))
}

// The number that the low `len` bits of `loaded` stand for: as they are, or with the sign extended; refusals 4 and 5.
pub fn read(loaded: u64, k: usize, len: usize, sign: Sign) -> Result<Number, Refusal>
    ensures { number_says result ≡ read_answer k len sign loaded }
{
    check_field(k, len)?;
    let low = loaded & low_ones(len);
    Ok(of_bits(low, len, sign))
}

// The machine's signed integer as a number.
pub fn from_i64(z: i64) -> Number
    ensures { whole result ≡ z }
{
    if z < 0 {
        Number::Down((!z) as u64)
    } else {
        Number::Up(z as u64)
    }
}

// A number as the machine's signed integer; 8 where it is none of 64 bits.
pub fn to_i64(value: Number) -> Result<i64, Refusal>
    ensures { machine_says result ≡ machine_answer (whole value) }
{
    match value {
        Number::Up(n) => {
            if n <= 0x7fff_ffff_ffff_ffff {
                Ok(n as i64)
            } else {
                Err(Refusal::NotAnInteger)
            }
        }
        Number::Down(n) => {
            if n <= 0x7fff_ffff_ffff_ffff {
                Ok(!(n as i64))
            } else {
                Err(Refusal::NotAnInteger)
            }
        }
    }
}

// A number whose low K bits are those of a value, for a caller that has seen that the value is a K-bit integer.
pub fn bits(value: Number, k: usize, sign: Sign) -> u64
    requires { (0 < k) × (k ≤ 64) × (is_integer k sign (whole value) ≡ true) }
    ensures { result % 2 ^ k ≡ bits_of k (whole value) }
{
    match value {
        Number::Up(n) => n,
        Number::Down(n) => 0xffff_ffff_ffff_ffff - n,
    }
}

// The number that `len` loaded bits stand for, for a caller that has seen that there are 1 to 64 of them.
pub fn of_bits(loaded: u64, len: usize, sign: Sign) -> Number
    requires { (0 < len) × (len ≤ 64) × (loaded < 2 ^ len) }
    ensures { whole result ≡ read_as sign len loaded }
{
    match sign {
        Sign::Unsigned => Number::Up(loaded),
        Sign::Signed => {
            let below = low_ones(len) - loaded;
            if loaded <= below {
                Number::Up(loaded)
            } else {
                Number::Down(below)
            }
        }
    }
}
