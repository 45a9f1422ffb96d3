// The refusals of a field's length and value: 4, 5, 8 and 9.
ghost use Rattle.std.specs.Prelude.{◌≡◌, ◌≤◌, ◌<◌};
ghost use Rattle.rules.specs.Fields.{is_size, whole, is_integer, fits};
ghost use Rattle.rules.specs.Refusals.{field_cases, value_cases, fitting_cases};
ghost use Rattle.rules.specs.Answers.{Judges};

use pieces::low_ones;
use rules::{Number, Refusal, Sign};

// What a field is refused for, whatever it holds: 4 where K is not 8, 16, 32 or 64, 5 where it has no bits or more than K.
pub fn check_field(k: usize, len: usize) -> Result<(), Refusal>
    ensures { Judges (field_cases k len) result }
{
    let sized = is_size(k);
    if !sized {
        return Err(Refusal::NoSuchK);
    }
    if len == 0 {
        return Err(Refusal::FieldLength);
    }
    if k < len {
        return Err(Refusal::FieldLength);
    }
    Ok(())
}

// What a value is refused for as the contents of a field of `len` bits: what the field is, then 8 where the value is no K-bit integer.
pub fn check_value(value: Number, k: usize, len: usize, sign: Sign) -> Result<(), Refusal>
    ensures { Judges (value_cases k len sign (whole value)) result }
{
    check_field(k, len)?;
    if is_integer(value, k, sign) {
        return Ok(());
    }
    Err(Refusal::NotAnInteger)
}

// The same of a value that is to fit: then 9 where it does not.
pub fn check_fit(value: Number, k: usize, len: usize, sign: Sign) -> Result<(), Refusal>
    ensures { Judges (fitting_cases k len sign (whole value)) result }
{
    check_value(value, k, len, sign)?;
    if fits(value, len, sign) {
        return Ok(());
    }
    Err(Refusal::DoesNotFit)
}

// Whether K is one of the four: a power of two, and one of the bits 8, 16, 32 and 64.
pub fn is_size(k: usize) -> bool
    ensures { result ≡ is_size k }
{
    if k & 120 == 0 {
        return false;
    }
    k & (k - 1) == 0
}

// Whether a value is a K-bit integer of its sign, for a caller that has seen that K is 1 to 64.
pub fn is_integer(value: Number, k: usize, sign: Sign) -> bool
    requires { (0 < k) × (k ≤ 64) }
    ensures { result ≡ is_integer k sign (whole value) }
{
    match sign {
        Sign::Unsigned => match value {
            Number::Up(n) => n >> (k - 1) <= 1,
            Number::Down(_) => false,
        },
        Sign::Signed => match value {
            Number::Up(n) => n >> (k - 1) == 0,
            Number::Down(n) => n >> (k - 1) == 0,
        },
    }
}

// Whether a value fits in `len` bits, for a caller that has seen that there are 1 to 64.
fn fits(value: Number, len: usize, sign: Sign) -> bool
    requires { (0 < len) × (len ≤ 64) }
    ensures { result ≡ fits len sign (whole value) }
{
    let top = low_ones(len);
    match sign {
        Sign::Unsigned => match value {
            Number::Up(n) => n <= top,
            Number::Down(_) => false,
        },
        Sign::Signed => match value {
            Number::Up(n) => n <= top / 2,
            Number::Down(n) => n < top / 2,
        },
    }
}
