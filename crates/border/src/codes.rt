// From the codes of the interface to the library's types. What a code names is a value for any number; that a number is a code is looked at by the
// functions that answer a `Result`.
ghost use Rattle.std.specs.Prelude.{◌≡◌, not};
ghost use Rattle.border.specs.Border.{width_of, order_of, significance_of, sign_of, number_of, bit_of, span_of, operation_of, none, no_width, no_operation};
ghost use Rattle.border.specs.Faults.{unless_none};

use crate::faults::Fault;
use rules::{AND, Number, OR, Operation, Order, Sign, Significance, Span, Width, XOR};

// The width of 8 or 64 bits.
pub fn named_width(bits: u8) -> Result<Width, Fault>
    ensures { result ≡ unless_none (no_width bits) (width_of bits) }
{
    match bits {
        8 => Ok(Width::W8),
        64 => Ok(Width::W64),
        _ => Err(Fault::NoCode),
    }
}

// The order that a code names, where it is a code.
pub fn named_order(code: u8) -> Result<Order, Fault>
    ensures { result ≡ unless_none (none code) (order_of code) }
{
    look(code)?;
    Ok(order_of(code))
}

// A span as the arguments of a call name it: the code of its order, the word and the index in it where the span begins, and how many bits it has.
#[derive(Clone, Copy, Debug, PartialEq, Eq, Hash)]
pub struct NamedSpan {
    pub order: u8,
    pub word: usize,
    pub head: usize,
    pub length: usize,
}

impl NamedSpan {
    // The four arguments as one, in the order in which calls take them.
    pub fn new(order: u8, word: usize, head: usize, length: usize) -> NamedSpan
        ensures { result ≡ record { order = order; word = word; head = head; length = length } }
    {
        NamedSpan {
            order,
            word,
            head,
            length,
        }
    }

    // The span, where its order is a code.
    pub fn span(self) -> Result<Span, Fault>
        ensures { result ≡ unless_none (none self.order) (span_of self.order self.word self.head self.length) }
    {
        look(self.order)?;
        Ok(span_of(self.order, self.word, self.head, self.length))
    }
}

// The significance that a code names, where it is a code.
pub fn named_significance(code: u8) -> Result<Significance, Fault>
    ensures { result ≡ unless_none (none code) (significance_of code) }
{
    look(code)?;
    Ok(significance_of(code))
}

// The sign that a code names, where it is a code.
pub fn named_sign(code: u8) -> Result<Sign, Fault>
    ensures { result ≡ unless_none (none code) (sign_of code) }
{
    look(code)?;
    Ok(sign_of(code))
}

// The number that a value stands for, where `below` is a code.
pub fn named_number(below: u8, value: u64) -> Result<Number, Fault>
    ensures { result ≡ unless_none (none below) (number_of below value) }
{
    look(below)?;
    Ok(number_of(below, value))
}

// The bit that a code names, where it is a code.
pub fn named_bit(code: u8) -> Result<bool, Fault>
    ensures { result ≡ unless_none (none code) (bit_of code) }
{
    look(code)?;
    Ok(bit_of(code))
}

// The operation with a number: the truth table of and, or, or xor.
pub fn named_operation(number: u8) -> Result<Operation, Fault>
    ensures { result ≡ unless_none (no_operation number) (operation_of number) }
{
    match number {
        AND => Ok(Operation::And),
        OR => Ok(Operation::Or),
        XOR => Ok(Operation::Xor),
        _ => Err(Fault::NoCode),
    }
}

// The order that a code names: 0 is Lsb0, 1 is Msb0.
pub fn order_of(code: u8) -> Order
    ensures { result ≡ order_of code }
{
    if code == 0 { Order::Lsb0 } else { Order::Msb0 }
}

// The span that four arguments of a call name.
pub fn span_of(order: u8, word: usize, head: usize, length: usize) -> Span
    ensures { result ≡ span_of order word head length }
{
    Span::new(order_of(order), word, head, length)
}

// The significance that a code names: 0 is le, 1 is be.
pub fn significance_of(code: u8) -> Significance
    ensures { result ≡ significance_of code }
{
    if code == 0 {
        Significance::Le
    } else {
        Significance::Be
    }
}

// The sign that a code names: 0 is unsigned, 1 is signed.
pub fn sign_of(code: u8) -> Sign
    ensures { result ≡ sign_of code }
{
    if code == 0 {
        Sign::Unsigned
    } else {
        Sign::Signed
    }
}

// The number that a value stands for: the value itself, or with `below` the value counted down from -1, so that 0 stands for -1.
pub fn number_of(below: u8, value: u64) -> Number
    ensures { result ≡ number_of below value }
{
    if below == 0 {
        Number::Up(value)
    } else {
        Number::Down(value)
    }
}

// The bit that a code names.
pub fn bit_of(code: u8) -> bool
    ensures { result ≡ bit_of code }
{
    if code == 0 { false } else { true }
}

// Whether a number is that of an operation: the truth table of and, or, or xor, read as a number.
pub fn is_operation(operation: u8) -> bool
    ensures { result ≡ not (no_operation operation) }
{
    if operation == AND {
        return true;
    }
    if operation == OR {
        return true;
    }
    operation == XOR
}

// Looks whether a number is a code: 0 or 1.
fn look(code: u8) -> Result<(), Fault>
    ensures { result ≡ unless_none (none code) tt }
{
    if 1 < code {
        return Err(Fault::NoCode);
    }
    Ok(())
}
