// Two parties in one byte: a mixture of their calls, and each party's calls alone. The first party has positions 0 to 3 and works in Lsb0,
// the second has positions 4 to 7 and works in Msb0. Each gets the same answers and the same half of the byte in both runs.
#![tactic(auto)]

use requests::{Request, Side};
use rules::{Number, Operation, Order, Sign, Significance, Span};
use show::{Hex, Shown};
use std::{fmt, io};

// Who asks.
#[derive(Clone, Copy, PartialEq, Eq)]
enum Party {
    First,
    Second,
}

impl fmt::Display for Party {
    // Which of the two it is, in words.
    fn fmt<W: fmt::Write>(&self, f: &mut fmt::Formatter<W>) -> fmt::Result {
        let party = *self;
        let name = match party {
            Party::First => "first",
            Party::Second => "second",
        };
        fmt::Display::fmt(name, f)
    }
}

// A call of a party's, and what is printed of it.
#[derive(Clone, Copy)]
struct Step {
    party: Party,
    name: &'static str,
    request: Request,
}

// The first party's half of the byte: positions 0 to 3.
fn low() -> Span {
    Span::new(Order::Lsb0, 0, 0, 4)
}

// The second party's half of the byte: positions 7 down to 4.
fn high() -> Span {
    Span::new(Order::Msb0, 0, 0, 4)
}

// A span whose head is past the byte: every call on it is refused.
fn beyond() -> Span {
    Span::new(Order::Msb0, 0, 8, 1)
}

// A call of the first party's.
fn first(name: &'static str, request: Request) -> Step {
    Step {
        party: Party::First,
        name,
        request,
    }
}

// A call of the second party's.
fn second(name: &'static str, request: Request) -> Step {
    Step {
        party: Party::Second,
        name,
        request,
    }
}

// The calls of both parties, in turns: the first stores a number that fits its half, and strictly one that does not, loads its half and turns
// every bit of it; the second seeks its first zero, moves two bits inside its half, loads it, reads a bit outside the byte, and compares its
// half with itself.
fn steps() -> [Step; 9] {
    let le = Significance::Le;
    let be = Significance::Be;
    let sign = Sign::Unsigned;
    let xor = Operation::Xor.number();
    let here = Side::Here;
    [
        first("store 9", Request::Store(low(), 8, le, sign, Number::Up(9))),
        second("first zero", Request::FindFirst(false, high())),
        second(
            "copy 2 bits from 0 to 1",
            Request::CopyWithin(high(), 0, 2, 1),
        ),
        first(
            "store 16 strictly",
            Request::StoreStrict(low(), 8, le, sign, Number::Up(16)),
        ),
        second("load", Request::Load(high(), 8, be, sign)),
        first("load", Request::Load(low(), 8, le, sign)),
        second("read a bit at head 8", Request::ReadBit(beyond(), 0)),
        second(
            "compare with itself",
            Request::Equal(here, high(), here, high()),
        ),
        first("xor with four ones", Request::Boolean(low(), low(), xor)),
    ]
}

// Performs those calls on B4 that one of the parties asks for, and prints a line each with what it answers, and one with the byte that is
// left. The second buffer holds four ones for the request that wants them.
fn run(rt: &impl Print, parties: &[Party]) -> io::Result<()> {
    let mut words = [0xB4u8];
    let other = [0x0Fu8];
    for step in steps() {
        if parties.contains(&step.party) {
            let reply = Shown(perform::perform(&mut words, &other, step.request));
            println!(rt; "{:<7} {:<25} | {reply}", step.party, step.name)?;
        }
    }
    println!(rt; "{:<33} | {}\n", "the byte", Hex(words[0]))
}

// Prints the three runs, each on B4.
fn main(rt: HostRuntime) -> io::Result<()> {
    println!(&rt; "both, on B4")?;
    run(&rt, &[Party::First, Party::Second])?;
    println!(&rt; "the first alone, on B4")?;
    run(&rt, &[Party::First])?;
    println!(&rt; "the second alone, on B4")?;
    run(&rt, &[Party::Second])
}
