// Why a call with codes is not done.
ghost use Rattle.std.specs.Prelude.{◌≡◌};
ghost use Rattle.border.specs.declared.faults.Fault.TheVariants.{Refused};
ghost use Rattle.border.specs.Faults.{fault_number};

use rules::Refusal;
use std::error::Error;
use std::fmt;

// What an exported call returns where an argument is no code of the interface.
pub const NO_CODE: u8 = 255;

// Why a call with codes is not done: an argument is no code of the interface, which is looked at first, or the library refuses the request.
#[derive(Clone, Copy, Debug, PartialEq, Eq, Hash)]
pub enum Fault {
    NoCode,
    Refused(Refusal),
}

impl Fault {
    // The number that an exported call returns for it.
    pub fn number(self) -> u8
        ensures { result ≡ fault_number self }
    {
        match self {
            Fault::NoCode => NO_CODE,
            Fault::Refused(refusal) => refusal.number(),
        }
    }
}

impl From<Fault> for u8 {
    fn from(fault: Fault) -> u8
        ensures { result ≡ fault_number fault }
    {
        fault.number()
    }
}

impl From<Refusal> for Fault {
    ghost from_gives = { λ refusal result. result ≡ Refused refusal };

    fn from(refusal: Refusal) -> Fault {
        Fault::Refused(refusal)
    }
}

impl fmt::Display for Fault {
    // That it is no code, or what the refusal prints.
    fn fmt<W: fmt::Write>(&self, f: &mut fmt::Formatter<W>) -> fmt::Result {
        match self {
            Fault::NoCode => write!(f, "an argument that is no code"),
            Fault::Refused(refusal) => write!(f, "{refusal}"),
        }
    }
}

impl Error for Fault {}
