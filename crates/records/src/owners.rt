// Whose answer a record has.
ghost use Rattle.records.specs.Calls.{Owns};

use std::error::Error;
use std::fmt;

// Whose an answer is: bitvec's, or that of the model of the rules alone, where bitvec has none.
#[derive(Clone, Copy, Debug, PartialEq, Eq, Hash)]
pub enum Whose {
    Bitvec = 0,
    Model = 1,
}

// A number that stands for neither.
#[derive(Clone, Copy, Debug, PartialEq, Eq, Hash)]
pub struct NoOwner(pub u8);

impl TryFrom<u8> for Whose {
    type Error = NoOwner;

    ghost try_from_gives = { Owns };

    // The owner that a number stands for.
    fn try_from(number: u8) -> Result<Whose, NoOwner> {
        match number {
            0 => Ok(Whose::Bitvec),
            1 => Ok(Whose::Model),
            _ => Err(NoOwner(number)),
        }
    }
}

impl fmt::Display for NoOwner {
    // The number, and that it stands for no owner.
    fn fmt<W: fmt::Write>(&self, f: &mut fmt::Formatter<W>) -> fmt::Result {
        let number = self.0;
        write!(f, "{number} says of no answer whose it is")
    }
}

impl Error for NoOwner {}
