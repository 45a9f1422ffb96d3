// Counts of replayed records: a row for each call, in the order of the calls' numbers, and one for all calls together.
use records::calls::{CALLS, Call};
use records::owners::Whose;
use std::{fmt, io};

// How many records were replayed, how many of their answers are bitvec's and the model's alone, and how many disagree.
#[derive(Clone, Copy, Debug, Default, PartialEq, Eq)]
struct Row {
    replayed: u64,
    of_bitvec: u64,
    of_model: u64,
    disagree: u64,
}

// The rows of all calls, and that of all together.
#[derive(Clone, Copy, Debug, PartialEq, Eq)]
pub struct Tally {
    rows: [Row; CALLS],
    all: Row,
}

impl Row {
    // Counts a record. A count that can go no further stays.
    fn count(&mut self, whose: Whose, agrees: bool) {
        self.replayed = self.replayed.saturating_add(1);
        match whose {
            Whose::Bitvec => self.of_bitvec = self.of_bitvec.saturating_add(1),
            Whose::Model => self.of_model = self.of_model.saturating_add(1),
        }
        if !agrees {
            self.disagree = self.disagree.saturating_add(1);
        }
    }
}

impl fmt::Display for Row {
    // The four counts, each with what it counts.
    fn fmt<W: fmt::Write>(&self, f: &mut fmt::Formatter<W>) -> fmt::Result {
        write!(
            f,
            "{} replayed | {} bitvec's | {} the model's alone | {} disagree",
            self.replayed, self.of_bitvec, self.of_model, self.disagree
        )
    }
}

impl Tally {
    // The counts before any record.
    pub fn new() -> Tally {
        Tally {
            rows: [Row::default(); CALLS],
            all: Row::default(),
        }
    }

    // Counts a record of a call, in the call's row and in that of all.
    pub fn count(&mut self, call: Call, whose: Whose, agrees: bool) {
        self.rows[call.number() as usize].count(whose, agrees);
        self.all.count(whose, agrees);
    }

    // How many records disagree so far.
    pub fn disagreements(&self) -> u64 {
        self.all.disagree
    }

    // Prints a line for each call, and one for all.
    pub fn print(&self, rt: &impl Print) -> io::Result<()> {
        for (call, row) in Call::ALL.iter().zip(self.rows.iter()) {
            println!(rt; "{call:<12} | {row}")?;
        }
        let all = self.all;
        println!(rt; "all          | {all}")
    }
}
