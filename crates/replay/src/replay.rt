// Records replayed one after another: each call made, and what is seen after it held to the record and counted.
use crate::tally::Tally;
use crate::telling;
use records::form::MOST_LENT;
use records::input;
use records::input::LONGEST;
use records::record::Record;
use records::seen::Seen;
use std::io;
use std::io::Read;

// What a replay works with: room for the words of either width that a record lends first and second, and the counts so far.
#[derive(Drop)]
pub struct Replay {
    first64: [u64; MOST_LENT],
    second64: [u64; MOST_LENT],
    first8: [u8; MOST_LENT],
    second8: [u8; MOST_LENT],
    tally: Tally,
}

impl Replay {
    // A replay that has counted nothing.
    pub fn new() -> Replay {
        Replay {
            first64: [0; MOST_LENT],
            second64: [0; MOST_LENT],
            first8: [0; MOST_LENT],
            second8: [0; MOST_LENT],
            tally: Tally::new(),
        }
    }

    // The counts.
    pub fn tally(&self) -> &Tally {
        &self.tally
    }

    // Replays so many records of a file, numbered from 1, and counts them; false where one cannot be read or is malformed, which is then said.
    pub fn are_replayed(
        &mut self,
        rt: &impl Print,
        file: &mut impl Read,
        records: u64,
    ) -> io::Result<bool> {
        for number in 1..=records {
            let mut buffer = [0u8; LONGEST];
            match input::next(file, &mut buffer) {
                Ok(record) => self.replay(rt, number, record)?,
                Err(unread) => {
                    println!(rt; "record {number} {unread}")?;
                    return Ok(false);
                }
            }
        }
        Ok(true)
    }

    // Makes a record's call, tells of the first disagreement, and counts.
    fn replay(&mut self, rt: &impl Print, number: u64, record: Record<'_>) -> io::Result<()> {
        let seen = self.seen(record);
        let agrees = seen.agrees(record);
        if !agrees && self.tally.disagreements() == 0 {
            telling::disagreement(rt, number, record, seen)?;
        }
        self.tally.count(record.call(), record.whose(), agrees);
        Ok(())
    }

    // Makes a record's call, and gives what is seen after it.
    fn seen(&mut self, record: Record<'_>) -> Seen {
        if record.width() == 64 {
            recorded::seen(record, &mut self.first64, &mut self.second64)
        } else {
            recorded::seen(record, &mut self.first8, &mut self.second8)
        }
    }
}
