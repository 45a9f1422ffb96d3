// The file: how it begins, and its records one after another. A read that fails counts as the file's end.
ghost use Rattle.std.specs.Prelude.{◌≡◌, ◌≤◌, length};
ghost use Rattle.records.specs.declared.input.Unread.{Unread};

use crate::form::{Fault, length_of};
use crate::numbers::{NUMBER_BYTES, number_at};
use crate::record::{FRONT_BYTES, Record};
use std::error::Error;
use std::fmt;
use std::io::Read;

// What a file of records begins with.
const LABEL: &[u8; 8] = b"STPLVEC1";

// How many bytes the file has in front of its records: the label, and how many records there are.
const HEAD_BYTES: usize = 16;

// The length of the shortest records: those of position and selector.
pub const SHORTEST: usize = 40;

// The length that no record passes, and so the length of a buffer for one.
pub const LONGEST: usize = 216;

// Why a file is none of records: it has too few bytes for a head, or does not begin with the label.
#[derive(Clone, Copy, Debug, PartialEq, Eq, Hash)]
pub enum Unbegun {
    Short,
    Foreign,
}

// Why the next record cannot be had: it is cut short, has a length that no record has, or is malformed.
#[derive(Clone, Copy, Debug, PartialEq, Eq, Hash)]
pub enum Unread {
    Short,
    Unlikely(usize),
    Malformed(Fault),
}

// Reads the file's head, and gives how many records it announces.
pub fn begin(file: &mut impl Read) -> Result<u64, Unbegun> {
    let mut bytes = [0u8; HEAD_BYTES];
    if read_full(file, &mut bytes) < HEAD_BYTES {
        return Err(Unbegun::Short);
    }
    if !bytes.starts_with(LABEL) {
        return Err(Unbegun::Foreign);
    }
    Ok(number_at(&bytes, NUMBER_BYTES))
}

// Reads the next record into a buffer of zeros.
pub fn next<'a>(file: &mut impl Read, buffer: &'a mut [u8; LONGEST]) -> Result<Record<'a>, Unread> {
    take(file, buffer)?;
    Ok(Record::new(buffer)?)
}

// Whether the file ends here.
pub fn is_over(file: &mut impl Read) -> bool {
    let mut more = [0u8; 1];
    read_full(file, &mut more) == 0
}

// Reads the bytes of the next record: the first ones, which tell its length, and then as many more.
fn take(file: &mut impl Read, buffer: &mut [u8; LONGEST]) -> Result<(), Unread> {
    fill(file, &mut buffer[..FRONT_BYTES])?;
    let length = length_of(buffer);
    if length < SHORTEST || LONGEST < length {
        return Err(Unread::Unlikely(length));
    }
    fill(file, &mut buffer[FRONT_BYTES..length])
}

// Reads until a buffer is full.
fn fill(file: &mut impl Read, bytes: &mut [u8]) -> Result<(), Unread> {
    if read_full(file, bytes) < bytes.len() {
        return Err(Unread::Short);
    }
    Ok(())
}

// Reads until a buffer is full, the file ends or a read fails, and gives how many bytes it has put at the front of the buffer.
fn read_full(file: &mut impl Read, bytes: &mut [u8]) -> usize
    ensures { result ≤ length bytes.new }
{
    let mut done = 0;
    while done < bytes.len() {
        let more = file.read(&mut bytes[done..]).unwrap_or(0);
        if more == 0 {
            break;
        }
        done += more;
    }
    done
}

impl From<Fault> for Unread {
    ghost from_gives = { λ fault e. e ≡ Unread.Malformed fault };

    // A record that is malformed.
    fn from(fault: Fault) -> Unread {
        Unread::Malformed(fault)
    }
}

impl fmt::Display for Unbegun {
    // What the file is instead of one of records.
    fn fmt<W: fmt::Write>(&self, f: &mut fmt::Formatter<W>) -> fmt::Result {
        f.write_str(match self {
            Unbegun::Short => "the file has no 16 bytes, or cannot be read",
            Unbegun::Foreign => "the file does not begin with STPLVEC1",
        })
    }
}

impl Error for Unbegun {}

impl fmt::Display for Unread {
    // What is wrong with the record.
    fn fmt<W: fmt::Write>(&self, f: &mut fmt::Formatter<W>) -> fmt::Result {
        match self {
            Unread::Short => f.write_str(
                "is cut short: the file ends before or in it, or cannot be read further",
            ),
            Unread::Unlikely(length) => write!(
                f,
                "has a length of {length} bytes; the shortest has {SHORTEST}, the longest {LONGEST}"
            ),
            Unread::Malformed(fault) => write!(f, "{fault}"),
        }
    }
}

impl Error for Unread {}
