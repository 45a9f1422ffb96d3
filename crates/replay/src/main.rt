// Replays a file of recorded requests, which the program's first argument names; vectors/README.md describes its form. Each call is made
// through the function of the crate `stableply` that is exported for C. What it returns, its out-values and every lent word afterwards are
// compared with the record. The program prints the first disagreement, if there is one, and then counts for each call.
#![tactic(auto)]

mod replay;
mod tally;
mod telling;

use crate::replay::Replay;
use records::input;
use std::io::{Read, Write};
use std::rt::{Env, Files};
use std::{fs, io};

// How many bytes there is room for in the file's name. The system opens none by a longer name.
const NAME_BYTES: usize = 4096;

// Replays the file that the first argument names.
fn main(rt: HostRuntime) -> io::Result<()> {
    let mut name = [0u8; NAME_BYTES];
    match rt.arg(1, &mut name) {
        Ok(length) if length > 0 => replay_named(&rt, &name[..length]),
        _ => println!(rt; "usage: replay FILE"),
    }
}

// Opens the file of that name and replays it, or says that it cannot be opened.
fn replay_named<R: Files + Print>(rt: &R, name: &[u8]) -> io::Result<()> {
    match opened(rt, name) {
        Some(mut file) => replay_file(rt, &mut file),
        None => {
            print!(rt; "the file cannot be opened: ")?;
            io::writer(rt).write_all(name)?;
            println!(rt; "")
        }
    }
}

// The file of that name, to be read, if it can be opened. A name is text.
fn opened<R: Files>(rt: &R, name: &[u8]) -> Option<R::File> {
    let text = str::from_utf8(name).ok()?;
    fs::open(rt, text).ok()
}

// Replays an open file, or says what it is instead of one of records.
fn replay_file(rt: &impl Print, file: &mut impl Read) -> io::Result<()> {
    match input::begin(file) {
        Ok(records) => replay_records(rt, file, records),
        Err(unbegun) => println!(rt; "{unbegun}"),
    }
}

// Replays the records that the file announces, and prints the counts and whether the whole file was replayed.
fn replay_records(rt: &impl Print, file: &mut impl Read, records: u64) -> io::Result<()> {
    let mut replay = Replay::new();
    let done = replay.are_replayed(rt, file, records)?;
    let over = input::is_over(file);
    if done && !over {
        println!(rt; "bytes follow the last record")?;
    }
    replay.tally().print(rt)?;
    if done && over {
        let disagreements = replay.tally().disagreements();
        println!(rt; "replayed to the end, {disagreements} disagree")
    } else {
        println!(rt; "not replayed to the end")
    }
}
