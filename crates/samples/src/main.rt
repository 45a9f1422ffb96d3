// Runs document 01's sample rows and limits through the library and prints them as a table that a person can hold against the document.
#![tactic(auto)]

mod fields;
mod limits;
mod numbers;
mod positions;
mod rows;

use std::io;

// Prints the tables one after another.
fn main(rt: HostRuntime) -> io::Result<()> {
    positions::run(&rt)?;
    println!(&rt)?;
    fields::run(&rt)?;
    println!(&rt)?;
    rows::run(&rt)?;
    println!(&rt)?;
    limits::run(&rt)?;
    println!(&rt)?;
    numbers::run(&rt)
}
