// Recorded requests with their answers, in the form that vectors/README.md describes: read from a file, taken apart, and held to what a
// call gave. Only bytes that are a record's become a `Record`; a place past their end reads as 0. Methods whose places and
// lengths are summed promise bounds, so that no sum overflows.
#![tactic(auto)]

pub mod arguments;
pub mod calls;
pub mod form;
pub mod input;
mod numbers;
pub mod owners;
mod places;
pub mod record;
pub mod seen;
