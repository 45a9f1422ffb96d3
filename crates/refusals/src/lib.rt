// The tables of refusals as code, before any word is read: each check is refused as its table is, by the first row that holds. (Those
// of a span alone, and of a place in it, are the span's own `check` and `check_place`.)
#![tactic(auto)]

mod fields;
mod rows;
mod values;

pub use fields::{check_bit, check_load, check_store, check_store_strict};
pub use rows::{check_copy, check_copy_within, check_pair};
pub use values::{check_field, check_fit, check_value, is_size};
