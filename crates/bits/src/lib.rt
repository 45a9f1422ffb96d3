// The bits of a field as a number, over words of any width, for callers that know the field to be in bounds. What a caller wants is `load_by` and
// `store_by`, which choose the way, and `put_piece` for a piece of one word.
#![tactic(auto)]

mod bits;
mod near;
mod pairings;
mod parts;

pub use pairings::{load_by, store_by};
pub use parts::put_piece;
