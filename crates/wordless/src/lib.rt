// The calls without lent words: positions, selectors and masks, and numbers of K bits. (Those on spans are the span's own methods.)
#![tactic(auto)]

mod numbers;
mod orders;

pub use numbers::{bits, fitting_bits, from_i64, low_bits, of_bits, read, to_i64};
pub use orders::{mask, position, position_of, selector, selector_at};
