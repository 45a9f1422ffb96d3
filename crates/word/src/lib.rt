// The leaves that know words. All that is done to a word by its order is done here, for words of any width; what is above speaks of indexes alone.
#![tactic(auto)]

mod masks;
mod moves;
mod rows;
mod word;
mod zeros;

pub use masks::{mask, select, under};
pub use moves::{down, joined, up};
pub use rows::{fetch, lead, least, part, put, read, write};
pub use word::Word;
pub use zeros::{flip, last_end, zeros_end};
