// The calls by numbers and codes, over words of any width: each answers what was asked for, or the fault that it is not done for. Words are
// written only where the call answers `Ok`. In `exported` they stand as they leave for other languages, and as the crate `stableply_c` exports them.
#![tactic(auto)]

pub mod exported;
pub mod fields;
pub mod rows;
pub mod searches;
pub mod unlent;
