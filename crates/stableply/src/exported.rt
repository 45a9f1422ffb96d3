// The calls as they leave for other languages, over words of any width: each returns 0 where the request is accepted, else the number of the
// refusal, or 255 where an argument is no code. What a reference leads to is written only where the call returns 0. An export of `stableply_c` is
// one of these at its width, and nothing more; `recorded` asks the same.

pub mod fields;
pub mod rows;
pub mod searches;
pub mod unlent;
