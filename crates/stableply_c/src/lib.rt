// The archive that C, Rust and every other language link: each call of the library under its exported name, with the promise that it has there.
// Each returns 0 where the request is accepted, else the number of refusal, or 255 where an argument is no code of this interface. What a pointer
// points to is written only where the call returns 0.
#![tactic(auto, using(laws::proofs::Words::Lent::lent_8, laws::proofs::Words::Lent::lent_64))]

pub mod fields64;
pub mod fields8;
pub mod rows64;
pub mod rows8;
pub mod searches64;
pub mod searches8;
pub mod unlent;
