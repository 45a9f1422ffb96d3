// Fields taken by Rattle code that knows their order and significance, for the benchmark: one call from C takes many. This is no part of
// the library.
#![tactic(auto, using(laws::proofs::Words::Lent::lent_8, laws::proofs::Words::Lent::lent_64))]

mod known64;
mod known8;
mod taken;
