//! Finding cover trees: proofs that at each redex, whatever its arguments are, some rule applies.
#![tactic(auto)]

mod building;
mod built;
mod finding;
mod laws;
mod shapes;
mod splits;
mod uses;

pub use finding::find_cover;
pub use laws::{paired_sets_are_coverable, some_sets_are_coverable};
pub use rx_fm::FmEnd;
pub use rx_plain::NoMemory;
