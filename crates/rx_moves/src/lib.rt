//! Rewriting a side of a goal: the first rule that applies at its redex, or the expansion by all.
//! What is found is a step that is formed and shown, and what it makes; it isn't taken here.
//!
//! What a reader may rely on: `find_unfolding` and `find_leaving` find exactly the moves that the
//! definitions in `specs/Unfolding` find, and the step that is found makes the state that its move
//! leads to. The solver stays one.
//!
//! The longest common suffix of two terms: the innermost frames and calls with one symbol each,
//! whose polynomials a solver shows equal.
//!
//! What a reader may rely on: `find_suffix` answers exactly how many parts are common, and whether
//! the first that isn't passes the limits (`specs/Suffixes`). The solver stays one.
#![tactic(auto)]

mod expanding;
mod finding;
mod formation;
mod found;
mod loop_points;
mod outcome;
mod rule_steps;
mod rules;
mod sides;

pub use finding::{Common, Suffix, find_suffix};
pub use formation::{Formation, form_step};
pub use found::{Found, Ready};
pub use loop_points::LoopPoints;
pub use outcome::Outcome;
pub use rx_fm::FmEnd;
pub use rx_plain::NoMemory;
pub use sides::{find_leaving, find_unfolding};
