//! Counterexamples: two functions of a resolved program, run on all small arguments.
//!
//! What a reader may rely on: `compare` answers the first point at which the functions have
//! different outcomes, or that there is none, with the numbers of points found alike and left
//! undecided (`specs/Points`). What is compared is the outcomes of counted runs, which c_machine
//! runs. By the laws of c_meaning and of this crate, an integer or the division error that such a
//! run leads to is what the function returns by the meaning of C, so a difference that is found is
//! one (`specs/Laws`).
#![tactic(auto)]

mod comparison;
mod findings;
pub mod laws;
mod points;

pub use c_meaning::Outcome;
pub use comparison::compare;
pub use findings::{Compared, Finding, RefuteEnd};
pub use laws::{comparisons_have_one_answer, differences_are_meant};
pub use points::MAX_POINTS;
pub use rx_plain::NoMemory;
