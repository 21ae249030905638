//! The machine that goes through flat code, without recursion.
//!
//! What a reader may rely on: a run with a number of rounds answers the outcome of the counted run
//! of c_meaning: of a call, or of the code's expression in a state (`specs/Preconditions`). A
//! machine keeps its memory from one run to the next. A step goes on at a lower position, takes a
//! round, or goes back to a caller, so a run ends (`specs/Machines`).
#![tactic(auto)]

mod arithmetic;
mod machine;
mod stop;
mod store;

pub use c_meaning::Outcome;
pub use machine::{Machine, call_outcome, expr_outcome};
pub use rx_plain::NoMemory;
