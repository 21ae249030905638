//! Iterative deepening over a tree of choices: its nodes are settled one after the other, round by
//! round, up to a budget, and each round goes on from the frontier that the round before it kept.
//!
//! What a reader may rely on: `search` comes to exactly what the definition in `specs/Outcomes`
//! says of the rounds of visits in `specs/Visits`.
#![tactic(auto)]

mod counter;
mod kept;
mod lists;
mod outcome;
mod resume;
mod tree;
mod walk;

pub use lists::search;
pub use outcome::{Note, Outcome};
pub use rx_plain::NoMemory;
pub use tree::{Choice, Menu, Settled, Tree};
