//! What an answer of the refuter says of the leaves of its case splits. Nothing here is called by
//! the program.
//!
//! What a reader may rely on: rows that aren't refuted, within the limits, have a leaf at which the
//! elimination finds no multipliers, and there are none; of rows that are refuted it finds some at
//! each leaf.
//! The leaves are a relation between lists of rows (`Leaves` of `specs/`), with a constructor for
//! each step of a phase.
#![tactic(auto)]

mod laws;

pub use laws::{no_has_an_open_leaf, rows_have_polynomials, yes_closes_all_leaves};
