//! What a text of the C subset means: the meaning by rounds, and its laws. No function of the
//! program runs C; this crate is definitions and laws.
//!
//! What a reader may rely on: each public function has an empty body, and its contract is a law of
//! the definitions in `specs/`: `Outcomes` (what evaluating and executing lead to), `Expressions`
//! and `Statements` (by recursion on the tree, each case with the clause of ISO/IEC 9899:1999 that
//! it restates), `Programs` (calls by rounds, and what a function returns). Which results of
//! arithmetic operators are values is the first argument (`Integers` of c_ast): all, the
//! mathematical integers, or those of 32 bits, where any other result is an error of its own, the
//! range error. Arguments and literals aren't tested. Each call and each turn of a loop uses one
//! round; an outcome that needs more rounds than there are is `More`, and every other outcome is
//! final.
//!
//! The equations of `proofs/Equations` give the outcome of each form of tree from those of its
//! parts.
//!
//! Rounds are the fuel of this evaluator. Beside it stands the counted run of a resolved program:
//! it is the meaning of C by the mathematical integers, but its rounds are handed through: each
//! call and each turn of a loop takes one off what is left, and an arithmetic operator whose exact
//! result is no number of `i128` ends the run (`specs/Runs`, `CountedExpressions`,
//! `CountedStatements`, `Counted`). By its laws an integer or the division error that a run leads
//! to is what the function returns by the meaning, and what is left is at most what there was.
#![tactic(auto)]

pub mod counted_laws;
pub mod laws;
mod outcomes;

pub use counted_laws::{
    counted_calls_are_meant, counted_expressions_are_meant, what_is_left_was_there,
};
pub use laws::{
    a_function_returns_at_most_one_outcome, division_drops_the_fraction,
    outcomes_stay_with_more_rounds, results_in_range_are_kept, straight_bodies_return_their_value,
};
pub use outcomes::Outcome;
