//! The rules of compiled code agree with the meaning of C, and so proofs by steps show that two C
//! functions compute the same. Nothing here runs.
#![tactic(auto)]

mod laws;
mod soundness_laws;

pub use laws::{
    bounds_hold, carried_code_agrees_with_the_meaning, convertible_results_are_one_outcome,
    goals_speak_of_both_functions, preconditions_mean_their_rows, range_errors_are_reached,
    rules_and_meaning_agree, the_premises_can_be_met,
};
pub use soundness_laws::{premises_of_equal_functions_can_be_met, proofs_show_equal_functions};
