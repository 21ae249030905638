//! What a finished run of proof steps means. Nothing here runs.
#![tactic(auto)]

mod descent_laws;
mod laws;

pub use descent_laws::steps_inside_lower_weights;
pub use laws::{
    accepted_runs_end_alike, accepted_runs_join, proofs_are_accepted, runs_keep_fitting,
    runs_stay_inside, terms_inside_reach_results, the_premises_can_be_met,
};
