//! Proof states, and the steps on them.
#![tactic(auto)]

mod applying;
mod judging;
mod state;
mod step_end;

pub use applying::{apply, apply_owned};
pub use judging::rows_under;
pub use rx_inference::{Delete, FormedStep, Side, Step};
pub use rx_plain::NoMemory;
pub use state::State;
pub use step_end::StepEnd;
