//! The state of a proof at a step of its log, which is read from a file in pieces: neither the text
//! nor the log is kept.
#![tactic(auto)]

mod at_step;
mod following;
mod front_lines;
mod inside;
mod look_end;
mod looking;
mod reading;

pub use at_step::AtStep;
pub use front_lines::Fronts;
pub use look_end::LookEnd;
pub use reading::{fronts_in_file, step_in_file};
pub use rx_plain::NoMemory;
