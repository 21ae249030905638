//! Logs of proofs as data, their lines in order, and when a log is accepted for rules and a goal.
#![tactic(auto)]

mod line;
mod line_state;
mod log;
mod version;

pub use line::Line;
pub use line_state::LineState;
pub use log::Log;
pub use version::Version;
