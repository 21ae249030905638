//! The command line: what the words ask for.
#![tactic(auto)]

mod app;
mod command;
mod laws;
mod numbers;

pub use app::command_app;
pub use command::{Command, Comparison, Effort, Extent, Functions, Induction, command_of};
pub use laws::{command_lines_ask, other_modes_are_unbounded};
pub use rx_plain::NoMemory;
