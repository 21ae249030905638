//! The code of statements and functions: what the table of rx_code says, written down.
#![tactic(auto)]

mod functions;
mod places;
mod stmts;

pub use functions::{code_of, function};
pub use places::Places;
pub use stmts::{list, statement};
