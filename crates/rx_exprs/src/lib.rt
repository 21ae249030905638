//! The code of expressions: what the table of rx_code says, written down.
#![tactic(auto)]

mod exprs;
mod operators;
mod ranges;
mod results;
mod setting;

pub use exprs::{condition, set_value, value};
pub use operators::{arithmetic, comparison};
pub use setting::Setting;
