//! The rules of an instruction, the rule set of two functions of a program, the rows of a
//! precondition, and the goal of two symbols: what the table of rx_code says, written down.
#![tactic(auto)]

mod bounding;
mod goal;
mod marks;
mod parts;
mod preconditions;
mod reached;
mod rules;
mod translate_end;
mod translation;

pub use bounding::bounds;
pub use goal::goal_of;
pub use parts::parts_of;
pub use preconditions::rows_of_pre;
pub use reached::reached_functions;
pub use rules::{entry_of, push_rules};
pub use translate_end::TranslateEnd;
pub use translation::{Translation, rules_of};
