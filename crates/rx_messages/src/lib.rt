//! What a run says on standard error, beside its report: the place of a fault as line and column
//! with the line itself, or in words what was tried and what to try.
#![tactic(auto)]

mod asked;
mod explaining;
mod faults;
mod logs;
mod messages;
mod remarks;
mod rule_texts;
mod silences;

pub use explaining::explain;
pub use faults::Place;
pub use logs::Posed;
pub use rx_places::NoMemory;
pub use silences::Silence;
