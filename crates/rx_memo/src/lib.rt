//! A memo by goals: what was found of a goal is kept, and found again where the goal is met again.
//!
//! What a reader may rely on: a memo gives of a goal only what was kept of it, and what is kept
//! stays.
#![tactic(auto)]

mod digest;
mod goal_memo;

pub use goal_memo::{GoalMemo, Kept};
pub use rx_plain::NoMemory;
