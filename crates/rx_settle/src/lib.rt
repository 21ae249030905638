//! Settling: the steps that a search takes without a choice. A step is tried by what it asks alone;
//! a solver shows that, and the step that is taken has its certificates.
#![tactic(auto)]

mod before_uses;
mod deleting;
mod descending;
mod due;
mod items;
mod known;
mod naming;
mod number;
mod results;
mod settle_memo;
mod settled;
mod settling;
mod showing;
mod sides;
mod step_lists;
mod task_moves;
mod tasked;
mod tasks;
mod trial;
mod trying;
mod uses;

pub use descending::descendants;
pub use due::Due;
pub use known::Known;
pub use rx_plain::NoMemory;
pub use settle_memo::SettleMemo;
pub use settled::Settled;
pub use settling::settle;
pub use step_lists::{append_steps, copied_steps, own_steps, shared_steps};
pub use tasked::Tasked;
pub use tasks::{TaskedSteps, settle_tasks};
pub use trial::Trial;
pub use trying::try_step;
