//! The wider search for a proof: what two programs keep while they run side by side. Its nodes have
//! tasks, sides that are still to be unfolded; its start stands behind lemmas on tail calls; and
//! its choices keep an equation of which the goal is an instance.
//!
//! What a reader may rely on: `wider_search` comes to exactly what the definition in `specs/Wider`
//! says, and the node that it gives is closed: its steps lead from the goal to no goal, and there
//! are ranks with the hypotheses that it kept.
#![tactic(auto)]

mod candidates;
mod choices;
mod dropping;
mod explorer;
mod inside;
mod keeping;
mod known;
mod lemmas;
mod node;
mod opening;
mod ranks;
mod search;
mod tail_calls;
mod target;
mod tree;
mod trying;

pub use candidates::{Candidate, Plan};
pub use node::Node;
pub use opening::Begun;
pub use rx_fm::FmEnd;
pub use rx_plain::NoMemory;
pub use search::{Reach, wider_search};
pub use tail_calls::TailCall;
