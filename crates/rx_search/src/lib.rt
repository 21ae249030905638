//! The search for a proof: choices at settled goals, and the visits of the tree of choices.
//!
//! What a reader may rely on: `Search::search` comes to exactly what the definition in
//! `specs/Search` says, and each log that it makes is accepted.
//!
//! It asks two closures: one refutes rows, and the other finds the lemmas of a goal. What they
//! answer isn't shown again. A node that a choice leads to is exactly what `specs/Calls` says.
#![tactic(auto)]

mod beginning;
mod candidates;
mod choices;
mod dropping;
mod known;
mod menu;
mod node;
mod node_choices;
mod plans;
mod search;
mod search_end;
mod search_space;
mod search_task;

pub use beginning::{Beginning, Inside, begin, rule_pairs};
pub use candidates::Candidate;
pub use node::{Node, copied_rows, is_closed};
pub use node_choices::{Choices, KnownChoice};
pub use rx_fm::FmEnd;
pub use rx_plain::NoMemory;
pub use search::{MOST_KEPT, Search, log_inside, log_of, search_over, search_with, unranked_end};
pub use search_end::SearchEnd;
pub use search_space::SearchSpace;
pub use search_task::SearchTask;
