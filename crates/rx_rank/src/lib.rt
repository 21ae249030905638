//! The first fit choice of polynomials for a component of the graph of pairs, as a solver shows it.
#![tactic(auto)]

mod attempt;
mod candidates;
mod choice;
mod choice_problem;
mod component;
mod exchange;
mod filling;
mod fitting;
mod kind;
mod known_pair;
mod last_places;
mod numbered;
mod numbering;
mod open_component;
mod order;
mod pair_memo;
mod pair_tests;
mod partition;
mod quick;
mod representatives;
mod taking;

pub use attempt::{Attempt, noted_before};
pub use component::fit_component;
pub use fitting::Fit;
pub use kind::RankingKind;
pub use pair_memo::PairMemo;
pub use representatives::{find_representatives, graph_of, is_inside};
pub use rx_fm::FmEnd;
pub use rx_plain::NoMemory;
