//! Pairs of rules and hypotheses, rank tables, and certificates that each step makes the weight
//! of a term smaller.
#![tactic(auto)]

mod columns;
mod common;
mod descending;
mod graph;
mod laws;
mod listing;
mod loops;
mod lower;
mod pair;
mod pair_cert;
mod pair_end;
mod pairs;
mod parts;
mod table;

pub use columns::{hold_row, on_left, on_right, one_less};
pub use descending::decreases;
pub use graph::{graph_of, is_loop_point};
pub use laws::{
    loop_points_reach_themselves, lower_pairs_lower_weights, pairs_are_listed,
    pairs_inside_are_pairs_of_bounded_rules, rules_have_one_list_of_pairs,
    well_made_rules_have_roots,
};
pub use listing::{Listing, listed_pairs};
pub use loops::{Loops, loops_of};
pub use lower::is_lower;
pub use pair::Pair;
pub use pair_cert::PairCert;
pub use pair_end::PairEnd;
pub use pairs::{all_pairs, have_roots, pairs_in, pairs_of};
pub use rx_plain::NoMemory;
pub use rx_poly::PolyEnd;
pub use table::{RankTable, bad_ranks};
