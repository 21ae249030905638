//! Deciding whether there are ranks, without a table of them: in rounds, pairs are left out that
//! fall by a column of heights, and then those that fall by a column of polynomials.
//!
//! What a reader may rely on: `has_ranks_with` says that there are ranks exactly where the ranking
//! of rx_rank finds some, and Large only where it finds none and something that was tried passes
//! the limits (`specs/HasRanks`). The solver stays one.
#![tactic(auto)]

mod components_memo;
mod deciding;
mod hypotheses;
mod problem;
mod rank_memo;
mod staying;

pub use deciding::has_ranks_with;
pub use rank_memo::RankMemo;
pub use rx_fm::FmEnd;
pub use rx_plain::NoMemory;
