//! Finding rank tables: in rounds, pairs are closed that fall by a column of heights, and then
//! those that fall by a column of polynomials.
//!
//! Here are the columns as they are found: ranks by them, open pairs, how pairs are closed that
//! fall by a column, and the groups of open pairs by component.
//!
//! What a reader may rely on: what each call answers is exactly what its definition in `specs/`
//! comes to, of columns (`Columns`), closed pairs (`Closing`) and groups (`Groups`).
#![tactic(auto)]

mod closing;
mod column;
mod components;
mod fits;
mod groups;
mod heights;
mod lending;
mod levels;
mod open_pair;
mod overlays;
mod polynomials;
mod problem;
mod progress;
mod ranking;
mod ranks;
mod rounds;
mod table;

pub use closing::{close_entry, close_fallen};
pub use column::FoundColumn;
pub use groups::{all_entries, group_entries};
pub use open_pair::OpenPair;
pub use overlays::overlay;
pub use ranking::{Ranking, find_ranks, find_ranks_with};
pub use ranks::{certs_of, ranks_of};
pub use rx_fm::FmEnd;
pub use rx_plain::NoMemory;
