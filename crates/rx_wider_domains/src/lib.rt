//! Finding wider domains, where rules have no ranks inside the domains that are found first: of a
//! longer list of rows those that the goal and the rules keep, without the rows that aren't needed
//! for a cover and for ranks.
#![tactic(auto)]

mod by_symbol;
mod finding;
mod group_lists;
mod handing;
mod leaving_out;
mod listing;
mod offering;
mod offers;
mod places;
mod serving;
mod signs;

pub use finding::{find_wider_domains, wider_candidates};
pub use rx_domain::Domains;
pub use rx_fm::FmEnd;
pub use rx_has_ranks::RankMemo;
pub use rx_plain::NoMemory;
