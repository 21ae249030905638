//! Finding domains: rows over the arguments of the symbols that the goal and the rules keep, as a
//! solver shows it, with certificates that they do.
#![tactic(auto)]

mod candidates;
mod finding;
mod given;
mod groups;
mod keeps;
mod passes;
mod staying;

pub use finding::{find_domains, settle_rows, settled_domains};
pub use given::rows_of;
pub use groups::{find_groups, in_one_group};
pub use rx_domain::Domains;
pub use rx_fm::FmEnd;
pub use rx_plain::NoMemory;
pub use staying::{drop_row, put_rows};
