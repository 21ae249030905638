//! Cover trees: proofs that at each redex, whatever its arguments are, some rule applies. Anybody
//! can check one, whoever wrote it.
#![tactic(auto)]

mod cover_end;
mod cover_tree;
mod covering;
mod examination;
mod laws;
mod redex;

pub use cover_end::CoverEnd;
pub use cover_tree::CoverTree;
pub use covering::{cover_one, covers, domain_rows};
pub use laws::{a_tree_covers_its_path, trees_cover_rule_sets};
pub use redex::{Redex, is_redex_of};
pub use rx_plain::NoMemory;
