//! Domains of the symbols of a rule set: rows over a symbol's arguments. The rules keep them where
//! both sides of the goal are inside, and each step from a term inside leads to one inside. Anybody
//! can check the certificates of that, whoever wrote them.
#![tactic(auto)]

mod domain_end;
mod domains;
mod keeping;
mod laws;
mod setting;

pub use domain_end::DomainEnd;
pub use domains::Domains;
pub use keeping::{keep_one, keeps};
pub use laws::{inside_rows_put_terms_inside, kept_domains_are_never_left};
pub use rx_plain::NoMemory;
pub use setting::set_domains;
