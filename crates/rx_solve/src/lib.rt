//! The refuter: certificates for rows that can't all hold, in five phases; and closures that answer
//! as it does.
#![tactic(auto)]

mod asking;
mod disequalities;
mod divisions;
mod laws;
mod pivots;
mod refuter;
mod roundings;
mod showing;
mod sides;
mod sums;

pub use asking::ask;
pub use laws::{refuted_rows_have_a_certificate, shown_rows_hold};
pub use pivots::{Pivot, first_pivot};
pub use refuter::{entails, refutes, replaced_rows};
pub use rx_fm::FmEnd;
pub use rx_plain::NoMemory;
pub use showing::{AllShown, show_all};
