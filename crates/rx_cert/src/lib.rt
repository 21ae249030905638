//! Certificates: proofs by linear arithmetic, case splits, elimination and division facts that no
//! integers meet a list of rows. Anybody can check one, whoever wrote it.
#![tactic(auto)]

mod cert;
mod conditions;
mod differences;
mod division_facts;
mod elimination;
mod examination;
mod laws;
mod refutation;
mod rounding;
mod sums;

pub use cert::{Cert, Parts, copied_certs};
pub use conditions::{ConditionsAnswer, check_conditions, check_in_order, count_asked, is_plain};
pub use differences::{row_above, row_below};
pub use division_facts::{Division, divide, facts_at_least_zero, facts_below_zero};
pub use elimination::{are_opposites, polynomial_at_zero, solve};
pub use laws::shown_rows_have_certificates;
pub use refutation::{shows, shows_row};
pub use rounding::rounded_row;
pub use rx_plain::NoMemory;
pub use rx_poly::PolyEnd;
pub use sums::sum_refutes;
