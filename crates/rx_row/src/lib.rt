//! Rows over polynomials, `p >= 0`, `p = 0` and `p != 0`, lists of rows that are all to hold, and
//! the sums of their multiples.
#![tactic(auto)]

mod constraint;
mod laws;
mod opposites;
mod parts;
mod row;
mod variables;

pub use constraint::{Constraint, rows_at_args, subst_rows};
pub use laws::a_pushed_row_is_to_hold_too;
pub use parts::{combine, combine_rows};
pub use row::Row;
pub use rx_plain::NoMemory;
pub use rx_poly::PolyEnd;
pub use variables::{rows_bound, rows_use_below};
