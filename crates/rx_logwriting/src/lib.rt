//! Logs as text, written: only what is read again as the same log.
//!
//! Which things of a log have a text is asked first: those whose lists, variables and depths are in
//! the ranges of the format. All other numbers are in range by their types, and are not looked at.
#![tactic(auto)]

mod certificates;
mod depth;
mod lists;
mod polynomials;
mod ranges;
mod ranges_depth;
mod step_writing;
mod substitutions;
mod terms;
mod trees;
mod writing;

pub use certificates::{cert_has_text, certs_have_text};
pub use lists::{is_count, parts_have_text};
pub use polynomials::{poly_has_text, polys_have_text, row_has_text, rows_have_text};
pub use ranges_depth::{is_tree_within, is_within};
pub use rx_log::Log;
pub use rx_logtext::LogEnd;
pub use substitutions::subst_has_text;
pub use terms::{equation_has_text, term_has_text};
pub use trees::{tree_has_text, trees_have_text};
pub use writing::write_log;
