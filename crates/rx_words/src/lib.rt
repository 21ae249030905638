//! Certificates, parts of sums, substitutions and rows as words of a line: written, and read back
//! from bytes at a place.
#![tactic(auto)]

mod assembly;
mod certificates;
mod heads;
mod laws;
mod lists;
mod numbers;
mod pairs;
mod parts;
mod places;
mod substitutions;
mod text;
mod writing;

pub use certificates::{push_certs, read_cert, read_certs};
pub use laws::{
    certificate_lists_have_one_reading, certificates_have_one_reading, numbers_have_one_reading,
    parts_have_one_reading, row_lists_have_one_reading, substitutions_have_one_reading,
};
pub use lists::push_count;
pub use numbers::read_number;
pub use parts::{push_parts, read_parts};
pub use places::ending_word;
pub use rx_plain::NoMemory;
pub use substitutions::{push_rows, push_subst, read_rows, read_subst};
pub use writing::push_cert;
