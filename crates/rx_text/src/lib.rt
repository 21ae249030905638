//! The text of numbers, polynomials and rows: written, and read back from bytes at a place.
#![tactic(auto)]

mod digits;
mod laws;
mod numbers;
mod poly_reader;
mod poly_writer;
mod rows;
mod words;

pub use laws::{
    integers_have_one_reading, naturals_have_one_reading, polynomials_have_one_reading,
    rows_have_one_reading,
};
pub use numbers::{push_integer, push_natural, read_integer, read_natural};
pub use poly_reader::read_poly;
pub use poly_writer::push_poly;
pub use rows::{push_row, read_row};
pub use rx_plain::NoMemory;
pub use words::{push_word, skip_word};
