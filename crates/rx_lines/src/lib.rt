//! Texts of lines: cut at their line feeds, read by an order of lines, and the first line with
//! which no text of that order begins.
#![tactic(auto)]

mod cutting;
mod example;
mod laws;
mod words;

pub use cutting::split_line;
pub use example::{ItemsThenLast, the_premises_can_be_met};
pub use laws::{LineOrder, a_text_has_one_reading, first_bad_lines_are_found};
pub use words::{is_word, skip_beginning, skip_whole, up_to_end};
