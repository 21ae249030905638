//! Compares what the crate on rows answers with values from outside.
use crate::row_calls;
use std::alloc::Global;
use test_lines::{Answer, SEMICOLON, parted, written_out};

/// What the call answers; none where the line can't be read, or there is no memory.
pub fn answer_to(alloc: Global, call: &str, given: &str) -> Option<Answer> {
    let (of, name) = call.split_once('.')?;
    let given = written_out(alloc, given)?;
    let (first, second) = parted(given.as_str(), SEMICOLON);
    match of {
        "row" => row_calls::answer_of_row(alloc, name, first, second),
        "rows" => row_calls::answer_of_rows(alloc, name, first, second),
        _ => None,
    }
}
