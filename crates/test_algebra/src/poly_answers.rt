//! Compares what the crates on polynomials answer with values from outside.
use crate::poly_calls;
use std::alloc::Global;
use test_lines::{Answer, SEMICOLON, parted, written_out};

/// What the call answers; none where the line can't be read, or there is no memory.
pub fn answer_to(alloc: Global, call: &str, given: &str) -> Option<Answer> {
    let (of, name) = call.split_once('.')?;
    let given = written_out(alloc, given)?;
    let (first, second) = parted(given.as_str(), SEMICOLON);
    match of {
        "poly" | "laws" => poly_calls::answer_to(alloc, name, first, second),
        _ => None,
    }
}
