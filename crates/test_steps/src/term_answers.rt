//! Compares what the crate on terms and rules answers with values from outside.
use crate::{rule_calls, term_calls};
use std::alloc::Global;
use test_lines::{Answer, SEMICOLON, parted, written_out};

/// What the call answers; none where the line can't be read, or there is no memory.
pub fn answer_to(alloc: Global, call: &str, given: &str) -> Option<Answer> {
    let (of, name) = call.split_once('.')?;
    let given = written_out(alloc, given)?;
    let (first, more) = parted(given.as_str(), SEMICOLON);
    let (second, third) = parted(more, SEMICOLON);
    match of {
        "term" => term_calls::answer_to(alloc, name, first, second, third),
        "rule" => rule_calls::answer_to(alloc, name, first),
        _ => None,
    }
}
