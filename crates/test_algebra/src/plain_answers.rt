//! Compares what the lists, the graded lists and the boxes of rx_plain answer with values from
//! outside, at numbers.
use crate::plain_calls;
use std::alloc::Global;
use test_lines::{Answer, SEMICOLON, parted};

/// What the call answers; none where the line can't be read, or there is no memory.
pub fn answer_to(alloc: Global, call: &str, given: &str) -> Option<Answer> {
    let (of, name) = call.split_once('.')?;
    let (first, second) = parted(given, SEMICOLON);
    match of {
        "items" => plain_calls::of_items(alloc, name, first, second),
        "graded" => plain_calls::of_graded(alloc, name, first, second),
        "boxed" => plain_calls::of_box(alloc, name, first, second),
        "memory" => plain_calls::is_text_of_no_memory(alloc, first),
        _ => None,
    }
}
