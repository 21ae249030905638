//! Calls of files and a sink in memory, and of the report of a verdict, with the answers that are
//! wanted.
use crate::{files, sinks, verdicts};
use std::alloc::Global;

/// What the call answers to what it is given; none where the line is no case.
pub fn answer(alloc: Global, call: &str, given: &str) -> Option<String> {
    match call {
        "files" => files::answer(alloc, given),
        "sink" => sinks::answer(alloc, given),
        "verdict" => verdicts::reported(alloc, given),
        "codes" => Some(verdicts::codes(alloc)),
        _ => None,
    }
}
