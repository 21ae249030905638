//! Compares what the refuter answers, and how often it is asked behind a cache, with values of
//! another program.
use crate::{asking, refuting};
use std::alloc::Global;
use test_lines::Answer;

/// What the call answers to what it is given; none where the line is no case, or without memory.
pub fn answer_to(alloc: Global, call: &str, given: &str) -> Option<Answer> {
    match call {
        "refutes" => refuting::refuted(alloc, given),
        "entails" => refuting::entailed(alloc, given),
        "calls" => asking::asked_after(alloc, given),
        _ => None,
    }
}
