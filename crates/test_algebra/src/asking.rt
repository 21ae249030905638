//! The questions that a cached solver is asked.
use crate::caching::calls_after;
use std::alloc::Global;
use test_lines::{Answer, BAR, count, list, read_constraint};

/// How often the refuter is asked behind a cache of the capacity given, where the lists of rows
/// after the first ` | ` are asked for in turn.
pub fn asked_after(alloc: Global, given: &str) -> Option<Answer> {
    let (capacity, questions) = given.split_once(BAR)?;
    let capacity = count(capacity)?;
    if capacity < 1 || capacity > 65_536 {
        return None;
    }
    let questions = list(
        alloc,
        questions,
        |alloc, text, at| read_constraint(alloc, text, at),
    )?;
    let calls = calls_after(alloc, capacity, questions.as_slice()).ok()?;
    Some(Answer::Number(calls as i128))
}
