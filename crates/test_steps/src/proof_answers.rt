//! One happy path, and a refusal or two, of the calls that refute rows and apply steps, with ample
//! memory.
use crate::{solve_calls, state_cases};
use std::alloc::Global;
use test_lines::{Answer, SEMICOLON, parted, told};

/// What the call answers; none where the line can't be read, or there is no memory.
pub fn answer_to(alloc: Global, call: &str, given: &str) -> Option<Answer> {
    let (of, name) = call.split_once('.')?;
    let (first, second) = parted(given, SEMICOLON);
    match of {
        "solve" => solve_calls::answer_to(alloc, name, first, second),
        "state" => told(state_cases::holds(alloc, name)?),
        _ => None,
    }
}
