//! Calls on programs that were read, with the answers that are wanted: trees, definite assignment,
//! and names resolved. Each line of the standard input is a case: the word of a call, what it is
//! given, and the answer, with ` | ` between them. A line that begins with `#` is a heading.
use crate::{assigning, scoping, trees};
use std::alloc::Global;

/// What the call answers to what it is given; none where the line is no case.
pub fn answer(alloc: Global, call: &str, given: &str) -> Option<String> {
    match call {
        "copy resolved" | "straight" | "straight unresolved" | "low" | "high" => {
            trees::answer(alloc, call, given)
        }
        "fault" => assigning::fault(alloc, given),
        "resolve" | "resolve pre" | "find" => scoping::answer(alloc, call, given),
        _ => None,
    }
}
