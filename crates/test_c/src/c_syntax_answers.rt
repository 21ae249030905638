//! Calls that read programs and preconditions in C, with the answers that are wanted. Each line of
//! the standard input is a case: the word of a call, what it is given, and the answer, with ` | `
//! between them. A line that begins with `#` is a heading.
use crate::{copying, parsing};
use std::alloc::Global;

/// What the call answers to what it is given; none where the line is no case.
pub fn answer(alloc: Global, call: &str, given: &str) -> Option<String> {
    match call {
        "parse" | "pre" | "accepts" | "long parse" | "long pre" | "cut" => {
            parsing::answer(alloc, call, given)
        }
        "copy" | "copy pre" | "copy statement" | "same" => copying::answer(alloc, call, given),
        _ => None,
    }
}
