//! Calls on the tokens of C texts, with the answers that are wanted. Each line of the standard
//! input is a case: the word of a call, what it is given, and the answer, with ` | ` between them.
//! A line that begins with `#` is a heading.
use crate::{lexing, naming};
use std::alloc::Global;

/// What the call answers to what it is given; none where the line is no case.
pub fn answer(alloc: Global, call: &str, given: &str) -> Option<String> {
    match call {
        "lex" | "long lex" => lexing::answer(alloc, call, given),
        "names" | "name" | "spelling" | "find spelling" | "slot" => {
            naming::answer(alloc, call, given)
        }
        _ => None,
    }
}
