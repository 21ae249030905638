//! What compiles expressions and functions, and makes the rule set of two functions, with ample
//! memory. Each call is the name of a case that is written in code, to which nothing is given.
use crate::{code_cases, function_cases, translation_cases};
use std::alloc::Global;
use test_lines::{Answer, told};

// Whether the case is as it is to be; none where there is no such case, or no memory.
fn is_so(alloc: Global, of: &str, name: &str) -> Option<bool> {
    match of {
        "code" => code_cases::holds(alloc, name),
        "function" => function_cases::holds(alloc, name),
        "translation" => translation_cases::holds(alloc, name),
        _ => None,
    }
}

/// Whether the case is as it is to be; none where something is given to it, there is no such case, or
/// no memory.
pub fn answer_to(alloc: Global, case: &str, given: &str) -> Option<Answer> {
    if !given.is_empty() {
        return None;
    }
    let (of, name) = case.split_once('.')?;
    told(is_so(alloc, of, name)?)
}
