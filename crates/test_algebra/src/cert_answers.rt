//! Compares what the crates on certificates and on elimination answer with values from outside.
use crate::{cert_calls, fm_calls};
use std::alloc::Global;
use test_lines::{Answer, SEMICOLON, parted};

/// What the call answers; none where the line can't be read, or there is no memory.
pub fn answer_to(alloc: Global, call: &str, given: &str) -> Option<Answer> {
    let (of, name) = call.split_once('.')?;
    let (first, more) = parted(given, SEMICOLON);
    let (second, third) = parted(more, SEMICOLON);
    match of {
        "cert" => cert_calls::answer_to(alloc, name, first, second, third),
        "fm" => fm_calls::answer_to(alloc, name, first, second),
        _ => None,
    }
}
