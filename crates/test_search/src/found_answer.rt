//! What is found, as an answer, and whether that is what a line wants.
use rx_fm::FmEnd;
use std::alloc::Global;
use test_lines::{Answer, Meant};

/// Why there is no answer; out of memory is none that a line could want.
pub fn ended(end: FmEnd) -> Option<Answer> {
    match end {
        FmEnd::Large => Some(Answer::Word("large")),
        FmEnd::NoMemory => None,
    }
}

/// Whether the line wants this answer of the call; none where there is no memory. Of `ranks` the
/// word `some` wants that there are some, whichever.
pub fn is_wanted(alloc: Global, call: &str, found: &Answer, wanted: &str) -> Option<bool> {
    match found {
        Answer::Text(_) if call == "ranks" && wanted == "some" => Some(true),
        _ => found.is_meant(alloc, wanted),
    }
}
