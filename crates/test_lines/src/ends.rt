//! Answers of calls that may pass the limits.
use crate::answers::Answer;
use rx_poly::PolyEnd;

/// Why there is no answer; out of memory is none that a line could want.
pub fn ended(end: PolyEnd) -> Option<Answer> {
    match end {
        PolyEnd::Large => Some(Answer::Word("large")),
        PolyEnd::NoMemory => None,
    }
}
