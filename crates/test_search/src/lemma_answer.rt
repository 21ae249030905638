//! Why a call finds nothing, as an answer.
use rx_fm::FmEnd;
use test_lines::Answer;

/// Why there is no answer; out of memory is none that a line could want.
pub fn ended(end: FmEnd) -> Option<Answer> {
    match end {
        FmEnd::Large => Some(Answer::Word("large")),
        FmEnd::NoMemory => None,
    }
}
