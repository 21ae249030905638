//! What a run may answer, how it ends then, and the text that reports it.
//!
//! What a reader may rely on: a status has one number (`Status::code`), each answer one status
//! (`Answer::status`), and each answer that has a text one line, the log of a proof or a rule text
//! (`Answer::into_text`, `report`), as the tables of `specs/Ends` and `specs/Texts` say. Nothing is
//! read or written here.
#![tactic(auto)]

mod answer;
mod ends;
mod reports;
mod verdicts;

pub use answer::Answer;
pub use ends::Status;
pub use reports::report;
pub use rx_plain::NoMemory;
pub use verdicts::Verdict;
