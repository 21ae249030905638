//! The commands of ctrl: what is answered to the words, and the run of the program.
#![tactic(auto)]

mod answers;
mod check;
mod dropping;
mod examples;
mod in_memory;
mod inductions;
mod laws;
mod posed;
mod problems;
mod proving;
mod refuting;
mod top;
mod translations;

pub use examples::demo;
pub use in_memory::run_in_memory;
pub use laws::{
    counterexamples_exclude_proofs, translated_rules_are_judged_alike, words_have_one_report,
    written_inductions_are_accepted, written_logs_are_accepted,
};
pub use posed::problem_of_words;
pub use problems::Problem;
pub use rx_plain::NoMemory;
pub use rx_report::{Status, Verdict, report};
pub use top::{Ending, run, run_told};
