//! The replay of a log: whether it is accepted for rules and a goal, and if not, its first fault.
#![tactic(auto)]

mod check_end;
mod inside;
mod laws;
mod lines;
mod outcomes;
mod progress;
mod replayer;
mod replaying;

pub use check_end::{CheckEnd, LimitAt};
pub use laws::{
    accepted_logs_are_proofs, answers_agree, each_log_has_one_verdict, kept_hypotheses_have_roots,
    lines_give_their_log, proofs_have_logs, the_premises_can_be_met,
};
pub use replayer::Replayer;
pub use replaying::replay;
pub use rx_log::Log;
pub use rx_plain::NoMemory;
