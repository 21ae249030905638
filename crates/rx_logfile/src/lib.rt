//! The log of a proof, replayed while it is read from a file: neither its text nor the log is kept.
#![tactic(auto)]

mod file_end;
mod log_check;
mod reading;

pub use file_end::FileEnd;
pub use reading::replay_file;
pub use rx_check::CheckEnd;
pub use rx_plain::NoMemory;
