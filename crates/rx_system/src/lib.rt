//! The files and the output of the system, in the form in which a run sees them.
//!
//! What a reader may rely on: each keeps the contract of its trait in rx_io, of something whose
//! contents nobody knows, and counts its faults.
#![tactic(auto)]

mod files;
mod output;

pub use files::SystemFiles;
pub use output::SystemOutput;
pub use rx_io::Failed;
