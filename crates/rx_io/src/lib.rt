//! The outside as a program sees it: files that are read by name, a sink that takes bytes, and
//! memory in the place of both.
#![tactic(auto)]

mod calls;
mod memory_files;
mod memory_sink;
mod outside;
mod putting;
mod reading;

pub use memory_files::MemoryFiles;
pub use memory_sink::MemorySink;
pub use outside::{Failed, Files, Sink};
pub use putting::{PutEnd, put_all};
pub use reading::{ReadEnd, read_all};
pub use rx_plain::NoMemory;
