//! Cached answers of the refuter: a solver with a cache of bounded size between it and those who
//! ask, which answers as the refuter does, whatever its capacity.
//!
//! What a reader may rely on: a cached solver promises of an answer what the refuter does, and
//! stays a cached solver. Where an entry has the rows, the solver isn't asked
//! (`specs/CachedSolver`).
#![tactic(auto)]

mod asking;
mod cache;
mod cached_answer;
mod cached_solver;

pub use asking::ask_cached;
pub use cached_answer::CachedAnswer;
pub use cached_solver::CachedSolver;
pub use rx_fm::FmEnd;
pub use rx_plain::NoMemory;
