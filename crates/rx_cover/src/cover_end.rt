//! Why trees don't cover a rule set.
use std::alloc::{AllocError, AllocFailed};
use thiserror::Error;

/// Why trees don't cover a rule set, or why that isn't known.
#[derive(Clone, Copy, Debug, PartialEq, Eq, Error)]
pub enum CoverEnd {
    /// The trees of the symbol with this number fail or are missing; at the number of symbols:
    /// there are more lists.
    #[error("symbol {0} is not covered")]
    NotCovered(usize),
    /// A polynomial passes the limits at the symbol with this number, before anything fails there.
    #[error("a polynomial is too large at symbol {0}")]
    Large(usize),
    /// There was no memory.
    #[error("out of memory")]
    NoMemory,
}
