//! The one answer of a call that asked for memory and got none.

use std::alloc::{AllocError, AllocFailed};
use thiserror::Error;

/// There was no memory for what was asked. It says nothing else, and any call that allocates may
/// answer it.
#[derive(Clone, Copy, Debug, PartialEq, Eq, Error)]
#[error("out of memory")]
pub struct NoMemory;

impl From<AllocError> for NoMemory {
    fn from(_e: AllocError) -> NoMemory {
        NoMemory
    }
}

impl<T: Drop> From<AllocFailed<T>> for NoMemory {
    fn from(_e: AllocFailed<T>) -> NoMemory {
        NoMemory
    }
}
