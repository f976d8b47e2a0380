//! The error of calls that fail only if memory runs out.

use std::alloc::{AllocError, AllocFailed};
use thiserror::Error;

/// Memory ran out: an allocation was refused.
#[derive(Clone, Copy, Debug, PartialEq, Eq, Error)]
#[error("out of memory")]
pub struct NoMemory;

impl From<AllocError> for NoMemory {
    fn from(_refused: AllocError) -> NoMemory {
        NoMemory
    }
}

impl<T: Drop> From<AllocFailed<T>> for NoMemory {
    // Drops the value for which there is no memory.
    fn from(_refused: AllocFailed<T>) -> NoMemory {
        NoMemory
    }
}
