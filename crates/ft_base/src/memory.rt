// The out-of-memory error.
use std::alloc::{AllocError, AllocFailed};
use thiserror::Error;

/// There was not enough memory.
///
/// `?` converts the errors of failed allocations into it. It drops a value for which there was no
/// place.
#[derive(Clone, Copy, Debug, PartialEq, Eq, Error)]
#[error("Memory")]
pub struct Memory;

impl From<AllocError> for Memory {
    fn from(_error: AllocError) -> Memory {
        Memory
    }
}

impl<T: Drop> From<AllocFailed<T>> for Memory {
    fn from(_refused: AllocFailed<T>) -> Memory {
        Memory
    }
}
