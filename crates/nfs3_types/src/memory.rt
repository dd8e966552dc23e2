//! Want of memory.

use std::alloc::{AllocError, AllocFailed};
use thiserror::Error;

/// Memory ran out. It is the one answer that any call which takes memory may give, and no other
/// answer is ever merged with it.
#[derive(Clone, Copy, Debug, PartialEq, Eq, Error)]
#[error("no memory")]
pub struct NoMemory;

impl From<AllocError> for NoMemory {
    fn from(_error: AllocError) -> NoMemory {
        NoMemory
    }
}

impl<T: Drop> From<AllocFailed<T>> for NoMemory {
    fn from(_error: AllocFailed<T>) -> NoMemory {
        NoMemory
    }
}
