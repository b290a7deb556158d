//! Want of memory: an answer that no contract ties to a cause.

use std::alloc::{AllocError, AllocFailed};

/// The allocator gave no memory. What is as it was then, the contract of the call says.
#[derive(Clone, Copy, PartialEq, Eq, Debug)]
pub struct NoMemory;

impl From<AllocError> for NoMemory {
    fn from(_e: AllocError) -> NoMemory {
        NoMemory
    }
}

impl<T: Drop> From<AllocFailed<T>> for NoMemory {
    fn from(_e: AllocFailed<T>) -> NoMemory {
        NoMemory
    }
}
