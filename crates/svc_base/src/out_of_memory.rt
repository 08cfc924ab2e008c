//! The one answer for want of memory.

use std::alloc::{AllocError, AllocFailed};
use thiserror::Error;

/// Memory that a call asked for was not to be had.
#[derive(Clone, Copy, Debug, PartialEq, Eq, Error)]
#[error("out of memory")]
pub struct OutOfMemory;

impl From<AllocError> for OutOfMemory {
    fn from(_: AllocError) -> OutOfMemory {
        OutOfMemory
    }
}

impl<T: Drop> From<AllocFailed<T>> for OutOfMemory {
    fn from(_: AllocFailed<T>) -> OutOfMemory {
        OutOfMemory
    }
}
