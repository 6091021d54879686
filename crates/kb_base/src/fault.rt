//! The two ways in which the outside lets a call down.

use std::alloc::{AllocError, AllocFailed};
use thiserror::Error;

/// Memory ran out. It may come wherever a call takes memory, and leaves what the call says.
#[derive(Clone, Copy, Debug, PartialEq, Eq, Error)]
#[error("out of memory")]
pub struct NoMemory;

/// An object of the outside failed, and counted the fault.
#[derive(Clone, Copy, Debug, PartialEq, Eq, Error)]
#[error("failed outside")]
pub struct Failed;

impl From<AllocError> for NoMemory {
    fn from(_: AllocError) -> NoMemory {
        NoMemory
    }
}

impl<T: Drop> From<AllocFailed<T>> for NoMemory {
    fn from(_: AllocFailed<T>) -> NoMemory {
        NoMemory
    }
}
