//! Want of memory.

use std::alloc::{AllocError, AllocFailed};
use thiserror::Error;

/// A growth was refused: there is no memory left. A fault type of a layer has a case for it, which `?` makes of it.
#[derive(Clone, Copy, Debug, PartialEq, Eq, Error)]
#[error("out of memory")]
pub struct NoMemory;

impl From<AllocError> for NoMemory {
    fn from(_e: AllocError) -> Self {
        NoMemory
    }
}

impl<T: Drop> From<AllocFailed<T>> for NoMemory {
    fn from(_e: AllocFailed<T>) -> Self {
        NoMemory
    }
}
