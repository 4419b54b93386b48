//! Why a line table isn't read.

use std::alloc::{AllocError, AllocFailed};

/// Why a line table isn't read.
#[derive(Clone, Copy, Debug, PartialEq, Eq)]
pub(crate) enum Flaw {
    /// Memory ran out.
    NoMemory,
    /// It says what no line table does, or has more than is read.
    Damaged,
}

impl From<AllocError> for Flaw {
    fn from(_e: AllocError) -> Self {
        Flaw::NoMemory
    }
}

impl<T: Drop> From<AllocFailed<T>> for Flaw {
    fn from(_e: AllocFailed<T>) -> Self {
        Flaw::NoMemory
    }
}
