//! Why there is no object file with data.

use brd_base::NoMemory;

/// Why there is no object file with data.
#[derive(Clone, Copy, Debug, PartialEq, Eq)]
pub enum PatchFault {
    /// A growth was refused.
    NoMemory,
    /// No object file has so much.
    Misfit,
}

impl From<NoMemory> for PatchFault {
    fn from(_refused: NoMemory) -> Self {
        PatchFault::NoMemory
    }
}
