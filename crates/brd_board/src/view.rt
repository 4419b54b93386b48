//! What the board shows of a processor.

use brd_base::Same;
use brd_exec::ExceptionCode;

/// An exception as a processor keeps it.
#[derive(Clone, Copy, PartialEq, Eq)]
pub struct Fault {
    /// Which one.
    pub code: ExceptionCode,
    /// The address of the instruction, or in a delay slot that of the branch before it.
    pub epc: u32,
    /// Whether the instruction was in a delay slot.
    pub bd: bool,
}

impl Same for Fault {
    fn same(&self, other: &Self) -> bool {
        *self == *other
    }
}
