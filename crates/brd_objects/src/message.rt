//! What a mailbox keeps of a message.

use brd_base::Same;

/// A message that was sent: where it lies, and with which priority.
#[derive(Clone, Copy, PartialEq, Eq)]
pub struct Message {
    /// The address of the message.
    pub address: u32,
    /// 1 the highest. Without TA_MPRI it has no effect.
    pub priority: u8,
}

impl Same for Message {
    fn same(&self, other: &Self) -> bool {
        *self == *other
    }
}
