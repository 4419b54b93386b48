//! What becomes of a datum.

/// What became of a datum that was sent.
#[derive(Clone, Copy, PartialEq, Eq)]
pub enum Sent {
    /// The task of this ID, which waited first, has it.
    Handed(u16),
    /// It is stored.
    Stored,
    /// Nothing: nobody waits for it, and there is no room.
    Full,
}

/// A datum that was received.
#[derive(Clone, Copy, PartialEq, Eq)]
pub struct Received {
    /// The datum.
    pub datum: u32,
    /// The task that no longer waits to send.
    pub sender: Option<u16>,
}
