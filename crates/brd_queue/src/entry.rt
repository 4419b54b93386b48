//! What a queue holds, and in which order.

use brd_base::Same;

/// A task in a queue.
#[derive(Clone, Copy, Default, PartialEq, Eq)]
pub struct QueueEntry<W> {
    /// The task's ID.
    pub id: u16,
    /// Its priority; a lower number is served first.
    pub priority: u8,
    /// What it wants: `()` where all want the same.
    pub wanted: W,
}

impl<W: Same> Same for QueueEntry<W> {
    fn same(&self, other: &Self) -> bool {
        self.id == other.id && self.priority == other.priority && self.wanted.same(&other.wanted)
    }
}

/// Where a task enters a queue (uITRON 4.0 specification, the attributes TA_TFIFO and TA_TPRI).
#[derive(Clone, Copy, PartialEq, Eq)]
pub enum QueueOrder {
    /// At the end.
    Arrival,
    /// After those of its own priority or a higher one, before those of a lower one.
    Priority,
}
