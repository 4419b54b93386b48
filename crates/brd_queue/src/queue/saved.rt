//! What a snapshot keeps of a queue.

ghost use Rattle.std.specs.Prelude.{◌≡◌, IfOk};

use super::Queue;
use crate::entry::QueueEntry;
use crate::room::MOST_TASKS;
use brd_base::{NoMemory, copy_with_room};
use std::marker::Model;

/// A queue without room for any task but those that stand in it: a queue has room for all 256, and most of them are
/// short.
#[derive(Drop)]
pub struct SavedQueue<W> {
    entries: Vec<QueueEntry<W>>,
}

impl<W> Model for SavedQueue<W> {
    ghost use Rattle.std.specs.Prelude.{List};
    ghost use Rattle.brd_queue.specs.Queue.{AreApart};
    ghost use Rattle.brd_queue.specs.declared.entry.QueueEntry.{QueueEntry};

    ghost Value = { List (QueueEntry W) };

    ghost view = { λ saved. saved.entries.items };

    ghost invariant = { λ saved. AreApart saved.entries.items };
}

impl<W: Copy + Drop> Queue<W> {
    /// The same queue without room.
    pub fn save(&self) -> Result<SavedQueue<W>, NoMemory>
        ensures { IfOk result (λ saved. saved ≡ self.now) }
    {
        Ok(SavedQueue {
            entries: copy_with_room(&self.entries, 0)?,
        })
    }
}

impl<W: Copy + Drop> SavedQueue<W> {
    /// The same queue with room.
    pub fn restore(&self) -> Result<Queue<W>, NoMemory>
        ensures { IfOk result (λ queue. queue ≡ self.now) }
    {
        Ok(Queue {
            entries: copy_with_room(&self.entries, MOST_TASKS)?,
        })
    }
}
