//! What a snapshot keeps of the tasks that wait for an event flag.

ghost use Rattle.std.specs.Prelude.{◌≡◌, IfOk};

use super::Waiters;
use crate::want::Want;
use brd_base::{NoMemory, copy_with_room};
use brd_queue::{MOST_TASKS, SavedQueue};
use std::marker::Model;

/// The tasks that wait for a flag, without room for others.
#[derive(Drop)]
pub struct SavedWaiters {
    queue: SavedQueue<Want>,
    bits: Vec<u32>,
    modes: Vec<u32>,
}

impl Model for SavedWaiters {
    ghost use Rattle.std.specs.Prelude.{List};
    ghost use Rattle.brd_queue.specs.declared.entry.QueueEntry.{QueueEntry};
    ghost use Rattle.brd_objects.specs.declared.want.Want.{Want};
    ghost use Rattle.brd_objects.specs.Columns.{AreColumns};
    ghost use Rattle.brd_objects.specs.Waiters.{WantBits};

    ghost Value = { List (QueueEntry Want) };

    ghost view = { λ w. w.queue };

    ghost invariant = { λ w. AreColumns w.queue w.bits.items w.modes.items × WantBits w.queue };
}

impl Waiters {
    /// The same waiters without room.
    pub fn save(&self) -> Result<SavedWaiters, NoMemory>
        ensures { IfOk result (λ saved. saved ≡ self.now) }
    {
        Ok(SavedWaiters {
            queue: self.queue.save()?,
            bits: copy_with_room(&self.bits, 0)?,
            modes: copy_with_room(&self.modes, 0)?,
        })
    }
}

impl SavedWaiters {
    /// The same waiters with room.
    pub fn restore(&self) -> Result<Waiters, NoMemory>
        ensures { IfOk result (λ waiters. waiters ≡ self.now) }
    {
        Ok(Waiters {
            queue: self.queue.restore()?,
            bits: copy_with_room(&self.bits, MOST_TASKS)?,
            modes: copy_with_room(&self.modes, MOST_TASKS)?,
        })
    }
}
