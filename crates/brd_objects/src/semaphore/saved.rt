//! What a snapshot keeps of a semaphore.

ghost use Rattle.std.specs.Prelude.{◌≡◌, IfOk};

use super::Semaphore;
use brd_base::NoMemory;
use brd_queue::{QueueOrder, SavedQueue};
use std::marker::Model;

/// A semaphore without room for any task but those that wait.
#[derive(Drop)]
pub struct SavedSemaphore {
    count: u16,
    maximum: u16,
    order: QueueOrder,
    waiters: SavedQueue<()>,
}

impl Model for SavedSemaphore {
    ghost use Rattle.brd_objects.specs.declared.semaphore.Semaphore.{Semaphore};

    ghost Value = { Semaphore };

    ghost view = { λ s. record { count = s.count; maximum = s.maximum; order = s.order; waiters = s.waiters } };
}

impl Semaphore {
    /// The same semaphore without room.
    pub fn save(&self) -> Result<SavedSemaphore, NoMemory>
        ensures { IfOk result (λ saved. saved ≡ self.now) }
    {
        Ok(SavedSemaphore {
            count: self.count,
            maximum: self.maximum,
            order: self.order,
            waiters: self.waiters.save()?,
        })
    }
}

impl SavedSemaphore {
    /// The same semaphore with room.
    pub fn restore(&self) -> Result<Semaphore, NoMemory>
        ensures { IfOk result (λ semaphore. semaphore ≡ self.now) }
    {
        Ok(Semaphore {
            count: self.count,
            maximum: self.maximum,
            order: self.order,
            waiters: self.waiters.restore()?,
        })
    }
}
