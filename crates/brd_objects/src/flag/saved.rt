//! What a snapshot keeps of an event flag.

ghost use Rattle.std.specs.Prelude.{◌≡◌, IfOk};

use super::Flag;
use crate::waiters::SavedWaiters;
use brd_base::NoMemory;
use brd_queue::QueueOrder;
use std::marker::Model;

/// An event flag without room for any task but those that wait.
#[derive(Drop)]
pub struct SavedFlag {
    pattern: u32,
    order: QueueOrder,
    many: bool,
    clears: bool,
    waiters: SavedWaiters,
}

impl Model for SavedFlag {
    ghost use Rattle.brd_objects.specs.declared.flag.Flag.{Flag};

    ghost Value = { Flag };

    ghost view = { λ f.
        record { pattern = f.pattern; order = f.order; many = f.many; clears = f.clears; waiters = f.waiters } };
}

impl Flag {
    /// The same flag without room.
    pub fn save(&self) -> Result<SavedFlag, NoMemory>
        ensures { IfOk result (λ saved. saved ≡ self.now) }
    {
        Ok(SavedFlag {
            pattern: self.pattern,
            order: self.order,
            many: self.many,
            clears: self.clears,
            waiters: self.waiters.save()?,
        })
    }
}

impl SavedFlag {
    /// The same flag with room.
    pub fn restore(&self) -> Result<Flag, NoMemory>
        ensures { IfOk result (λ flag. flag ≡ self.now) }
    {
        Ok(Flag {
            pattern: self.pattern,
            order: self.order,
            many: self.many,
            clears: self.clears,
            waiters: self.waiters.restore()?,
        })
    }
}
