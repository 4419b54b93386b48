//! What a snapshot keeps of a mutex.

ghost use Rattle.std.specs.Prelude.{◌≡◌, IfOk};

use super::Mutex;
use brd_base::NoMemory;
use brd_config::Protocol;
use brd_queue::SavedQueue;
use std::marker::Model;

/// A mutex without room for any task but those that wait.
#[derive(Drop)]
pub struct SavedMutex {
    owner: Option<u16>,
    protocol: Protocol,
    ceiling: u8,
    waiters: SavedQueue<()>,
}

impl Model for SavedMutex {
    ghost use Rattle.brd_objects.specs.declared.mutex.Mutex.{Mutex};

    ghost Value = { Mutex };

    ghost view = { λ s. record { owner = s.owner; protocol = s.protocol; ceiling = s.ceiling; waiters = s.waiters } };
}

impl Mutex {
    /// The same mutex without room.
    pub fn save(&self) -> Result<SavedMutex, NoMemory>
        ensures { IfOk result (λ saved. saved ≡ self.now) }
    {
        Ok(SavedMutex {
            owner: self.owner,
            protocol: self.protocol,
            ceiling: self.ceiling,
            waiters: self.waiters.save()?,
        })
    }
}

impl SavedMutex {
    /// The same mutex with room.
    pub fn restore(&self) -> Result<Mutex, NoMemory>
        ensures { IfOk result (λ mutex. mutex ≡ self.now) }
    {
        Ok(Mutex {
            owner: self.owner,
            protocol: self.protocol,
            ceiling: self.ceiling,
            waiters: self.waiters.restore()?,
        })
    }
}
