//! What a snapshot keeps of a data queue.

ghost use Rattle.std.specs.Prelude.{◌≡◌, IfOk};

use super::DataQueue;
use brd_base::{NoMemory, copy_with_room};
use brd_queue::{QueueOrder, SavedQueue};
use std::marker::Model;

/// A data queue without room for any data but those that are stored, and any task but those that wait.
#[derive(Drop)]
pub struct SavedDataQueue {
    capacity: u16,
    order: QueueOrder,
    stored: Vec<u32>,
    senders: SavedQueue<u32>,
    receivers: SavedQueue<()>,
}

impl Model for SavedDataQueue {
    ghost use Rattle.std.specs.Prelude.{◌≤◌, length};
    ghost use Rattle.brd_objects.specs.DataQueues.{DataQueueState};

    ghost Value = { DataQueueState };

    ghost view = { λ q.
        record {
          capacity = q.capacity;
          order = q.order;
          stored = q.stored.items;
          senders = q.senders;
          receivers = q.receivers;
        } };

    ghost invariant = { λ q. length q.stored.items ≤ q.capacity };
}

impl DataQueue {
    /// The same data queue without room.
    pub fn save(&self) -> Result<SavedDataQueue, NoMemory>
        ensures { IfOk result (λ saved. saved ≡ self.now) }
    {
        Ok(SavedDataQueue {
            capacity: self.capacity,
            order: self.order,
            stored: copy_with_room(&self.stored, 0)?,
            senders: self.senders.save()?,
            receivers: self.receivers.save()?,
        })
    }
}

impl SavedDataQueue {
    /// The same data queue with room.
    pub fn restore(&self) -> Result<DataQueue, NoMemory>
        ensures { IfOk result (λ queue. queue ≡ self.now) }
    {
        Ok(DataQueue {
            capacity: self.capacity,
            order: self.order,
            stored: copy_with_room(&self.stored, self.capacity as usize)?,
            senders: self.senders.restore()?,
            receivers: self.receivers.restore()?,
        })
    }
}
