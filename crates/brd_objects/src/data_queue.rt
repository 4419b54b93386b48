//! A data queue.

ghost use Rattle.std.specs.Prelude.{◌≡◌, ◌<◌, ◌≤◌, IfOk, IfSome, length, vec_capacity};
ghost use Rattle.brd_objects.specs.QueueOrder.{order_of};
ghost use Rattle.brd_objects.specs.Waiters.{first_in};
ghost use Rattle.brd_objects.specs.DataQueues.{
  data_queue_of,
  sent,
  outcome,
  with_room,
  forced,
  forced_outcome,
  received,
  receipt,
  IsToTask,
  IsFromTask,
  awaited_by_sender,
  awaited_by_receiver,
  data_queue_left,
  data_queue_reordered,
};

mod saved;

use crate::object::Object;
use crate::sent::{Received, Sent};
use bitflags::Flags;
use brd_base::{NoMemory, Same, copy_with_room};
use brd_config::{QueueAttributes, QueueConfig};
use brd_queue::{Queue, QueueEntry, QueueOrder};
pub use saved::SavedDataQueue;
use std::alloc::{AllocError, Global};
use std::marker::Model;

/// A data queue (uITRON 4.0 specification, "Data Queues"). Only `new` takes memory.
#[derive(Drop)]
pub struct DataQueue {
    capacity: u16,
    order: QueueOrder,
    stored: Vec<u32>,
    senders: Queue<u32>,
    receivers: Queue<()>,
}

impl Model for DataQueue {
    ghost use Rattle.std.specs.Prelude.{◌≤◌, length, vec_capacity};
    ghost use Rattle.brd_objects.specs.DataQueues.{DataQueueState};

    ghost Value = { DataQueueState };

    ghost view = { λ q.
        record {
          capacity = q.capacity;
          order = q.order;
          stored = q.stored.items;
          senders = q.senders;
          receivers = q.receivers;
        } };

    ghost invariant = { λ q. (length q.stored.items ≤ q.capacity) × (q.capacity ≤ vec_capacity q.stored) };
}

impl Clone for DataQueue {
    ghost is_clone = { λ queue copy. copy ≡ queue };

    fn clone(&self) -> Result<Self, AllocError> {
        Ok(DataQueue {
            capacity: self.capacity,
            order: self.order,
            stored: copy_with_room(&self.stored, self.capacity as usize)?,
            senders: self.senders.clone()?,
            receivers: self.receivers.clone()?,
        })
    }
}

impl Same for DataQueue {
    fn same(&self, other: &Self) -> bool {
        self.capacity == other.capacity
            && self.order == other.order
            && self.stored.as_slice() == other.stored.as_slice()
            && self.senders.same(&other.senders)
            && self.receivers.same(&other.receivers)
    }
}

impl Object for DataQueue {
    type Config = QueueConfig;

    type Saved = SavedDataQueue;

    ghost id_of = { λ config. config.id };

    ghost made_of = { data_queue_of };

    ghost left = { data_queue_left };

    ghost reordered = { data_queue_reordered };

    ghost restored = { λ saved. saved };

    ghost clones_are_equal = { λ _ _ same. same };

    fn id(config: &QueueConfig) -> u16 {
        config.id
    }

    /// It is empty, too.
    fn new(alloc: Global, config: &QueueConfig) -> Result<DataQueue, NoMemory> {
        Ok(DataQueue {
            capacity: config.capacity,
            order: order_of(config.attributes),
            stored: Vec::with_capacity(alloc, config.capacity as usize)?,
            senders: Queue::new(alloc)?,
            receivers: Queue::new(alloc)?,
        })
    }

    /// Its datum goes with it.
    fn leave(&mut self, task: u16) {
        let _ = self.senders.leave(task);
        let _ = self.receivers.leave(task);
    }

    /// Receivers always wait by arrival.
    fn reorder(&mut self, task: u16, priority: u8) {
        self.senders.reorder(self.order, task, priority);
        self.receivers.reorder(QueueOrder::Arrival, task, priority);
    }

    fn save(&self) -> Result<SavedDataQueue, NoMemory> {
        self.save()
    }

    fn restore(saved: &SavedDataQueue) -> Result<DataQueue, NoMemory> {
        saved.restore()
    }
}

impl DataQueue {
    /// How many data it stores.
    pub fn capacity(&self) -> u16
        ensures { result ≡ self.now.capacity }
    {
        self.capacity
    }

    /// How many data are stored: no more than its capacity.
    pub fn stored(&self) -> u16
        ensures { result ≡ length self.now.stored }
    {
        self.stored.len().min(self.capacity as usize) as u16
    }

    /// The task that waits first to send.
    pub fn first_sender(&self) -> Option<u16>
        ensures { result ≡ first_in self.now.senders }
    {
        match self.senders.first() {
            Some(first) => Some(first.id),
            None => None,
        }
    }

    /// The task that waits first to receive.
    pub fn first_receiver(&self) -> Option<u16>
        ensures { result ≡ first_in self.now.receivers }
    {
        match self.receivers.first() {
            Some(first) => Some(first.id),
            None => None,
        }
    }

    /// A datum is sent: to the first receiver, which no longer waits, else it is stored, where there is room.
    pub fn send(&mut self, datum: u32) -> Sent
        ensures is { self.new ≡ sent datum self.old }
        ensures outcome { result ≡ outcome self.old }
        ensures small { IsToTask result }
    {
        if let Some(first) = self.receivers.serve() {
            return Sent::Handed(first.id);
        }
        if self.stored.len() >= self.capacity as usize {
            return Sent::Full;
        }
        let _ = self.stored.push(datum);
        Sent::Stored
    }

    /// A datum is sent: to the first receiver, which no longer waits, else it is stored, and a full queue gives its
    /// oldest datum up for it.
    pub fn force(&mut self, datum: u32) -> Sent
        ensures is { self.new ≡ forced datum self.old }
        ensures outcome { result ≡ forced_outcome self.old }
        ensures small { IsToTask result }
    {
        self.make_room();
        self.send(datum)
    }

    /// Where nobody waits for a datum, a full queue gives its oldest one up.
    fn make_room(&mut self)
        ensures { self.new ≡ with_room self.old }
    {
        if !self.receivers.is_empty() || self.stored.len() < self.capacity as usize {
            return;
        }
        if !self.stored.is_empty() {
            let _ = self.stored.remove(0);
        }
    }

    /// The oldest datum is received, and the first sender's takes the free place; where none is stored, the first
    /// sender's is received.
    pub fn receive(&mut self) -> Option<Received>
        ensures is { self.new ≡ received self.old }
        ensures receipt { result ≡ receipt self.old }
        ensures small { IfSome result IsFromTask }
    {
        if self.stored.is_empty() {
            let first = self.senders.serve()?;
            return Some(Received {
                datum: first.wanted,
                sender: Some(first.id),
            });
        }
        let datum = self.stored.remove(0);
        let Some(first) = self.senders.serve() else {
            return Some(Received {
                datum,
                sender: None,
            });
        };
        let _ = self.stored.push(first.wanted);
        Some(Received {
            datum,
            sender: Some(first.id),
        })
    }

    /// A task waits to send a datum, in the order that the attributes say.
    pub fn wait_to_send(&mut self, task: u16, priority: u8, datum: u32)
        requires { task < 256 }
        ensures { self.new ≡ awaited_by_sender task priority datum self.old }
    {
        let entry = QueueEntry {
            id: task,
            priority,
            wanted: datum,
        };
        self.senders.place(self.order, entry);
    }

    /// A task waits to receive a datum, after all others.
    pub fn wait_to_receive(&mut self, task: u16, priority: u8)
        requires { task < 256 }
        ensures { self.new ≡ awaited_by_receiver task priority self.old }
    {
        let entry = QueueEntry {
            id: task,
            priority,
            wanted: (),
        };
        self.receivers.place(QueueOrder::Arrival, entry);
    }
}

/// The order in which senders wait for a queue of these attributes.
fn order_of(attributes: QueueAttributes) -> QueueOrder
    ensures { result ≡ order_of attributes.0 }
{
    if attributes.contains(QueueAttributes::TA_TPRI) {
        return QueueOrder::Priority;
    }
    QueueOrder::Arrival
}
