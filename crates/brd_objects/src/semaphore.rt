//! A semaphore.

ghost use Rattle.std.specs.Prelude.{◌≡◌, ◌<◌, IfOk, IfSome};
ghost use Rattle.brd_objects.specs.QueueOrder.{order_of};
ghost use Rattle.brd_objects.specs.Semaphores.{
  semaphore_of,
  returned,
  first_waiter,
  is_full,
  has_one,
  taken,
  semaphore_awaited,
  semaphore_left,
  semaphore_reordered,
};

mod saved;

use crate::object::Object;
use bitflags::Flags;
use brd_base::{NoMemory, Same};
use brd_config::{SemaphoreAttributes, SemaphoreConfig};
use brd_queue::{Queue, QueueEntry, QueueOrder};
pub use saved::SavedSemaphore;
use std::alloc::Global;

/// A semaphore (uITRON 4.0 specification, "Semaphores").
#[derive(Clone, Drop)]
pub struct Semaphore {
    count: u16,
    maximum: u16,
    order: QueueOrder,
    waiters: Queue<()>,
}

impl Same for Semaphore {
    fn same(&self, other: &Self) -> bool {
        self.count == other.count
            && self.maximum == other.maximum
            && self.order == other.order
            && self.waiters.same(&other.waiters)
    }
}

impl Object for Semaphore {
    ghost use Rattle.std.proofs.Common.{rules};

    type Config = SemaphoreConfig;

    type Saved = SavedSemaphore;

    ghost id_of = { λ config. config.id };

    ghost made_of = { semaphore_of };

    ghost left = { semaphore_left };

    ghost reordered = { semaphore_reordered };

    ghost restored = { λ saved. saved };

    ghost clones_are_equal = { λ _ _ same. Prim.search rules };

    fn id(config: &SemaphoreConfig) -> u16 {
        config.id
    }

    fn new(alloc: Global, config: &SemaphoreConfig) -> Result<Semaphore, NoMemory> {
        Ok(Semaphore {
            count: config.initial,
            maximum: config.maximum,
            order: order_of(config.attributes),
            waiters: Queue::new(alloc)?,
        })
    }

    fn leave(&mut self, task: u16) {
        let _ = self.waiters.leave(task);
    }

    fn reorder(&mut self, task: u16, priority: u8) {
        self.waiters.reorder(self.order, task, priority);
    }

    fn save(&self) -> Result<SavedSemaphore, NoMemory> {
        self.save()
    }

    fn restore(saved: &SavedSemaphore) -> Result<Semaphore, NoMemory> {
        saved.restore()
    }
}

impl Semaphore {
    /// How many can be taken.
    pub fn count(&self) -> u16
        ensures { result ≡ self.now.count }
    {
        self.count
    }

    /// The task that waits first.
    pub fn first(&self) -> Option<u16>
        ensures { result ≡ first_waiter self.now }
    {
        match self.waiters.first() {
            Some(first) => Some(first.id),
            None => None,
        }
    }

    /// Whether one can be taken.
    pub fn has_one(&self) -> bool
        ensures { result ≡ has_one self.now }
    {
        self.count != 0
    }

    /// Whether one more is too many: the count is the maximum, and nobody waits.
    pub fn is_full(&self) -> bool
        ensures { result ≡ is_full self.now }
    {
        self.waiters.is_empty() && self.count >= self.maximum
    }

    /// Returns one: the first waiter leaves with it, and is answered; where nobody waits it is counted, up to the
    /// maximum.
    pub fn give(&mut self) -> Option<u16>
        ensures is { self.new ≡ returned self.old }
        ensures who { result ≡ first_waiter self.old }
        ensures small { IfSome result (λ id. id < 256) }
    {
        if let Some(first) = self.waiters.serve() {
            return Some(first.id);
        }
        if self.count < self.maximum {
            self.count += 1;
        }
        None
    }

    /// Takes one. Answers whether there was one.
    pub fn take(&mut self) -> bool
        ensures is { self.new ≡ taken self.old }
        ensures there { result ≡ has_one self.old }
    {
        if self.count == 0 {
            return false;
        }
        self.count -= 1;
        true
    }

    /// A task waits for one, in the order that the attributes say.
    pub fn wait(&mut self, task: u16, priority: u8)
        requires { task < 256 }
        ensures { self.new ≡ semaphore_awaited task priority self.old }
    {
        let entry = QueueEntry {
            id: task,
            priority,
            wanted: (),
        };
        self.waiters.place(self.order, entry);
    }
}

/// The order in which tasks wait for a semaphore of these attributes.
fn order_of(attributes: SemaphoreAttributes) -> QueueOrder
    ensures { result ≡ order_of attributes.0 }
{
    if attributes.contains(SemaphoreAttributes::TA_TPRI) {
        return QueueOrder::Priority;
    }
    QueueOrder::Arrival
}
