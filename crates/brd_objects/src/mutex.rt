//! A mutex.

ghost use Rattle.std.specs.Prelude.{◌≡◌, ◌<◌, Decides, IfOk, IfSome};
ghost use Rattle.brd_objects.specs.Mutexes.{
  mutex_of,
  protocol_order,
  is_owned_by,
  owned,
  given,
  next_owner,
  mutex_awaited,
  mutex_left,
  mutex_reordered,
};

mod saved;

use crate::object::Object;
use brd_base::{NoMemory, Same};
use brd_config::{MutexConfig, Protocol};
use brd_queue::{Queue, QueueEntry, QueueOrder};
pub use saved::SavedMutex;
use std::alloc::Global;

/// A mutex (uITRON 4.0 specification, "Mutexes").
#[derive(Clone, Drop)]
pub struct Mutex {
    owner: Option<u16>,
    protocol: Protocol,
    ceiling: u8,
    waiters: Queue<()>,
}

impl Same for Mutex {
    fn same(&self, other: &Self) -> bool {
        is_same_owner(self.owner, other.owner)
            && self.protocol == other.protocol
            && self.ceiling == other.ceiling
            && self.waiters.same(&other.waiters)
    }
}

impl Object for Mutex {
    ghost use Rattle.std.proofs.Common.{rules};

    type Config = MutexConfig;

    type Saved = SavedMutex;

    ghost id_of = { λ config. config.id };

    ghost made_of = { mutex_of };

    ghost left = { mutex_left };

    ghost reordered = { mutex_reordered };

    ghost restored = { λ saved. saved };

    ghost clones_are_equal = { λ _ _ same. Prim.search rules };

    fn id(config: &MutexConfig) -> u16 {
        config.id
    }

    fn new(alloc: Global, config: &MutexConfig) -> Result<Mutex, NoMemory> {
        Ok(Mutex {
            owner: None,
            protocol: config.protocol,
            ceiling: config.ceiling,
            waiters: Queue::new(alloc)?,
        })
    }

    fn leave(&mut self, task: u16) {
        let _ = self.waiters.leave(task);
    }

    fn reorder(&mut self, task: u16, priority: u8) {
        self.waiters
            .reorder(order_of(self.protocol), task, priority);
    }

    fn save(&self) -> Result<SavedMutex, NoMemory> {
        self.save()
    }

    fn restore(saved: &SavedMutex) -> Result<Mutex, NoMemory> {
        saved.restore()
    }
}

impl Mutex {
    /// Who has it, if somebody does.
    pub fn owner(&self) -> Option<u16>
        ensures { result ≡ self.now.owner }
    {
        self.owner
    }

    /// What it does to priorities.
    pub fn protocol(&self) -> Protocol
        ensures { result ≡ self.now.protocol }
    {
        self.protocol
    }

    /// Its ceiling, which has an effect with TA_CEILING alone.
    pub fn ceiling(&self) -> u8
        ensures { result ≡ self.now.ceiling }
    {
        self.ceiling
    }

    /// The task that waits first.
    pub fn first(&self) -> Option<u16>
        ensures { result ≡ next_owner self.now }
    {
        match self.waiters.first() {
            Some(first) => Some(first.id),
            None => None,
        }
    }

    /// Whether a task has it.
    pub fn is_owned_by(&self, task: u16) -> bool
        ensures { result ≡ is_owned_by task self.now }
    {
        match self.owner {
            Some(owner) => owner == task,
            None => false,
        }
    }

    /// A task takes it.
    pub fn take(&mut self, task: u16)
        ensures { self.new ≡ owned task self.old }
    {
        self.owner = Some(task);
    }

    /// It is given back: the first waiter leaves with it, and is answered; else nobody has it.
    pub fn give(&mut self) -> Option<u16>
        ensures is { self.new ≡ given self.old }
        ensures who { result ≡ next_owner self.old }
        ensures small { IfSome result (λ id. id < 256) }
    {
        match self.waiters.serve() {
            Some(first) => {
                self.owner = Some(first.id);
                Some(first.id)
            }
            None => {
                self.owner = None;
                None
            }
        }
    }

    /// A task waits for it, in the order that the attribute says.
    pub fn wait(&mut self, task: u16, priority: u8)
        requires { task < 256 }
        ensures { self.new ≡ mutex_awaited task priority self.old }
    {
        let entry = QueueEntry {
            id: task,
            priority,
            wanted: (),
        };
        self.waiters.place(order_of(self.protocol), entry);
    }
}

/// The order in which tasks wait for a mutex of this protocol.
fn order_of(protocol: Protocol) -> QueueOrder
    ensures { result ≡ protocol_order protocol }
{
    match protocol {
        Protocol::Arrival => QueueOrder::Arrival,
        Protocol::Priority | Protocol::Inherit | Protocol::Ceiling => QueueOrder::Priority,
    }
}

/// Whether two mutexes are of one owner, or of none.
fn is_same_owner(one: Option<u16>, other: Option<u16>) -> bool
    ensures { Decides result (one ≡ other) }
{
    match (one, other) {
        (None, None) => true,
        (Some(one), Some(other)) => one == other,
        _ => false,
    }
}
