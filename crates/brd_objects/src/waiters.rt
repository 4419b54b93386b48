//! The tasks that wait for an event flag.

ghost use Rattle.std.specs.Prelude.{◌≡◌, ◌≢◌, ◌<◌, [], length, remove, slice_get, Some, false, IfNone, IfOk, IfSome};
ghost use Rattle.brd_queue.specs.declared.entry.QueueOrder.TheVariants.{Priority};
ghost use Rattle.brd_queue.specs.Queue.{has, without, placed, reordered, is_empty};
ghost use Rattle.brd_objects.specs.Waiters.{first_in, first_satisfied, without_satisfied, WantBits};

mod saved;

use crate::want::Want;
use brd_base::{NoMemory, Same, copy_with_room};
use brd_lanes::first_match;
use brd_queue::{MOST_TASKS, Queue, QueueEntry, QueueOrder, insert_within};
pub use saved::SavedWaiters;
use std::alloc::{AllocError, Global};
use std::marker::Model;

/// The tasks that wait for a flag, in their order, each with what it wants. What they want stands once more in columns,
/// which are scanned.
#[derive(Drop)]
pub struct Waiters {
    queue: Queue<Want>,
    bits: Vec<u32>,
    modes: Vec<u32>,
}

impl Model for Waiters {
    ghost use Rattle.std.specs.Prelude.{◌≡◌, ◌≤◌, List, vec_capacity};
    ghost use Rattle.brd_queue.specs.declared.entry.QueueEntry.{QueueEntry};
    ghost use Rattle.brd_objects.specs.declared.want.Want.{Want};
    ghost use Rattle.brd_objects.specs.Columns.{AreColumns};
    ghost use Rattle.brd_objects.specs.Waiters.{WantBits};

    ghost Value = { List (QueueEntry Want) };

    ghost view = { λ w. w.queue };

    ghost invariant = { λ w.
        AreColumns w.queue w.bits.items w.modes.items
        × WantBits w.queue
        × (256 ≤ vec_capacity w.bits)
        × (256 ≤ vec_capacity w.modes) };
}

impl Clone for Waiters {
    ghost is_clone = { λ waiters copy. copy ≡ waiters };

    fn clone(&self) -> Result<Self, AllocError> {
        Ok(Waiters {
            queue: self.queue.clone()?,
            bits: copy_with_room(&self.bits, MOST_TASKS)?,
            modes: copy_with_room(&self.modes, MOST_TASKS)?,
        })
    }
}

impl Same for Waiters {
    fn same(&self, other: &Self) -> bool {
        self.queue.same(&other.queue)
    }
}

impl Waiters {
    /// Nobody waits.
    pub fn new(alloc: Global) -> Result<Waiters, NoMemory>
        ensures { IfOk result (λ waiters. waiters ≡ []) }
    {
        Ok(Waiters {
            queue: Queue::new(alloc)?,
            bits: Vec::with_capacity(alloc, MOST_TASKS)?,
            modes: Vec::with_capacity(alloc, MOST_TASKS)?,
        })
    }

    /// Whether nobody waits.
    pub fn is_empty(&self) -> bool
        ensures { result ≡ is_empty self.now }
    {
        self.queue.is_empty()
    }

    /// The one who waits first.
    pub fn first(&self) -> Option<u16>
        ensures { result ≡ first_in self.now }
    {
        match self.queue.first() {
            Some(first) => Some(first.id),
            None => None,
        }
    }

    /// That each waiter wants some bit, for the proofs of those that hold them.
    pub fn want_bits(&self)
        ensures { WantBits self.now }
    {
        let _ = &self.queue;
    }

    /// The first waiter that a pattern satisfies leaves, and is answered.
    pub fn take_satisfied(&mut self, pattern: u32) -> Option<QueueEntry<Want>>
        ensures is { self.new ≡ without_satisfied pattern self.old }
        ensures who { result ≡ first_satisfied pattern self.old }
        ensures stays { IfNone result (self.new ≡ self.old) }
        ensures small { IfSome result (λ e. e.id < 256) }
    {
        match first_match(self.bits.as_slice(), self.modes.as_slice(), pattern, 0) {
            Some(at) => Some(self.take(at)),
            None => None,
        }
    }

    /// The waiter at a place leaves.
    fn take(&mut self, at: usize) -> QueueEntry<Want>
        requires { at < length self.old }
        ensures is { self.new ≡ remove self.old at }
        ensures entry { slice_get self.old at ≡ Some result }
        ensures small { result.id < 256 }
    {
        let _ = self.bits.remove(at);
        let _ = self.modes.remove(at);
        self.queue.take(at)
    }

    /// A task waits; one that does already leaves its old place.
    pub fn place(&mut self, order: QueueOrder, entry: QueueEntry<Want>)
        requires small { entry.id < 256 }
        requires bits { entry.wanted.bits ≢ 0 }
        ensures { self.new ≡ placed order entry self.old }
    {
        self.leave(entry.id);
        let at = self.queue.enter(order, entry);
        insert_within(&mut self.bits, at, entry.wanted.bits);
        insert_within(&mut self.modes, at, entry.wanted.mode.word());
    }

    /// A task no longer waits.
    pub fn leave(&mut self, id: u16)
        ensures is { self.new ≡ without id self.old }
        ensures gone { has id self.new ≡ false }
    {
        if let Some(at) = self.queue.leave(id) {
            let _ = self.bits.remove(at);
            let _ = self.modes.remove(at);
        }
    }

    /// A task, where it waits, is given a priority: by arrival it keeps its place, by priority it comes after its
    /// equals.
    pub fn reorder(&mut self, order: QueueOrder, id: u16, priority: u8)
        ensures { self.new ≡ reordered order id priority self.old }
    {
        match order {
            QueueOrder::Arrival => self.queue.reorder(QueueOrder::Arrival, id, priority),
            QueueOrder::Priority => self.move_behind(id, priority),
        }
    }

    /// A task, where it waits, comes after the others of a priority.
    fn move_behind(&mut self, id: u16, priority: u8)
        ensures { self.new ≡ reordered Priority id priority self.old }
    {
        if let Some(entry) = self.queue.entry(id) {
            self.place(QueueOrder::Priority, QueueEntry { priority, ..entry });
        }
    }
}
