//! An event flag.

ghost use Rattle.std.specs.Prelude.{◌≡◌, ◌≢◌, ◌<◌, IfOk, IfSome};
ghost use Rattle.brd_objects.specs.QueueOrder.{order_of};
ghost use Rattle.brd_objects.specs.Flags.{
  flag_of,
  joined,
  masked,
  pattern_left,
  pattern_for,
  taken_for,
  is_occupied,
  flag_awaited,
  flag_left,
  flag_reordered,
  with_next_released,
  next_released,
};
ghost use Rattle.brd_objects.specs.Waiters.{first_in, WantBits};

mod saved;

use crate::object::Object;
use crate::waiters::Waiters;
use crate::want::Want;
use bitflags::Flags;
use brd_base::{NoMemory, Same};
use brd_config::{FlagAttributes, FlagConfig};
use brd_queue::{QueueEntry, QueueOrder};
pub use saved::SavedFlag;
use std::alloc::Global;

/// An event flag (uITRON 4.0 specification, "Eventflags").
#[derive(Clone, Drop)]
pub struct Flag {
    pattern: u32,
    order: QueueOrder,
    /// Several tasks may wait (TA_WMUL).
    many: bool,
    /// A release clears the pattern (TA_CLR).
    clears: bool,
    waiters: Waiters,
}

impl Same for Flag {
    fn same(&self, other: &Self) -> bool {
        self.pattern == other.pattern
            && self.order == other.order
            && self.many == other.many
            && self.clears == other.clears
            && self.waiters.same(&other.waiters)
    }
}

impl Object for Flag {
    ghost use Rattle.std.proofs.Common.{rules};

    type Config = FlagConfig;

    type Saved = SavedFlag;

    ghost id_of = { λ config. config.id };

    ghost made_of = { flag_of };

    ghost left = { flag_left };

    ghost reordered = { flag_reordered };

    ghost restored = { λ saved. saved };

    ghost clones_are_equal = { λ _ _ same. Prim.search rules };

    fn id(config: &FlagConfig) -> u16 {
        config.id
    }

    fn new(alloc: Global, config: &FlagConfig) -> Result<Flag, NoMemory> {
        Ok(Flag {
            pattern: config.pattern,
            order: order_of(config.attributes),
            many: config.attributes.contains(FlagAttributes::TA_WMUL),
            clears: config.attributes.contains(FlagAttributes::TA_CLR),
            waiters: Waiters::new(alloc)?,
        })
    }

    fn leave(&mut self, task: u16) {
        self.waiters.leave(task);
    }

    fn reorder(&mut self, task: u16, priority: u8) {
        self.waiters.reorder(self.order, task, priority);
    }

    fn save(&self) -> Result<SavedFlag, NoMemory> {
        self.save()
    }

    fn restore(saved: &SavedFlag) -> Result<Flag, NoMemory> {
        saved.restore()
    }
}

impl Flag {
    /// The bit pattern.
    pub fn pattern(&self) -> u32
        ensures { result ≡ self.now.pattern }
    {
        self.pattern
    }

    /// The task that waits first.
    pub fn first(&self) -> Option<u16>
        ensures { result ≡ first_in self.now.waiters }
    {
        self.waiters.first()
    }

    /// Whether somebody waits, and nobody else may (TA_WSGL).
    pub fn is_occupied(&self) -> bool
        ensures { result ≡ is_occupied self.now }
    {
        !self.many && !self.waiters.is_empty()
    }

    /// Sets bits. Who is released by it says `next_satisfied`.
    pub fn set(&mut self, bits: u32)
        ensures { self.new ≡ joined bits self.old }
    {
        self.pattern |= bits;
    }

    /// Clears all bits but these.
    pub fn clear(&mut self, bits: u32)
        ensures { self.new ≡ masked bits self.old }
    {
        self.pattern &= bits;
    }

    /// The first waiter that the pattern satisfies leaves, and is answered with the pattern, which is cleared under
    /// TA_CLR.
    pub fn next_satisfied(&mut self) -> Option<(u16, u32)>
        ensures is { self.new ≡ with_next_released self.old }
        ensures who { result ≡ next_released self.old }
        ensures small { IfSome result (λ released. released.0 < 256) }
        ensures bits { WantBits self.old.waiters }
    {
        self.waiters.want_bits();
        let pattern = self.pattern;
        match self.waiters.take_satisfied(pattern) {
            Some(first) => {
                self.release();
                Some((first.id, pattern))
            }
            None => None,
        }
    }

    /// A wait that the pattern satisfies at once is answered with it, and it is cleared under TA_CLR.
    pub fn take(&mut self, want: Want) -> Option<u32>
        ensures is { self.new ≡ taken_for want self.old }
        ensures pattern { result ≡ pattern_for want self.old }
    {
        if !want.is_satisfied_by(self.pattern) {
            return None;
        }
        let pattern = self.pattern;
        self.release();
        Some(pattern)
    }

    /// What a release makes of the pattern.
    fn release(&mut self)
        ensures { self.new ≡ record self.old { pattern = pattern_left self.old.clears self.old.pattern } }
    {
        if self.clears {
            self.pattern = 0;
        }
    }

    /// A task waits for bits, in the order that the attributes say.
    pub fn wait(&mut self, task: u16, priority: u8, want: Want)
        requires small { task < 256 }
        requires bits { want.bits ≢ 0 }
        ensures { self.new ≡ flag_awaited task priority want self.old }
    {
        let entry = QueueEntry {
            id: task,
            priority,
            wanted: want,
        };
        self.waiters.place(self.order, entry);
    }
}

/// The order in which tasks wait for a flag of these attributes.
fn order_of(attributes: FlagAttributes) -> QueueOrder
    ensures { result ≡ order_of attributes.0 }
{
    if attributes.contains(FlagAttributes::TA_TPRI) {
        return QueueOrder::Priority;
    }
    QueueOrder::Arrival
}
