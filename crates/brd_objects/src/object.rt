//! What a kind of object gives, so that a table of its objects can be kept.

ghost use Rattle.std.specs.Prelude.{◌≡◌, IfOk};

use brd_base::{NoMemory, Same};
use std::alloc::Global;

/// An object that tasks wait for. What its kind does beside this stands with the kind.
pub trait Object: Same + Clone + Drop {
    ghost use Rattle.std.specs.Prelude.{◌≡◌, ℕ};

    /// Its statement in a configuration.
    type Config;

    /// What a snapshot keeps of it.
    type Saved: Drop;

    // the ID that a statement gives
    ghost id_of: { Self.Config → ℕ };

    // an object as its statement says it
    ghost made_of: { Self.Config → Self };

    // an object after a task no longer waits
    ghost left: { ℕ → Self → Self };

    // an object after a task was given a priority
    ghost reordered: { ℕ → ℕ → Self → Self };

    // the object that was saved
    ghost restored: { Self.Saved → Self };

    /// The ID that a statement gives.
    fn id(config: &Self::Config) -> u16
        ensures { result ≡ id_of config.now };

    /// An object as the configuration says it: nobody waits.
    fn new(alloc: Global, config: &Self::Config) -> Result<Self, NoMemory>
        ensures { IfOk result (λ object. object ≡ made_of config.now) };

    /// A task no longer waits.
    fn leave(&mut self, task: u16)
        ensures { self.new ≡ left task self.old };

    /// A task, where it waits, is given a priority: by arrival it keeps its place, by priority it comes after its
    /// equals.
    fn reorder(&mut self, task: u16, priority: u8)
        ensures { self.new ≡ reordered task priority self.old };

    /// The same object without room.
    fn save(&self) -> Result<Self::Saved, NoMemory>
        ensures { IfOk result (λ saved. restored saved ≡ self.now) };

    /// The same object with room.
    fn restore(saved: &Self::Saved) -> Result<Self, NoMemory>
        ensures { IfOk result (λ object. object ≡ restored saved.now) };

    // a copy is equal
    ghost clones_are_equal: { (object copy : Self) → Self.is_clone object copy → copy ≡ object };
}
