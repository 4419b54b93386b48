//! What was released into things.

ghost use Rattle.std.specs.Prelude.{◌≡◌, ◌≤◌, ◌+◌, ℕ, nat_eq, [], None, length, IfErr, OnOk};
ghost use Rattle.std.specs.Map.{lookup};
ghost use Rattle.brd_order.specs.Clocks.{Joins};
ghost use Rattle.brd_order.specs.Refusals.{MayRefuse};
ghost use Rattle.brd_order.specs.Tables.{counts_of, counts_given, Gives};

use crate::clock::Clock;
use crate::fault::OrderFault;
use brd_base::NoMemory;
use std::alloc::Global;
use std::collections::HashMap;

/// How many things can be released into.
const MOST_THINGS: usize = 65_536;

/// What was released into each thing, by its number.
pub(crate) struct Things {
    pub(crate) given: HashMap<u64, Clock>,
}

impl Drop for Things {
    fn drop(self) {
        let Things { given: _ } = self;
    }
}

impl Things {
    /// Nothing was released into anything.
    pub(crate) fn new(alloc: Global) -> Things
        ensures { result.given.entries ≡ [] }
    {
        Things {
            given: HashMap::new(alloc),
        }
    }

    /// A clock takes in what was released into a thing.
    pub(crate) fn put_into(&self, thing: u64, clock: &mut Clock) -> Result<(), NoMemory>
        ensures { OnOk result (Joins (counts_of clock.old) (counts_given self.now.given.entries thing)
            (counts_of clock.new)) }
    {
        match self.given.get(&thing) {
            Some(given) => clock.join(given),
            None => Ok(()),
        }
    }

    /// A clock becomes what was released into a thing.
    pub(crate) fn copy_into(&self, thing: u64, clock: &mut Clock) -> Result<(), NoMemory>
        ensures { OnOk result ((t : ℕ) → counts_of clock.new t ≡ counts_given self.now.given.entries thing t) }
    {
        match self.given.get(&thing) {
            Some(given) => clock.assign(given),
            None => {
                clock.clear();
                Ok(())
            }
        }
    }

    /// What a clock knows is released into a thing.
    pub(crate) fn give(&mut self, thing: u64, clock: &Clock) -> Result<(), OrderFault>
        ensures gives { OnOk result
            (Gives thing (counts_of clock.now) self.old.given.entries self.new.given.entries) }
        ensures len { OnOk result (length self.new.given.entries ≤ length self.old.given.entries + 1) }
        ensures refuses { IfErr result (MayRefuse (length self.old.given.entries)) }
    {
        if let Some(given) = self.given.get_mut(&thing) {
            given.join(clock)?;
            return Ok(());
        }
        self.add(thing, clock)
    }

    /// What a clock knows is released into a thing that nothing was released into.
    fn add(&mut self, thing: u64, clock: &Clock) -> Result<(), OrderFault>
        requires { lookup (nat_eq thing) self.old.given.entries ≡ None }
        ensures gives { OnOk result
            (Gives thing (counts_of clock.now) self.old.given.entries self.new.given.entries) }
        ensures len { OnOk result (length self.new.given.entries ≡ length self.old.given.entries + 1) }
        ensures refuses { IfErr result (MayRefuse (length self.old.given.entries)) }
    {
        if self.given.len() >= MOST_THINGS {
            return Err(OrderFault::TooManyThings);
        }
        self.given.insert(thing, clock.copy()?)?;
        Ok(())
    }
}
