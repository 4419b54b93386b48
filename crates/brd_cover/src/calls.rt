//! Calls of functions, by where they stand and what they lead to.

use brd_base::NoMemory;
use std::alloc::Global;
use std::collections::BTreeMap;

/// The calls that stand at one place and lead to one address.
#[derive(Clone, Copy)]
pub(crate) struct Call {
    /// The address of the instruction that calls; below RAM, the number of whom the function is the first.
    pub(crate) from: u32,
    /// The address to which it leads.
    pub(crate) target: u32,
    /// How often it was made.
    pub(crate) count: u64,
    /// How many steps were done until it returned, with those of calls that were made in it.
    pub(crate) steps: u64,
}

/// Calls.
#[derive(Drop)]
pub(crate) struct Calls {
    pub(crate) all: Vec<Call>,
    /// By where a call stands and what it leads to, its place.
    places: BTreeMap<(u32, u32), usize>,
}

impl Calls {
    /// None.
    pub(crate) fn new(alloc: Global) -> Calls {
        Calls {
            all: Vec::new(alloc),
            places: BTreeMap::new(alloc),
        }
    }

    /// Counts a call that is made. Answers its place.
    pub(crate) fn enter(&mut self, from: u32, target: u32) -> Result<usize, NoMemory> {
        let place = self.place_of(from, target)?;
        if let Some(call) = self.all.get_mut(place) {
            call.count = call.count.saturating_add(1);
        }
        Ok(place)
    }

    /// The place of a call, which is added if it isn't there.
    fn place_of(&mut self, from: u32, target: u32) -> Result<usize, NoMemory> {
        let key = (from, target);
        if let Some(place) = self.places.get(&key) {
            return Ok(*place);
        }
        let place = self.all.len();
        self.all.push(Call {
            from,
            target,
            count: 0,
            steps: 0,
        })?;
        self.places.insert(key, place)?;
        Ok(place)
    }

    /// Counts the steps of a call that has returned.
    pub(crate) fn leave(&mut self, place: usize, steps: u64) {
        if let Some(call) = self.all.get_mut(place) {
            call.steps = call.steps.saturating_add(steps);
        }
    }
}
