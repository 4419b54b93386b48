//! Ticks, and when the waits of tasks end.

ghost use Rattle.std.specs.Prelude.{◌≡◌, Decides, ◌<◌, ◌≤◌, ◌^◌, ◌-◌, None, Some, IfOk, IfSome, nat_lt, replicate};
ghost use Rattle.brd_time.specs.Kept.{AreNotBefore};
ghost use Rattle.brd_time.specs.Time.{beginning, due_of, with_due, advanced, last_count, next_due_of};

use brd_base::{NoMemory, copy_with_room};
use std::alloc::Global;
use std::marker::Model;

/// The last tick that is counted.
const LAST_COUNT: u64 = 9_223_372_036_854_775_807;

/// What stands for a wait without an end: no tick that is counted.
const NEVER: u64 = 18_446_744_073_709_551_615;

/// How many ticks have passed, and for each task, by its ID below 256, at which tick its wait ends, where it has an
/// end.
pub struct Timeouts {
    count: u64,
    dues: Vec<u64>,
    /// No wait ends before this tick, so that most ticks look at no task.
    earliest: u64,
}

impl Model for Timeouts {
    ghost use Rattle.std.specs.Prelude.{◌≡◌, ◌≤◌, length, map};
    ghost use Rattle.brd_time.specs.Kept.{AreNotBefore};
    ghost use Rattle.brd_time.specs.Time.{Time, last_count};
    ghost use Rattle.brd_time.specs.Kept.{due_in};

    ghost Value = { Time };

    ghost view = { λ t. record { count = t.count; dues = map due_in t.dues.items } };

    ghost invariant = { λ t. (length t.dues.items ≡ 256) × (t.count ≤ last_count)
        × AreNotBefore t.earliest t.dues.items };
}

/// Written out, so that a function that lets one go is proved with a call, and not with the end of each part.
impl Drop for Timeouts {
    fn drop(self) {
        let Timeouts {
            count: _,
            dues: _,
            earliest: _,
        } = self;
    }
}

impl Timeouts {
    /// Before the first tick: no wait has an end.
    pub fn new(alloc: Global) -> Result<Timeouts, NoMemory>
        ensures { IfOk result (λ timeouts. timeouts ≡ beginning) }
    {
        let dues = vec![in alloc; NEVER; 256]?;
        Ok(Timeouts {
            count: 0,
            dues,
            earliest: NEVER,
        })
    }

    /// Equal timeouts.
    pub fn try_copy(&self) -> Result<Timeouts, NoMemory>
        ensures { IfOk result (λ copy. copy ≡ self.now) }
    {
        Ok(Timeouts {
            count: self.count,
            dues: copy_with_room(&self.dues, 0)?,
            earliest: self.earliest,
        })
    }

    /// Whether both are equal: as many ticks, and each wait ends at the same one.
    pub fn same(&self, other: &Timeouts) -> bool
        ensures { Decides result (self.now ≡ other.now) }
    {
        self.count == other.count && self.dues.as_slice() == other.dues.as_slice()
    }

    /// How many ticks have passed.
    pub fn now(&self) -> u64
        ensures is { result ≡ self.now.count }
        ensures counted { result ≤ last_count }
    {
        self.count
    }

    /// The wait of a task ends at a tick, which is below 18,446,744,073,709,551,615. IDs are below 256.
    pub fn arm(&mut self, task: u16, due: u64)
        requires task { task < 256 }
        requires due { due < 2 ^ 64 - 1 }
        ensures { self.new ≡ with_due self.old task (Some due) }
    {
        self.dues[task as usize] = due;
        self.earliest = self.earliest.min(due);
    }

    /// The wait of a task has no end, or is over.
    pub fn disarm(&mut self, task: u16)
        requires { task < 256 }
        ensures { self.new ≡ with_due self.old task None }
    {
        self.dues[task as usize] = NEVER;
    }

    /// The tick at which the wait of a task ends.
    pub fn due(&self, task: u16) -> Option<u64>
        ensures { result ≡ due_of self.now task }
    {
        if (task as usize) >= self.dues.len() {
            return None;
        }
        let due = self.dues[task as usize];
        if due == NEVER { None } else { Some(due) }
    }

    /// A tick passes. Answers whether it was counted; at the end of time it isn't, and nothing changes.
    pub fn advance(&mut self) -> bool
        ensures is { self.new ≡ advanced self.old }
        ensures counted { result ≡ nat_lt self.old.count last_count }
    {
        if self.count >= LAST_COUNT {
            return false;
        }
        self.count += 1;
        if self.earliest < self.count {
            self.earliest = earliest_of(self.dues.as_slice());
        }
        true
    }

    /// The first task from an ID on whose wait ends: its tick has come.
    pub fn next_due(&self, from: u16) -> Option<u16>
        requires { from ≤ 256 }
        ensures is { result ≡ next_due_of self.now from }
        ensures within { IfSome result (λ task. (from ≤ task) × (task < 256)) }
    {
        if self.count < self.earliest {
            return None;
        }
        match brd_lanes::next_due(self.dues.as_slice(), self.count, from as usize) {
            Some(task) => Some(task as u16),
            None => None,
        }
    }
}

/// A tick before which no wait ends: the least of these.
fn earliest_of(dues: &[u64]) -> u64
    ensures { AreNotBefore result dues.now }
{
    let mut earliest = NEVER;
    for due in dues {
        earliest = earliest.min(*due);
    }
    earliest
}
