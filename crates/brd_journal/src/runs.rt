//! Lists of runs.

ghost use Rattle.std.specs.Prelude.{◌≡◌, ◌+◌, ◌≤◌, ◌<◌, ◌^◌, ◌++◌, ◌∷◌, [], length, take, OnOk, OnErr, IfSome, None};
ghost use Rattle.std.specs.Prelude.{Some, Ok, true, false};
ghost use Rattle.brd_journal.specs.Adding.{room_in, added_within};
ghost use Rattle.brd_journal.specs.Faults.{Gives};
ghost use Rattle.brd_journal.specs.Runs.{AreCut, IsRest, events_of, same_event};

use crate::fault::JournalFault;
use crate::run::Run;
use brd_base::NoMemory;
use brd_board::Event;
use std::alloc::Global;
use std::marker::Model;

/// Whether two events are the same.
#[inline(always)]
fn is_same(event: Event, other: Event) -> bool
    ensures { result ≡ same_event event other }
{
    event == other
}

/// How many more of an event the last run can count.
#[inline(always)]
fn room_for(runs: &[Run], event: Event) -> u32
    ensures { result ≡ room_in runs.now event }
{
    let Some(last) = runs.last() else {
        return 0;
    };
    if is_same(last.event, event) {
        u32::MAX - last.count
    } else {
        0
    }
}

/// Puts a run at the end of the runs, and where it starts at the end of the starts. A refusal changes nothing.
#[inline(always)]
fn put_run(runs: &mut Vec<Run>, starts: &mut Vec<u64>, run: Run, start: u64) -> Result<(), NoMemory>
    ensures runs { OnOk result (runs.new.items ≡ runs.old.items ++ run ∷ []) }
    ensures starts { OnOk result (starts.new.items ≡ starts.old.items ++ start ∷ []) }
    ensures err { OnErr result ((runs.new.items ≡ runs.old.items) × (starts.new.items ≡ starts.old.items)) }
{
    runs.push(run)?;
    match starts.push(start) {
        Ok(()) => Ok(()),
        Err(fault) => {
            let _ = runs.pop();
            Err(fault.into())
        }
    }
}

/// Runs, and beside each the position of its first event.
#[derive(Drop)]
pub(crate) struct RunTable {
    runs: Vec<Run>,
    starts: Vec<u64>,
}

impl Model for RunTable {
    ghost use Rattle.std.specs.Prelude.{◌≡◌, List};
    ghost use Rattle.brd_journal.specs.declared.run.Run.{Run};
    ghost use Rattle.brd_journal.specs.Runs.{starts_of};

    ghost Value = { List Run };

    ghost view = { λ table. table.runs.items };

    ghost invariant = { λ table. table.starts.items ≡ starts_of table.runs.items };
}

impl RunTable {
    /// No runs. It takes no memory.
    pub(crate) fn new(alloc: Global) -> Self
        ensures { result ≡ [] }
    {
        RunTable {
            runs: Vec::new(alloc),
            starts: Vec::new(alloc),
        }
    }

    /// The runs.
    pub(crate) fn as_slice(&self) -> &[Run]
        ensures { result.now ≡ self.now }
    {
        self.runs.as_slice()
    }

    /// Puts a run at the end, after n events, where the last one takes none of it, and where there is room for it.
    /// Answers whether it did; else nothing has changed.
    #[inline(always)]
    pub(crate) fn puts(&mut self, limit: usize, event: Event, count: u32, others: u64) -> bool
        requires some { 1 ≤ count }
        requires behind { others ≡ length (events_of self.old) }
        ensures added { result ≡ true → added_within limit self.old event count ≡ Ok self.new }
        ensures stays { result ≡ false → self.new ≡ self.old }
    {
        if room_for(&self.runs, event) > 0 {
            return false;
        }
        if self.runs.len() >= limit {
            return false;
        }
        let run = Run { event, count };
        let Ok(()) = put_run(&mut self.runs, &mut self.starts, run, others) else {
            return false;
        };
        true
    }

    /// Adds an event n times at the end, after m others, unless that makes more runs than the limit. An
    /// `Err` changes nothing.
    #[inline(always)]
    pub(crate) fn add(
        &mut self,
        limit: usize,
        event: Event,
        count: u32,
        others: u64,
    ) -> Result<(), JournalFault>
        requires cut { AreCut self.old }
        requires within { length self.old ≤ limit }
        requires behind { others ≡ length (events_of self.old) }
        requires few { others + count < 2 ^ 64 }
        ensures added { Gives (λ _. self.new) result (added_within limit self.old event count) }
        ensures err { OnErr result (self.new ≡ self.old) }
    {
        let joined = room_for(&self.runs, event).min(count);
        let rest = count - joined;
        let end = self.runs.len();
        if rest > 0 {
            if end >= limit {
                return Err(JournalFault::Full);
            }
            let run = Run { event, count: rest };
            let start = others + joined as u64;
            put_run(&mut self.runs, &mut self.starts, run, start)?;
        }
        if joined > 0 {
            self.runs[end - 1].count += joined;
        }
        Ok(())
    }

    /// What is left of a run after n events: its event, and how often that still comes. `near` is a run that is looked
    /// at first, after the next one, and becomes the one that is found; else a binary search finds it.
    #[inline(always)]
    pub(crate) fn rest_after(&self, others: u64, near: &mut usize) -> Option<Run>
        requires { AreCut self.now }
        ensures { IsRest (events_of self.now) others result }
    {
        // Who plays run after run comes to where the next one begins.
        let next = near.wrapping_add(1);
        if let Some(run) = self.run_from(next, others) {
            *near = next;
            return Some(run);
        }
        self.rest_sought(others, near)
    }

    /// The whole run, if it begins after n events.
    #[inline(always)]
    fn run_from(&self, index: usize, others: u64) -> Option<Run>
        requires { AreCut self.now }
        ensures { IfSome result (λ run. IsRest (events_of self.now) others (Some run)) }
    {
        if index < self.starts.len() && self.starts[index] == others {
            return Some(self.runs[index]);
        }
        None
    }

    /// What is left of a run after n events: of the one at `near`, or of one that a binary search finds.
    fn rest_sought(&self, others: u64, near: &mut usize) -> Option<Run>
        requires { AreCut self.now }
        ensures { IsRest (events_of self.now) others result }
    {
        if let Some(rest) = self.rest_in(*near, others) {
            return Some(rest);
        }
        self.rest_found(others, near)
    }

    /// What is left of a run after n events, which a binary search finds.
    fn rest_found(&self, others: u64, near: &mut usize) -> Option<Run>
        requires { AreCut self.now }
        ensures { IsRest (events_of self.now) others result }
    {
        let begun = self
            .starts
            .as_slice()
            .partition_point(|start| *start <= others);
        if begun == 0 {
            return None;
        }
        *near = begun - 1;
        self.rest_in(begun - 1, others)
    }

    /// What is left of a run after n events. None where none of it is left, or it begins later.
    #[inline(always)]
    fn rest_in(&self, index: usize, others: u64) -> Option<Run>
        requires { AreCut self.now }
        ensures rest { IfSome result (λ rest. IsRest (events_of self.now) others (Some rest)) }
        ensures ended { result ≡ None → index < length self.now → length (events_of (take index self.now)) ≤ others
            → length (events_of (take (index + 1) self.now)) ≤ others }
    {
        if index >= self.runs.len() {
            return None;
        }
        let run = self.runs[index];
        let start = self.starts[index];
        if others < start {
            return None;
        }
        let gone = others - start;
        if gone >= run.count as u64 {
            return None;
        }
        Some(Run {
            event: run.event,
            count: run.count - gone as u32,
        })
    }
}
