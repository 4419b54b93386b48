//! Journals.

ghost use Rattle.std.specs.Prelude.{◌≡◌, ℕ, ◌≤◌, ◌<◌, ◌==◌, ◌^◌, ◌∷◌, [], length, slice_get, OnErr, IfOk, IfSome, Ok};
ghost use Rattle.std.specs.Prelude.{true, false};
ghost use Rattle.brd_journal.specs.Faults.{Gives};
ghost use Rattle.brd_journal.specs.Journal.{most_runs, appended};
ghost use Rattle.brd_journal.specs.Reading.{journal_of};
ghost use Rattle.brd_journal.specs.Runs.{IsRest, ComesBehind, copies, events_of, runs_of};
ghost use Rattle.brd_journal.specs.Text.{text_of};

use crate::fault::JournalFault;
use crate::run::Run;
use crate::runs::RunTable;
use crate::writing::written;
use brd_base::NoMemory;
use brd_board::Event;
use brd_word::Order;
use std::alloc::Global;
use std::marker::Model;

/// The greatest limit of a journal.
pub const MOST_RUNS: u32 = 4_194_304;

/// A list of events that has at most n runs, for boards of a byte order. It is kept as its runs and where each
/// begins.
pub struct Journal {
    limit: u32,
    order: Order,
    runs: RunTable,
    len: u64,
}

impl Model for Journal {
    ghost use Rattle.brd_journal.specs.Journal.{JournalState, IsKept};
    ghost use Rattle.brd_journal.specs.Runs.{events_of};

    ghost Value = { JournalState };

    ghost view = { λ journal.
        record { limit = journal.limit; order = journal.order; events = events_of journal.runs } };

    ghost invariant = { λ journal. IsKept journal.limit journal.runs journal.len };
}

/// Written out, so that a function that lets one go is proved with a call, and not with the end of each part.
impl Drop for Journal {
    fn drop(self) {
        let Journal {
            limit: _,
            order: _,
            runs: _,
            len: _,
        } = self;
    }
}

impl Journal {
    /// A journal without events, which may have n runs, for boards of this byte order. It takes no memory.
    pub fn new(alloc: Global, limit: u32, order: Order) -> Self
        requires { limit ≤ most_runs }
        ensures { result ≡ record { limit = limit; order = order; events = [] } }
    {
        Journal {
            limit,
            order,
            runs: RunTable::new(alloc),
            len: 0,
        }
    }

    /// Appends an event. It is `Full` exactly where the events would need more runs than the limit, unless memory runs
    /// out. An `Err` changes nothing.
    pub fn push(&mut self, event: Event) -> Result<(), JournalFault>
        ensures appended { Gives (λ _. self.new) result (appended self.old (event ∷ [])) }
        ensures err { OnErr result (self.new ≡ self.old) }
    {
        self.push_run(event, 1)
    }

    /// Appends an event n times. It is `Full` exactly where the events would need more runs than the limit,
    /// unless memory runs out. An `Err` changes nothing, and neither does a count of 0.
    #[inline(always)]
    pub fn push_run(&mut self, event: Event, count: u32) -> Result<(), JournalFault>
        ensures appended { Gives (λ _. self.new) result (appended self.old (copies event count)) }
        ensures err { OnErr result (self.new ≡ self.old) }
    {
        self.runs.add(self.limit as usize, event, count, self.len)?;
        self.len += count as u64;
        Ok(())
    }

    /// Appends an event n times, where a run at the end is all that this takes. Answers whether it did; else nothing
    /// has changed.
    #[inline(always)]
    pub(crate) fn puts(&mut self, event: Event, count: u32) -> bool
        requires { 1 ≤ count }
        ensures appended { result ≡ true → appended self.old (copies event count) ≡ Ok self.new }
        ensures stays { result ≡ false → self.new ≡ self.old }
    {
        if !self.runs.puts(self.limit as usize, event, count, self.len) {
            return false;
        }
        self.len += count as u64;
        true
    }

    /// Appends a run, as `push_run` does, but not in line.
    #[inline(never)]
    pub(crate) fn push_run_apart(&mut self, run: Run) -> Result<(), JournalFault>
        ensures appended { Gives (λ _. self.new) result (appended self.old (copies run.event run.count)) }
        ensures err { OnErr result (self.new ≡ self.old) }
    {
        self.push_run(run.event, run.count)
    }

    /// The byte order of the boards that it is for.
    pub fn order(&self) -> Order
        ensures { result ≡ self.now.order }
    {
        self.order
    }

    /// How many events there are.
    pub fn len(&self) -> u64
        ensures len { result ≡ length self.now.events }
        ensures bound { result < 2 ^ 54 }
    {
        self.len
    }

    /// Whether there are no events.
    pub fn is_empty(&self) -> bool
        ensures { result ≡ (length self.now.events == 0) }
    {
        self.len == 0
    }

    /// The event that comes after n others. A binary search finds its run.
    pub fn event_at(&self, others: u64) -> Option<Event>
        ensures { result ≡ slice_get self.now.events others }
    {
        let rest = self.rest_at(others, &mut 0)?;
        Some(rest.event)
    }

    /// What is left of a run after n events: its event, and how often the run has that from there on. `near` is a run
    /// that is looked at first, with the next one, and becomes the one that is found; else a binary search finds it.
    #[inline(always)]
    pub fn rest_at(&self, others: u64, near: &mut usize) -> Option<Run>
        ensures exact { IsRest self.now.events others result }
        ensures comes { IfSome result (ComesBehind self.now.events others) }
    {
        self.runs.rest_after(others, near)
    }

    /// The runs: the longest stretches of equal events, each cut from the front into pieces of 4,294,967,295.
    pub fn runs(&self) -> &[Run]
        ensures runs { result.now ≡ runs_of self.now.events }
        ensures events { events_of result.now ≡ self.now.events }
        ensures within { length result.now ≤ self.now.limit }
    {
        self.runs.as_slice()
    }

    /// The text: a first line, and a line for each run. It is read as this journal again, where the limit suffices.
    pub fn write_text(&self, alloc: Global) -> Result<Vec<u8>, NoMemory>
        ensures is { IfOk result (λ text. text.items ≡ text_of self.now.order self.now.events) }
        ensures again { IfOk result (λ text. (limit : ℕ) → length (runs_of self.now.events) ≤ limit
            → journal_of limit text.items
            ≡ Ok (record { limit = limit; order = self.now.order; events = self.now.events })) }
    {
        written(alloc, self.order, self.runs.as_slice())
    }
}
