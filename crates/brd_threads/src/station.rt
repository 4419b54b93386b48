//! The station, what threads share under one lock: a board, its journal, and the script of what comes from outside.

ghost use Rattle.std.specs.Prelude.{◌≡◌, ◌+◌, ◌≤◌, ◌==◌, ◌∷◌, [], length, take, replicate, vec_len};
ghost use Rattle.std.specs.Prelude.{true, false, Decides, None, Some, IfOk, IfSome, OnOk, OnErr, IfErr};
ghost use Rattle.brd_board.specs.declared.event.Event.TheVariants.{Step};
ghost use Rattle.brd_board.specs.Lease.{lease_of};
ghost use Rattle.brd_journal.specs.Journal.{most_runs};
ghost use Rattle.brd_ledgers.specs.Blanks.{AreOf};
ghost use Rattle.brd_ledgers.specs.Shares.{AreNew};
ghost use Rattle.brd_threads.specs.Faults.{IsFullUnless, station_fault_of};
ghost use Rattle.brd_threads.specs.Leases.{Commits, IsNewFor};
ghost use Rattle.brd_threads.specs.Outers.{event_of, outers, steps};
ghost use Rattle.brd_threads.specs.Processors.{processors_of};
ghost use Rattle.brd_threads.specs.Station.{
  AreOfFirst,
  EntryHappens,
  board_of,
  begun,
  has_room,
  next_entry,
  report_on,
  steps_of,
  with_entry,
  with_events,
  with_more,
};
ghost use Rattle.brd_threads.specs.declared.fault.StationFault.TheVariants as fault;

use crate::boards::{has_processor, processors};
use crate::fault::{CommitFault, StationFault};
use crate::outer::Outer;
use brd_base::same_slices;
use brd_board::{Board, Event, Lease, Report};
use brd_journal::{Journal, JournalFault};
use brd_ledgers::{Blanks, Books, Race, Share, open_books};
use std::alloc::Global;
use std::marker::Model;

/// A board with the journal of all that has happened to it since its boot, and with a script. It counts the steps of
/// each processor, and so does the processor's share.
pub struct Station<K: Race> {
    boot: Board,
    board: Board,
    journal: Journal,
    script: Vec<Outer>,
    taken: usize,
    books: Books<K>,
}

impl<K: Race> Model for Station<K> {
    ghost use Rattle.brd_threads.specs.Station.{StationState, IsReplay};

    ghost Value = { StationState };

    ghost view = { λ s. record { boot = s.boot; journal = s.journal; script = s.script.items; taken = s.taken } };

    ghost invariant = { λ s. IsReplay s.boot s.board s.journal s.script.items s.taken s.books };
}

/// Written out, so that a function that lets one go is proved with a call, and not with the end of each part.
impl<K: Race> Drop for Station<K> {
    fn drop(self) {
        let Station {
            boot: _,
            board: _,
            journal: _,
            script: _,
            taken: _,
            books: _,
        } = self;
    }
}

/// What a journal's fault is to a station. (A journal that is appended to reads no text.)
fn fault_of(fault: JournalFault) -> StationFault
    ensures { result ≡ station_fault_of fault }
{
    match fault {
        JournalFault::NoMemory => StationFault::NoMemory,
        JournalFault::Full | JournalFault::Syntax { .. } => StationFault::JournalFull,
    }
}

/// Appends an event to a journal `count` times. An `Err` changes nothing.
#[tactic(auto, unfolding(brd_journal::specs::Runs::copies))]
fn record(journal: &mut Journal, event: Event, count: u32) -> Result<(), StationFault>
    ensures room { IsFullUnless (has_room journal.old (replicate count event)) result }
    ensures ok { OnOk result (journal.new ≡ with_more journal.old (replicate count event)) }
    ensures err { OnErr result (journal.new ≡ journal.old) }
{
    match journal.push_run(event, count) {
        Ok(()) => Ok(()),
        Err(fault) => Err(fault_of(fault)),
    }
}

impl<K: Race> Station<K> {
    /// A station of this boot and script, to which nothing has happened, and a share for each processor. The journal
    /// has the boot's byte order, and may have up to `limit` runs.
    pub fn new(
        alloc: Global,
        boot: &Board,
        script: &[Outer],
        limit: u32,
        blanks: Blanks,
    ) -> Result<(Station<K>, Vec<Share<K>>), StationFault>
        requires limit { limit ≤ most_runs }
        requires blanks { AreOf K.names blanks }
        ensures begun { IfOk result (λ r. r.0 ≡ begun boot.now script.now limit) }
        ensures shares { IfOk result (λ r. AreNew r.1.items) }
        ensures len { IfOk result (λ r. vec_len r.1 ≡ processors_of boot.now) }
        ensures err { IfErr result (λ e. e ≡ fault.NoMemory) }
    {
        let (books, shares) = open_books::<K>(alloc, blanks, processors(boot))?;
        let station = Station {
            boot: boot.try_copy()?,
            board: boot.try_copy()?,
            journal: Journal::new(alloc, limit, boot.order()),
            script: Vec::from_slice(alloc, script)?,
            taken: 0,
            books,
        };
        Ok((station, shares))
    }

    /// A processor does its next step, and its share counts it. It is `JournalFull` exactly where the journal has no
    /// room for it, unless memory runs out. An `Err` changes nothing.
    pub fn step(&mut self, cpu: u8, share: &mut Share<K>) -> Result<Report, StationFault>
        requires mine { cpu ≡ share.old.cpu }
        ensures report { IfOk result (λ told. told ≡ report_on self.old (Step cpu)) }
        ensures ok { OnOk result (self.new ≡ with_events self.old (Step cpu ∷ [])) }
        ensures room { IsFullUnless (has_room self.old.journal (Step cpu ∷ [])) result }
        ensures count { OnOk result (share.new ≡ record share.old { count = share.old.count + 1 }) }
        ensures err { OnErr result ((self.new ≡ self.old) × (share.new ≡ share.old)) }
    {
        // Its contract says how few events there can be, so that the count has room.
        let _ = self.journal.len();
        record(&mut self.journal, Event::Step(cpu), 1)?;
        let report = self.board.event_apart(Event::Step(cpu));
        self.books.add(share, 1);
        Ok(report)
    }

    /// The next entry of the script happens, also where the board is off. Answers what it reports, and None after the
    /// last entry. It is `JournalFull` exactly where the journal has no room for it, unless memory runs out. An `Err`
    /// changes nothing, so the entry is still to come.
    pub fn script_next(&mut self) -> Result<Option<Report>, StationFault>
        ensures { EntryHappens (next_entry self.old) self.old result self.new }
    {
        let Some(entry) = self.next_entry() else {
            return Ok(None);
        };
        match self.take_entry(entry) {
            Ok(told) => Ok(Some(told)),
            Err(fault) => Err(fault),
        }
    }

    /// The script's next entry.
    fn next_entry(&self) -> Option<Outer>
        ensures { result ≡ next_entry self.now }
    {
        self.script.as_slice().get(self.taken).copied()
    }

    /// This entry, which is the script's next, happens. An `Err` changes nothing.
    fn take_entry(&mut self, entry: Outer) -> Result<Report, StationFault>
        requires next { next_entry self.old ≡ Some entry }
        ensures report { IfOk result (λ told. told ≡ report_on self.old (event_of entry)) }
        ensures ok { OnOk result (self.new ≡ with_entry self.old entry) }
        ensures room { IsFullUnless (has_room self.old.journal (event_of entry ∷ [])) result }
        ensures err { OnErr result (self.new ≡ self.old) }
    {
        let event = entry.event();
        record(&mut self.journal, event, 1)?;
        self.taken += 1;
        Ok(self.board.event_apart(event))
    }

    /// A lease of a processor, under which its next instructions can be done with no lock held. None exactly where the
    /// board is off, there is no such processor, it is idle or stopped, an interrupt is deliverable to it, or the
    /// address of its next instruction is unaligned or outside RAM.
    pub fn lend(&self, cpu: u8) -> Option<Lease>
        ensures is { result ≡ lease_of (board_of self.now) cpu }
        ensures new { IfSome result (IsNewFor cpu) }
    {
        self.board.lend(cpu)
    }

    /// Makes a lease the one that `lend` would answer. False, and it stays as it was, where that would be none.
    pub fn lend_into(&self, cpu: u8, lease: &mut Lease) -> bool
        ensures lent { result ≡ true → lease_of (board_of self.now) cpu ≡ Some lease.new }
        ensures none { result ≡ false → (lease_of (board_of self.now) cpu ≡ None) × (lease.new ≡ lease.old) }
        ensures new { result ≡ true → IsNewFor cpu lease.new }
    {
        self.board.lend_into(cpu, lease)
    }

    /// Carries over what was done under a lease: it is as many steps of its processor, which its share counts. Answers
    /// how many. It is `Stale` exactly where `Board::is_stale` says so, and else `JournalFull` exactly where the
    /// journal has no room for the steps, unless memory runs out. An `Err` changes nothing.
    pub fn commit(&mut self, lease: Lease, share: &mut Share<K>) -> Result<u32, CommitFault>
        requires mine { lease.cpu ≡ share.old.cpu }
        ensures commits { Commits self.old lease result self.new }
        ensures count { OnOk result (share.new ≡ record share.old { count = share.old.count + lease.len }) }
        ensures err { OnErr result (share.new ≡ share.old) }
    {
        self.carry_over(&lease, share)
    }

    /// The same with a lease that is kept, to be lent into again.
    pub fn carry_over(&mut self, lease: &Lease, share: &mut Share<K>) -> Result<u32, CommitFault>
        requires mine { lease.now.cpu ≡ share.old.cpu }
        ensures commits { Commits self.old lease.now result self.new }
        ensures count { OnOk result (share.new ≡ record share.old { count = share.old.count + lease.now.len }) }
        ensures err { OnErr result (share.new ≡ share.old) }
    {
        if self.board.is_stale(lease) {
            return Err(CommitFault::Stale);
        }
        let len = lease.len();
        // Its contract says how few events there can be, so that the count has room.
        let _ = self.journal.len();
        record(&mut self.journal, Event::Step(lease.cpu()), len)?;
        self.board.carry_over(lease);
        self.books.add(share, len);
        Ok(len)
    }

    /// The board: what the journal's events make of the boot.
    pub fn board(&self) -> &Board
        ensures { result.now ≡ board_of self.now }
    {
        &self.board
    }

    /// All that has happened. Of what comes from outside it has the entries of the script that were taken.
    pub fn journal(&self) -> &Journal
        ensures is { result.now ≡ self.now.journal }
        ensures taken { outers result.now.events ≡ take self.now.taken self.now.script }
        ensures within { self.now.taken ≤ length self.now.script }
        ensures order { result.now.order ≡ self.now.boot.memory.order }
    {
        &self.journal
    }

    /// How many steps of a processor the journal has, where there is one of that number.
    pub fn steps(&self, cpu: u8) -> Option<u64>
        ensures { result ≡ steps_of self.now cpu }
    {
        if has_processor(&self.boot, cpu) {
            return Some(self.books.count(cpu));
        }
        None
    }

    /// Changes nothing, and shows that a share counts the steps of its processor.
    pub fn audit(&mut self, share: &mut Share<K>)
        ensures counted { steps share.old.cpu self.old.journal.events ≡ share.old.count }
        ensures station { self.new ≡ self.old }
        ensures share { share.new ≡ share.old }
    {
        self.books.audit(share);
    }

    /// Whether each step in the journal is of a processor from 1 to this number.
    pub fn are_of_first(&self, processors: usize) -> bool
        ensures { Decides result (AreOfFirst processors self.now) }
    {
        self.books.are_of_first(processors)
    }

    /// Whether the script is used up.
    pub fn is_done(&self) -> bool
        ensures { result ≡ (self.now.taken == length self.now.script) }
    {
        self.taken == self.script.len()
    }

    /// Whether it was made of this boot and this script.
    pub fn is_of(&self, boot: &Board, script: &[Outer]) -> bool
        ensures { Decides result ((self.now.boot ≡ boot.now) × (self.now.script ≡ script.now)) }
    {
        self.boot.same(boot) && same_slices(self.script.as_slice(), script)
    }
}
