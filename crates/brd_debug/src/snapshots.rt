//! Snapshots of the boards that a journal makes.

ghost use Rattle.std.specs.Prelude.{◌≡◌, ℕ, ◌+◌, ◌<◌, ◌≤◌, ◌^◌, ◌%◌, ◌==◌, List as ListOf, [], All, Contains, filter};
ghost use Rattle.std.specs.Prelude.{map, OnOk, OnErr, IfOk, IfSome, IfNone};
ghost use Rattle.brd_mem.specs.Memory.{size_of};
ghost use Rattle.brd_board.specs.declared.event.Event.{Event as EventOf};
ghost use Rattle.brd_board.specs.Board.{BoardState as BoardOf};
ghost use Rattle.brd_board.specs.Snapshot.{restored, Fits};
ghost use Rattle.brd_journal.specs.Playing.{IsPlayed};
ghost use Rattle.brd_debug.specs.Kept.{AreKept, IsLastUpTo, first_interval, plan_of, last_of, next_multiple, noted};

use brd_base::NoMemory;
use brd_board::{Board, Snapshot};
use brd_journal::Playback;
use std::alloc::Global;
use std::marker::Model;

/// How many events apart snapshots are at first (own choice).
const FIRST_INTERVAL: u64 = 4_096;

/// How many snapshots are kept at most (own choice).
const MOST_KEPT: usize = 1_024;

/// The snapshot of the board after n events.
#[derive(Drop)]
pub struct Kept {
    /// How many events.
    pub at: u64,
    /// The snapshot.
    pub snapshot: Snapshot,
}

/// At most 1,024 snapshots, at multiples of an interval of events.
#[derive(Drop)]
pub struct Snapshots {
    interval: u64,
    kept: Vec<Kept>,
}

impl Model for Snapshots {
    ghost use Rattle.std.specs.Prelude.{◌≤◌, ◌^◌, length};
    ghost use Rattle.brd_debug.specs.Kept.{SnapshotsState, most_kept};

    ghost Value = { SnapshotsState };

    ghost view = { λ snapshots. record { interval = snapshots.interval; kept = snapshots.kept.items } };

    ghost invariant = { λ snapshots. (1 ≤ snapshots.interval) × (snapshots.interval ≤ 2 ^ 60)
        × (length snapshots.kept.items ≤ most_kept) };
}

impl Snapshots {
    /// No snapshots.
    pub fn new(alloc: Global) -> Snapshots
        ensures { result ≡ record { interval = first_interval; kept = [] } }
    {
        Snapshots {
            interval: FIRST_INTERVAL,
            kept: Vec::new(alloc),
        }
    }

    /// The next multiple of the interval after a position.
    pub fn next(&self, at: u64) -> u64
        requires { at < 2 ^ 60 }
        ensures is { result ≡ next_multiple self.now.interval at }
        ensures after { at < result }
    {
        at - at % self.interval + self.interval
    }

    /// The last snapshot that was taken at or before a position.
    pub fn nearest(&self, at: u64) -> Option<&Kept>
        ensures found { IfSome result (λ kept. Contains self.now.kept kept.now × (kept.now.at ≤ at)) }
        ensures last { IfSome result (λ kept. IsLastUpTo self.now.kept at kept.now.at) }
        ensures none { IfNone result (All (λ one. at < one.at) self.now.kept) }
    {
        let mut found = None;
        let mut last = 0;
        for kept in self.kept.as_slice() {
            if kept.at <= at && last <= kept.at {
                found = Some(kept);
                last = kept.at;
            }
        }
        found
    }

    /// A snapshot of a board. It shares the pages of RAM that the last one has too.
    fn taken(&self, boot: &Board, board: &Board) -> Result<Snapshot, NoMemory>
        requires sizes { size_of board.now.memory ≡ size_of boot.now.memory }
        requires orders { board.now.memory.order ≡ boot.now.memory.order }
        ensures fits { IfOk result (Fits boot.now) }
        ensures back { IfOk result (λ snapshot. restored boot.now snapshot ≡ board.now) }
    {
        match self.kept.last() {
            Some(last) => board.snapshot_after(boot, &last.snapshot),
            None => board.snapshot(boot),
        }
    }

    /// The position of the last snapshot that was taken at or before a position; 0 where there is none.
    pub fn last_before(&self, at: u64) -> u64
        ensures { result ≤ at }
    {
        match self.nearest(at) {
            Some(kept) => kept.at,
            None => 0,
        }
    }

    /// Takes a snapshot of a board that has played up to a multiple of the interval, after all that are kept. Where
    /// there would be more than 1,024, the interval doubles instead, and those that are no multiples of it are given
    /// up.
    pub fn note(&mut self, boot: &Board, playback: &Playback) -> Result<(), NoMemory>
        requires sizes { size_of playback.now.board.memory ≡ size_of boot.now.memory }
        requires orders { playback.now.board.memory.order ≡ boot.now.memory.order }
        requires few { playback.now.at < 2 ^ 59 }
        ensures kept { (events : ListOf EventOf) → IsPlayed boot.now events playback.now
            → AreKept boot.now events self.old.kept → AreKept boot.now events self.new.kept }
        ensures noted { OnOk result (plan_of self.new ≡ noted (plan_of self.old) playback.now.at) }
        ensures err { OnErr result (self.new ≡ self.old) }
    {
        if playback.at <= last(&self.kept) || playback.at % self.interval != 0 {
            return Ok(());
        }
        if self.kept.len() < MOST_KEPT {
            let snapshot = self.taken(boot, &playback.board)?;
            self.kept.push(Kept {
                at: playback.at,
                snapshot,
            })?;
        } else {
            self.interval *= 2;
            thin(&mut self.kept, self.interval);
        }
        Ok(())
    }
}

/// The position of the last snapshot, 0 where there is none.
fn last(kept: &[Kept]) -> u64
    ensures { result ≡ last_of (map (λ one. one.at) kept.now) }
{
    if kept.is_empty() {
        return 0;
    }
    kept[kept.len() - 1].at
}

/// Gives all snapshots up but those at multiples of an interval.
fn thin(kept: &mut Vec<Kept>, interval: u64)
    requires { 0 < interval }
    ensures { kept.new.items ≡ filter (λ k. k.at % interval == 0) kept.old.items }
{
    kept.retain(|kept| kept.at % interval == 0);
}
