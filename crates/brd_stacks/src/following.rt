//! Going through a journal, with what it does to stacks.

ghost use Rattle.std.specs.Prelude.{◌≡◌, ◌≤◌, ◌<◌, ◌++◌, ◌⊎◌, [], true};
ghost use Rattle.std.specs.Prelude.{false, List as ListOf, length, take, IfOk, OnOk};
ghost use Rattle.std.specs.List.{cons_option};
ghost use Rattle.brd_board.specs.declared.event.Event.{Event as EventOf};
ghost use Rattle.brd_board.specs.Board.{BoardState as BoardOf};
ghost use Rattle.brd_journal.specs.Runs.{ComesBehind};
ghost use Rattle.brd_stacks.specs.declared.stack.Point.{Point as PointOf};
ghost use Rattle.brd_stacks.specs.declared.stack.Stack.{Stack as StackOf};
ghost use Rattle.brd_stacks.specs.Depths.{AreFollowed, IsSoonest, some_overflow};
ghost use Rattle.brd_stacks.specs.Following.{IsFollowed};

use crate::point::point_of;
use crate::stack::{Point, Stack};
use crate::track::{Track, follow, has_overflow, tracks_of};
use brd_base::NoMemory;
use brd_board::Board;
use brd_happening::Before;
use brd_journal::{Journal, Playback, Run};
use std::alloc::Global;

/// A board that plays a journal, and what is told of its stacks.
#[derive(Drop)]
pub struct Following {
    /// The board, and how many events it has played.
    pub playback: Playback,
    pub(crate) tracks: Vec<Track>,
    /// Where the journal looks for the next event's run.
    near: usize,
}

impl Following {
    /// A board to which nothing has happened, with these stacks.
    pub fn new(alloc: Global, board: Board, stacks: &[Stack]) -> Result<Following, NoMemory>
        ensures start { IfOk result (λ following. following.playback ≡ record { board = board; at = 0 }) }
        ensures calm { IfOk result (λ following. some_overflow following.tracks.items ≡ false) }
        ensures followed { IfOk result (λ following. (events : ListOf EventOf) →
            IsFollowed board events stacks.now following) }
    {
        Ok(Following {
            playback: Playback { board, at: 0 },
            tracks: tracks_of(alloc, stacks)?,
            near: 0,
        })
    }

    /// Does the next events of a journal, up to a position, or up to one that stores below a stack, with those of its
    /// run after it that do nothing. No store below a stack came before. After an `Err` nothing is known any more.
    pub fn advance_far(&mut self, alloc: Global, journal: &Journal, to: u64) -> Result<(), NoMemory>
        requires on { self.old.playback.at ≤ to }
        requires within { to ≤ length journal.now.events }
        requires calm { some_overflow self.old.tracks.items ≡ false }
        ensures at { self.new.playback.at ≤ to }
        ensures goes { OnOk result (self.old.playback.at < to → self.old.playback.at < self.new.playback.at) }
        ensures ends { OnOk result ((self.new.playback.at ≡ to) ⊎ (some_overflow self.new.tracks.items ≡ true)) }
        ensures followed { (boot : BoardOf) (stacks : ListOf StackOf) →
            IsFollowed boot journal.now.events stacks self.old
            → OnOk result (IsFollowed boot journal.now.events stacks self.new) }
    {
        while self.playback.at < to {
            self.advance(alloc, journal, to)?;
            if self.has_overflow() {
                return Ok(());
            }
        }
        Ok(())
    }

    /// Does the next event of a journal, and those of its run after it that do nothing, up to a position. No store
    /// below a stack came before it. After an `Err` nothing is known any more.
    fn advance(&mut self, alloc: Global, journal: &Journal, to: u64) -> Result<(), NoMemory>
        requires on { self.old.playback.at ≤ to }
        requires within { to ≤ length journal.now.events }
        requires calm { some_overflow self.old.tracks.items ≡ false }
        ensures at { self.new.playback.at ≤ to }
        ensures goes { self.old.playback.at < to → self.old.playback.at < self.new.playback.at }
        ensures followed { (boot : BoardOf) (stacks : ListOf StackOf) →
            IsFollowed boot journal.now.events stacks self.old
            → OnOk result (IsFollowed boot journal.now.events stacks self.new) }
    {
        if self.playback.at >= to {
            return Ok(());
        }
        let Some(rest) = journal.rest_at(self.playback.at, &mut self.near) else {
            return Ok(());
        };
        self.advance_in(alloc, rest, to)
    }

    /// Does the next event of what is left of a run, and those after it that do nothing, up to a position.
    fn advance_in(&mut self, alloc: Global, rest: Run, to: u64) -> Result<(), NoMemory>
        requires on { self.old.playback.at < to }
        requires some { 1 ≤ rest.count }
        requires calm { some_overflow self.old.tracks.items ≡ false }
        ensures at { self.new.playback.at ≤ to }
        ensures goes { self.old.playback.at < self.new.playback.at }
        ensures followed { (boot : BoardOf) (events : ListOf EventOf) (stacks : ListOf StackOf) → to ≤ length events
            → ComesBehind events self.old.playback.at rest → IsFollowed boot events stacks self.old
            → OnOk result (IsFollowed boot events stacks self.new) }
    {
        let position = self.playback.at;
        let before = match Before::of(alloc, &self.playback.board, rest.event) {
            Ok(before) => before,
            Err(NoMemory) => {
                self.playback.advance(rest, position + 1, to);
                return Err(NoMemory);
            }
        };
        let moved = self.playback.advance(rest, position + 1, to);
        let told = before.happening(alloc, moved.report, &self.playback.board)?;
        follow_if(&mut self.tracks, point_of(position, &before, &told));
        Ok(())
    }

    /// Whether a store below a stack is told.
    pub fn has_overflow(&self) -> bool
        ensures { result ≡ some_overflow self.now.tracks.items }
    {
        has_overflow(self.tracks.as_slice())
    }

    /// What is told of the stacks.
    pub fn tracks(&self) -> &[Track]
        ensures { result.now ≡ self.now.tracks.items }
    {
        self.tracks.as_slice()
    }
}

/// Takes the point of an event, if it has one.
fn follow_if(tracks: &mut Vec<Track>, point: Option<Point>)
    ensures followed { (stacks : ListOf StackOf) (points : ListOf PointOf) → AreFollowed stacks points tracks.old.items
        → AreFollowed stacks (points ++ cons_option point []) tracks.new.items }
    ensures soonest { (stacks : ListOf StackOf) (points : ListOf PointOf) → AreFollowed stacks points tracks.old.items
        → some_overflow tracks.old.items ≡ false → IsSoonest stacks points →
        IsSoonest stacks (points ++ cons_option point []) }
{
    match point {
        Some(point) => follow(tracks, point),
        None => {}
    }
}
