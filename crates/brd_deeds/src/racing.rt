//! Going through a journal, with the order of what is done.

ghost use Rattle.std.specs.Prelude.{◌≡◌, ◌≤◌, ◌<◌, ◌+◌, ◌++◌, [], ℕ, List as ListOf, length, take, IfErr, IfOk, OnOk};
ghost use Rattle.brd_config.specs.declared.objects.QueueConfig.{QueueConfig as QueueOf};
ghost use Rattle.brd_board.specs.declared.event.Event.{Event as EventOf};
ghost use Rattle.brd_board.specs.Board.{BoardState as BoardOf};
ghost use Rattle.brd_journal.specs.Runs.{ComesBehind};
ghost use Rattle.brd_order.specs.declared.deed.Deed.{Deed as DeedOf};
ghost use Rattle.brd_order.specs.Races.{AreRaces};
ghost use Rattle.brd_order.specs.After.{IsAfter};
ghost use Rattle.brd_order.specs.Refusals.{IsKept, MayRefuse};
ghost use Rattle.brd_deeds.specs.Deeds.{deeds_of_run};
ghost use Rattle.brd_deeds.specs.Past.{past_of};
ghost use Rattle.brd_deeds.specs.Racing.{IsRaced};

use crate::log::Log;
use crate::past::Past;
use brd_base::{List, NoMemory};
use brd_board::Board;
use brd_config::QueueConfig;
use brd_happening::Before;
use brd_journal::{Journal, Playback, Run};
use brd_order::{Deed, Order, OrderFault, Race};
use std::alloc::Global;

/// A board that plays a journal, and the order of what it has done.
#[derive(Drop)]
pub struct Racing {
    /// The board, and how many events it has played.
    pub playback: Playback,
    pub(crate) order: Order,
    pub(crate) log: Log,
    /// Where the journal looks for the next event's run.
    near: usize,
}

impl Racing {
    /// A board with these data queues to which nothing has happened.
    pub fn new(alloc: Global, board: Board, queues: &[QueueConfig]) -> Result<Racing, NoMemory>
        ensures start { IfOk result (λ racing. racing.playback ≡ record { board = board; at = 0 }) }
        ensures raced { IfOk result (λ racing. (events : ListOf EventOf) → IsRaced queues.now board events racing) }
    {
        Ok(Racing {
            playback: Playback { board, at: 0 },
            order: Order::new(alloc)?,
            log: Log {
                past: Past::new(alloc, queues)?,
                deeds: List::new(alloc),
            },
            near: 0,
        })
    }

    /// Does the next event of a journal, and those of its run after it that do nothing, up to a position. After a fault
    /// nothing is known any more.
    pub fn advance(&mut self, alloc: Global, journal: &Journal, to: u64) -> Result<(), OrderFault>
        requires on { self.old.playback.at ≤ to }
        requires within { to ≤ length journal.now.events }
        ensures at { self.new.playback.at ≤ to }
        ensures goes { self.old.playback.at < to → self.old.playback.at < self.new.playback.at }
        ensures raced { (queues : ListOf QueueOf) (boot : BoardOf) → IsRaced queues boot journal.now.events self.old →
            OnOk result (IsRaced queues boot journal.now.events self.new) }
        // It refuses no sooner than the deeds of a run up to there are as many as that.
        ensures refuses { (queues : ListOf QueueOf) (boot : BoardOf) → IsRaced queues boot journal.now.events self.old
            → IfErr result
            (MayRefuse (length (deeds_of_run queues boot (take self.new.playback.at journal.now.events)))) }
    {
        if self.playback.at >= to {
            return Ok(());
        }
        let Some(rest) = journal.rest_at(self.playback.at, &mut self.near) else {
            return Ok(());
        };
        self.advance_in(alloc, rest, to)
    }

    /// Does the next event of what is left of a run, and those after it that do nothing, up to a position.
    fn advance_in(&mut self, alloc: Global, rest: Run, to: u64) -> Result<(), OrderFault>
        requires on { self.old.playback.at < to }
        requires some { 1 ≤ rest.count }
        ensures at { self.new.playback.at ≤ to }
        ensures goes { self.old.playback.at < self.new.playback.at }
        ensures raced { (queues : ListOf QueueOf) (boot : BoardOf) (events : ListOf EventOf) → to ≤ length events
            → ComesBehind events self.old.playback.at rest → IsRaced queues boot events self.old
            → OnOk result (IsRaced queues boot events self.new) }
        ensures refuses { (queues : ListOf QueueOf) (boot : BoardOf) (events : ListOf EventOf) → to ≤ length events
            → ComesBehind events self.old.playback.at rest → IsRaced queues boot events self.old
            → IfErr result (MayRefuse (length (deeds_of_run queues boot (take self.new.playback.at events)))) }
    {
        let position = self.playback.at;
        let before = match Before::of(alloc, &self.playback.board, rest.event) {
            Ok(before) => before,
            Err(NoMemory) => {
                self.playback.advance(rest, position + 1, to);
                return Err(OrderFault::NoMemory);
            }
        };
        let moved = self.playback.advance(rest, position + 1, to);
        let told = before.happening(alloc, moved.report, &self.playback.board)?;
        self.log
            .put_event(alloc, position, &told, &self.playback.board)?;
        take_all(&mut self.order, self.log.deeds.as_slice())
    }

    /// The first race of each word that has one in the run, which ends here, in the order of the later touches.
    pub fn finish(self, alloc: Global) -> Result<List<Race>, OrderFault>
        ensures races { (queues : ListOf QueueOf) (boot : BoardOf) (events : ListOf EventOf)
            → IsRaced queues boot events self
            → IfOk result (AreRaces (deeds_of_run queues boot (take self.playback.at events))) }
        ensures refuses { (queues : ListOf QueueOf) (boot : BoardOf) (events : ListOf EventOf)
            → IsRaced queues boot events self
            → IfErr result (MayRefuse (length (deeds_of_run queues boot (take self.playback.at events)))) }
    {
        let Racing {
            playback: _,
            mut order,
            mut log,
            near: _,
        } = self;
        log.deeds = List::new(alloc);
        log.settle_all()?;
        match take_all(&mut order, log.deeds.as_slice()) {
            Ok(()) => {}
            Err(fault) => return Err(fault),
        }
        let races = List::from_slice(alloc, order.races())?;
        Ok(races)
    }
}

/// Takes deeds in their order.
fn take_all(order: &mut Order, deeds: &[Deed]) -> Result<(), OrderFault>
    ensures after { (before : ListOf DeedOf) → IsAfter before order.old →
        OnOk result (IsAfter (before ++ deeds.now) order.new) }
    ensures kept { (n : ℕ) → IsKept n order.old → OnOk result (IsKept (n + length deeds.now) order.new) }
    ensures refuses { (n : ℕ) → IsKept n order.old → IfErr result (MayRefuse (n + length deeds.now)) }
{
    for deed in deeds {
        order.take(*deed)?;
    }
    Ok(())
}
