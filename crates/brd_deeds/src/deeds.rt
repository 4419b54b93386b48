//! The deeds of an event.

ghost use Rattle.std.specs.Prelude.{◌≡◌, OnOk};
ghost use Rattle.brd_deeds.specs.Deeds.{
  acts_at,
  acts_by_strand,
  acts_in,
  all_released,
  begins,
  deeds_of,
  faults,
  stamp_of,
  strand_of,
};

use crate::log::{Doer, Log};
use crate::past::Stamp;
use brd_base::{List, NoMemory};
use brd_board::{Board, Standing};
use brd_happening::{Happening, Release, What};
use std::alloc::Global;

/// The strand of who executes on a processor: a task's is its ID, a handler's 256 and its line.
fn strand_of(who: Option<Standing>) -> Option<u16>
    ensures { result ≡ strand_of who }
{
    match who {
        Some(Standing::Task(id)) => Some(id),
        Some(Standing::Handler(line)) => Some(256 + u16::from(line)),
        Some(Standing::Idle | Standing::Stopped) | None => None,
    }
}

/// Where something is done in an event at a position.
fn stamp_of(position: u64, told: &Happening) -> Stamp
    ensures { result ≡ stamp_of position told.now }
{
    Stamp {
        event: position,
        place: told.place.unwrap_or(0),
    }
}

impl Log {
    /// The deeds of an event at a position, by what happens in it and the board after it, in place of those before.
    pub(crate) fn put_event(
        &mut self,
        alloc: Global,
        position: u64,
        told: &Happening,
        after: &Board,
    ) -> Result<(), NoMemory>
        ensures { OnOk result (self.new ≡ deeds_of position told.now after.now self.old.past) }
    {
        let stamp = stamp_of(position, told);
        let caller = strand_of(told.who);
        self.deeds = List::new(alloc);
        self.put_acts(stamp, told, after)?;
        self.put_released(stamp, caller, told.released.as_slice())
    }

    /// An exception ends a task, or stops a handler.
    fn fault(&mut self, doer: Doer) -> Result<(), NoMemory>
        ensures { OnOk result (self.new ≡ faults doer self.old) }
    {
        self.settle(doer.strand)?;
        if doer.strand < 256 {
            return self.end(doer);
        }
        self.put_lock(false, doer);
        Ok(())
    }

    /// What who executes does in an event.
    fn put_acts_in(&mut self, doer: Doer, told: &Happening, after: &Board) -> Result<(), NoMemory>
        ensures { OnOk result (self.new ≡ acts_in doer told.now.what after.now self.old) }
    {
        match told.what {
            What::Instruction(instruction) => self.execute(doer, &instruction),
            What::Call(made) => self.call(doer, made, after),
            What::Exception(_) => self.fault(doer),
            _ => Ok(()),
        }
    }

    /// A handler begins.
    fn begin(&mut self, doer: Doer) -> Result<(), NoMemory>
        ensures { OnOk result (self.new ≡ begins doer self.old) }
    {
        self.acquire_cpu(doer)?;
        self.begin_started(doer)
    }

    /// What is done in an event, but for what whom it releases does.
    fn put_acts(&mut self, stamp: Stamp, told: &Happening, after: &Board) -> Result<(), NoMemory>
        ensures { OnOk result (self.new
            ≡ acts_at stamp told.now.cpu (strand_of told.now.who) told.now.what after.now self.old) }
    {
        let Some(cpu) = told.cpu else {
            return Ok(());
        };
        if let What::Accepted(line) = told.what {
            return self.begin(Doer {
                strand: 256 + u16::from(line),
                cpu,
                stamp,
            });
        }
        match strand_of(told.who) {
            Some(strand) => self.put_acts_in(Doer { strand, cpu, stamp }, told, after),
            None => Ok(()),
        }
    }

    /// What the tasks do whose waits an event ended, by a call of this strand.
    fn put_released(
        &mut self,
        stamp: Stamp,
        caller: Option<u16>,
        releases: &[Release],
    ) -> Result<(), NoMemory>
        ensures { OnOk result (self.new ≡ all_released stamp caller releases.now self.old) }
    {
        for release in releases {
            self.put_release(stamp, caller, release)?;
        }
        Ok(())
    }
}
