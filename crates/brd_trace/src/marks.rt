//! The timeline of what is told.

ghost use Rattle.std.specs.Prelude.{◌≡◌, IfOk, is_some};
ghost use Rattle.std.specs.Option.{option_map};
ghost use Rattle.brd_recording.specs.Lanes.{lanes_of};
ghost use Rattle.brd_trace.specs.Noted.{KeepsKnown};
ghost use Rattle.brd_trace.specs.Recorded.{begun_of, BeginsIn, Records};
ghost use Rattle.brd_recording.specs.Recording.{EndsIn};

use crate::notes::{Notes, Scene};
use brd_base::NoMemory;
use brd_board::Board;
use brd_journal::Journal;
use brd_recording::{Known, Locks, Recording};
use brd_timeline::{MarkKind, Timeline};
use std::alloc::Global;

impl Notes {
    /// From a position on a timeline is made, of a board.
    pub(crate) fn record(&mut self, alloc: Global, board: &Board, from: u64) -> Result<(), NoMemory>
        ensures tasks { self.new.tasks ≡ self.old.tasks }
        ensures standings { self.new.standings ≡ self.old.standings }
        ensures off { self.new.off ≡ self.old.off }
        ensures faults { self.new.faults ≡ self.old.faults }
        ensures begins { IfOk result (λ _. BeginsIn from self.new (option_map lanes_of self.new.recording)) }
    {
        let known = Known {
            standings: &self.standings,
            tasks: self.tasks.as_slice(),
            is_off: self.off.is_some(),
        };
        let locks = Locks::new(alloc, board, from)?;
        self.recording = Some(Recording::new(alloc, known, locks, from)?);
        Ok(())
    }

    /// The timeline that was made up to a position, where one was, of the events of a journal.
    pub(crate) fn into_timeline(
        self,
        alloc: Global,
        journal: &Journal,
        to: u64,
    ) -> Result<Option<Timeline>, NoMemory>
        ensures { IfOk result (EndsIn to (option_map lanes_of self.recording)) }
    {
        let Notes { recording, .. } = self;
        match recording {
            Some(recording) => Ok(Some(recording.end(alloc, journal, to)?)),
            None => Ok(None),
        }
    }

    /// Records what goes on from a position on, and how spin locks stand, after an event.
    pub(crate) fn see(&mut self, it: Scene, at: u64) -> Result<(), NoMemory>
        ensures tasks { self.new.tasks ≡ self.old.tasks }
        ensures standings { self.new.standings ≡ self.old.standings }
        ensures off { self.new.off ≡ self.old.off }
        ensures faults { self.new.faults ≡ self.old.faults }
        ensures begun { begun_of self.new ≡ begun_of self.old }
        ensures records { IfOk result (λ _. Records at self.old (option_map lanes_of self.old.recording)
            (option_map lanes_of self.new.recording)) }
    {
        let known = Known {
            standings: &self.standings,
            tasks: self.tasks.as_slice(),
            is_off: self.off.is_some(),
        };
        match &mut self.recording {
            Some(recording) => {
                recording.see_locks(known, it.board, it.told, at)?;
                recording.see(it.alloc, known, at)
            }
            None => Ok(()),
        }
    }

    /// Records a mark of a processor's step.
    pub(crate) fn mark(
        &mut self,
        alloc: Global,
        cpu: Option<u8>,
        position: u64,
        kind: MarkKind,
        label: &[u8],
    ) -> Result<(), NoMemory>
        ensures { KeepsKnown self.old self.new }
    {
        match &mut self.recording {
            Some(recording) => recording.mark(alloc, cpu.unwrap_or(0), position, kind, label),
            None => Ok(()),
        }
    }

    /// Records that a line is raised, in the lane of the processor that handles it.
    pub(crate) fn mark_raise(
        &mut self,
        alloc: Global,
        position: u64,
        line: u8,
        label: &[u8],
    ) -> Result<(), NoMemory>
        ensures { KeepsKnown self.old self.new }
    {
        if line as usize >= self.handlers.len() {
            return Ok(());
        }
        let cpu = self.handlers[line as usize];
        match &mut self.recording {
            Some(recording) => { recording.mark(alloc, cpu, position, MarkKind::Interrupt, label) }
            None => Ok(()),
        }
    }

    /// Records that a tick released a task, by its place in the list of tasks.
    pub(crate) fn mark_release(
        &mut self,
        alloc: Global,
        task: usize,
        at: u64,
    ) -> Result<(), NoMemory>
        ensures { KeepsKnown self.old self.new }
    {
        match &mut self.recording {
            Some(recording) => recording.mark_release(alloc, task, at),
            None => Ok(()),
        }
    }
}
