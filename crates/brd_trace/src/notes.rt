//! What is known of a board, and what is said of each event that is no ordinary instruction.

ghost use Rattle.std.specs.Prelude.{
  ◌≡◌,
  ◌+◌,
  ◌<◌,
  ◌^◌,
  List as ListOf,
  IfOk,
  None,
  Some,
  length,
  map,
  replicate,
  slice_set,
  unwrap_or,
  true,
  false,
};
ghost use Rattle.brd_board.specs.declared.event.Event.{Event as EventOf};
ghost use Rattle.std.specs.Option.{option_map};
ghost use Rattle.brd_recording.specs.Lanes.{lanes_of};
ghost use Rattle.brd_trace.specs.Recorded.{begun_of, Records};
ghost use Rattle.brd_trace.specs.Noted.{Knows, KeepsKnown, off_by};
ghost use Rattle.brd_names.specs.Standings.{may_change, tasks_of};
ghost use Rattle.brd_trace.specs.Dated.{IsDated, Follows, KeepsFault, KeepsFaults};

use brd_base::NoMemory;
use brd_board::{Board, Report, Standing, TaskId};
use brd_happening::{CallMade, Happening, Release, What};
use brd_names::{Names, Quiet, Standings, Stretch, put};
use brd_printer::Raised;
use brd_recording::Recording;
use brd_seen::{Cause, EXT_TSK, SaidCall, TER_TSK, TaskSeen, follow_tasks, task_seen, tasks_seen};
use std::alloc::Global;

/// The last exception of a processor.
#[derive(Drop)]
pub struct LastFault {
    /// The position of its event.
    pub position: u64,
    /// Who raised it.
    pub who: Option<Standing>,
    /// Where.
    pub place: u32,
    /// Its name and its cause.
    pub what: Vec<u8>,
}

/// An event, and the board after it, with names for its addresses.
#[derive(Clone, Copy)]
pub(crate) struct Scene<'a> {
    /// For texts.
    pub alloc: Global,
    /// The names.
    pub names: Names<'a>,
    /// The board.
    pub board: &'a Board,
    /// The position of the event.
    pub position: u64,
    /// What happened.
    pub told: &'a Happening,
}

impl<'a> Scene<'a> {
    /// The task that executed.
    pub(crate) fn task(&self) -> Option<TaskId> {
        match self.told.who {
            Some(Standing::Task(id)) => Some(id),
            _ => None,
        }
    }

    /// What changes tasks.
    pub(crate) fn cause(&self) -> Cause
        ensures { result.position ≡ self.now.position }
    {
        let inside = matches!(self.told.what, What::Call(_) | What::Exception(_));
        Cause {
            position: self.position,
            caller: if inside { self.task() } else { None },
            address: self.told.place.unwrap_or(0),
            restarts: may_restart(self.told.what),
            ticks: matches!(self.told.what, What::Tick(_)),
        }
    }

    /// The name and the cause of an exception.
    pub(crate) fn fault_text(&self, place: u32) -> Result<Vec<u8>, NoMemory> {
        let mut what = Vec::new(self.alloc);
        if let What::Exception(exception) = self.told.what {
            let raised = Raised {
                place,
                exception,
                order: self.board.order(),
            };
            raised.put(self.alloc, self.names, &mut what)?;
        }
        Ok(what)
    }

    /// The release of a task, if the event has released it.
    fn release_of(&self, id: TaskId) -> Option<Release> {
        for release in self.told.released.as_slice() {
            if release.task == id {
                return Some(*release);
            }
        }
        None
    }
}

/// No last exceptions.
fn no_faults(alloc: Global) -> Result<Vec<Option<LastFault>>, NoMemory>
    ensures { IfOk result (λ faults. faults.items ≡ replicate 9 None) }
{
    let mut faults = Vec::new(alloc);
    for _ in 0..9u8 {
        faults.push(None)?;
    }
    Ok(faults)
}

/// Puts an exception into the place of a processor, where there is one.
fn put_fault_at(faults: &mut Vec<Option<LastFault>>, cpu: u8, fault: LastFault)
    ensures { faults.new.items ≡ slice_set faults.old.items cpu (Some fault) }
{
    if (cpu as usize) < faults.len() {
        faults[cpu as usize] = Some(fault);
    }
}

/// Whether an event may end a task that starts again then.
fn may_restart(what: What) -> bool {
    match what {
        What::Call(CallMade { asked, answer: _ }) => {
            let call = SaidCall { asked };
            call.number() == EXT_TSK || call.number() == TER_TSK
        }
        _ => false,
    }
}

/// Whether an event that reports this may change how tasks stand, what processors do, or whether the board is off.
fn may_change(report: Report) -> bool
    ensures { result ≡ may_change report }
{
    matches!(
        report,
        Report::Accepted(_) | Report::Called(_) | Report::Faulted(_) | Report::Ticked
    )
}

/// The position of the event that has turned a board off, where it is off.
fn off_by(is_off: bool, position: u64) -> Option<u64>
    ensures { result ≡ off_by is_off position }
{
    if is_off { Some(position) } else { None }
}

/// What is known of a board.
#[derive(Drop)]
pub struct Notes {
    pub tasks: Vec<TaskSeen>,
    pub standings: Standings,
    pub off: Option<u64>,
    /// By the processor's number.
    pub faults: Vec<Option<LastFault>>,
    /// The processor that handles each line; 0 where none does.
    pub handlers: [u8; 160],
    pub recording: Option<Recording>,
}

impl Notes {
    /// What is known of a board to which nothing has happened.
    pub(crate) fn new(alloc: Global, board: &Board, handlers: [u8; 160]) -> Result<Notes, NoMemory>
        ensures knows { IfOk result (Knows board.now) }
        ensures dated { IfOk result (λ notes. (events : ListOf EventOf) → IsDated board.now events 0 notes) }
        ensures none { IfOk result (λ notes. notes.recording ≡ None) }
    {
        Ok(Notes {
            tasks: tasks_seen(alloc, board)?,
            standings: Standings::of(board),
            off: off_by(board.is_off(), 0),
            faults: no_faults(alloc)?,
            handlers,
            recording: None,
        })
    }

    /// Sees how a board stands at a position, after events of which nothing was told. A timeline that was being made is
    /// dropped.
    pub(crate) fn see_board(
        &mut self,
        alloc: Global,
        board: &Board,
        position: u64,
    ) -> Result<(), NoMemory>
        ensures knows { IfOk result (λ _. Knows board.now self.new) }
        ensures none { self.new.recording ≡ None }
    {
        self.recording = None;
        self.tasks = tasks_seen(alloc, board)?;
        self.standings = Standings::of(board);
        self.off = off_by(board.is_off(), position);
        Ok(())
    }

    /// Keeps how tasks and processors stand after an event, which reported this.
    pub(crate) fn follow(&mut self, it: Scene, report: Report) -> Result<(), NoMemory>
        requires { it.position + 1 < 2 ^ 64 }
        ensures kept { may_change report ≡ false → KeepsKnown self.old self.new }
        ensures known { may_change report ≡ true → map (λ it. it.id) self.old.tasks.items ≡ tasks_of it.entry.board.now
            → Knows it.entry.board.now self.new }
        ensures follows { may_change report ≡ true → IfOk result
            (λ _. Follows it.entry.board.now it.entry.position self.old self.new) }
        ensures faults { may_change report ≡ true → IfOk result (λ _. KeepsFaults report it.entry.position
            (unwrap_or it.entry.told.now.cpu 0) it.entry.told.now.who self.old.faults.items self.new.faults.items) }
        ensures begun { begun_of self.new ≡ begun_of self.old }
        ensures records { may_change report ≡ true → IfOk result (λ _. Records (it.entry.position + 1) self.new
            (option_map lanes_of self.old.recording) (option_map lanes_of self.new.recording)) }
    {
        if !may_change(report) {
            return Ok(());
        }
        follow_tasks(&mut self.tasks, it.board, it.cause());
        self.standings = Standings::of(it.board);
        let position = self.off.unwrap_or(it.position);
        self.off = off_by(it.board.is_off(), position);
        self.keep_faults(it, report)?;
        self.see(it, it.position + 1)?;
        Ok(())
    }

    /// Keeps an exception, if an event has reported one.
    fn keep_faults(&mut self, it: Scene, report: Report) -> Result<(), NoMemory>
        ensures tasks { self.new.tasks ≡ self.old.tasks }
        ensures standings { self.new.standings ≡ self.old.standings }
        ensures off { self.new.off ≡ self.old.off }
        ensures recording { self.new.recording ≡ self.old.recording }
        ensures places { length self.new.faults.items ≡ length self.old.faults.items }
        ensures faults { IfOk result (λ _. KeepsFaults report it.entry.position (unwrap_or it.entry.told.now.cpu 0)
            it.entry.told.now.who self.old.faults.items self.new.faults.items) }
    {
        match report {
            Report::Faulted(place) => self.keep_fault(it, place),
            _ => Ok(()),
        }
    }

    /// Keeps an exception as its processor's last one.
    fn keep_fault(&mut self, it: Scene, place: u32) -> Result<(), NoMemory>
        ensures tasks { self.new.tasks ≡ self.old.tasks }
        ensures standings { self.new.standings ≡ self.old.standings }
        ensures off { self.new.off ≡ self.old.off }
        ensures recording { self.new.recording ≡ self.old.recording }
        ensures places { length self.new.faults.items ≡ length self.old.faults.items }
        ensures kept { IfOk result (λ _. KeepsFault it.entry.position place (unwrap_or it.entry.told.now.cpu 0)
            it.entry.told.now.who self.old.faults.items self.new.faults.items) }
    {
        let fault = LastFault {
            position: it.position,
            who: it.told.who,
            place,
            what: it.fault_text(place)?,
        };
        put_fault_at(&mut self.faults, it.told.cpu.unwrap_or(0), fault);
        Ok(())
    }

    /// Records events that released nobody, if they are ticks.
    pub(crate) fn note_quiet(&mut self, it: Stretch) -> Result<(), NoMemory>
        ensures { KeepsKnown self.old self.new }
    {
        match it.quiet {
            Quiet::Tick => self.record_tick(it.position, it.tick),
            _ => Ok(()),
        }
    }

    /// Puts at the end what the event changed of tasks and processors.
    pub(crate) fn put_changes(&mut self, it: Scene, what: &mut Vec<u8>) -> Result<(), NoMemory>
        ensures { KeepsKnown self.old self.new }
    {
        self.put_tasks(it, what, it.cause())?;
        let now = Standings::of(it.board);
        now.put_changes(it.alloc, what, &self.standings)?;
        if it.told.goes_off {
            put(what, ", the board is off")?;
        }
        Ok(())
    }

    /// Puts at the end what an event changed of tasks.
    fn put_tasks(&mut self, it: Scene, what: &mut Vec<u8>, cause: Cause) -> Result<(), NoMemory>
        ensures { KeepsKnown self.old self.new }
    {
        for i in 0..self.tasks.len() {
            let Some(old) = self.tasks.get(i).copied() else {
                return Ok(());
            };
            let Some(now) = task_seen(it.board, old.id) else {
                return Ok(());
            };
            let release = it.release_of(old.id);
            old.put_change(it.alloc, what, now, cause, release)?;
            if release.is_some() && cause.ticks {
                self.mark_release(it.alloc, i, it.position)?;
            }
        }
        Ok(())
    }
}
