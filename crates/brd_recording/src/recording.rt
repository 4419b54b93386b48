//! The timeline of a run.

ghost use Rattle.std.specs.Prelude.{
  ◌≡◌,
  ◌≢◌,
  ◌++◌,
  ◌<◌,
  ℕ,
  [],
  ◌∷◌,
  Decides,
  IfOk,
  None,
  OnOk,
  Option as OptionOf,
  codes,
  is_some,
  length,
  map,
  slice_index_or,
};
ghost use Rattle.brd_timeline.specs.declared.timeline.Lane.{Lane as LaneOf};
ghost use Rattle.brd_recording.specs.declared.recording.Open.{Open as OpenOf};
ghost use Rattle.brd_recording.specs.Lanes.{lanes_of, titled, titles_of};
ghost use Rattle.brd_names.specs.Lines.{named_text};
ghost use Rattle.brd_recording.specs.Slices.{
  off_doing,
  standing_doing,
  condition_doing,
  cpu_doing,
  label_of,
  owner_text,
  slices_in,
  cpus_in,
  cpu_title,
};
ghost use Rattle.brd_names.specs.Standings.{runs_in};
ghost use Rattle.brd_recording.specs.Recording.{
  seen_doing,
  doings_in,
  open_at,
  cpu_open,
  seen_title,
  task_open,
  Begins,
  BecomesSlice,
  Closes,
  Ends,
  FollowsLane,
  SameLanes,
  Sees,
};

use crate::locks::{Locks, LocksSeen};
use crate::turns::turns_of;
use brd_base::NoMemory;
use brd_board::{Board, Standing, TaskState, WaitReason};
use brd_happening::Happening;
use brd_journal::Journal;
use brd_names::{Quiet, Spinner, Standings, put_called, put_named, put_wait};
use brd_seen::{TaskSeen, quiet_of};
use brd_timeline::{Group, Kind, Lane, Mark, MarkKind, Slice, Timeline};
use std::alloc::Global;

/// What goes on in a lane.
#[derive(Clone, Copy)]
pub struct Doing {
    /// What.
    pub kind: Kind,
    /// The number of the task or of the line that a processor executes.
    pub number: u16,
    /// What a task waits for.
    pub waiting: Option<WaitReason>,
}

/// What goes on in a lane, and from which position on.
#[derive(Clone, Copy)]
pub struct Open {
    /// What.
    pub doing: Doing,
    /// From where.
    pub from: u64,
}

/// What is known of a board at a position.
#[derive(Clone, Copy)]
pub struct Known<'a> {
    /// What its processors do.
    pub standings: &'a Standings,
    /// Its tasks.
    pub tasks: &'a [TaskSeen],
    /// Whether it is off.
    pub is_off: bool,
}

/// A timeline that is being made.
#[derive(Drop)]
pub struct Recording {
    timeline: Timeline,
    /// The processor of each of the first lanes.
    processors: Vec<u8>,
    /// What goes on in each lane.
    current: Vec<Open>,
    /// The spin locks and mutexes.
    locks: Locks,
}

impl Recording {
    /// The timeline of a run, from a position on, with these spin locks and mutexes.
    pub fn new(alloc: Global, known: Known, locks: Locks, from: u64) -> Result<Recording, NoMemory>
        ensures { IfOk result (λ it. Begins known.entry.is_off known.entry.standings.now.of known.entry.tasks.now from
            (lanes_of it)) }
    {
        let mut recording = Recording {
            timeline: empty(alloc, from),
            processors: known.processors(alloc)?,
            current: Vec::new(alloc),
            locks,
        };
        recording.add_processors(alloc, known)?;
        recording.add_tasks(alloc, known)?;
        Ok(recording)
    }

    /// Adds a lane for each processor.
    fn add_processors(&mut self, alloc: Global, known: Known) -> Result<(), NoMemory>
        ensures from { self.new.timeline.from ≡ self.old.timeline.from }
        ensures slices { self.new.timeline.slices ≡ self.old.timeline.slices }
        ensures cpus { self.new.processors ≡ self.old.processors }
        ensures titles { OnOk result (titles_of self.new.timeline.lanes.items
            ≡ titles_of self.old.timeline.lanes.items ++ map cpu_title self.old.processors.items) }
        ensures current { OnOk result (self.new.current.items ≡ self.old.current.items
            ++ map (cpu_open known.entry.is_off known.entry.standings.now.of self.old.timeline.from)
            self.old.processors.items) }
    {
        for i in 0..self.processors.len() {
            let cpu = self.processors[i];
            let doing = known.of_processor(cpu);
            self.add(alloc, "cpu", u64::from(cpu), Group::Processor, doing)?;
        }
        Ok(())
    }

    /// Adds a lane for each task.
    fn add_tasks(&mut self, alloc: Global, known: Known) -> Result<(), NoMemory>
        ensures from { self.new.timeline.from ≡ self.old.timeline.from }
        ensures slices { self.new.timeline.slices ≡ self.old.timeline.slices }
        ensures cpus { self.new.processors ≡ self.old.processors }
        ensures titles { OnOk result (titles_of self.new.timeline.lanes.items
            ≡ titles_of self.old.timeline.lanes.items ++ map seen_title known.entry.tasks.now) }
        ensures current { OnOk result (self.new.current.items ≡ self.old.current.items
            ++ map (task_open known.entry.is_off known.entry.standings.now.of self.old.timeline.from)
            known.entry.tasks.now) }
    {
        let tasks = known.tasks;
        for i in 0..tasks.len() {
            let doing = known.of_task(&tasks[i]);
            self.add(alloc, "task", u64::from(tasks[i].id), Group::Task, doing)?;
        }
        Ok(())
    }

    /// Adds a lane.
    fn add(
        &mut self,
        alloc: Global,
        name: &str,
        number: u64,
        group: Group,
        doing: Doing,
    ) -> Result<(), NoMemory>
        ensures from { self.new.timeline.from ≡ self.old.timeline.from }
        ensures slices { self.new.timeline.slices ≡ self.old.timeline.slices }
        ensures cpus { self.new.processors ≡ self.old.processors }
        ensures titles { OnOk result (titles_of self.new.timeline.lanes.items
            ≡ titles_of self.old.timeline.lanes.items ++ titled (named_text name.now number) group ∷ []) }
        ensures current { OnOk result (self.new.current.items
            ≡ self.old.current.items ++ open_at self.old.timeline.from doing ∷ []) }
    {
        let mut label = Vec::new(alloc);
        put_named(alloc, &mut label, name, number)?;
        self.timeline.lanes.push(Lane { name: label, group })?;
        let from = self.timeline.from;
        self.current.push(Open { doing, from })?;
        Ok(())
    }

    /// What goes on at a position, from which on it does.
    pub fn see(&mut self, alloc: Global, known: Known, at: u64) -> Result<(), NoMemory>
        ensures from { self.new.timeline.from ≡ self.old.timeline.from }
        ensures sees { IfOk result (λ _. Sees at (doings_in known.entry.is_off known.entry.standings.now.of
            known.entry.tasks.now self.old.processors.items) (lanes_of self.old) (lanes_of self.new)) }
    {
        for lane in 0..self.current.len() {
            let doing = known.of_lane(self.processors.as_slice(), lane);
            self.turn(alloc, lane, doing, at)?;
        }
        Ok(())
    }

    /// What goes on in a lane from a position on.
    fn turn(&mut self, alloc: Global, lane: usize, doing: Doing, at: u64) -> Result<(), NoMemory>
        requires { lane < length self.old.current.items }
        ensures same { SameLanes (lanes_of self.old) (lanes_of self.new) }
        ensures this { IfOk result (λ _. (d : OpenOf) → FollowsLane at doing
            (slice_index_or self.old.current.items lane d) (slice_index_or self.new.current.items lane d)
            (slices_in lane self.old.timeline.slices.items) (slices_in lane self.new.timeline.slices.items)) }
        ensures others { (other : ℕ) (d : OpenOf) → other ≢ lane
            → slice_index_or self.new.current.items other d ≡ slice_index_or self.old.current.items other d }
        ensures slices { (other : ℕ) → other ≢ lane
            → slices_in other self.new.timeline.slices.items ≡ slices_in other self.old.timeline.slices.items }
    {
        if self.current[lane].doing.is(doing) {
            return Ok(());
        }
        self.close(alloc, lane, at)?;
        self.current[lane] = Open { doing, from: at };
        Ok(())
    }

    /// Ends what goes on in a lane: it becomes a slice, if it went on for some time.
    fn close(&mut self, alloc: Global, lane: usize, to: u64) -> Result<(), NoMemory>
        requires { lane < length self.old.current.items }
        ensures current { self.new.current ≡ self.old.current }
        ensures same { SameLanes (lanes_of self.old) (lanes_of self.new) }
        ensures this { IfOk result (λ _. (d : OpenOf) → Closes (slice_index_or self.old.current.items lane d) to
            (slices_in lane self.old.timeline.slices.items) (slices_in lane self.new.timeline.slices.items)) }
        ensures slices { (other : ℕ) → other ≢ lane
            → slices_in other self.new.timeline.slices.items ≡ slices_in other self.old.timeline.slices.items }
    {
        let Open { doing, from } = self.current[lane];
        if from >= to {
            return Ok(());
        }
        let slice = Slice {
            lane,
            from,
            to,
            kind: doing.kind,
            label: label_of(alloc, doing)?,
        };
        self.timeline.slices.push(slice)?;
        Ok(())
    }

    /// A mark in the lane of a processor.
    pub fn mark(
        &mut self,
        alloc: Global,
        cpu: u8,
        at: u64,
        kind: MarkKind,
        label: &[u8],
    ) -> Result<(), NoMemory>
        ensures { lanes_of self.new ≡ lanes_of self.old }
    {
        if let Some(lane) = self.lane_of(cpu) {
            self.timeline.marks.push(Mark {
                lane,
                at,
                kind,
                label: Vec::from_slice(alloc, label)?,
            })?;
        }
        Ok(())
    }

    /// The lane of a processor, where there is one of that number.
    fn lane_of(&self, cpu: u8) -> Option<usize> {
        for lane in 0..self.processors.len() {
            if self.processors[lane] == cpu {
                return Some(lane);
            }
        }
        None
    }

    /// A mark in the lane of a task, by its place in the list of tasks: a tick released it.
    pub fn mark_release(&mut self, alloc: Global, task: usize, at: u64) -> Result<(), NoMemory>
        ensures { lanes_of self.new ≡ lanes_of self.old }
    {
        self.timeline.marks.push(Mark {
            lane: self.processors.len().saturating_add(task),
            at,
            kind: MarkKind::Tick,
            label: Vec::new(alloc),
        })?;
        Ok(())
    }

    /// A tick: its position, and its number.
    pub fn tick(&mut self, at: u64, number: u64) -> Result<(), NoMemory>
        ensures { lanes_of self.new ≡ lanes_of self.old }
    {
        if self.timeline.ticks.is_empty() {
            self.timeline.first_tick = number;
        }
        self.timeline.ticks.push(at)?;
        Ok(())
    }

    /// How spin locks and mutexes stand on a board from a position on, after an event.
    pub fn see_locks(
        &mut self,
        known: Known,
        board: &Board,
        told: &Happening,
        at: u64,
    ) -> Result<(), NoMemory>
        ensures { lanes_of self.new ≡ lanes_of self.old }
    {
        self.locks.see(board, told, at)?;
        match quiet_of(told) {
            Some(Quiet::Spins(spinner)) => {
                self.locks.answer(known, board, None, at)?;
                self.ask(spinner, at)
            }
            _ => self.locks.answer(known, board, told.cpu, at),
        }
    }

    /// Somebody has asked for a spin lock that is held, and asks again from a position on.
    fn ask(&mut self, spinner: Spinner, at: u64) -> Result<(), NoMemory>
        ensures { lanes_of self.new ≡ lanes_of self.old }
    {
        match self.lane_of(spinner.cpu) {
            Some(lane) => self.locks.ask(spinner, lane, at),
            None => Ok(()),
        }
    }

    /// The timeline up to a position, of the events of a journal.
    pub fn end(mut self, alloc: Global, journal: &Journal, to: u64) -> Result<Timeline, NoMemory>
        ensures { IfOk result (Ends to (lanes_of self)) }
    {
        let end = self.off_from().unwrap_or(to);
        self.close_all(alloc, to)?;
        let Recording {
            mut timeline,
            processors,
            current: _,
            locks,
        } = self;
        let LocksSeen {
            locks,
            holds,
            spins,
            mutexes,
            owned,
        } = locks.end(alloc, end)?;
        timeline.turns = turns_of(alloc, journal, processors.as_slice(), timeline.from, end)?;
        timeline.locks = locks;
        timeline.holds = holds;
        timeline.spins = spins;
        timeline.mutexes = mutexes;
        timeline.owned = owned;
        timeline.to = to;
        Ok(timeline)
    }

    /// Ends what goes on in all lanes.
    fn close_all(&mut self, alloc: Global, to: u64) -> Result<(), NoMemory>
        ensures same { SameLanes (lanes_of self.old) (lanes_of self.new) }
        ensures each { IfOk result (λ _. (lane : ℕ) (d : OpenOf) → lane < length self.old.current.items
            → Closes (slice_index_or self.old.current.items lane d) to (slices_in lane self.old.timeline.slices.items)
            (slices_in lane self.new.timeline.slices.items)) }
    {
        for lane in 0..self.current.len() {
            self.close(alloc, lane, to)?;
        }
        Ok(())
    }

    /// From where on the board is off, if it is.
    fn off_from(&self) -> Option<u64> {
        let first = self.current.first()?;
        if first.doing.kind == Kind::Off {
            return Some(first.from);
        }
        None
    }
}

/// A timeline without anything, at a position.
fn empty(alloc: Global, from: u64) -> Timeline
    ensures from { result.from ≡ from }
    ensures lanes { result.lanes.items ≡ [] }
    ensures slices { result.slices.items ≡ [] }
{
    Timeline {
        lanes: Vec::new(alloc),
        slices: Vec::new(alloc),
        marks: Vec::new(alloc),
        locks: Vec::new(alloc),
        holds: Vec::new(alloc),
        spins: Vec::new(alloc),
        mutexes: Vec::new(alloc),
        owned: Vec::new(alloc),
        turns: Vec::new(alloc),
        ticks: Vec::new(alloc),
        first_tick: 0,
        from,
        to: from,
    }
}

impl Doing {
    /// Whether it is the same.
    fn is(self, other: Doing) -> bool
        ensures { Decides result (self ≡ other) }
    {
        self.kind == other.kind && self.number == other.number && self.waiting == other.waiting
    }
}

impl<'a> Known<'a> {
    /// The processors that are there, by their numbers.
    fn processors(&self, alloc: Global) -> Result<Vec<u8>, NoMemory>
        ensures { IfOk result (λ cpus. cpus.items ≡ cpus_in self.now.standings.now.of) }
    {
        let mut processors = Vec::new(alloc);
        for cpu in 1..9u8 {
            if self.standings.at(cpu).is_some() {
                processors.push(cpu)?;
            }
        }
        Ok(processors)
    }

    /// What goes on in a lane, the first of which are about these processors, and the others about the tasks.
    fn of_lane(&self, processors: &[u8], lane: usize) -> Doing
        ensures { result ≡ slice_index_or (doings_in self.now.is_off self.now.standings.now.of self.now.tasks.now
            processors.now) lane off_doing }
    {
        if lane < processors.len() {
            return self.of_processor(processors[lane]);
        }
        self.of_place(lane - processors.len())
    }

    /// What goes on in the lane of the task at a place in the list of tasks.
    fn of_place(&self, place: usize) -> Doing
        ensures { result ≡ slice_index_or
            (map (seen_doing self.now.is_off self.now.standings.now.of) self.now.tasks.now) place off_doing }
    {
        if place < self.tasks.len() {
            return self.of_task(&self.tasks[place]);
        }
        off()
    }

    /// What goes on in the lane of a processor.
    fn of_processor(&self, cpu: u8) -> Doing
        ensures { result ≡ cpu_doing self.now.is_off self.now.standings.now.of cpu }
    {
        if self.is_off {
            return off();
        }
        of_standing(self.standings.at(cpu))
    }

    /// What goes on in the lane of a task.
    fn of_task(&self, task: &TaskSeen) -> Doing
        ensures { result ≡ seen_doing self.now.is_off self.now.standings.now.of task.now }
    {
        if self.is_off {
            return off();
        }
        of_state(task, self.standings)
    }
}

/// What goes on in the lanes of a board that is off.
fn off() -> Doing
    ensures { result ≡ off_doing }
{
    Doing {
        kind: Kind::Off,
        number: 0,
        waiting: None,
    }
}

/// What goes on in the lane of a processor that is on.
fn of_standing(standing: Option<Standing>) -> Doing
    ensures { result ≡ standing_doing standing }
{
    let (kind, number) = match standing {
        Some(Standing::Task(id)) => (Kind::Task, id),
        Some(Standing::Handler(line)) => (Kind::Handler, u16::from(line)),
        Some(Standing::Stopped) => (Kind::Stopped, 0),
        _ => (Kind::Idle, 0),
    };
    Doing {
        kind,
        number,
        waiting: None,
    }
}

/// What goes on in the lane of a task of a board that is on.
fn of_state(task: &TaskSeen, standings: &Standings) -> Doing
    ensures { result ≡ condition_doing (runs_in standings.now.of task.now.id) task.now.state task.now.waiting }
{
    let kind = match task.state {
        TaskState::Dormant => Kind::Dormant,
        TaskState::Ready if standings.runs(task.id) => Kind::Running,
        TaskState::Ready => Kind::Ready,
        TaskState::Waiting => Kind::Waiting,
        TaskState::Suspended => Kind::Suspended,
        TaskState::WaitingSuspended => Kind::WaitingSuspended,
    };
    Doing {
        kind,
        number: 0,
        waiting: task.waiting,
    }
}

/// The label of a slice; empty where its kind says enough.
fn label_of(alloc: Global, doing: Doing) -> Result<Vec<u8>, NoMemory>
    ensures { IfOk result (λ label. label.items ≡ label_of doing) }
{
    let mut label = Vec::new(alloc);
    if let Some(reason) = doing.waiting {
        put_wait(alloc, &mut label, reason, None)?;
        return Ok(label);
    }
    match doing.kind {
        Kind::Task => put_named(alloc, &mut label, "task", u64::from(doing.number))?,
        Kind::Handler => put_called(alloc, &mut label, "handler", doing.number)?,
        _ => (),
    }
    Ok(label)
}
