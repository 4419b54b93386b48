//! Timelines. A place on one is a position: 0 is the boot, and n the board after the first n events.

ghost use Rattle.std.specs.Prelude.{◌≡◌, option_copied, slice_get};
ghost use Rattle.brd_timeline.specs.Names as names;

/// What a lane is about.
#[derive(Clone, Copy, PartialEq, Eq)]
pub enum Group {
    /// A processor: who has it.
    Processor,
    /// A task: its state.
    Task,
}

/// What goes on in a lane for some time.
#[derive(Clone, Copy, PartialEq, Eq)]
pub enum Kind {
    /// The processor has a running task.
    Task,
    /// The processor has an interrupt handler.
    Handler,
    /// The processor has neither a task nor a handler.
    Idle,
    /// The processor executes nothing any more.
    Stopped,
    /// The task is in the state RUNNING.
    Running,
    /// The task is in the state READY, and doesn't run.
    Ready,
    /// The task is in the state WAITING.
    Waiting,
    /// The task is in the state SUSPENDED.
    Suspended,
    /// The task is in the state WAITING-SUSPENDED.
    WaitingSuspended,
    /// The task is in the state DORMANT.
    Dormant,
    /// The board is off.
    Off,
}

/// What happened in a lane at a position.
#[derive(Clone, Copy, PartialEq, Eq)]
pub enum MarkKind {
    /// A service call.
    Call,
    /// An exception that ended a task or stopped a processor.
    Fault,
    /// An interrupt was raised, accepted or ended.
    Interrupt,
    /// A tick released the task.
    Tick,
}

/// A processor or a task.
#[derive(Drop)]
pub struct Lane {
    /// What it is called.
    pub name: Vec<u8>,
    /// Which of the two it is.
    pub group: Group,
}

/// A stretch of a lane. Those of one lane don't overlap.
#[derive(Drop)]
pub struct Slice {
    /// The lane's place in the list of lanes, from 0 on. A slice without a lane isn't shown.
    pub lane: usize,
    /// The position at which it begins.
    pub from: u64,
    /// The position at which it ends, above `from`.
    pub to: u64,
    /// What goes on.
    pub kind: Kind,
    /// What it is called; the name of its kind where this is empty.
    pub label: Vec<u8>,
}

/// Something that happened in a lane.
#[derive(Drop)]
pub struct Mark {
    /// The lane's place in the list of lanes, from 0 on. A mark without a lane isn't shown.
    pub lane: usize,
    /// The position at which it happened.
    pub at: u64,
    /// What it is.
    pub kind: MarkKind,
    /// What it is called; the name of its kind where this is empty.
    pub label: Vec<u8>,
}

/// A stretch in which a processor held a spin lock. Those of one lock don't overlap; between them it was free.
#[derive(Clone, Copy)]
pub struct Hold {
    /// The lock's place in the list of locks, from 0 on.
    pub lock: usize,
    /// The processor.
    pub cpu: u8,
    /// The position at which it begins.
    pub from: u64,
    /// The position at which it ends, above `from`.
    pub to: u64,
}

/// A stretch in which a task had a mutex. Those of one mutex don't overlap; between them nobody had it.
#[derive(Clone, Copy)]
pub struct Owning {
    /// The mutex's place in the list of mutexes, from 0 on.
    pub mutex: usize,
    /// The number of the task.
    pub task: u16,
    /// The position at which it begins.
    pub from: u64,
    /// The position at which it ends, above `from`.
    pub to: u64,
}

/// A stretch in which a task or a handler asked for a spin lock again and again. It lies in a slice of the processor's
/// lane.
#[derive(Clone, Copy)]
pub struct Spinning {
    /// The processor's place in the list of lanes, from 0 on.
    pub lane: usize,
    /// The number of the lock.
    pub lock: u32,
    /// The position at which it begins.
    pub from: u64,
    /// The position at which it ends, above `from`.
    pub to: u64,
}

/// A stretch of events that are all steps of one processor.
#[derive(Clone, Copy)]
pub struct Turn {
    /// The processor, from 1 to 8.
    pub cpu: u8,
    /// The position of the first of these events.
    pub from: u64,
    /// The position after the last one, above `from`.
    pub to: u64,
}

/// A stretch of a run.
#[derive(Drop)]
pub struct Timeline {
    /// The processors, and then the tasks.
    pub lanes: Vec<Lane>,
    /// What went on.
    pub slices: Vec<Slice>,
    /// What happened.
    pub marks: Vec<Mark>,
    /// The numbers of the spin locks.
    pub locks: Vec<u8>,
    /// Who held them.
    pub holds: Vec<Hold>,
    /// Who asked for them.
    pub spins: Vec<Spinning>,
    /// The numbers of the mutexes.
    pub mutexes: Vec<u8>,
    /// Who had them.
    pub owned: Vec<Owning>,
    /// Whose steps the events were, ascending. Ticks and raises of lines are no steps.
    pub turns: Vec<Turn>,
    /// The positions of the ticks, ascending.
    pub ticks: Vec<u64>,
    /// The number of the first of these ticks: the system time from then on.
    pub first_tick: u64,
    /// The position at which the picture begins.
    pub from: u64,
    /// The position at which it ends.
    pub to: u64,
}

/// The name of a kind.
pub(crate) fn kind_name(kind: Kind) -> &'static str
    ensures { result.now ≡ names.kind_name kind }
{
    match kind {
        Kind::Task => "task",
        Kind::Handler => "handler",
        Kind::Idle => "idle",
        Kind::Stopped => "stopped",
        Kind::Running => "running",
        Kind::Ready => "ready",
        Kind::Waiting => "waiting",
        Kind::Suspended => "suspended",
        Kind::WaitingSuspended => "waiting-suspended",
        Kind::Dormant => "dormant",
        Kind::Off => "off",
    }
}

/// The name of a kind of marks.
pub(crate) fn mark_name(kind: MarkKind) -> &'static str
    ensures { result.now ≡ names.mark_name kind }
{
    match kind {
        MarkKind::Call => "call",
        MarkKind::Fault => "fault",
        MarkKind::Interrupt => "interrupt",
        MarkKind::Tick => "tick",
    }
}

/// A label, or the name of a kind where it is empty.
pub(crate) fn label_or<'a>(label: &'a [u8], name: &'a str) -> &'a [u8]
    ensures { result.now ≡ names.label_or label.now name.now }
{
    if label.is_empty() {
        return name.as_bytes();
    }
    label
}

/// The lane at a place of the list, if there is one.
pub(crate) fn lane_at(timeline: &Timeline, place: usize) -> Option<&Lane>
    ensures { option_copied result ≡ slice_get timeline.now.lanes.items place }
{
    timeline.lanes.get(place)
}
