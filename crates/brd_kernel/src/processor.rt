//! The processors and the interrupt lines as the kernel sees them.

ghost use Rattle.std.specs.Prelude.{◌≡◌, ◌≤◌, length, Some};
ghost use Rattle.brd_kernel.specs.Kernel.{
  executor_in,
  is_held,
  idle,
  unmarked,
  holds,
  holding,
  letting_go,
  holder_from,
  quiet,
};
ghost use Rattle.brd_kernel.specs.Always.{task_executing};

use brd_base::Same;
use brd_tasks::TaskId;
use brd_timers::Course;

/// What a processor is doing.
#[derive(Clone, Copy, Debug, PartialEq, Eq)]
pub enum Standing {
    /// Nothing.
    Idle,
    /// Nothing, for good: its interrupt handler raised an exception.
    Stopped,
    /// It runs the task of this number.
    Task(TaskId),
    /// It runs the handler of this line.
    Handler(u8),
}

/// Who executes on a processor.
#[derive(Clone, Copy, PartialEq, Eq)]
pub enum Executor {
    /// Its running task.
    Task(TaskId),
    /// The handler of an interrupt.
    Handler,
}

/// What a task or a handler has set on its processor.
#[derive(Clone, Copy, PartialEq, Eq)]
pub struct Marks {
    /// It is CPU-locked (loc_cpu).
    pub locked: bool,
    /// Dispatching is disabled (dis_dsp).
    pub disabled: bool,
    /// The ID of the spin lock that it holds, or none.
    pub spin: Option<u8>,
}

/// A spin lock as it stands.
#[derive(Clone, Copy, Debug, PartialEq, Eq)]
pub enum Spin {
    /// No processor holds it.
    Free,
    /// The processor of this number holds it.
    Held(u8),
}

/// A processor.
#[derive(Clone, Copy, PartialEq, Eq)]
pub struct Processor {
    /// The running task. While the processor is held it stays, whoever else is ready; in a handler it is the one that
    /// was interrupted.
    pub running: Option<TaskId>,
    /// The line whose interrupt is handled.
    pub handling: Option<u8>,
    /// Whether it is CPU-locked (loc_cpu).
    pub locked: bool,
    /// Whether dispatching is disabled (dis_dsp).
    pub disabled: bool,
    /// The ID of the spin lock that it holds, if it holds one (loc_spn, try_spn).
    pub spin: Option<u8>,
    /// Whether it is stopped for good.
    pub stopped: bool,
}

impl Same for Processor {
    fn same(&self, other: &Self) -> bool {
        self.running == other.running
            && self.handling == other.handling
            && self.locked == other.locked
            && self.disabled == other.disabled
            && self.spin == other.spin
            && self.stopped == other.stopped
    }
}

impl Processor {
    /// A processor on which nothing runs.
    pub fn idle() -> Processor
        ensures { result ≡ idle }
    {
        Processor {
            running: None,
            handling: None,
            locked: false,
            disabled: false,
            spin: None,
            stopped: false,
        }
    }

    /// The processor with neither CPU lock nor dispatching disabled, which holds no spin lock.
    pub fn unmarked(self) -> Processor
        ensures { result ≡ unmarked self }
    {
        Processor {
            disabled: false,
            ..self.letting_go()
        }
    }

    /// The processor, which holds the spin lock of this ID and is CPU-locked.
    pub fn holding(self, id: u8) -> Processor
        ensures { result ≡ holding id self }
    {
        Processor {
            locked: true,
            spin: Some(id),
            ..self
        }
    }

    /// The processor, which holds no spin lock and isn't CPU-locked.
    pub fn letting_go(self) -> Processor
        ensures { result ≡ letting_go self }
    {
        Processor {
            locked: false,
            spin: None,
            ..self
        }
    }

    /// Who executes on it.
    pub fn executor(&self) -> Option<Executor>
        ensures { result ≡ executor_in (Some self.now) }
    {
        if self.stopped {
            return None;
        }
        if self.handling.is_some() {
            return Some(Executor::Handler);
        }
        let id = self.running?;
        Some(Executor::Task(id))
    }

    /// The task that executes on it, if one does.
    pub fn task(&self) -> Option<TaskId>
        ensures { result ≡ task_executing (Some self.now) }
    {
        match self.executor()? {
            Executor::Handler => None,
            Executor::Task(id) => Some(id),
        }
    }

    /// Whether its running task stays, whoever else is ready.
    pub fn is_held(&self) -> bool
        ensures { result ≡ is_held self.now }
    {
        self.handling.is_some() || self.locked || self.disabled || self.stopped
    }
}

/// The number of the processor that holds the spin lock of an ID, if one does.
pub fn holder(processors: &[Option<Processor>], id: u8) -> Option<u8>
    requires { length processors.now ≤ 9 }
    ensures { result ≡ holder_from id 0 processors.now }
{
    for (cpu, processor) in processors.iter().enumerate() {
        if holds(*processor, id) {
            return Some(cpu as u8);
        }
    }
    None
}

/// Whether a processor, where there is one, holds the spin lock of an ID.
pub fn holds(processor: Option<Processor>, id: u8) -> bool
    ensures { result ≡ holds id processor }
{
    match processor {
        Some(processor) => processor.spin == Some(id),
        None => false,
    }
}

/// The handler of an interrupt line (DEF_INH, CRE_CYC, CRE_ALM).
#[derive(Clone, Copy, PartialEq, Eq)]
pub struct Handler {
    /// The processor that handles the line's interrupts.
    pub cpu: u8,
    /// Where the handler starts.
    pub address: u32,
    /// What it finds in $a0 when it starts.
    pub argument: u32,
}

/// An interrupt line that has a handler (DEF_INH, CRE_CYC, CRE_ALM).
#[derive(Clone, Copy, PartialEq, Eq)]
pub struct LineSetup {
    /// Its number: up to 31, or that of a time handler.
    pub line: u8,
    /// Its handler.
    pub handler: Handler,
    /// When the kernel raises it, if it does: of a time handler.
    pub course: Option<Course>,
}

/// An interrupt line.
#[derive(Clone, Copy, PartialEq, Eq)]
pub struct InterruptLine {
    /// Its handler, if it has one.
    pub handler: Option<Handler>,
    /// Whether an interrupt was raised that isn't accepted yet.
    pub pending: bool,
}

impl Same for InterruptLine {
    fn same(&self, other: &Self) -> bool {
        *self == *other
    }
}

impl InterruptLine {
    /// A line with this handler and nothing pending.
    pub fn quiet(handler: Option<Handler>) -> InterruptLine
        ensures { result ≡ quiet handler }
    {
        InterruptLine {
            handler,
            pending: false,
        }
    }
}
