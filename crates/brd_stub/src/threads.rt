//! Threads: the kernel's tasks and the handlers that run, or the board's processors.

ghost use Rattle.std.specs.Prelude.{◌≡◌, is_some};
ghost use Rattle.brd_exec.specs.State.{State};
ghost use Rattle.brd_board.specs.Board.{registers_of};
ghost use Rattle.brd_stub.specs.Threads.{
  number_of,
  is_handling,
  handling,
  kept_in,
  registers_on,
  context_at,
  cpu_of,
  fault_at,
  who_at,
  thread_by,
  thread_on,
  first_task,
  or_first,
  resting,
  executing,
  executing_thread,
  kind_by,
  chosen_first,
  standing_thread,
  stepped_who,
  stepped_thread,
  elsewhere,
  switched,
  may_show,
  task_numbered,
  handler_numbered,
  processor_numbered,
  thread_numbered,
  thread_named,
};

use brd_board::{Board, Fault, Standing, TaskId, TaskView};
use brd_debug::{Stepper, stepped_on};
use brd_exec::Context;
use brd_gdb::{ThreadId, ThreadKind};

/// A thread.
#[derive(Clone, Copy, PartialEq, Eq)]
pub enum Thread {
    /// The task of this ID, whether it executes or not.
    Task(TaskId),
    /// The handler of this interrupt line, while it runs.
    Handler(u8),
    /// The processor of this number, and whom it executes.
    Processor(u8),
}

/// What threads are, and one of them: the one that steps where none is named.
#[derive(Clone, Copy, PartialEq, Eq)]
pub struct Whose {
    /// What they are.
    pub kind: ThreadKind,
    /// The thread.
    pub thread: Thread,
}

impl Thread {
    /// The number by which GDB names it.
    pub fn number(self) -> u16
        ensures { result ≡ number_of self }
    {
        match self {
            Thread::Task(id) => id,
            Thread::Handler(line) => 256 + line as u16,
            Thread::Processor(cpu) => cpu as u16,
        }
    }
}

/// Whether a processor that does this runs the handler of a line.
fn is_handling(line: u8, standing: Option<Standing>) -> bool
    ensures { result ≡ is_handling line standing }
{
    match standing {
        Some(Standing::Handler(other)) => other == line,
        _ => false,
    }
}

/// The processor that runs the handler of a line, if one does.
pub fn handling(board: &Board, line: u8) -> Option<u8>
    ensures { result ≡ handling board.now line }
{
    for cpu in 1..9u8 {
        if is_handling(line, board.standing(cpu)) {
            return Some(cpu);
        }
    }
    None
}

/// The context of a thread, where there is one: of a task its own, also while it doesn't execute.
pub fn context_at(board: &Board, thread: Thread) -> Option<Context>
    ensures { result ≡ context_at board.now thread }
{
    match thread {
        Thread::Task(id) => kept_in(board.task(id)),
        Thread::Handler(line) => registers_on(board, handling(board, line)),
        Thread::Processor(cpu) => board.registers(cpu),
    }
}

/// The context of a task.
fn kept_in(task: Option<TaskView>) -> Option<Context>
    ensures { result ≡ kept_in task }
{
    match task {
        Some(task) => Some(task.context),
        None => None,
    }
}

/// The context in which a processor executes, if there is one.
fn registers_on(board: &Board, cpu: Option<u8>) -> Option<Context>
    ensures { result ≡ registers_on board.now cpu }
{
    match cpu {
        Some(cpu) => board.registers(cpu),
        None => None,
    }
}

/// The processor of a thread: that to which a task is assigned, and that on which a handler runs.
pub fn cpu_of(board: &Board, thread: Thread) -> u8
    ensures { result ≡ cpu_of board.now thread }
{
    match thread {
        Thread::Task(id) => match board.task(id) {
            Some(task) => task.cpu,
            None => 1,
        },
        Thread::Handler(line) => match handling(board, line) {
            Some(cpu) => cpu,
            None => 1,
        },
        Thread::Processor(cpu) => cpu,
    }
}

/// The last exception on a thread's processor.
pub fn fault_at(board: &Board, thread: Thread) -> Option<Fault>
    ensures { result ≡ fault_at board.now thread }
{
    board.last_fault(cpu_of(board, thread))
}

/// Who a thread is: of a processor whom it executes.
pub fn who_at(board: &Board, thread: Thread) -> Option<Standing>
    ensures { result ≡ who_at board.now thread }
{
    match thread {
        Thread::Task(id) => Some(Standing::Task(id)),
        Thread::Handler(line) => Some(Standing::Handler(line)),
        Thread::Processor(cpu) => board.standing(cpu),
    }
}

/// The thread of somebody; of nobody another one.
fn thread_by(who: Option<Standing>, other: Thread) -> Thread
    ensures { result ≡ thread_by who other }
{
    match who {
        Some(Standing::Task(id)) => Thread::Task(id),
        Some(Standing::Handler(line)) => Thread::Handler(line),
        Some(Standing::Idle) | Some(Standing::Stopped) | None => other,
    }
}

/// The thread that executes on a processor; another one where none does.
pub fn thread_on(kind: ThreadKind, board: &Board, cpu: u8, other: Thread) -> Thread
    ensures { result ≡ thread_on kind board.now cpu other }
{
    match kind {
        ThreadKind::Processors => Thread::Processor(cpu),
        ThreadKind::Tasks => thread_by(board.standing(cpu), other),
    }
}

/// The task of the lowest ID, if there is one.
pub fn first_task(board: &Board) -> Option<TaskId>
    ensures { result ≡ first_task board.now }
{
    for id in 1..256u16 {
        if board.task(id).is_some() {
            return Some(id);
        }
    }
    None
}

/// The thread that is shown where none executes.
fn resting(board: &Board) -> Thread
    ensures { result ≡ resting board.now }
{
    match first_task(board) {
        Some(id) => Thread::Task(id),
        None => Thread::Task(1),
    }
}

/// A processor on which somebody executes: this one, else the first; this one where there is none.
pub fn executing(board: &Board, cpu: u8) -> u8
    ensures { result ≡ executing board.now cpu }
{
    if board.registers(cpu).is_some() {
        return cpu;
    }
    for other in 1..9u8 {
        if board.registers(other).is_some() {
            return other;
        }
    }
    cpu
}

/// The thread of the first processor that executes somebody.
fn executing_thread(board: &Board) -> Thread
    ensures { result ≡ executing_thread board.now }
{
    let other = resting(board);
    thread_on(ThreadKind::Tasks, board, executing(board, 1), other)
}

/// Which threads a session begins with, and which of them is chosen.
pub fn first_of(board: &Board) -> Whose
    ensures kind { result.kind ≡ kind_by (first_task board.now) }
    ensures thread { result.thread ≡ chosen_first board.now (first_task board.now) }
{
    match first_task(board) {
        Some(_) => Whose {
            kind: ThreadKind::Tasks,
            thread: executing_thread(board),
        },
        None => Whose {
            kind: ThreadKind::Processors,
            thread: Thread::Processor(1),
        },
    }
}

/// The thread at which the journal has begun or ended: this one; but a handler that has ended gives way to who
/// executes, and so does a processor that executes nobody.
pub fn standing_thread(kind: ThreadKind, board: &Board, thread: Thread) -> Thread
    ensures { result ≡ standing_thread kind board.now thread }
{
    match kind {
        ThreadKind::Processors => Thread::Processor(executing(board, cpu_of(board, thread))),
        ThreadKind::Tasks => match thread {
            Thread::Task(id) => Thread::Task(id),
            Thread::Handler(line) => {
                if handling(board, line).is_some() {
                    return Thread::Handler(line);
                }
                executing_thread(board)
            }
            Thread::Processor(_) => executing_thread(board),
        },
    }
}

/// The thread of whom a stepper names; of none the one that was chosen.
fn stepped_who(stepper: Option<Stepper>, last: Thread) -> Thread
    ensures { result ≡ stepped_who stepper last }
{
    match stepper {
        None | Some(Stepper::Each(_)) => last,
        Some(Stepper::Of(who)) => thread_by(Some(who), last),
        Some(Stepper::Until { who, .. }) => thread_by(Some(who), last),
    }
}

/// The thread that is stepped; where none is, the one that steps where none is named.
pub fn stepped_thread(stepper: Option<Stepper>, board: &Board, last: Whose) -> Thread
    ensures { result ≡ stepped_thread last.kind stepper board.now last.thread }
{
    match last.kind {
        ThreadKind::Processors => {
            Thread::Processor(stepped_on(stepper, board, cpu_of(board, last.thread)))
        }
        ThreadKind::Tasks => stepped_who(stepper, last.thread),
    }
}

/// A thread, after others are threads: the one of the same number; where there is none, the one on its processor.
pub fn switched(kind: ThreadKind, board: &Board, thread: Thread) -> Thread
    ensures { result ≡ switched kind board.now thread }
{
    match thread_numbered(kind, board, thread.number() as u32) {
        Some(found) => found,
        None => elsewhere(kind, board, thread),
    }
}

/// The thread on the processor of one, after others are threads.
fn elsewhere(kind: ThreadKind, board: &Board, thread: Thread) -> Thread
    ensures { result ≡ elsewhere kind board.now thread }
{
    let cpu = cpu_of(board, thread);
    match kind {
        ThreadKind::Processors => Thread::Processor(cpu),
        ThreadKind::Tasks => {
            let other = resting(board);
            thread_on(ThreadKind::Tasks, board, cpu, other)
        }
    }
}

/// Whether these may be threads: tasks only where there is one.
pub fn may_show(kind: ThreadKind, board: &Board) -> bool
    ensures { result ≡ may_show kind board.now }
{
    match kind {
        ThreadKind::Processors => true,
        ThreadKind::Tasks => first_task(board).is_some(),
    }
}

/// The task of a number, where there is one.
fn task_numbered(board: &Board, number: u16) -> Option<Thread>
    ensures { result ≡ task_numbered board.now number }
{
    if board.task(number).is_some() {
        return Some(Thread::Task(number));
    }
    None
}

/// The handler of a line, where it runs.
fn handler_numbered(board: &Board, line: u32) -> Option<Thread>
    ensures { result ≡ handler_numbered board.now line }
{
    if line < 160 && handling(board, line as u8).is_some() {
        return Some(Thread::Handler(line as u8));
    }
    None
}

/// The processor of a number, where there is one.
fn processor_numbered(board: &Board, number: u32) -> Option<Thread>
    ensures { result ≡ processor_numbered board.now number }
{
    if number <= 8 && board.standing(number as u8).is_some() {
        return Some(Thread::Processor(number as u8));
    }
    None
}

/// The thread of a number, where there is one.
pub fn thread_numbered(kind: ThreadKind, board: &Board, number: u32) -> Option<Thread>
    ensures { result ≡ thread_numbered kind board.now number }
{
    match kind {
        ThreadKind::Processors => processor_numbered(board, number),
        ThreadKind::Tasks => {
            if number < 256 {
                return task_numbered(board, number as u16);
            }
            handler_numbered(board, number - 256)
        }
    }
}

/// The thread of a name, where there is one; another one where any is meant.
pub fn thread_named(
    kind: ThreadKind,
    board: &Board,
    thread: ThreadId,
    other: Thread,
) -> Option<Thread>
    ensures { result ≡ thread_named kind board.now thread other }
{
    match thread {
        ThreadId::All | ThreadId::Any => Some(other),
        ThreadId::One(number) => thread_numbered(kind, board, number),
    }
}
