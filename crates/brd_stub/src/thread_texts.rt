//! What is said of threads: their numbers, their names, and what each does.

ghost use Rattle.std.specs.Prelude.{◌≡◌, ◌++◌, OnOk};
ghost use Rattle.brd_stub.specs.Halting.{number_text};
ghost use Rattle.brd_stub.specs.Threads.{number_of};

use crate::threads::{Thread, cpu_of, thread_numbered, who_at};
use brd_base::NoMemory;
use brd_board::{Board, Standing, TaskId, TaskState, TaskView, WaitKind, WaitReason};
use brd_gdb::{ThreadKind, put_hex};
use std::alloc::Global;

/// The number from which on there is no thread: after that of the handler of the last line.
const MOST_NUMBERS: u32 = 416;

/// Puts a thread's number at the end.
pub fn show_thread(out: &mut Vec<u8>, thread: Thread) -> Result<(), NoMemory>
    ensures { OnOk result (out.new.items ≡ out.old.items ++ number_text (number_of thread)) }
{
    show_digits(out, thread.number())
}

/// Puts a number at the end in two hexadecimal digits, or in four.
fn show_digits(out: &mut Vec<u8>, number: u16) -> Result<(), NoMemory>
    ensures { OnOk result (out.new.items ≡ out.old.items ++ number_text number) }
{
    if number < 256 {
        return put_hex(out, &[number as u8]);
    }
    put_hex(out, &[(number / 256) as u8, (number % 256) as u8])
}

/// The numbers of all threads, with commas between them.
pub fn thread_list(alloc: Global, kind: ThreadKind, board: &Board) -> Result<Vec<u8>, NoMemory> {
    let mut out = Vec::new(alloc);
    for number in 1..MOST_NUMBERS {
        if let Some(thread) = thread_numbered(kind, board, number) {
            out.push(if out.is_empty() { b'm' } else { b',' })?;
            show_thread(&mut out, thread)?;
        }
    }
    if out.is_empty() {
        out.push(b'l')?;
    }
    Ok(out)
}

/// The list of all threads with their names, in XML.
pub fn thread_document(
    alloc: Global,
    kind: ThreadKind,
    board: &Board,
) -> Result<Vec<u8>, NoMemory> {
    let mut out = Vec::new(alloc);
    out.extend_from_slice(b"<?xml version=\"1.0\"?>\n<threads>\n")?;
    for number in 1..MOST_NUMBERS {
        if let Some(thread) = thread_numbered(kind, board, number) {
            show_element(alloc, &mut out, board, thread)?;
        }
    }
    out.extend_from_slice(b"</threads>\n")?;
    Ok(out)
}

/// Puts the element of a thread at the end.
fn show_element(
    alloc: Global,
    out: &mut Vec<u8>,
    board: &Board,
    thread: Thread,
) -> Result<(), NoMemory> {
    out.extend_from_slice(b"<thread id=\"")?;
    show_thread(out, thread)?;
    let cpu = cpu_of(board, thread);
    let middle = format!(in alloc; "\" core=\"{cpu}\" name=\"")?;
    out.extend_from_slice(middle.as_bytes())?;
    show_name(alloc, out, board, thread)?;
    out.extend_from_slice(b"\">")?;
    show_doing(alloc, out, board, thread)?;
    out.extend_from_slice(b"</thread>\n")?;
    Ok(())
}

/// Puts the name of a thread at the end: who it is.
fn show_name(
    alloc: Global,
    out: &mut Vec<u8>,
    board: &Board,
    thread: Thread,
) -> Result<(), NoMemory> {
    match who_at(board, thread) {
        Some(standing) => show_standing(alloc, out, standing),
        None => Ok(()),
    }
}

/// Puts at the end where a thread is, and what it does there: of a processor nothing, which its name says.
fn show_doing(
    alloc: Global,
    out: &mut Vec<u8>,
    board: &Board,
    thread: Thread,
) -> Result<(), NoMemory> {
    let cpu = cpu_of(board, thread);
    match thread {
        Thread::Processor(_) => Ok(()),
        Thread::Handler(_) => show_number(alloc, out, "cpu", cpu as u16),
        Thread::Task(id) => {
            show_number(alloc, out, "cpu", cpu as u16)?;
            out.extend_from_slice(b", ")?;
            match board.task(id) {
                Some(task) => show_state(alloc, out, board, id, task),
                None => Ok(()),
            }
        }
    }
}

/// Puts at the end what a task does.
fn show_state(
    alloc: Global,
    out: &mut Vec<u8>,
    board: &Board,
    id: TaskId,
    task: TaskView,
) -> Result<(), NoMemory> {
    match task.state {
        TaskState::Ready => show_ready(alloc, out, id, board.standing(task.cpu))?,
        TaskState::WaitingSuspended => out.extend_from_slice(b"suspended, ")?,
        TaskState::Dormant | TaskState::Waiting | TaskState::Suspended => {}
    }
    match task.waiting {
        Some(reason) => show_reason(alloc, out, reason)?,
        None => {
            if matches!(task.state, TaskState::Dormant | TaskState::Suspended) {
                out.extend_from_slice(state_name(task.state).as_bytes())?;
            }
        }
    }
    show_due(alloc, out, task.due)
}

/// Puts at the end whether a ready task executes on its processor, or who does.
fn show_ready(
    alloc: Global,
    out: &mut Vec<u8>,
    id: TaskId,
    standing: Option<Standing>,
) -> Result<(), NoMemory> {
    match standing {
        Some(Standing::Task(other)) => {
            if other == id {
                out.extend_from_slice(b"runs")?;
                return Ok(());
            }
            show_number(alloc, out, "ready under task", other)
        }
        Some(Standing::Handler(line)) => {
            out.extend_from_slice(b"ready under ")?;
            show_handler(alloc, out, line)
        }
        Some(Standing::Idle) | Some(Standing::Stopped) | None => {
            out.extend_from_slice(b"ready")?;
            Ok(())
        }
    }
}

/// Puts at the end what a task waits for.
pub fn show_reason(alloc: Global, out: &mut Vec<u8>, reason: WaitReason) -> Result<(), NoMemory> {
    match reason {
        WaitReason::Sleep => out.extend_from_slice(b"waits for a wake-up")?,
        WaitReason::Delay => out.extend_from_slice(b"waits for the end of a delay")?,
        WaitReason::On(WaitKind::Semaphore, object) => {
            show_number(alloc, out, "waits for semaphore", object as u16)?
        }
        WaitReason::On(WaitKind::Flag, object) => {
            show_number(alloc, out, "waits for event flag", object as u16)?
        }
        WaitReason::On(WaitKind::Mutex, object) => {
            show_number(alloc, out, "waits for mutex", object as u16)?
        }
        WaitReason::On(WaitKind::Block, object) => {
            show_number(alloc, out, "waits for a block of pool", object as u16)?
        }
        WaitReason::On(WaitKind::Message, object) => {
            show_number(alloc, out, "waits to receive from mailbox", object as u16)?
        }
        WaitReason::On(WaitKind::Room, object) => {
            show_number(alloc, out, "waits to send to data queue", object as u16)?
        }
        WaitReason::On(WaitKind::Datum, object) => {
            show_number(
                alloc,
                out,
                "waits to receive from data queue",
                object as u16,
            )?
        }
    }
    Ok(())
}

/// Puts at the end when a wait ends, where it has an end.
pub fn show_due(alloc: Global, out: &mut Vec<u8>, due: Option<u64>) -> Result<(), NoMemory> {
    if let Some(tick) = due {
        let text = format!(in alloc; ", until tick {tick}")?;
        out.extend_from_slice(text.as_bytes())?;
    }
    Ok(())
}

/// Puts at the end what a processor is doing.
pub fn show_standing(alloc: Global, out: &mut Vec<u8>, standing: Standing) -> Result<(), NoMemory> {
    match standing {
        Standing::Idle => out.extend_from_slice(b"idle")?,
        Standing::Stopped => out.extend_from_slice(b"stopped")?,
        Standing::Task(id) => show_number(alloc, out, "task", id)?,
        Standing::Handler(line) => show_handler(alloc, out, line)?,
    }
    Ok(())
}

/// Puts at the end what the handler of a line is called: from line 32 on it is a time handler, of the cyclic handler of
/// ID C line 30 + 2C, of the alarm handler of ID A line 31 + 2A.
pub fn show_handler(alloc: Global, out: &mut Vec<u8>, line: u8) -> Result<(), NoMemory> {
    if line < 32 {
        return show_number(alloc, out, "handler", line as u16);
    }
    if line % 2 == 0 {
        return show_number(alloc, out, "cyclic handler", (line as u16 - 30) / 2);
    }
    show_number(alloc, out, "alarm handler", (line as u16 - 31) / 2)
}

/// Puts a name and a number at the end.
fn show_number(alloc: Global, out: &mut Vec<u8>, name: &str, number: u16) -> Result<(), NoMemory> {
    let text = format!(in alloc; "{name} {number}")?;
    out.extend_from_slice(text.as_bytes())?;
    Ok(())
}

/// What there is to say of a thread: of a task or handler where it is, and what it does; of a processor whom it
/// executes.
pub fn thread_text(alloc: Global, board: &Board, thread: Thread) -> Result<Vec<u8>, NoMemory> {
    let mut out = Vec::new(alloc);
    if let Thread::Processor(_) = thread {
        show_name(alloc, &mut out, board, thread)?;
    }
    show_doing(alloc, &mut out, board, thread)?;
    Ok(out)
}

/// Puts a task at the end: its ID, state, and priority.
pub fn show_task(alloc: Global, out: &mut Vec<u8>, board: &Board, id: u16) -> Result<(), NoMemory> {
    let Some(task) = board.task(id) else {
        return Ok(());
    };
    show_number(alloc, out, "task", id)?;
    out.push(b' ')?;
    out.extend_from_slice(state_name(task.state).as_bytes())?;
    let rest = format!(in alloc; ", priority {}, processor {}", task.priority, task.cpu)?;
    out.extend_from_slice(rest.as_bytes())?;
    Ok(())
}

/// The name of a task's state.
fn state_name(state: TaskState) -> &'static str {
    match state {
        TaskState::Dormant => "dormant",
        TaskState::Ready => "ready",
        TaskState::Waiting => "waiting",
        TaskState::Suspended => "suspended",
        TaskState::WaitingSuspended => "waiting-suspended",
    }
}
