//! What the user asks for with GDB's command `monitor`.

ghost use Rattle.std.specs.Prelude.{◌≤◌, ◌<◌, length, IfOk};
ghost use Rattle.brd_gdb.specs.Receiving.{packet_size};

use crate::answer::Answer;
use crate::session::Session;
use crate::telling::text;
use crate::thread_texts::{show_due, show_handler, show_reason, show_standing, show_task};
use brd_base::NoMemory;
use brd_board::{Board, Event};
use brd_gdb::Monitor;
use std::alloc::Global;

/// What `help` prints.
const HELP: &[u8] =
    b"goto N: goes to position N\nreset, restart: goes to position 0\nwhere: the position, and whose step comes\n\
    mark N, back N: lets mark N of 0 to 9 stand here, goes to where it stands\n\
    mark NAME, goto NAME: the same of a mark with a name; marks: where the marks stand\n\
    threads tasks, threads processors: what threads are\ntasks: the tasks and their states\n\
    objects: who waits for what, which task has which mutex, when time handlers are due\n\
    console: what was written to the console\nhelp: these commands\n";

impl Session {
    /// Answers a command that shows something.
    pub(crate) fn show_monitor(&self, alloc: Global, command: Monitor) -> Result<Answer, NoMemory>
        ensures short { IfOk result (λ answer. length answer.reply.items ≤ packet_size) }
    {
        let console = self.monitor_text(alloc, command)?;
        Ok(Answer {
            console,
            reply: text(alloc, b"OK")?,
        })
    }

    /// What a command shows.
    fn monitor_text(&self, alloc: Global, command: Monitor) -> Result<Vec<u8>, NoMemory> {
        let board = self.debugger.show();
        match command {
            Monitor::Where => self.position_text(alloc),
            Monitor::Tasks => tasks(alloc, board),
            Monitor::Objects => objects(alloc, board),
            Monitor::Console => ended(alloc, board.console()),
            Monitor::Help => text(alloc, HELP),
            Monitor::Marks => self.marks_text(alloc),
            Monitor::Summary | Monitor::Trace(_) => self.elsewhere_text(alloc),
            _ => text(alloc, b"unknown; `monitor help` says what there is\n"),
        }
    }

    /// Where the marks stand.
    fn marks_text(&self, alloc: Global) -> Result<Vec<u8>, NoMemory> {
        let mut out = Vec::new(alloc);
        let mut number = 0u8;
        for position in &self.marks {
            let line = format!(in alloc; "mark {number} stands at {position}\n")?;
            out.extend_from_slice(line.as_bytes())?;
            number = number.wrapping_add(1);
        }
        for mark in self.named.as_slice() {
            let bytes = mark.name.bytes.as_slice();
            out.extend_from_slice(b"mark ")?;
            out.extend_from_slice(front(bytes))?;
            let line = format!(in alloc; " stands at {}\n", mark.position)?;
            out.extend_from_slice(line.as_bytes())?;
        }
        Ok(out)
    }

    /// Which command shows what isn't shown here.
    fn elsewhere_text(&self, alloc: Global) -> Result<Vec<u8>, NoMemory> {
        let position = self.debugger.position();
        let line = format!(in alloc;
            "`board trace --to {position}` and `board trace --summary --to {position}` of the three files show it\n"
        )?;
        text(alloc, line.as_bytes())
    }

    /// The position, and whose step comes.
    fn position_text(&self, alloc: Global) -> Result<Vec<u8>, NoMemory> {
        let position = self.debugger.position();
        let len = self.debugger.len();
        let line = format!(in alloc; "position {position} of {len}: ")?;
        let mut out = Vec::new(alloc);
        out.extend_from_slice(line.as_bytes())?;
        show_event(alloc, &mut out, self.debugger.event_here())?;
        Ok(out)
    }
}

/// The bytes before the first zero.
fn front(bytes: &[u8]) -> &[u8] {
    let mut count: usize = 0;
    for byte in bytes {
        if *byte == 0 {
            break;
        }
        count = count.saturating_add(1);
    }
    bytes.get(..count).unwrap_or(bytes)
}

/// These bytes, and a newline where they don't end in one.
fn ended(alloc: Global, bytes: &[u8]) -> Result<Vec<u8>, NoMemory> {
    let mut out = text(alloc, bytes)?;
    if let Some(last) = bytes.last() {
        if *last != b'\n' {
            out.push(b'\n')?;
        }
    }
    Ok(out)
}

/// Puts at the end which event comes.
fn show_event(alloc: Global, out: &mut Vec<u8>, event: Option<Event>) -> Result<(), NoMemory> {
    let line = match event {
        None => format!(in alloc; "the end\n")?,
        Some(Event::Step(cpu)) => format!(in alloc; "a step of processor {cpu} comes\n")?,
        Some(Event::Tick) => format!(in alloc; "a tick comes\n")?,
        Some(Event::Raise(line)) => format!(in alloc; "interrupt {line} comes\n")?,
    };
    out.extend_from_slice(line.as_bytes())?;
    Ok(())
}

/// What each processor does, and each task.
fn tasks(alloc: Global, board: &Board) -> Result<Vec<u8>, NoMemory> {
    let mut out = Vec::new(alloc);
    for cpu in 1..9u8 {
        show_processor(alloc, &mut out, board, cpu)?;
    }
    for id in 1..256u16 {
        if board.task(id).is_some() {
            show_task(alloc, &mut out, board, id)?;
            out.push(b'\n')?;
        }
    }
    Ok(out)
}

/// Puts at the end what a processor does, where there is one of that number.
fn show_processor(
    alloc: Global,
    out: &mut Vec<u8>,
    board: &Board,
    cpu: u8,
) -> Result<(), NoMemory> {
    let Some(standing) = board.standing(cpu) else {
        return Ok(());
    };
    let front = format!(in alloc; "processor {cpu}: ")?;
    out.extend_from_slice(front.as_bytes())?;
    show_standing(alloc, out, standing)?;
    out.push(b'\n')?;
    Ok(())
}

/// Which task waits for what, which has which mutex, and when time handlers are due.
fn objects(alloc: Global, board: &Board) -> Result<Vec<u8>, NoMemory> {
    let mut out = waits(alloc, board)?;
    for mutex in 1..256u16 {
        show_owner(alloc, &mut out, board, mutex)?;
    }
    for place in 0..128u8 {
        show_handler_due(alloc, &mut out, board, place)?;
    }
    Ok(out)
}

/// Puts at the end which task has a mutex, if one has it.
fn show_owner(alloc: Global, out: &mut Vec<u8>, board: &Board, mutex: u16) -> Result<(), NoMemory> {
    let Some(task) = board.mutex_owner(mutex) else {
        return Ok(());
    };
    let line = format!(in alloc; "task {task} has mutex {mutex}\n")?;
    out.extend_from_slice(line.as_bytes())?;
    Ok(())
}

/// Puts at the end when the time handler at a place is due, if it is.
fn show_handler_due(
    alloc: Global,
    out: &mut Vec<u8>,
    board: &Board,
    place: u8,
) -> Result<(), NoMemory>
    requires { place < 128 }
{
    let Some(tick) = board.timer_due(place) else {
        return Ok(());
    };
    show_handler(alloc, out, place + 32)?;
    let rest = format!(in alloc; " is due at tick {tick}\n")?;
    out.extend_from_slice(rest.as_bytes())?;
    Ok(())
}

/// Which task waits for what.
fn waits(alloc: Global, board: &Board) -> Result<Vec<u8>, NoMemory> {
    let mut out = Vec::new(alloc);
    for id in 1..256u16 {
        show_wait(alloc, &mut out, board, id)?;
    }
    if out.is_empty() {
        out.extend_from_slice(b"no task waits\n")?;
    }
    Ok(out)
}

/// Puts at the end what a task waits for, if it does.
fn show_wait(alloc: Global, out: &mut Vec<u8>, board: &Board, id: u16) -> Result<(), NoMemory> {
    let Some(task) = board.task(id) else {
        return Ok(());
    };
    let Some(reason) = task.waiting else {
        return Ok(());
    };
    let line = format!(in alloc; "task {id} ")?;
    out.extend_from_slice(line.as_bytes())?;
    show_reason(alloc, out, reason)?;
    show_due(alloc, out, task.due)?;
    out.push(b'\n')?;
    Ok(())
}
