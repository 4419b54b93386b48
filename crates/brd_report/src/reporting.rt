//! What `run` and `race` print of a board.

ghost use Rattle.std.specs.Prelude.{◌≡◌, ◌++◌, OnOk, IfOk, codes};
ghost use Rattle.brd_report.specs.Report.{
  number_line,
  place_text,
  executor_text,
  standing_text,
  processor_line,
  state_text,
  task_line,
  processors_shown,
  tasks_shown,
  console_shown,
  report_of,
};

use brd_base::NoMemory;
use brd_board::{Board, Standing, TaskState, TaskView};
use brd_exec::Context;
use brd_text::hex_digits;
use std::alloc::Global;

/// The report of a board to which n events happened.
pub fn report(alloc: Global, board: &Board, events: u64) -> Result<Vec<u8>, NoMemory>
    ensures { IfOk result (λ report. report.items ≡ report_of events board.now) }
{
    let mut out = Vec::new(alloc);
    show_number(alloc, &mut out, "events", events)?;
    show_number(alloc, &mut out, "tick", board.now())?;
    show_number(alloc, &mut out, "off", if board.is_off() { 1 } else { 0 })?;
    show_processors(alloc, &mut out, board)?;
    show_tasks(alloc, &mut out, board)?;
    show_console(alloc, &mut out, board.console())?;
    Ok(out)
}

/// Puts a line at the end: a name and a number.
pub fn show_number(
    alloc: Global,
    out: &mut Vec<u8>,
    name: &str,
    number: u64,
) -> Result<(), NoMemory>
    ensures { OnOk result (out.new.items ≡ out.old.items ++ number_line name.now number) }
{
    let line = format!(in alloc; "{name} {number}\n")?;
    out.extend_from_slice(line.as_bytes())?;
    Ok(())
}

/// Puts the lines of the processors at the end.
fn show_processors(alloc: Global, out: &mut Vec<u8>, board: &Board) -> Result<(), NoMemory>
    ensures { OnOk result (out.new.items ≡ out.old.items ++ processors_shown board.now) }
{
    for cpu in 1..9u8 {
        show_processor(alloc, out, cpu, board.standing(cpu), board.registers(cpu))?;
    }
    Ok(())
}

/// Puts the line of a processor at the end, where there is one of that number.
fn show_processor(
    alloc: Global,
    out: &mut Vec<u8>,
    cpu: u8,
    standing: Option<Standing>,
    context: Option<Context>,
) -> Result<(), NoMemory>
    ensures { OnOk result (out.new.items ≡ out.old.items ++ processor_line cpu standing context) }
{
    let Some(standing) = standing else {
        return Ok(());
    };
    let name = format!(in alloc; "cpu {cpu} ")?;
    out.extend_from_slice(name.as_bytes())?;
    show_standing(alloc, out, standing, context)?;
    out.push(b'\n')?;
    Ok(())
}

/// Puts at the end what a processor is doing.
fn show_standing(
    alloc: Global,
    out: &mut Vec<u8>,
    standing: Standing,
    context: Option<Context>,
) -> Result<(), NoMemory>
    ensures { OnOk result (out.new.items ≡ out.old.items ++ standing_text standing context) }
{
    match standing {
        Standing::Idle => out.extend_from_slice(b"idle")?,
        Standing::Stopped => out.extend_from_slice(b"stopped")?,
        Standing::Task(id) => show_executor(alloc, out, "task", id, context)?,
        Standing::Handler(line) => show_executor(alloc, out, "handler", line as u16, context)?,
    }
    Ok(())
}

/// Puts at the end who executes: its kind, its number, and the address of its next instruction.
fn show_executor(
    alloc: Global,
    out: &mut Vec<u8>,
    kind: &str,
    number: u16,
    context: Option<Context>,
) -> Result<(), NoMemory>
    ensures { OnOk result (out.new.items ≡ out.old.items ++ executor_text kind.now number context) }
{
    let name = format!(in alloc; "{kind} {number}")?;
    out.extend_from_slice(name.as_bytes())?;
    show_place(out, context)
}

/// Puts at the end the address of the next instruction of whoever executes.
fn show_place(out: &mut Vec<u8>, context: Option<Context>) -> Result<(), NoMemory>
    ensures { OnOk result (out.new.items ≡ out.old.items ++ place_text context) }
{
    if let Some(context) = context {
        out.extend_from_slice(b" pc ")?;
        out.extend_from_slice(&hex_digits(context.pc()))?;
    }
    Ok(())
}

/// Puts the lines of the tasks at the end.
fn show_tasks(alloc: Global, out: &mut Vec<u8>, board: &Board) -> Result<(), NoMemory>
    ensures { OnOk result (out.new.items ≡ out.old.items ++ tasks_shown board.now) }
{
    for id in 1..256u16 {
        show_task(alloc, out, id, board.task(id))?;
    }
    Ok(())
}

/// Puts the line of a task at the end, where there is one of that ID.
fn show_task(
    alloc: Global,
    out: &mut Vec<u8>,
    id: u16,
    task: Option<TaskView>,
) -> Result<(), NoMemory>
    ensures { OnOk result (out.new.items ≡ out.old.items ++ task_line id task) }
{
    let Some(task) = task else {
        return Ok(());
    };
    let name = format!(in alloc; "task {id} ")?;
    out.extend_from_slice(name.as_bytes())?;
    out.extend_from_slice(state_name(task.state).as_bytes())?;
    let rest = format!(in alloc; " pri {} cpu {}\n", task.priority, task.cpu)?;
    out.extend_from_slice(rest.as_bytes())?;
    Ok(())
}

/// The name of a task's state.
fn state_name(state: TaskState) -> &'static str
    ensures { result.now ≡ state_text state }
{
    match state {
        TaskState::Dormant => "dormant",
        TaskState::Ready => "ready",
        TaskState::Waiting => "waiting",
        TaskState::Suspended => "suspended",
        TaskState::WaitingSuspended => "waiting-suspended",
    }
}

/// Puts the console at the end: how many bytes it holds, and these.
fn show_console(alloc: Global, out: &mut Vec<u8>, bytes: &[u8]) -> Result<(), NoMemory>
    ensures { OnOk result (out.new.items ≡ out.old.items ++ console_shown bytes.now) }
{
    show_number(alloc, out, "console", bytes.len() as u64)?;
    out.extend_from_slice(bytes)?;
    out.push(b'\n')?;
    Ok(())
}
