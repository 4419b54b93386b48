//! What a board shows.

use brd_board::{Board, Standing, TaskView};
use brd_exec::Context;
use brd_isa::Register;
use std::alloc::AllocError;

/// What a board shows: each processor, each task with its registers, and, where it isn't as at first, time and console.
pub fn show(text: &mut String, board: &Board) -> Result<(), AllocError> {
    for cpu in 1..9u8 {
        show_processor(text, board, cpu)?;
    }
    for id in 1..256u16 {
        if let Some(task) = board.task(id) {
            show_task(text, id, &task)?;
        }
    }
    show_rest(text, board)
}

/// Time, whether the board is off, and the console.
fn show_rest(text: &mut String, board: &Board) -> Result<(), AllocError> {
    let now = board.now();
    if now != 0 {
        write!(text, "\n  tick {now}")?;
    }
    if board.is_off() {
        text.push_str("\n  off")?;
    }
    if !board.console().is_empty() {
        text.push_str("\n  console ")?;
    }
    for byte in board.console() {
        text.push(char::from(*byte))?;
    }
    Ok(())
}

/// What a processor does, the word that it is linked to, and its last fault.
fn show_processor(text: &mut String, board: &Board, cpu: u8) -> Result<(), AllocError> {
    let Some(standing) = board.standing(cpu) else {
        return Ok(());
    };
    match standing {
        Standing::Idle => write!(text, "\n  cpu {cpu} idle")?,
        Standing::Stopped => write!(text, "\n  cpu {cpu} stopped")?,
        Standing::Task(id) => write!(text, "\n  cpu {cpu} task {id}")?,
        Standing::Handler(line) => write!(text, "\n  cpu {cpu} handler {line}")?,
    }
    if let Some(word) = board.link(cpu) {
        write!(text, ", linked to {word:08x}")?;
    }
    if let Some(fault) = board.last_fault(cpu) {
        let (code, epc, bd) = (fault.code.number(), fault.epc, fault.bd);
        write!(text, ", fault {code} at {epc:08x}, in a slot: {bd}")?;
    }
    show_handler(text, board, cpu)
}

/// The context of the handler that a processor runs, if it runs one.
fn show_handler(text: &mut String, board: &Board, cpu: u8) -> Result<(), AllocError> {
    let Some(Standing::Handler(_)) = board.standing(cpu) else {
        return Ok(());
    };
    match board.registers(cpu) {
        Some(context) => show_context(text, &context),
        None => Ok(()),
    }
}

/// A task's state, priority and processor, what it waits for, what is queued, and its context.
fn show_task(text: &mut String, id: u16, task: &TaskView) -> Result<(), AllocError> {
    let (state, priority, cpu) = (task.state, task.priority, task.cpu);
    write!(text, "\n  task {id} {state:?} pri {priority} cpu {cpu}")?;
    show_wait(text, task)?;
    show_queued(text, task)?;
    show_context(text, &task.context)
}

/// What a task waits for, and the tick at which that ends.
fn show_wait(text: &mut String, task: &TaskView) -> Result<(), AllocError> {
    if let Some(reason) = task.waiting {
        write!(text, " {reason:?}")?;
    }
    if let Some(due) = task.due {
        write!(text, " until {due}")?;
    }
    Ok(())
}

/// What is queued for a task.
fn show_queued(text: &mut String, task: &TaskView) -> Result<(), AllocError> {
    if task.activations != 0 {
        text.push_str(" request")?;
    }
    if task.wakeups != 0 {
        text.push_str(" wake-up")?;
    }
    Ok(())
}

/// The program counter, and all registers that aren't 0.
fn show_context(text: &mut String, context: &Context) -> Result<(), AllocError> {
    let pc = context.pc();
    write!(text, " pc {pc:08x}")?;
    for number in 1..32u32 {
        let word = context.read(Register::low(number));
        if word != 0 {
            write!(text, " ${number} {word:x}")?;
        }
    }
    Ok(())
}
