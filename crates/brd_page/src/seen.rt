//! What was last seen of a board.

use brd_base::NoMemory;
use brd_board::{Board, Standing, TaskId, TaskState, WaitReason};
use brd_exec::Context;
use std::alloc::Global;

/// A processor as it stood.
#[derive(Clone, Copy)]
pub(crate) struct ProcessorSeen {
    /// Its number.
    pub number: u8,
    /// What it did.
    pub standing: Standing,
    /// With which registers it executed, if it did.
    pub context: Option<Context>,
}

/// A task as it stood.
#[derive(Clone, Copy, PartialEq, Eq)]
pub(crate) struct TaskSeen {
    /// Its number.
    pub id: TaskId,
    /// Its state.
    pub state: TaskState,
    /// What it waited for.
    pub waiting: Option<WaitReason>,
    /// The tick at which its wait was to end.
    pub due: Option<u64>,
    /// Its priority.
    pub priority: u8,
    /// The processor that it was assigned to.
    pub cpu: u8,
}

impl ProcessorSeen {
    /// A processor as it stands, where the board has it.
    pub(crate) fn of(board: &Board, number: u8) -> Option<ProcessorSeen> {
        Some(ProcessorSeen {
            number,
            standing: board.standing(number)?,
            context: board.registers(number),
        })
    }
}

impl TaskSeen {
    /// A task as it stands, where the board has it.
    pub(crate) fn of(board: &Board, id: TaskId) -> Option<TaskSeen> {
        let view = board.task(id)?;
        Some(TaskSeen {
            id,
            state: view.state,
            waiting: view.waiting,
            due: view.due,
            priority: view.priority,
            cpu: view.cpu,
        })
    }
}

/// All processors of a board.
pub(crate) fn processors_seen(
    alloc: Global,
    board: &Board,
) -> Result<Vec<ProcessorSeen>, NoMemory> {
    let mut processors = Vec::new(alloc);
    for number in 1..9u8 {
        put_if(&mut processors, board, number)?;
    }
    Ok(processors)
}

/// Puts a processor at the end as it stands, where the board has it.
fn put_if(processors: &mut Vec<ProcessorSeen>, board: &Board, number: u8) -> Result<(), NoMemory> {
    let Some(standing) = board.standing(number) else {
        return Ok(());
    };
    let context: Option<Context> = board.registers(number);
    processors.push(ProcessorSeen {
        number,
        standing,
        context,
    })?;
    Ok(())
}

/// All tasks of a board.
pub(crate) fn tasks_seen(alloc: Global, board: &Board) -> Result<Vec<TaskSeen>, NoMemory> {
    let mut tasks = Vec::new(alloc);
    for id in 1..256u16 {
        if let Some(task) = TaskSeen::of(board, id) {
            tasks.push(task)?;
        }
    }
    Ok(tasks)
}
