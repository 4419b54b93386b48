//! Who executes on a processor stands well.

ghost use Rattle.std.specs.Prelude.{◌≡◌, true};
ghost use Rattle.brd_blocks.specs.Looking.{is_ready_in, is_ready_state, stands_in, stands_on};
ghost use Rattle.brd_blocks.specs.Stepping.{AllStandWell};

use crate::look::has_place;
use brd_board::{Board, Standing, TaskState, TaskView};
use brd_exec::Context;

/// Whether who executes on a processor, if anybody does, has a context that is known to lie in the kernel, and is
/// ready, if it is a task. So it is after every list of events from a boot, but at address 0 without a stack.
pub fn stands_well(board: &Board, cpu: u8) -> bool
    ensures is { result ≡ stands_on board.now cpu }
    ensures well { result ≡ true → AllStandWell board.now cpu }
{
    stands_on(board, cpu)
}

/// Whether it does, by what the processor is doing.
fn stands_on(board: &Board, cpu: u8) -> bool
    ensures { result ≡ stands_on board.now cpu }
{
    match (board.standing(cpu), board.registers(cpu)) {
        (None, _) | (_, None) => true,
        (Some(standing), Some(context)) => stands_in(board, standing, &context),
    }
}

/// The same, with its context.
fn stands_in(board: &Board, standing: Standing, context: &Context) -> bool
    ensures { result ≡ stands_in board.now standing context.now }
{
    match standing {
        Standing::Task(id) => has_place(context) && is_ready_in(board.task(id)),
        Standing::Handler(_) | Standing::Idle | Standing::Stopped => has_place(context),
    }
}

/// Whether a task, as it stands, is ready.
fn is_ready_in(task: Option<TaskView>) -> bool
    ensures { result ≡ is_ready_in task }
{
    match task {
        Some(view) => is_ready_state(view.state),
        None => false,
    }
}

/// Whether this is the state of one that is.
fn is_ready_state(state: TaskState) -> bool
    ensures { result ≡ is_ready_state state }
{
    matches!(state, TaskState::Ready)
}
