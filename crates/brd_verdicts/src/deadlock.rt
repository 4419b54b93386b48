//! Whether nothing that is under way on a board ends a wait.

ghost use Rattle.std.specs.Prelude.{◌≢◌, Decides, IfOk, None};
ghost use Rattle.brd_kernel.specs.Kernel.{timer_due};
ghost use Rattle.brd_board.specs.Board.{task_of};
ghost use Rattle.brd_verdicts.specs.Deadlock.{GoesOn, HasHandlerDue, HasTask, IsDeadlocked, NoStepDoes, Waits};

use crate::did_nothing::did_nothing;
use brd_base::NoMemory;
use brd_board::{Board, Event, TaskId, TaskState};

/// Whether a board is on, a task waits, none is ready, and neither a step of a processor nor a tick changes that.
pub fn is_deadlocked(board: &Board) -> Result<bool, NoMemory>
    ensures { IfOk result (λ answer. Decides answer (IsDeadlocked board.now)) }
{
    if board.is_off() || !some_waits(board) || some_goes_on(board) || some_handler_is_due(board) {
        return Ok(false);
    }
    no_step_does(board)
}

/// Whether some task waits.
fn some_waits(board: &Board) -> bool
    ensures { Decides result (HasTask Waits board.now) }
{
    for id in 1..256u16 {
        if waits(board, id) {
            return true;
        }
    }
    false
}

/// Whether a task waits.
fn waits(board: &Board, id: TaskId) -> bool
    ensures { Decides result (Waits (task_of board.now id)) }
{
    match board.task(id) {
        Some(task) => task.waiting.is_some(),
        None => false,
    }
}

/// Whether some task is ready, or some wait ends by a tick.
fn some_goes_on(board: &Board) -> bool
    ensures { Decides result (HasTask GoesOn board.now) }
{
    for id in 1..256u16 {
        if goes_on(board, id) {
            return true;
        }
    }
    false
}

/// Whether a task is ready, or its wait ends by a tick.
fn goes_on(board: &Board, id: TaskId) -> bool
    ensures { Decides result (GoesOn (task_of board.now id)) }
{
    match board.task(id) {
        Some(task) => task.state == TaskState::Ready || task.due.is_some(),
        None => false,
    }
}

/// Whether some time handler is due at a tick.
fn some_handler_is_due(board: &Board) -> bool
    ensures { Decides result (HasHandlerDue board.now) }
{
    for place in 0..128u8 {
        if is_due(board, place) {
            return true;
        }
    }
    false
}

/// Whether the time handler at a place is due at a tick.
fn is_due(board: &Board, place: u8) -> bool
    ensures { Decides result (timer_due board.now.kernel place ≢ None) }
{
    board.timer_due(place).is_some()
}

/// Whether no step of a processor does anything.
fn no_step_does(board: &Board) -> Result<bool, NoMemory>
    ensures { IfOk result (λ none. Decides none (NoStepDoes board.now)) }
{
    let mut copy = board.try_copy()?;
    for cpu in 1..9u8 {
        if !did_nothing(copy.event_apart(Event::Step(cpu))) {
            return Ok(false);
        }
    }
    Ok(true)
}
