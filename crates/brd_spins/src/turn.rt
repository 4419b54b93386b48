//! What a processor does next.

ghost use Rattle.std.specs.Prelude.{◌≡◌, IfOk, OnOk};
ghost use Rattle.brd_board.specs.declared.event.Event.TheVariants.{Step};
ghost use Rattle.brd_board.specs.Board.{happens};
ghost use Rattle.brd_spins.specs.Spins.{turn_by, turn_called, turn_of};

use brd_base::NoMemory;
use brd_board::{Board, Event};
use brd_exec::is_store;
use brd_happening::{Answer, Before, CallMade, What};
use std::alloc::Global;

/// What a processor does in a step.
#[derive(Clone, Copy)]
pub(crate) enum Turn {
    /// It executes an instruction that stores nothing.
    Reads,
    /// Its task or handler asks for this spin lock, which is held, and is to ask again.
    Asks(u32),
    /// Anything else.
    Other,
}

/// Lets a processor do its next step, and answers what that is.
pub(crate) fn take_turn(alloc: Global, board: &mut Board, cpu: u8) -> Result<Turn, NoMemory>
    ensures is { IfOk result (λ turn. turn ≡ turn_of board.old cpu) }
    ensures board { OnOk result (board.new ≡ (happens board.old (Step cpu)).board) }
{
    let before = Before::of(alloc, board, Event::Step(cpu))?;
    let report = board.event_apart(Event::Step(cpu));
    let told = before.happening(alloc, report, board)?;
    Ok(turn_by(told.what))
}

/// What a processor does in a step in which this happens.
fn turn_by(what: What) -> Turn
    ensures { result ≡ turn_by what }
{
    match what {
        What::Instruction(instruction) if !is_store(instruction.insn) => Turn::Reads,
        What::Call(made) => turn_called(made),
        _ => Turn::Other,
    }
}

/// What a processor does in a step in which this call is made.
fn turn_called(made: CallMade) -> Turn
    ensures { result ≡ turn_called made made.answer }
{
    match made.answer {
        Answer::Again => Turn::Asks(made.asked.arguments[0]),
        _ => Turn::Other,
    }
}
