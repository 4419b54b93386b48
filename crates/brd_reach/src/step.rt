//! Steps, and whether they come to an instruction that failures watch.

ghost use Rattle.std.specs.Prelude.{◌≡◌};
ghost use Rattle.brd_link.specs.LinkSet.{IsLinkSet};
ghost use Rattle.brd_board.specs.declared.event.Event.TheVariants.{Step};
ghost use Rattle.brd_board.specs.Board.{happens, registers_of};
ghost use Rattle.brd_blocks.specs.Stepping.{IsStepped};
ghost use Rattle.brd_reach.specs.Rounds.{are_watching, sharing_for, shown, some_watch, watches};

use brd_blocks::{Sharing, Stepped};
use brd_board::Board;
use brd_exec::Context;
use brd_explore::{Failure, Wanted};

/// Lets a processor do its next step, and answers what that was. An instruction counts as one that others may see if it
/// comes to one that failures watch.
pub fn step(sharing: &Sharing, wanted: &Wanted, board: &mut Board, cpu: u8) -> Stepped
    ensures board { board.new ≡ (happens board.old (Step cpu)).board }
    ensures is { IsLinkSet board.old.links →
        IsStepped (sharing_for sharing.now wanted.now) board.old cpu result }
{
    let stepped = sharing.step(board, cpu);
    let watched = are_watching(wanted.failures.as_slice(), board.registers(cpu));
    shown(stepped, watched)
}

/// What a step is that is this by itself, and may come to an instruction that is watched.
fn shown(stepped: Stepped, watched: bool) -> Stepped
    ensures { result ≡ shown stepped watched }
{
    match stepped {
        Stepped::Invisible if watched => Stepped::Visible,
        _ => stepped,
    }
}

/// Whether some of these failures watch the instruction that is the next one in a context.
fn are_watching(failures: &[Failure], context: Option<Context>) -> bool
    ensures { result ≡ are_watching failures.now context }
{
    match context {
        Some(context) => some_watch(failures, context.pc()),
        None => false,
    }
}

/// Whether some of these failures watch the instruction at an address.
fn some_watch(failures: &[Failure], address: u32) -> bool
    ensures { result ≡ some_watch failures.now address }
{
    for failure in failures {
        if watches(failure, address) {
            return true;
        }
    }
    false
}

/// Whether a failure watches the instruction at an address.
fn watches(failure: &Failure, address: u32) -> bool
    ensures { result ≡ watches address failure.now }
{
    match failure {
        Failure::At { address: other } => *other == address,
        _ => false,
    }
}
