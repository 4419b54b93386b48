//! Whether an event concerns a processor, of which it may be no step.

ghost use Rattle.std.specs.Prelude.{◌≡◌};
ghost use Rattle.brd_printer.specs.Concerns as concerns;

use brd_board::{Board, Standing};

/// What the chosen processor does on a board, where one is chosen.
pub fn chosen_standing(cpu: Option<u8>, board: &Board) -> Option<Standing>
    ensures { result ≡ concerns.chosen_standing cpu board.now }
{
    match cpu {
        Some(cpu) => board.standing(cpu),
        None => None,
    }
}

/// Whether the chosen processor, which stood so before an event, does something else on the board after it.
pub fn does_other(cpu: Option<u8>, stood: Option<Standing>, board: &Board) -> bool
    ensures { result ≡ concerns.does_other cpu stood board.now }
{
    match cpu {
        Some(cpu) => !does_same(stood, board.standing(cpu)),
        None => false,
    }
}

/// Whether processors that stand so do the same.
fn does_same(one: Option<Standing>, other: Option<Standing>) -> bool
    ensures { result ≡ concerns.does_same one other }
{
    match (one, other) {
        (None, None) => true,
        (Some(Standing::Idle), Some(Standing::Idle)) => true,
        (Some(Standing::Stopped), Some(Standing::Stopped)) => true,
        (Some(Standing::Task(id)), Some(Standing::Task(other))) => id == other,
        (Some(Standing::Handler(line)), Some(Standing::Handler(other))) => line == other,
        _ => false,
    }
}
