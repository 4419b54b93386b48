//! Which loop a processor is in.

ghost use Rattle.std.specs.Prelude.{◌≡◌, length, IfOk, Some};
ghost use Rattle.brd_board.specs.Board.{BoardState as BoardOf, registers_of, standing_of};
ghost use Rattle.brd_spins.specs.Spins.{AreTurnings, HasGone, IsTurning, reads};

use crate::spin::{SpinKind, Turning};
use crate::turn::{Turn, take_turn};
use brd_base::{List, NoMemory, Same};
use brd_board::Board;
use brd_exec::Context;
use std::alloc::Global;

/// How many instructions a loop has at most (own choice).
const MOST_INSTRUCTIONS: u32 = 256;

/// What the processors do that spin, by their numbers from 1 to 8.
pub(crate) fn turnings_of(alloc: Global, board: &Board) -> Result<Vec<Turning>, NoMemory>
    ensures eight { IfOk result (λ turnings. length turnings.items ≡ 8) }
    ensures are { IfOk result (λ turnings. AreTurnings board.now turnings.items) }
{
    let mut turnings = Vec::new(alloc);
    for i in 0..8u8 {
        let turning = turning_of(alloc, board, i + 1)?;
        turnings.push(turning)?;
    }
    Ok(turnings)
}

/// What a processor does, if it spins.
fn turning_of(alloc: Global, board: &Board, cpu: u8) -> Result<Turning, NoMemory>
    ensures is { IfOk result (λ turning. IsTurning board.now cpu turning.states turning.what) }
    ensures who { IfOk result (λ turning. turning.who ≡ standing_of board.now cpu) }
{
    let who = board.standing(cpu);
    let mut states = List::new(alloc);
    let Some(first) = board.registers(cpu) else {
        return Ok(Turning {
            what: None,
            who,
            states,
        });
    };
    states.push(first)?;
    let mut copy = board.try_copy()?;
    let turn = take_turn(alloc, &mut copy, cpu)?;
    match turn {
        Turn::Reads => {
            let what = go_round(alloc, &mut copy, cpu, &first, &mut states)?;
            Ok(Turning { what, who, states })
        }
        Turn::Asks(lock) => Ok(Turning {
            what: Some(SpinKind::Lock(lock)),
            who,
            states,
        }),
        Turn::Other => Ok(Turning {
            what: None,
            who,
            states,
        }),
    }
}

/// Lets a processor go on alone, as long as each instruction stores nothing, until its registers are those with which
/// it began: then they are a loop. Puts its registers before each instruction at the end.
fn go_round(
    alloc: Global,
    board: &mut Board,
    cpu: u8,
    first: &Context,
    states: &mut List<Context>,
) -> Result<Option<SpinKind>, NoMemory>
    ensures { (b : BoardOf) → registers_of b cpu ≡ Some first.now → HasGone b cpu states.old board.old
        → length states.old ≡ 1 → IfOk result (IsTurning b cpu states.new) }
{
    for i in 0..MOST_INSTRUCTIONS {
        let Some(state) = board.registers(cpu) else {
            return Ok(None);
        };
        if state.same(first) {
            return Ok(Some(SpinKind::Loop(i + 1)));
        }
        let turn = take_turn(alloc, board, cpu)?;
        if !reads(turn) {
            return Ok(None);
        }
        states.push(state)?;
    }
    Ok(None)
}

/// Whether an instruction was executed that stores nothing.
fn reads(turn: Turn) -> bool
    ensures { result ≡ reads turn }
{
    matches!(turn, Turn::Reads)
}
