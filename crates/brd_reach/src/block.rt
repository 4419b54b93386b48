//! Blocks: invisible instructions of a processor, and one that others may see, or that comes to an instruction that
//! failures watch.

ghost use Rattle.std.specs.Prelude.{◌≡◌, ◌≤◌, IfOk, ℕ as Nat};
ghost use Rattle.brd_link.specs.LinkSet.{IsLinkSet};
ghost use Rattle.brd_board.specs.Board.{BoardState as BoardOf};
ghost use Rattle.brd_blocks.specs.Stepping.{AllStandWell};
ghost use Rattle.brd_reach.specs.Rounds.{HasWalked, WentBy, WentTo, sharing_for};

use crate::step::step;
use crate::unknown::Unknown;
use brd_base::NoMemory;
use brd_blocks::{Sharing, Stepped, stands_well};
use brd_board::Board;
use brd_explore::Wanted;

/// How many instructions a block has before the first board is kept to which it may come back, besides the one with
/// which it began (own choice).
const FEW_STEPS: u32 = 1_024;

/// How many boards are kept, each twice as many instructions after the beginning as the one before it (own choice).
const MOST_KEPT: u32 = 14;

/// What a block of a processor came to.
#[derive(Clone, Copy, PartialEq, Eq)]
pub(crate) enum Block {
    /// Nothing: nobody executes there, or no instruction is ever one that others may see.
    Stays,
    /// It leads to another place, by so many steps.
    Leads(u32),
    /// After so many steps there is one that doesn't keep to who may touch what, and who is mortal.
    Strays(u32),
    /// It wasn't gone through.
    Unknown(Unknown),
}

/// Lets a processor do a block from a place on. The board is at first that of the place.
pub(crate) fn go(
    sharing: &Sharing,
    wanted: &Wanted,
    place: &Board,
    board: &mut Board,
    cpu: u8,
) -> Result<Block, NoMemory>
    requires { place.now ≡ board.old }
    ensures { IsLinkSet board.old.links →
        IfOk result (WentBy (sharing_for sharing.now wanted.now) board.old cpu board.new) }
{
    if !stands_well(board, cpu) {
        return Ok(Block::Unknown(Unknown::Waits));
    }
    match step(sharing, wanted, board, cpu) {
        Stepped::Off => Ok(Block::Stays),
        Stepped::Nothing => Ok(Block::Stays),
        Stepped::Accepted => Ok(Block::Leads(1)),
        Stepped::Visible => Ok(Block::Leads(1)),
        Stepped::Invisible => go_on(sharing, wanted, place, board, cpu),
        Stepped::Strays => Ok(Block::Strays(0)),
    }
}

/// Lets a processor go on with a block that has begun at a place by an invisible instruction.
fn go_on(
    sharing: &Sharing,
    wanted: &Wanted,
    place: &Board,
    board: &mut Board,
    cpu: u8,
) -> Result<Block, NoMemory>
    ensures { AllStandWell place.now cpu → HasWalked (sharing_for sharing.now wanted.now) place.now cpu 0 place.now →
        HasWalked (sharing_for sharing.now wanted.now) place.now cpu 1 board.old →
        IfOk result (WentBy (sharing_for sharing.now wanted.now) place.now cpu board.new) }
{
    if let Some(block) = go_to(sharing, wanted, place, board, cpu, 1, FEW_STEPS) {
        return Ok(block);
    }
    go_far(sharing, wanted, board, cpu)
}

/// Lets a processor go on with a block that has had so few instructions, all of them invisible.
fn go_far(sharing: &Sharing, wanted: &Wanted, board: &mut Board, cpu: u8) -> Result<Block, NoMemory>
    ensures { (b : BoardOf) → AllStandWell b cpu → HasWalked (sharing_for sharing.now wanted.now) b cpu 1024 board.old →
        IfOk result (WentBy (sharing_for sharing.now wanted.now) b cpu board.new) }
{
    let mut count = FEW_STEPS;
    for _ in 0..MOST_KEPT {
        let Some(upto) = count.checked_mul(2) else {
            return Ok(Block::Unknown(Unknown::Long));
        };
        let kept = board.try_copy()?;
        if let Some(block) = go_to(sharing, wanted, &kept, board, cpu, count, upto) {
            return Ok(block);
        }
        count = upto;
    }
    Ok(Block::Unknown(Unknown::Long))
}

/// Lets a processor go on with a block that has had so many instructions, all of them invisible, until it has had so
/// many: what the block came to, if it ended, or if it came back to the board that was kept.
fn go_to(
    sharing: &Sharing,
    wanted: &Wanted,
    kept: &Board,
    board: &mut Board,
    cpu: u8,
    count: u32,
    upto: u32,
) -> Option<Block>
    requires { count ≤ upto }
    ensures { (b : BoardOf) (early : Nat) → AllStandWell b cpu → early ≤ count →
        HasWalked (sharing_for sharing.now wanted.now) b cpu early kept.now →
        HasWalked (sharing_for sharing.now wanted.now) b cpu count board.old →
        WentTo (sharing_for sharing.now wanted.now) b cpu upto board.new result }
{
    let registers = kept.registers(cpu);
    for at in count..upto {
        match step(sharing, wanted, board, cpu) {
            Stepped::Invisible => {}
            Stepped::Visible => return Some(Block::Leads(at + 1)),
            Stepped::Strays => return Some(Block::Strays(at)),
            Stepped::Off | Stepped::Nothing | Stepped::Accepted => {
                return Some(Block::Unknown(Unknown::Waits));
            }
        }
        if board.registers(cpu) == registers && board.same(kept) {
            return Some(Block::Stays);
        }
    }
    None
}
