//! Blocks: invisible instructions of a processor, and one that others may see.

ghost use Rattle.std.specs.Prelude.{◌≤◌, IfOk, IfSome, ℕ as Nat};
ghost use Rattle.brd_link.specs.LinkSet.{IsLinkSet};
ghost use Rattle.brd_board.specs.Board.{BoardState as BoardOf};
ghost use Rattle.brd_reach.specs.Rounds.{sharing_for};
ghost use Rattle.brd_lazy.specs.Finding.{EndsWithin, HasWalked, WalkedTo, WentSo};

use brd_base::NoMemory;
use brd_blocks::{Sharing, Stepped};
use brd_board::Board;
use brd_explore::Wanted;
use brd_reach::step::step;

/// What a block of a processor came to.
#[derive(Clone, Copy, PartialEq, Eq)]
pub(crate) enum Block {
    /// Nothing: nobody executes there, or the board is off.
    Idle,
    /// An interrupt was accepted.
    Alone,
    /// After so many instructions that nobody else can see it ended by one that others may see.
    Ends(u32),
    /// Nobody else can see any instruction, as far as the events reach that are left.
    Cut,
    /// After so many steps there is one that doesn't keep to who may touch what, and who is mortal.
    Strays(u32),
    /// It isn't known.
    Unknown,
}

/// How many instructions a block has before the first board is kept to which it may come back (own choice).
const FEW_STEPS: u32 = 1_024;

/// How many boards are kept at most, each twice as many instructions after the beginning as the one before it: enough
/// for as many steps as there may be.
const MOST_KEPT: u32 = 32;

/// Lets a processor do a block, of at most so many steps.
pub(crate) fn go(
    sharing: &Sharing,
    wanted: &Wanted,
    board: &mut Board,
    cpu: u8,
    most: u32,
) -> Result<Block, NoMemory>
    ensures is { IsLinkSet board.old.links →
        IfOk result (WentSo (sharing_for sharing.now wanted.now) board.old cpu most board.new) }
    ensures few { IfOk result (EndsWithin most) }
{
    let few = first_stop(most);
    if let Some(block) = go_few(sharing, wanted, board, cpu, few) {
        return Ok(block);
    }
    go_far(sharing, wanted, board, cpu, few, most)
}

/// After how many instructions the first board is kept.
fn first_stop(most: u32) -> u32
    ensures { result ≤ most }
{
    most.min(FEW_STEPS)
}

/// After how many instructions the next board is kept, where the last one was kept after so many.
fn next_stop(done: u32, most: u32) -> u32
    ensures low { done ≤ most → done ≤ result }
    ensures high { result ≤ most }
{
    done.saturating_mul(2).max(done).min(most)
}

/// Lets a processor do the first steps of a block: what it came to, if it ended.
fn go_few(sharing: &Sharing, wanted: &Wanted, board: &mut Board, cpu: u8, few: u32) -> Option<Block>
    ensures is { (most : Nat) → few ≤ most → IsLinkSet board.old.links →
        WalkedTo (sharing_for sharing.now wanted.now) board.old cpu few most board.new result }
    ensures few { IfSome result (EndsWithin few) }
{
    for at in 0..few {
        match step(sharing, wanted, board, cpu) {
            Stepped::Invisible => {}
            Stepped::Visible => return Some(Block::Ends(at)),
            Stepped::Strays => return Some(Block::Strays(at)),
            Stepped::Accepted if at == 0 => return Some(Block::Alone),
            Stepped::Off if at == 0 => return Some(Block::Idle),
            Stepped::Nothing if at == 0 => return Some(Block::Idle),
            Stepped::Off | Stepped::Nothing | Stepped::Accepted => return Some(Block::Unknown),
        }
    }
    None
}

/// Lets a processor go on with a block that has had so many instructions, all of them invisible, up to so many.
fn go_far(
    sharing: &Sharing,
    wanted: &Wanted,
    board: &mut Board,
    cpu: u8,
    count: u32,
    most: u32,
) -> Result<Block, NoMemory>
    ensures is { (b : BoardOf) → HasWalked (sharing_for sharing.now wanted.now) b cpu count board.old →
        IfOk result (WentSo (sharing_for sharing.now wanted.now) b cpu most board.new) }
    ensures few { IfOk result (EndsWithin most) }
{
    let mut done = count;
    for _ in 0..MOST_KEPT {
        if done >= most {
            return Ok(Block::Cut);
        }
        let upto = next_stop(done, most);
        let kept = board.try_copy()?;
        if let Some(block) = go_to(sharing, wanted, &kept, board, cpu, done, upto) {
            return Ok(block);
        }
        done = upto;
    }
    Ok(Block::Unknown)
}

/// Lets a processor go on with a block until it has had so many instructions: what the block came to, if it ended or
/// came back to the board that was kept.
fn go_to(
    sharing: &Sharing,
    wanted: &Wanted,
    kept: &Board,
    board: &mut Board,
    cpu: u8,
    count: u32,
    upto: u32,
) -> Option<Block>
    requires { count ≤ upto }
    ensures is { (b : BoardOf) (most : Nat) → upto ≤ most →
        HasWalked (sharing_for sharing.now wanted.now) b cpu count kept.now →
        HasWalked (sharing_for sharing.now wanted.now) b cpu count board.old →
        WalkedTo (sharing_for sharing.now wanted.now) b cpu upto most board.new result }
    ensures few { IfSome result (EndsWithin upto) }
{
    let registers = kept.registers(cpu);
    for at in count..upto {
        match step(sharing, wanted, board, cpu) {
            Stepped::Invisible => {}
            Stepped::Visible => return Some(Block::Ends(at)),
            Stepped::Strays => return Some(Block::Strays(at)),
            Stepped::Off | Stepped::Nothing | Stepped::Accepted => return Some(Block::Unknown),
        }
        if board.registers(cpu) == registers && board.same(kept) {
            return Some(Block::Cut);
        }
    }
    None
}
