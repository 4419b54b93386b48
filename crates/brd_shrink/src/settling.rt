//! Fewer events, and then fewer switches.

ghost use Rattle.std.specs.Prelude.{◌≡◌, ◌≤◌, true, length, IfOk, OnOk};
ghost use Rattle.std.specs.List.Sorted.{IsPermutation};
ghost use Rattle.brd_explore.specs.Shrinking.{is_failing, IsLeast};
ghost use Rattle.brd_shrink.specs.Turns.{switches};
ghost use Rattle.brd_shrink.specs.Settled.{AreSome, IsSettled};

use crate::moving::moved_from;
use crate::turns::switches;
use brd_base::NoMemory;
use brd_board::{Board, Event};
use brd_explore::{Wanted, shrink as shrunk};
use std::alloc::Global;

/// Some of the events of a list that fails, which fail still: none of them can be left out any more, and no turn of
/// a processor can be moved elsewhere so that there are fewer switches.
pub fn shrink(
    alloc: Global,
    board: &Board,
    events: &[Event],
    wanted: &Wanted,
) -> Result<Vec<Event>, NoMemory>
    requires { is_failing wanted.now board.now events.now ≡ true }
    ensures fails { IfOk result (λ left. is_failing wanted.now board.now left.items ≡ true) }
    ensures some { IfOk result (λ left. AreSome left.items events.now) }
    ensures shorter { IfOk result (λ left. length left.items ≤ length events.now) }
    ensures least { IfOk result (λ left. IsLeast wanted.now board.now left.items) }
    ensures fewer { IfOk result (λ left. switches left.items ≤ switches events.now) }
    ensures settled { IfOk result (λ left. IsSettled wanted.now board.now left.items) }
{
    let mut left = shrunk(alloc, board, events, wanted)?;
    loop {
        let before = switches(&left);
        move_turns(alloc, board, &mut left, wanted)?;
        if switches(&left) == before {
            return Ok(left);
        }
        left = shrunk(alloc, board, &left, wanted)?;
    }
}

/// Moves each turn as long as that leaves fewer switches.
fn move_turns(
    alloc: Global,
    board: &Board,
    events: &mut Vec<Event>,
    wanted: &Wanted,
) -> Result<(), NoMemory>
    requires { is_failing wanted.now board.now events.old.items ≡ true }
    ensures fails { OnOk result (is_failing wanted.now board.now events.new.items ≡ true) }
    ensures permutes { OnOk result (IsPermutation events.old.items events.new.items) }
    ensures fewer { OnOk result (switches events.new.items ≤ switches events.old.items) }
    ensures same { OnOk result (switches events.new.items ≡ switches events.old.items →
        (events.new.items ≡ events.old.items) × IsSettled wanted.now board.now events.new.items) }
{
    let mut from = 0;
    while from < events.len() {
        match moved_from(alloc, board, events.as_slice(), from, wanted)? {
            Some(moved) => *events = moved,
            None => from += 1,
        }
    }
    Ok(())
}
