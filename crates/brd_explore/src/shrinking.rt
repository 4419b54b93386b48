//! Fewer events that fail still: by leaving out stretches, shorter and shorter ones, as long as one can be left out.

ghost use Rattle.std.specs.Prelude.{◌≡◌, ◌+◌, ◌≤◌, ◌<◌, ℕ, true, false, length, IfOk, OnOk, OnErr, IfSome, IfNone};
ghost use Rattle.brd_board.specs.Board.{after};
ghost use Rattle.brd_explore.specs.Shrinking.{fails_after, is_failing, without, IsPart, IsLeast};
ghost use Rattle.brd_explore.specs.Searching.{AreAlike};

use crate::wanted::Wanted;
use brd_base::NoMemory;
use brd_board::{Board, Event};
use std::alloc::Global;

/// Whether a list of events fails.
pub fn fails(board: &Board, events: &[Event], wanted: &Wanted) -> Result<bool, NoMemory>
    ensures { IfOk result (λ fails. fails ≡ is_failing wanted.now board.now events.now) }
{
    let mut copy = board.try_copy()?;
    copy.play(events);
    wanted.fails_after(&mut copy)
}

/// Some of the events of a list that fails, which fail still: none of them can be left out any more. (It leaves out
/// stretches of half the length, a quarter and so on, as ddmin of Zeller and Hildebrandt, 2002, does with complements.)
pub fn shrink(
    alloc: Global,
    board: &Board,
    events: &[Event],
    wanted: &Wanted,
) -> Result<Vec<Event>, NoMemory>
    requires { is_failing wanted.now board.now events.now ≡ true }
    ensures fails { IfOk result (λ left. is_failing wanted.now board.now left.items ≡ true) }
    ensures part { IfOk result (λ left. IsPart left.items events.now) }
    ensures least { IfOk result (λ left. IsLeast wanted.now board.now left.items) }
{
    let mut scratch = board.try_copy()?;
    let mut left = Vec::from_slice(alloc, events)?;
    leave_out_stretches(board, &mut scratch, &mut left, wanted)?;
    leave_out_each(board, &mut scratch, &mut left, wanted)?;
    Ok(left)
}

/// Leaves out stretches that needn't be there, shorter and shorter ones.
fn leave_out_stretches(
    board: &Board,
    scratch: &mut Board,
    events: &mut Vec<Event>,
    wanted: &Wanted,
) -> Result<(), NoMemory>
    requires fails { is_failing wanted.now board.now events.old.items ≡ true }
    requires alike { AreAlike scratch.old board.now }
    ensures fails { OnOk result (is_failing wanted.now board.now events.new.items ≡ true) }
    ensures part { IsPart events.new.items events.old.items }
    ensures alike { AreAlike scratch.new board.now }
{
    let mut size = events.len() / 2;
    while size > 0 {
        leave_out_by(board, scratch, events, size, wanted)?;
        size /= 2;
    }
    Ok(())
}

/// Leaves out the stretches of a length, one after the other, that needn't be there.
fn leave_out_by(
    board: &Board,
    scratch: &mut Board,
    events: &mut Vec<Event>,
    size: usize,
    wanted: &Wanted,
) -> Result<(), NoMemory>
    requires size { 0 < size }
    requires fails { is_failing wanted.now board.now events.old.items ≡ true }
    requires alike { AreAlike scratch.old board.now }
    ensures fails { OnOk result (is_failing wanted.now board.now events.new.items ≡ true) }
    ensures part { IsPart events.new.items events.old.items }
    ensures alike { AreAlike scratch.new board.now }
{
    let mut at = 0;
    while at < events.len() {
        let to = end_of(at, size, events.len());
        if fails_without(board, scratch, events.as_slice(), at, to, wanted)? {
            leave_out(events, at, to)?;
        } else {
            at = to;
        }
    }
    Ok(())
}

/// Where a stretch of a length ends that begins before the end of a list.
fn end_of(at: usize, size: usize, len: usize) -> usize
    requires { (0 < size) × (at < len) }
    ensures { (at < result) × (result ≤ len) }
{
    if size < len - at { at + size } else { len }
}

/// Leaves out single events as long as there is one that needn't be there.
fn leave_out_each(
    board: &Board,
    scratch: &mut Board,
    events: &mut Vec<Event>,
    wanted: &Wanted,
) -> Result<(), NoMemory>
    requires fails { is_failing wanted.now board.now events.old.items ≡ true }
    requires alike { AreAlike scratch.old board.now }
    ensures fails { OnOk result (is_failing wanted.now board.now events.new.items ≡ true) }
    ensures part { IsPart events.new.items events.old.items }
    ensures least { OnOk result (IsLeast wanted.now board.now events.new.items) }
    ensures alike { AreAlike scratch.new board.now }
{
    while let Some(at) = needless(board, scratch, events.as_slice(), wanted)? {
        leave_out(events, at, at + 1)?;
    }
    Ok(())
}

/// The index of the first event without which the list fails still.
fn needless(
    board: &Board,
    scratch: &mut Board,
    events: &[Event],
    wanted: &Wanted,
) -> Result<Option<usize>, NoMemory>
    requires alike { AreAlike scratch.old board.now }
    ensures some { IfOk result
        (λ found.
        IfSome found
        (λ at. (at < length events.now) × (is_failing wanted.now board.now (without events.now at (at + 1)) ≡ true))) }
    ensures none { IfOk result (λ found. IfNone found (IsLeast wanted.now board.now events.now)) }
    ensures alike { AreAlike scratch.new board.now }
{
    for at in 0..events.len() {
        if fails_without(board, scratch, events, at, at + 1, wanted)? {
            return Ok(Some(at));
        }
    }
    Ok(None)
}

/// Whether a list fails without a stretch of it.
fn fails_without(
    board: &Board,
    scratch: &mut Board,
    events: &[Event],
    from: usize,
    to: usize,
    wanted: &Wanted,
) -> Result<bool, NoMemory>
    requires alike { AreAlike scratch.old board.now }
    requires within { (from ≤ to) × (to ≤ length events.now) }
    ensures fails { IfOk result (λ fails. fails ≡ is_failing wanted.now board.now (without events.now from to)) }
    ensures alike { AreAlike scratch.new board.now }
{
    scratch.copy_from(board)?;
    scratch.play(&events[..from]);
    scratch.play(&events[to..]);
    wanted.fails_after(scratch)
}

/// Leaves out a stretch of a list. A refusal changes nothing.
fn leave_out(events: &mut Vec<Event>, from: usize, to: usize) -> Result<(), NoMemory>
    requires { (from ≤ to) × (to ≤ length events.old.items) }
    ensures ok { OnOk result (events.new.items ≡ without events.old.items from to) }
    ensures err { OnErr result (events.new.items ≡ events.old.items) }
{
    let mut left = Vec::from_slice(*events.allocator(), &events[..from])?;
    left.extend_from_slice(&events[to..])?;
    *events = left;
    Ok(())
}
