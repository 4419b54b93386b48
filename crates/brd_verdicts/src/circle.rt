//! Which tasks wait for each other.

ghost use Rattle.std.specs.Prelude.{◌≡◌, ◌++◌, [], not, ◌||◌, IfOk, OnOk};
ghost use Rattle.std.specs.List.{cons_option, filter, list_all, list_any};
ghost use Rattle.brd_verdicts.specs.Circle.{
  AreCircular,
  IsCircularWait,
  is_among,
  is_held,
  is_of,
  wait_for,
  wait_in,
  waits_of,
};

use crate::units::{Lock, Unit, Units, is_same};
use brd_base::{List, NoMemory};
use brd_board::{Board, TaskId, WaitKind, WaitReason};
use std::alloc::Global;

/// A task that waits without an end for a lock.
#[derive(Clone, Copy)]
pub struct Wait {
    /// The task.
    pub task: TaskId,
    /// The lock.
    pub lock: Lock,
}

/// The tasks of a board that wait for each other, by ascending ID: each is one of some that wait without an end for
/// semaphores that serve as locks, or for mutexes, and which, or whose units, none but they have.
pub fn circular_wait(alloc: Global, units: &Units, board: &Board) -> Result<List<Wait>, NoMemory>
    ensures { IfOk result (IsCircularWait units.now board.now) }
{
    let taken = units.lock_units(alloc, board)?;
    let waits = waits_of(alloc, board)?;
    circular(alloc, taken.as_slice(), waits.as_slice())
}

/// The tasks of a board that wait without an end for a semaphore or a mutex, by ascending ID.
fn waits_of(alloc: Global, board: &Board) -> Result<List<Wait>, NoMemory>
    ensures { IfOk result (λ waits. waits ≡ waits_of board.now) }
{
    let mut waits = List::new(alloc);
    for id in 1..256u16 {
        put_if(&mut waits, wait_in(board, id))?;
    }
    Ok(waits)
}

/// Puts a task that waits at the end, if it is one.
fn put_if(waits: &mut List<Wait>, wait: Option<Wait>) -> Result<(), NoMemory>
    ensures { OnOk result (waits.new ≡ waits.old ++ cons_option wait []) }
{
    match wait {
        Some(wait) => waits.push(wait),
        None => Ok(()),
    }
}

/// The task of a number, if it waits without an end for a semaphore or a mutex.
fn wait_in(board: &Board, id: TaskId) -> Option<Wait>
    ensures { result ≡ wait_in board.now id }
{
    let view = board.task(id)?;
    wait_for(id, view.waiting, view.due)
}

/// A task, if what it waits for is a semaphore or a mutex, without an end.
fn wait_for(task: TaskId, waiting: Option<WaitReason>, due: Option<u64>) -> Option<Wait>
    ensures { result ≡ wait_for task waiting due }
{
    match (waiting, due) {
        (Some(WaitReason::On(WaitKind::Semaphore, semaphore)), None) => Some(Wait {
            task,
            lock: Lock::Semaphore(u32::from(semaphore)),
        }),
        (Some(WaitReason::On(WaitKind::Mutex, mutex)), None) => Some(Wait {
            task,
            lock: Lock::Mutex(u32::from(mutex)),
        }),
        _ => None,
    }
}

/// Those of some tasks that wait which wait for each other: each is one of some that wait for what none but they have.
fn circular(alloc: Global, units: &[Unit], waits: &[Wait]) -> Result<List<Wait>, NoMemory>
    ensures { IfOk result (AreCircular units.now waits.now) }
{
    let mut left = List::from_slice(alloc, waits)?;
    loop {
        let held = held_among(alloc, units, left.as_slice())?;
        if held.len() == left.len() {
            return Ok(held);
        }
        left = held;
    }
}

/// Those that wait for what none but some of them have.
fn held_among(alloc: Global, units: &[Unit], those: &[Wait]) -> Result<List<Wait>, NoMemory>
    ensures { IfOk result (λ held. held ≡ filter (is_held units.now those.now) those.now) }
{
    let mut held = List::new(alloc);
    for wait in those {
        if is_held(units, those, *wait) {
            held.push(*wait)?;
        }
    }
    Ok(held)
}

/// Whether some task has a unit of what a task waits for, and each that has one is among these.
fn is_held(units: &[Unit], those: &[Wait], wait: Wait) -> bool
    ensures { result ≡ is_held units.now those.now wait }
{
    has_unit(units, wait) && are_among(units, those, wait)
}

/// Whether some task has a unit of what a task waits for.
fn has_unit(units: &[Unit], wait: Wait) -> bool
    ensures { result ≡ list_any (is_of wait) units.now }
{
    units.iter().any(|unit| is_of(wait, *unit))
}

/// Whether each task that has a unit of what a task waits for is among these.
fn are_among(units: &[Unit], those: &[Wait], wait: Wait) -> bool
    ensures { result ≡ list_all (λ unit. not (is_of wait unit) || is_among those.now unit.task) units.now }
{
    units
        .iter()
        .all(|unit| !is_of(wait, *unit) || is_among(those, unit.task))
}

/// Whether a unit is one of what a task waits for.
fn is_of(wait: Wait, unit: Unit) -> bool
    ensures { result ≡ is_of wait unit }
{
    is_same(wait.lock, unit.lock)
}

/// Whether a task is one of these that wait.
fn is_among(those: &[Wait], task: TaskId) -> bool
    ensures { result ≡ is_among those.now task }
{
    those.iter().any(|wait| wait.task == task)
}
