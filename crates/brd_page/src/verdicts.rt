//! What is found of the board in the end: whether it is deadlocked, and which tasks wait for each other.

use crate::data::Json;
use brd_base::NoMemory;
use brd_board::Board;
use brd_verdicts::{Lock, Unit, Units, Wait, circular_wait, is_deadlocked, is_same};
use std::alloc::Global;

/// Puts at the end whether a board is deadlocked, and a list of the tasks that wait for each other, by what was counted
/// of the run up to there. Where the board is off there are none.
pub(crate) fn put_verdicts(
    json: &mut Json,
    alloc: Global,
    units: &Units,
    board: &Board,
) -> Result<(), NoMemory> {
    json.member("deadlock", u64::from(is_deadlocked(board)?))?;
    json.key("circle")?;
    json.begin_list()?;
    if !board.is_off() {
        put_circle(json, alloc, units, board)?;
    }
    json.end_list()
}

/// Puts the tasks at the end that wait for each other.
fn put_circle(
    json: &mut Json,
    alloc: Global,
    units: &Units,
    board: &Board,
) -> Result<(), NoMemory> {
    let found = circular_wait(alloc, units, board)?;
    let taken = units.lock_units(alloc, board)?;
    for wait in found.as_slice() {
        put_wait(json, *wait, taken.as_slice())?;
    }
    Ok(())
}

/// Puts a task at the end that waits: its number, that of the semaphore or the mutex, who has taken its units or it,
/// and a 1 if it is a mutex.
fn put_wait(json: &mut Json, wait: Wait, taken: &[Unit]) -> Result<(), NoMemory> {
    json.begin_list()?;
    json.number(u64::from(wait.task))?;
    json.number(u64::from(number_of(wait.lock)))?;
    json.begin_list()?;
    for unit in taken {
        if is_same(wait.lock, unit.lock) {
            put_unit(json, *unit)?;
        }
    }
    json.end_list()?;
    if matches!(wait.lock, Lock::Mutex(_)) {
        json.number(1)?;
    }
    json.end_list()
}

/// The number of a semaphore or a mutex.
fn number_of(lock: Lock) -> u32 {
    match lock {
        Lock::Semaphore(id) | Lock::Mutex(id) => id,
    }
}

/// Puts a unit at the end: the number of the task that has taken it, and the position of the event in which it did.
fn put_unit(json: &mut Json, unit: Unit) -> Result<(), NoMemory> {
    json.begin_list()?;
    json.number(u64::from(unit.task))?;
    json.number(unit.position)?;
    json.end_list()
}
