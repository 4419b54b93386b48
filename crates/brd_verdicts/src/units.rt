//! Which tasks have units of semaphores, and mutexes, and which semaphores serve as locks.

ghost use Rattle.std.specs.Prelude.{◌≡◌, ◌==◌, [], remove, IfOk, OnOk};
ghost use Rattle.std.specs.List.{list_any, position};
ghost use Rattle.brd_verdicts.specs.Units.{
  given_at,
  gives,
  has_lock,
  is_lock,
  is_own,
  is_owner,
  is_same,
  is_unit_of,
  lock_units,
  takes,
  takes_mutex,
  unit_of,
  units_by,
  without_mutex,
};

use brd_base::{List, NoMemory};
use brd_board::{Board, TaskId};
use brd_kernel::Call;
use std::alloc::Global;

/// What tasks take and others wait for, by its ID.
#[derive(Clone, Copy)]
pub enum Lock {
    /// A semaphore.
    Semaphore(u32),
    /// A mutex.
    Mutex(u32),
}

/// A unit of a semaphore that a task has taken and not given back, or a mutex that it has taken.
#[derive(Clone, Copy)]
pub struct Unit {
    /// The semaphore or the mutex.
    pub lock: Lock,
    /// The task.
    pub task: TaskId,
    /// The position of the event that gave it the unit.
    pub position: u64,
}

/// The units that tasks have, of the semaphores that served as locks when they were taken, and the mutexes that they
/// have taken.
#[derive(Drop)]
pub struct Units {
    /// The units, in the order in which they were taken; of each mutex the last that took it.
    pub taken: List<Unit>,
    /// The semaphores that don't serve as locks: a handler gave one, or a task that had no unit of it.
    pub others: List<u32>,
}

impl Units {
    /// No task has a unit, and no semaphore was given.
    pub(crate) fn new(alloc: Global) -> Units
        ensures { result ≡ record { taken = []; others = [] } }
    {
        Units {
            taken: List::new(alloc),
            others: List::new(alloc),
        }
    }

    /// Whether a semaphore serves as a lock.
    fn is_lock(&self, semaphore: u32) -> bool
        ensures { result ≡ is_lock self.now semaphore }
    {
        !has(self.others.as_slice(), semaphore)
    }

    /// The units of semaphores that serve as locks, and the mutexes that tasks of a board have.
    pub fn lock_units(&self, alloc: Global, board: &Board) -> Result<List<Unit>, NoMemory>
        ensures { IfOk result (λ units. units ≡ lock_units self.now board.now) }
    {
        let mut units = List::new(alloc);
        for unit in self.taken.as_slice() {
            if self.is_own(board, *unit) {
                units.push(*unit)?;
            }
        }
        Ok(units)
    }

    /// Whether what a task has taken is its own on a board.
    fn is_own(&self, board: &Board, unit: Unit) -> bool
        ensures { result ≡ is_own self.now board.now unit }
    {
        self.has_lock(board, unit.lock, unit.task)
    }

    /// Whether a lock that a task has taken is its own on a board.
    fn has_lock(&self, board: &Board, lock: Lock, task: TaskId) -> bool
        ensures { result ≡ has_lock self.now board.now lock task }
    {
        match lock {
            Lock::Semaphore(semaphore) => self.is_lock(semaphore),
            Lock::Mutex(mutex) => is_owner(board.mutex_owner((mutex % 65_536) as u16), task),
        }
    }

    /// Keeps who has units after a call of a task, or of a handler, that was answered with E_OK in the event of a
    /// position.
    pub(crate) fn keep(
        &mut self,
        alloc: Global,
        position: u64,
        task: Option<TaskId>,
        call: Option<Call>,
    ) -> Result<(), NoMemory>
        ensures { OnOk result (self.new ≡ units_by position task call self.old) }
    {
        match (call, task) {
            (Some(Call::SigSem(semaphore)), _) => self.give(alloc, semaphore, task),
            (Some(Call::TwaiSem(semaphore, _)), Some(task)) => {
                let unit = Unit {
                    lock: Lock::Semaphore(semaphore),
                    task,
                    position,
                };
                self.take(semaphore, unit)
            }
            (Some(Call::TlocMtx(mutex, _)), Some(task)) => {
                let unit = Unit {
                    lock: Lock::Mutex(mutex),
                    task,
                    position,
                };
                self.take_mutex(alloc, mutex, unit)
            }
            _ => Ok(()),
        }
    }

    /// A task takes a unit of a semaphore.
    fn take(&mut self, semaphore: u32, unit: Unit) -> Result<(), NoMemory>
        ensures { OnOk result (self.new ≡ takes semaphore unit self.old) }
    {
        if self.is_lock(semaphore) {
            self.taken.push(unit)?;
        }
        Ok(())
    }

    /// A task takes a mutex, which nobody else has then.
    fn take_mutex(&mut self, alloc: Global, mutex: u32, unit: Unit) -> Result<(), NoMemory>
        ensures { OnOk result (self.new ≡ takes_mutex mutex unit self.old) }
    {
        let mut taken = without_mutex(alloc, mutex, self.taken.as_slice())?;
        taken.push(unit)?;
        self.taken = taken;
        Ok(())
    }

    /// A task gives a unit, or a handler does.
    fn give(&mut self, alloc: Global, semaphore: u32, task: Option<TaskId>) -> Result<(), NoMemory>
        ensures { OnOk result (self.new ≡ gives semaphore task self.old) }
    {
        if !self.is_lock(semaphore) {
            return Ok(());
        }
        let at = unit_of(semaphore, task, self.taken.as_slice());
        self.give_at(alloc, semaphore, at)
    }

    /// The unit at a place is given back; where none is named, a semaphore is given otherwise.
    fn give_at(&mut self, alloc: Global, semaphore: u32, at: Option<usize>) -> Result<(), NoMemory>
        ensures { OnOk result (self.new ≡ given_at semaphore at self.old) }
    {
        match at {
            None => self.others.push(semaphore),
            Some(at) => {
                self.taken = without(alloc, self.taken.as_slice(), at)?;
                Ok(())
            }
        }
    }
}

/// Whether both are the same lock.
pub fn is_same(a: Lock, b: Lock) -> bool
    ensures { result ≡ is_same a b }
{
    match (a, b) {
        (Lock::Semaphore(a), Lock::Semaphore(b)) => a == b,
        (Lock::Mutex(a), Lock::Mutex(b)) => a == b,
        (Lock::Semaphore(_), Lock::Mutex(_)) | (Lock::Mutex(_), Lock::Semaphore(_)) => false,
    }
}

/// Whether a mutex that somebody has, or nobody, is a task's.
fn is_owner(owner: Option<TaskId>, task: TaskId) -> bool
    ensures { result ≡ is_owner owner task }
{
    match owner {
        Some(owner) => owner == task,
        None => false,
    }
}

/// Whether a semaphore is one of these.
fn has(semaphores: &[u32], semaphore: u32) -> bool
    ensures { result ≡ list_any (λ other. other == semaphore) semaphores.now }
{
    semaphores.iter().any(|other| *other == semaphore)
}

/// Where among these the first unit is that a task has of a semaphore.
fn unit_of(semaphore: u32, task: Option<TaskId>, units: &[Unit]) -> Option<usize>
    ensures { result ≡ unit_of semaphore task units.now }
{
    match task {
        Some(task) => unit_of_task(semaphore, task, units),
        None => None,
    }
}

/// Where among these the first unit is that a task has of a semaphore.
fn unit_of_task(semaphore: u32, task: TaskId, units: &[Unit]) -> Option<usize>
    ensures { result ≡ position (is_unit_of semaphore task) units.now }
{
    units
        .iter()
        .position(|unit| is_unit_of(semaphore, task, *unit))
}

/// Whether a task has taken this unit of a semaphore.
fn is_unit_of(semaphore: u32, task: TaskId, unit: Unit) -> bool
    ensures { result ≡ is_unit_of semaphore task unit }
{
    is_same(Lock::Semaphore(semaphore), unit.lock) && unit.task == task
}

/// These units, but for those of a mutex.
fn without_mutex(alloc: Global, mutex: u32, units: &[Unit]) -> Result<List<Unit>, NoMemory>
    ensures { IfOk result (λ left. left ≡ without_mutex mutex units.now) }
{
    let mut left = List::new(alloc);
    for unit in units {
        if !is_same(Lock::Mutex(mutex), unit.lock) {
            left.push(*unit)?;
        }
    }
    Ok(left)
}

/// These units, but for that at a place.
fn without(alloc: Global, units: &[Unit], at: usize) -> Result<List<Unit>, NoMemory>
    ensures { IfOk result (λ left. left ≡ remove units.now at) }
{
    let mut left = List::new(alloc);
    left.append(units.get(..at).unwrap_or(units))?;
    left.append(units.get(at.saturating_add(1)..).unwrap_or(&[]))?;
    Ok(left)
}
