//! Which tasks have the mutexes of a board in the course of a run.

use brd_base::NoMemory;
use brd_board::Board;
use brd_happening::{Happening, What};
use brd_tasks::TaskId;
use brd_timeline::Owning;
use std::alloc::Global;

/// A task that has a mutex, and from which position on.
#[derive(Clone, Copy)]
struct Owner {
    /// The mutex.
    mutex: u8,
    /// The task.
    task: TaskId,
    /// From where.
    from: u64,
}

/// A stretch in which a task had a mutex.
#[derive(Clone, Copy)]
struct Owned {
    /// Which, and from where.
    owner: Owner,
    /// To where.
    to: u64,
}

/// What is recorded of mutexes.
#[derive(Drop)]
pub(crate) struct Mutexes {
    /// Who has one now.
    owners: Vec<Owner>,
    /// Who had one before.
    owned: Vec<Owned>,
}

impl Mutexes {
    /// The mutexes of a board, from a position on.
    pub(crate) fn new(alloc: Global, board: &Board, from: u64) -> Result<Mutexes, NoMemory> {
        let mut mutexes = Mutexes {
            owners: Vec::new(alloc),
            owned: Vec::new(alloc),
        };
        mutexes.take(board, from)?;
        Ok(mutexes)
    }

    /// Which tasks have mutexes of a board from a position on, after an event.
    pub(crate) fn see(&mut self, board: &Board, told: &Happening, at: u64) -> Result<(), NoMemory> {
        if !board.is_standard() || is_plain(told) {
            return Ok(());
        }
        for _ in 0..self.owners.len() {
            let Some(place) = self.given_back(board) else {
                return self.take(board, at);
            };
            if place < self.owners.len() {
                let owner = self.owners.swap_remove(place);
                self.end_owning(owner, at)?;
            }
        }
        self.take(board, at)
    }

    /// The place of a task that no longer has its mutex.
    fn given_back(&self, board: &Board) -> Option<usize> {
        for (place, owner) in self.owners.iter().enumerate() {
            if owner_of(board, owner.mutex) != Some(owner.task) {
                return Some(place);
            }
        }
        None
    }

    /// The tasks that have a mutex from a position on, and had it not before.
    fn take(&mut self, board: &Board, from: u64) -> Result<(), NoMemory> {
        for mutex in 1..256u16 {
            let mutex = mutex as u8;
            if let Some(task) = owner_of(board, mutex)
                && !self.is_had(mutex)
            {
                self.owners.push(Owner { mutex, task, from })?;
            }
        }
        Ok(())
    }

    /// Whether a task is known to have a mutex.
    fn is_had(&self, mutex: u8) -> bool {
        for owner in self.owners.iter() {
            if owner.mutex == mutex {
                return true;
            }
        }
        false
    }

    /// Ends that a task has a mutex.
    fn end_owning(&mut self, owner: Owner, to: u64) -> Result<(), NoMemory> {
        if owner.from < to {
            self.owned.push(Owned { owner, to })?;
        }
        Ok(())
    }

    /// What was recorded up to a position: the mutexes that a task had, by ascending number, and who had them.
    pub(crate) fn end(
        mut self,
        alloc: Global,
        to: u64,
    ) -> Result<(Vec<u8>, Vec<Owning>), NoMemory> {
        for place in 0..self.owners.len() {
            if let Some(owner) = self.owners.get(place).copied() {
                self.end_owning(owner, to)?;
            }
        }
        let mut mutexes = Vec::new(alloc);
        let mut owned = Vec::new(alloc);
        for mutex in 1..256u16 {
            if self.was_had(mutex as u8) {
                self.put_owned(mutex as u8, mutexes.len(), &mut owned)?;
                mutexes.push(mutex as u8)?;
            }
        }
        Ok((mutexes, owned))
    }

    /// Whether a task had a mutex.
    fn was_had(&self, mutex: u8) -> bool {
        for it in self.owned.iter() {
            if it.owner.mutex == mutex {
                return true;
            }
        }
        false
    }

    /// Puts at the end who had a mutex, whose place in the list of mutexes is this.
    fn put_owned(&self, mutex: u8, place: usize, to: &mut Vec<Owning>) -> Result<(), NoMemory> {
        for it in self.owned.iter() {
            if it.owner.mutex == mutex {
                to.push(Owning {
                    mutex: place,
                    task: it.owner.task,
                    from: it.owner.from,
                    to: it.to,
                })?;
            }
        }
        Ok(())
    }
}

/// Whether an event is an instruction other than SYSCALL that went well, or nothing: no mutex changes hands by it.
fn is_plain(told: &Happening) -> bool {
    match told.what {
        What::Instruction(_) | What::Nothing(_) => true,
        _ => false,
    }
}

/// The task that has a mutex of a board: none where the board is off.
fn owner_of(board: &Board, mutex: u8) -> Option<TaskId> {
    if board.is_off() {
        return None;
    }
    board.mutex_owner(mutex as u16)
}
