//! Who holds the spin locks of a board in the course of a run, and who asks for them again and again; and the mutexes.

use crate::mutexes::Mutexes;
use crate::recording::Known;
use brd_base::NoMemory;
use brd_board::{Board, Spin};
use brd_happening::Happening;
use brd_names::Spinner;
use brd_timeline::{Hold, Owning, Spinning};
use std::alloc::Global;

/// Who holds a spin lock, and from which position on.
#[derive(Clone, Copy)]
struct Holder {
    /// The processor.
    cpu: u8,
    /// From where.
    from: u64,
}

/// A spin lock.
#[derive(Clone, Copy)]
struct Lock {
    /// Its number.
    id: u8,
    /// Who holds it.
    holder: Option<Holder>,
}

/// A task or a handler that asks for a spin lock again and again, and from which position on.
#[derive(Clone, Copy)]
struct Asking {
    /// Who, and for which lock.
    spinner: Spinner,
    /// The place of its processor in the list of processors.
    lane: usize,
    /// From where.
    from: u64,
}

/// What is recorded of spin locks and mutexes.
#[derive(Drop)]
pub struct Locks {
    /// The locks of the board, by ascending number.
    locks: Vec<Lock>,
    /// Who asks now.
    asking: Vec<Asking>,
    /// Who held one before.
    holds: Vec<Hold>,
    /// Who asked before.
    spins: Vec<Spinning>,
    /// Who has and had the mutexes.
    mutexes: Mutexes,
}

/// What was recorded of spin locks and mutexes.
#[derive(Drop)]
pub struct LocksSeen {
    /// The numbers of the locks.
    pub locks: Vec<u8>,
    /// Who held them.
    pub holds: Vec<Hold>,
    /// Who asked for them.
    pub spins: Vec<Spinning>,
    /// The numbers of the mutexes that a task had.
    pub mutexes: Vec<u8>,
    /// Who had them.
    pub owned: Vec<Owning>,
}

impl Locks {
    /// The spin locks and mutexes of a board, from a position on.
    pub fn new(alloc: Global, board: &Board, from: u64) -> Result<Locks, NoMemory> {
        let mut locks = Vec::new(alloc);
        for id in 1..256u16 {
            let id = id as u8;
            if board.spin(id).is_some() {
                locks.push(Lock {
                    id,
                    holder: holder_of(board, id, from),
                })?;
            }
        }
        Ok(Locks {
            locks,
            asking: Vec::new(alloc),
            holds: Vec::new(alloc),
            spins: Vec::new(alloc),
            mutexes: Mutexes::new(alloc, board, from)?,
        })
    }

    /// Who holds the locks and has the mutexes of a board from a position on, after an event; nobody if it is off.
    pub fn see(&mut self, board: &Board, told: &Happening, at: u64) -> Result<(), NoMemory> {
        self.mutexes.see(board, told, at)?;
        self.see_holders(board, at)
    }

    /// Who holds the locks of a board from a position on.
    fn see_holders(&mut self, board: &Board, at: u64) -> Result<(), NoMemory> {
        for place in 0..self.locks.len() {
            let Some(lock) = self.locks.get(place).copied() else {
                return Ok(());
            };
            let now = holder_of(board, lock.id, at);
            if !same_holder(lock.holder, now) {
                self.end_hold(place, at)?;
                put_lock(
                    &mut self.locks,
                    place,
                    Lock {
                        id: lock.id,
                        holder: now,
                    },
                );
            }
        }
        Ok(())
    }

    /// Ends that a lock is held.
    fn end_hold(&mut self, place: usize, to: u64) -> Result<(), NoMemory> {
        let Some(
            Lock {
                holder: Some(Holder { cpu, from }),
                ..
            },
        ) = self.locks.get(place).copied()
        else {
            return Ok(());
        };
        if from < to {
            self.holds.push(Hold {
                lock: place,
                cpu,
                from,
                to,
            })?;
        }
        Ok(())
    }

    /// Somebody has asked for a lock that is held, and asks again from a position on, on the processor of a lane.
    pub fn ask(&mut self, spinner: Spinner, lane: usize, at: u64) -> Result<(), NoMemory> {
        for asking in self.asking.iter() {
            if asking.spinner == spinner {
                return Ok(());
            }
        }
        self.asking.push(Asking {
            spinner,
            lane,
            from: at,
        })?;
        Ok(())
    }

    /// Ends what a position ends: a task or a handler asks no more where its processor has made another step, or it
    /// does something else, or is elsewhere.
    pub fn answer(
        &mut self,
        known: Known,
        board: &Board,
        cpu: Option<u8>,
        at: u64,
    ) -> Result<(), NoMemory> {
        for _ in 0..self.asking.len() {
            let Some(place) = self.answered(known, board, cpu) else {
                return Ok(());
            };
            if place < self.asking.len() {
                let asking = self.asking.swap_remove(place);
                self.end_asking(asking, at)?;
            }
        }
        Ok(())
    }

    /// The place of one that asks no more.
    fn answered(&self, known: Known, board: &Board, cpu: Option<u8>) -> Option<usize> {
        for place in 0..self.asking.len() {
            let spinner = self.asking[place].spinner;
            if known.is_off || cpu == Some(spinner.cpu) || !stands(known, board, spinner) {
                return Some(place);
            }
        }
        None
    }

    /// Ends that somebody asks.
    fn end_asking(&mut self, asking: Asking, to: u64) -> Result<(), NoMemory> {
        if asking.from < to {
            self.spins.push(Spinning {
                lane: asking.lane,
                lock: asking.spinner.lock,
                from: asking.from,
                to,
            })?;
        }
        Ok(())
    }

    /// What was recorded up to a position.
    pub fn end(mut self, alloc: Global, to: u64) -> Result<LocksSeen, NoMemory> {
        for place in 0..self.locks.len() {
            self.end_hold(place, to)?;
        }
        for place in 0..self.asking.len() {
            if let Some(asking) = self.asking.get(place).copied() {
                self.end_asking(asking, to)?;
            }
        }
        let Locks {
            locks,
            asking: _,
            holds,
            spins,
            mutexes,
        } = self;
        let (mutexes, owned) = mutexes.end(alloc, to)?;
        let mut ids = Vec::new(alloc);
        for lock in locks.iter() {
            ids.push(lock.id)?;
        }
        Ok(LocksSeen {
            locks: ids,
            holds,
            spins,
            mutexes,
            owned,
        })
    }
}

/// Whether a task or a handler still stands where it has asked for a lock.
fn stands(known: Known, board: &Board, spinner: Spinner) -> bool {
    if known.standings.at(spinner.cpu) != Some(spinner.who) {
        return false;
    }
    match board.registers(spinner.cpu) {
        Some(context) => context.pc() == spinner.place,
        None => false,
    }
}

/// Who holds a spin lock of a board from a position on: nobody where the board is off.
fn holder_of(board: &Board, id: u8, from: u64) -> Option<Holder> {
    if board.is_off() {
        return None;
    }
    match board.spin(id) {
        Some(Spin::Held(cpu)) => Some(Holder { cpu, from }),
        _ => None,
    }
}

/// Whether a lock is held by the same processor as before, or by none.
fn same_holder(before: Option<Holder>, now: Option<Holder>) -> bool {
    match (before, now) {
        (Some(before), Some(now)) => before.cpu == now.cpu,
        (None, None) => true,
        _ => false,
    }
}

/// Writes a lock anew.
fn put_lock(locks: &mut Vec<Lock>, place: usize, lock: Lock) {
    if place < locks.len() {
        locks[place] = lock;
    }
}
