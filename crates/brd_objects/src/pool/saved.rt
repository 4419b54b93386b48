//! What a snapshot keeps of a fixed memory pool.

ghost use Rattle.std.specs.Prelude.{◌≡◌, IfOk};

use super::Pool;
use crate::block::Block;
use brd_base::{NoMemory, copy_with_room};
use brd_queue::{QueueOrder, SavedQueue};
use std::marker::Model;

/// A pool without room for any task but those that wait.
#[derive(Drop)]
pub struct SavedPool {
    order: QueueOrder,
    blocks: Vec<Block>,
    waiters: SavedQueue<()>,
}

impl Model for SavedPool {
    ghost use Rattle.std.specs.Prelude.{◌≤◌, length};
    ghost use Rattle.brd_objects.specs.Pools.{PoolState};

    ghost Value = { PoolState };

    ghost view = { λ p. record { order = p.order; blocks = p.blocks.items; waiters = p.waiters } };

    ghost invariant = { λ p. length p.blocks.items ≤ 65535 };
}

impl Pool {
    /// The same pool without room.
    pub fn save(&self) -> Result<SavedPool, NoMemory>
        ensures { IfOk result (λ saved. saved ≡ self.now) }
    {
        Ok(SavedPool {
            order: self.order,
            blocks: copy_with_room(&self.blocks, 0)?,
            waiters: self.waiters.save()?,
        })
    }
}

impl SavedPool {
    /// The same pool with room.
    pub fn restore(&self) -> Result<Pool, NoMemory>
        ensures { IfOk result (λ pool. pool ≡ self.now) }
    {
        Ok(Pool {
            order: self.order,
            blocks: copy_with_room(&self.blocks, 0)?,
            waiters: self.waiters.restore()?,
        })
    }
}
