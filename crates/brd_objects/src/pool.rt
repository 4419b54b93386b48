//! A fixed memory pool.

ghost use Rattle.std.specs.Prelude.{◌≡◌, ◌<◌, ◌≤◌, IfOk, IfSome, length, map};
ghost use Rattle.brd_objects.specs.QueueOrder.{order_of};
ghost use Rattle.brd_objects.specs.Waiters.{first_in};
ghost use Rattle.brd_objects.specs.Pools.{
  laid,
  pool_of,
  free_block,
  free_among,
  is_out,
  marked,
  block_for,
  handed_out,
  given_back,
  next_holder,
  pool_awaited,
  pool_left,
  pool_reordered,
};

mod saved;

use crate::block::{Block, PoolSetup};
use crate::object::Object;
use bitflags::Flags;
use brd_base::{NoMemory, Same, copy_with_room, same_slices};
use brd_config::PoolAttributes;
use brd_queue::{Queue, QueueEntry, QueueOrder};
pub use saved::SavedPool;
use std::alloc::{AllocError, Global};
use std::marker::Model;

/// A fixed memory pool (uITRON 4.0 specification, "Fixed-sized Memory Pools"): which of its blocks are out. The blocks
/// themselves are the board's. Only `new` takes memory.
#[derive(Drop)]
pub struct Pool {
    order: QueueOrder,
    blocks: Vec<Block>,
    waiters: Queue<()>,
}

impl Model for Pool {
    ghost use Rattle.std.specs.Prelude.{◌≤◌, length};
    ghost use Rattle.brd_objects.specs.Pools.{PoolState};

    ghost Value = { PoolState };

    ghost view = { λ p. record { order = p.order; blocks = p.blocks.items; waiters = p.waiters } };

    ghost invariant = { λ p. length p.blocks.items ≤ 65535 };
}

impl Clone for Pool {
    ghost is_clone = { λ pool copy. copy ≡ pool };

    fn clone(&self) -> Result<Self, AllocError> {
        Ok(Pool {
            order: self.order,
            blocks: copy_with_room(&self.blocks, 0)?,
            waiters: self.waiters.clone()?,
        })
    }
}

impl Same for Pool {
    fn same(&self, other: &Self) -> bool {
        self.order == other.order
            && same_slices(self.blocks.as_slice(), other.blocks.as_slice())
            && self.waiters.same(&other.waiters)
    }
}

impl Object for Pool {
    type Config = PoolSetup;

    type Saved = SavedPool;

    ghost id_of = { λ setup. setup.id };

    ghost made_of = { pool_of };

    ghost left = { pool_left };

    ghost reordered = { pool_reordered };

    ghost restored = { λ saved. saved };

    ghost clones_are_equal = { λ _ _ same. same };

    fn id(setup: &PoolSetup) -> u16 {
        setup.id
    }

    /// All blocks are there, too.
    fn new(alloc: Global, setup: &PoolSetup) -> Result<Pool, NoMemory> {
        Ok(Pool {
            order: order_of(setup.attributes),
            blocks: laid(alloc, setup.count, setup.distance, setup.start)?,
            waiters: Queue::new(alloc)?,
        })
    }

    fn leave(&mut self, task: u16) {
        let _ = self.waiters.leave(task);
    }

    fn reorder(&mut self, task: u16, priority: u8) {
        self.waiters.reorder(self.order, task, priority);
    }

    fn save(&self) -> Result<SavedPool, NoMemory> {
        self.save()
    }

    fn restore(saved: &SavedPool) -> Result<Pool, NoMemory> {
        saved.restore()
    }
}

impl Pool {
    /// How many blocks are there.
    pub fn free(&self) -> u16
        ensures { result ≡ free_among self.now.blocks }
    {
        free_among(self.blocks.as_slice()).min(65_535) as u16
    }

    /// The task that waits first.
    pub fn first(&self) -> Option<u16>
        ensures { result ≡ first_in self.now.waiters }
    {
        match self.waiters.first() {
            Some(first) => Some(first.id),
            None => None,
        }
    }

    /// Whether a block of the pool begins at an address, and is out.
    pub fn is_out(&self, address: u32) -> bool
        ensures { result ≡ is_out address self.now }
    {
        self.blocks
            .iter()
            .any(|block| block.out && block.address == address)
    }

    /// The block with the lowest address that is there is handed out: its address.
    pub fn get(&mut self) -> Option<u32>
        ensures is { self.new ≡ handed_out self.old }
        ensures block { result ≡ block_for self.old }
    {
        let address = free_block(self.blocks.as_slice())?;
        mark(self.blocks.as_mut_slice(), true, address);
        Some(address)
    }

    /// A block comes back: the first waiter leaves with it, and is answered; else it is there again. What is no block
    /// of the pool that is out changes nothing.
    pub fn give(&mut self, address: u32) -> Option<u16>
        ensures is { self.new ≡ given_back address self.old }
        ensures who { result ≡ next_holder address self.old }
        ensures small { IfSome result (λ id. id < 256) }
    {
        if !self.is_out(address) {
            return None;
        }
        if let Some(first) = self.waiters.serve() {
            return Some(first.id);
        }
        mark(self.blocks.as_mut_slice(), false, address);
        None
    }

    /// A task waits for a block, in the order that the attributes say.
    pub fn wait(&mut self, task: u16, priority: u8)
        requires { task < 256 }
        ensures { self.new ≡ pool_awaited task priority self.old }
    {
        let entry = QueueEntry {
            id: task,
            priority,
            wanted: (),
        };
        self.waiters.place(self.order, entry);
    }
}

/// The order in which tasks wait for a pool of these attributes.
fn order_of(attributes: PoolAttributes) -> QueueOrder
    ensures { result ≡ order_of attributes.0 }
{
    if attributes.contains(PoolAttributes::TA_TPRI) {
        return QueueOrder::Priority;
    }
    QueueOrder::Arrival
}

/// So many blocks, one after the other from an address on, none of them out.
fn laid(alloc: Global, count: u16, distance: u32, start: u32) -> Result<Vec<Block>, NoMemory>
    ensures is { IfOk result (λ blocks. blocks.items ≡ laid count distance start) }
    ensures long { IfOk result (λ blocks. length blocks.items ≤ 65535) }
{
    let mut blocks = Vec::with_capacity(alloc, count as usize)?;
    let mut address = start;
    for _ in 0..count {
        blocks.push(Block {
            address,
            out: false,
        })?;
        address = address.wrapping_add(distance);
    }
    Ok(blocks)
}

/// The address of the first block that isn't out.
fn free_block(blocks: &[Block]) -> Option<u32>
    ensures { result ≡ free_block blocks.now }
{
    for block in blocks {
        if !block.out {
            return Some(block.address);
        }
    }
    None
}

/// How many blocks aren't out.
fn free_among(blocks: &[Block]) -> usize
    ensures is { result ≡ free_among blocks.now }
    ensures few { result ≤ length blocks.now }
{
    let mut free = 0;
    for block in blocks {
        if !block.out {
            free += 1;
        }
    }
    free
}

/// Marks the block at an address: it is out, or it is back.
fn mark(blocks: &mut [Block], out: bool, address: u32)
    ensures { blocks.new ≡ map (marked out address) blocks.old }
{
    for block in blocks.iter_mut() {
        if block.address == address {
            block.out = out;
        }
    }
}
