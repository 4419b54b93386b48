//! Where a configuration lays the blocks of its memory pools.

ghost use Rattle.std.specs.Prelude.{◌≡◌, ◌≤◌, ◌+◌, ◌^◌, All};
ghost use Rattle.brd_base.specs.Space.{base};
ghost use Rattle.brd_mem.specs.Memory.{size_of};
ghost use Rattle.brd_board.specs.Setup as setup;
ghost use Rattle.brd_board.specs.Setup.{Boots};

use crate::boot::BootFault;
use crate::setup::{rounded_up, value_of};
use brd_base::{BASE, List};
use brd_config::{PoolConfig, Stack, TaskConfig};
use brd_mem::{Ram, Symbol};
use brd_objects::{PoolSetup, distance_of};
use std::alloc::Global;

/// Where the blocks of a memory pool lie.
#[derive(Clone, Copy)]
pub struct Area {
    /// Its lowest address.
    pub low: u32,
    /// Where the next area that the configuration leaves open ends.
    pub free: u32,
}

/// A memory pool with its place in memory.
#[derive(Clone, Copy)]
pub struct PlacedPool {
    /// What it is made of.
    pub setup: PoolSetup,
    /// Where the next area that the configuration leaves open ends.
    pub free: u32,
}

/// Where the next area that the configuration leaves open ends, after a task's stack.
fn below_stack(free: u32, task: &TaskConfig) -> u32
    ensures { result ≡ setup.below_stack free task.now.stack_size task.now.stack }
{
    match &task.stack {
        Stack::Automatic => (free as usize).saturating_sub(rounded_up(task.stack_size)) as u32,
        Stack::At(_) => free,
    }
}

/// The same, after all tasks' stacks.
fn below_stacks(ram: &Ram, tasks: &[TaskConfig]) -> u32
    ensures { result ≡ setup.below_stacks (base + size_of ram.now) tasks.now }
{
    let mut free = BASE + ram.size() as u32;
    for task in tasks {
        free = below_stack(free, task);
    }
    free
}

/// How many bytes the blocks of a pool have.
fn bytes_of_pool(pool: &PoolConfig) -> usize
    requires { pool.now.size ≤ 2 ^ 24 }
    ensures { result ≡ setup.bytes_of_pool pool.now }
{
    pool.count as usize * distance_of(pool.size) as usize
}

/// The area of a pool, where the next one that the configuration leaves open ends at `free`.
#[tactic(auto, unfolding(crate::specs::Setup::area_of))]
fn area_of(symbols: &[Symbol], free: u32, pool: &PoolConfig) -> Result<Area, BootFault>
    requires { pool.now.size ≤ 2 ^ 24 }
    ensures { result ≡ setup.area_of symbols.now free pool.now }
{
    match &pool.area {
        Stack::Automatic => {
            let low = (free as usize).saturating_sub(bytes_of_pool(pool)) as u32;
            Ok(Area { low, free: low })
        }
        Stack::At(operand) => {
            let low = value_of(symbols, operand)?;
            Ok(Area { low, free })
        }
    }
}

/// A pool as its statement says it, where the next area that the configuration leaves open ends at `free`.
#[tactic(auto, unfolding(crate::specs::Setup::placed_pool))]
fn placed_pool(
    ram: &Ram,
    symbols: &[Symbol],
    free: u32,
    pool: &PoolConfig,
) -> Result<PlacedPool, BootFault>
    requires { pool.now.size ≤ 2 ^ 24 }
    ensures { result ≡ setup.placed_pool (size_of ram.now) symbols.now free pool.now }
{
    let area = area_of(symbols, free, pool)?;
    if area.low % 4 != 0 || !ram.contains(area.low, bytes_of_pool(pool)) {
        return Err(BootFault::Outside);
    }
    Ok(PlacedPool {
        setup: PoolSetup {
            id: pool.id,
            attributes: pool.attributes,
            count: pool.count,
            distance: distance_of(pool.size),
            start: area.low,
        },
        free: area.free,
    })
}

/// What the memory pools are made of, in the order of their statements.
pub fn pools_of(
    alloc: Global,
    ram: &Ram,
    symbols: &[Symbol],
    tasks: &[TaskConfig],
    pools: &[PoolConfig],
) -> Result<List<PoolSetup>, BootFault>
    requires { All (λ pool. pool.size ≤ 2 ^ 24) pools.now }
    ensures { Boots (setup.pools_of (size_of ram.now) symbols.now tasks.now pools.now) result }
{
    let mut setups = List::new(alloc);
    let mut free = below_stacks(ram, tasks);
    for pool in pools {
        let placed = placed_pool(ram, symbols, free, pool)?;
        setups.push(placed.setup)?;
        free = placed.free;
    }
    Ok(setups)
}
