//! The blocks of a fixed memory pool.

ghost use Rattle.std.specs.Prelude.{◌≡◌, ◌≤◌, ◌^◌};
ghost use Rattle.brd_objects.specs.Pools.{distance_of};

use brd_base::Same;
use brd_config::PoolAttributes;

/// A block of a pool.
#[derive(Clone, Copy, PartialEq, Eq)]
pub struct Block {
    /// Where it begins.
    pub address: u32,
    /// Whether a task has it.
    pub out: bool,
}

impl Same for Block {
    fn same(&self, other: &Self) -> bool {
        *self == *other
    }
}

/// A fixed memory pool, laid out on a board.
#[derive(Clone, Copy)]
pub struct PoolSetup {
    /// 1 to 255.
    pub id: u16,
    pub attributes: PoolAttributes,
    /// How many blocks it has.
    pub count: u16,
    /// How many bytes lie between the starts of two blocks.
    pub distance: u32,
    /// Where the first block begins.
    pub start: u32,
}

/// How many bytes lie between the starts of two blocks of this size, which is at most that of the largest RAM.
pub fn distance_of(size: u32) -> u32
    requires { size ≤ 2 ^ 24 }
    ensures { result ≡ distance_of size }
{
    let high = size + 3;
    high - high % 4
}
