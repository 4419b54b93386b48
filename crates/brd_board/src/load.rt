//! Putting an image into memory.

ghost use Rattle.std.specs.Prelude.{◌≡◌, IfOk};
ghost use Rattle.brd_base.specs.Space.{IsRamSize};
ghost use Rattle.brd_mem.specs.Image.{AreApart};
ghost use Rattle.brd_mem.specs.Memory.{size_of, zeros};
ghost use Rattle.brd_board.specs.Setup.{Boots};
ghost use Rattle.brd_board.specs.Boot.{loaded};

use crate::boot::BootFault;
use brd_base::NoMemory;
use brd_mem::{Ram, Segment};
use brd_word::Order;
use std::alloc::Global;

/// RAM of this many bytes, all zero, with words in this order.
fn empty_ram(alloc: Global, size: u32, order: Order) -> Result<Ram, NoMemory>
    requires { IsRamSize size }
    ensures { IfOk result (λ ram. ram ≡ zeros order size) }
{
    match Ram::new(alloc, size, order) {
        Ok(ram) => Ok(ram),
        Err(_) => Err(NoMemory),
    }
}

/// RAM of this many bytes with each segment in its place, and zero elsewhere, and with words in this order.
#[tactic(auto, unfolding(crate::specs::Boot::loaded))]
pub fn loaded(
    alloc: Global,
    size: u32,
    order: Order,
    segments: &[Segment],
) -> Result<Ram, BootFault>
    requires size { IsRamSize size }
    requires apart { AreApart segments.now }
    ensures is { Boots (loaded order size segments.now) result }
    ensures size { IfOk result (λ ram. size_of ram ≡ size) }
{
    let mut ram = empty_ram(alloc, size, order)?;
    for segment in segments {
        let bytes = segment.bytes.as_slice();
        if !ram.contains(segment.address, bytes.len()) {
            return Err(BootFault::Outside);
        }
        ram.copy_in(segment.address, bytes);
    }
    Ok(ram)
}
