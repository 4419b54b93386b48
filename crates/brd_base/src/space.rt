//! The addresses that a program can fill, and the sizes that RAM can have.

ghost use Rattle.std.specs.Prelude.{◌≡◌, ◌↔◌, IsTrue};
ghost use Rattle.brd_base.specs.Space.{IsRamSize};

/// The address of RAM's first byte.
pub const BASE: u32 = 0x8000_0000;

/// The address after the last byte that a RAM can have.
pub const TOP: u32 = 0x8100_0000;

/// Whether RAM can have this many bytes: 64 KiB to 16 MiB, in steps of 64 KiB.
pub fn is_ram_size(size: u32) -> bool
    ensures { IsTrue result ↔ IsRamSize size }
{
    size >= 0x1_0000 && size <= 0x100_0000 && size % 0x1_0000 == 0
}
