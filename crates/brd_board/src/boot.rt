//! Why a board doesn't start.

ghost use Rattle.std.specs.Prelude.{◌≡◌};
ghost use Rattle.brd_board.specs.declared.boot.BootFault.TheVariants.{NoMemory as no_memory};

use brd_base::NoMemory;
use thiserror::Error;

/// Why a board doesn't start.
#[derive(Clone, Copy, Debug, PartialEq, Eq, Error)]
pub enum BootFault {
    /// A growth was refused.
    #[error("out of memory")]
    NoMemory,
    /// A name of the configuration isn't one of the image's symbols.
    #[error("the configuration names a symbol that the image doesn't have")]
    UnknownSymbol,
    /// A segment, a task's stack, the blocks of a memory pool, or the address of a task or a handler isn't in RAM, or
    /// the blocks or such an address isn't aligned.
    #[error("a segment, a stack, a memory pool or a start isn't in the board's RAM, or a pool or a start isn't aligned")]
    Outside,
}

impl From<NoMemory> for BootFault {
    ghost from_gives = { λ _ fault. fault ≡ no_memory };

    fn from(_e: NoMemory) -> Self {
        BootFault::NoMemory
    }
}
