//! Why a debugger doesn't move.

ghost use Rattle.std.specs.Prelude.{◌≡◌};
ghost use Rattle.brd_debug.specs.declared.fault.DebugFault.TheVariants.{NoMemory as no_memory};

use brd_base::NoMemory;
use thiserror::Error;

/// Why a debugger doesn't move. It stays where it was.
#[derive(Clone, Copy, Debug, PartialEq, Eq, Error)]
pub enum DebugFault {
    /// Memory ran out.
    #[error("out of memory")]
    NoMemory,
    /// There are fewer events.
    #[error("the journal has {len} events")]
    Past {
        /// How many there are.
        len: u64,
    },
}

impl From<NoMemory> for DebugFault {
    ghost from_gives = { λ _ fault. fault ≡ no_memory };

    fn from(_e: NoMemory) -> Self {
        DebugFault::NoMemory
    }
}
