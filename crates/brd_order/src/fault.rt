//! Why the order isn't followed further.

ghost use Rattle.std.specs.Prelude.{◌≡◌};
ghost use Rattle.brd_order.specs.declared.fault.OrderFault.TheVariants.{NoMemory as no_memory};

use brd_base::NoMemory;
use std::alloc::AllocFailed;
use thiserror::Error;

/// Why the order isn't followed further.
#[derive(Clone, Copy, Debug, PartialEq, Eq, Error)]
pub enum OrderFault {
    /// There is no memory left.
    #[error("out of memory")]
    NoMemory,
    /// More words are touched than are kept.
    #[error("more than 2097152 touches that differ by word, task or handler, and kind")]
    TooManyTouches,
    /// More things order strands than are kept.
    #[error("more than 65536 things that order tasks and handlers")]
    TooManyThings,
    /// More deeds are done than can be counted.
    #[error("more deeds than can be counted")]
    TooManyDeeds,
}

impl From<NoMemory> for OrderFault {
    ghost from_gives = { λ _ e. e ≡ no_memory };

    fn from(_e: NoMemory) -> Self {
        OrderFault::NoMemory
    }
}

impl<T: Drop> From<AllocFailed<T>> for OrderFault {
    ghost from_gives = { λ _ e. e ≡ no_memory };

    fn from(_e: AllocFailed<T>) -> Self {
        OrderFault::NoMemory
    }
}
