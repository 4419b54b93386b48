//! Why there is no page.

ghost use Rattle.std.specs.Prelude.{◌≡◌};
ghost use Rattle.brd_page.specs.declared.fault.PageFault.TheVariants.{NoMemory as no_memory};

use brd_base::NoMemory;
use thiserror::Error;

/// What keeps a page from being made.
#[derive(Clone, Copy, Debug, PartialEq, Eq, Error)]
pub enum PageFault {
    /// The program ran out of memory.
    #[error("out of memory")]
    NoMemory,
    /// There are more events than `MOST_EVENTS`, or the page would have more bytes than `MOST_BYTES`.
    #[error("more events than a page can show")]
    TooMuch,
}

impl From<NoMemory> for PageFault {
    ghost from_gives = { λ _ fault. fault ≡ no_memory };

    fn from(_e: NoMemory) -> Self {
        PageFault::NoMemory
    }
}
