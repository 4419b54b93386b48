//! Why there is no picture.

ghost use Rattle.std.specs.Prelude.{◌≡◌};
ghost use Rattle.brd_timeline.specs.declared.fault.PictureFault.TheVariants.{NoMemory as no_memory};

use brd_base::NoMemory;
use thiserror::Error;

/// What keeps a picture from being drawn.
#[derive(Clone, Copy, Debug, PartialEq, Eq, Error)]
pub enum PictureFault {
    /// The program ran out of memory.
    #[error("out of memory")]
    NoMemory,
    /// There are more than `MOST_DRAWN` lanes, slices and marks together.
    #[error("more to draw than a picture can show")]
    TooMuch,
}

impl From<NoMemory> for PictureFault {
    ghost from_gives = { λ _ fault. fault ≡ no_memory };

    fn from(_e: NoMemory) -> Self {
        PictureFault::NoMemory
    }
}
