//! Why no journal is made.

use brd_base::NoMemory;
use thiserror::Error;

/// Why no journal is made of the options of `journal`.
#[derive(Clone, Copy, Debug, PartialEq, Eq, Error)]
pub enum ScheduleFault {
    /// A growth was refused.
    #[error("out of memory")]
    NoMemory,
    /// The number of processors.
    #[error("CPUS is 1 to 8")]
    Processors,
    /// The byte order.
    #[error("--order is big or little")]
    Order,
    /// A raise.
    #[error("--raise takes LINE@EVENT, with commas between several, as 4@10,4@20; a line is 0 to 255, an event 1 to \
         4294967295, each once")]
    Raise,
    /// Weights.
    #[error("--weights takes a number from 0 to 1000000 for each processor, with commas between them, as 3,1,1, and \
         not all are 0")]
    Weights,
    /// A chance of more than a thousand in a thousand.
    #[error("--switch is 0 to 1000, in a thousand")]
    Switch,
    /// Too many changes.
    #[error("--pct is 0 to 1000 changes")]
    Changes,
    /// An option of a random journal without a seed.
    #[error("--switch, --weights and --pct are for a journal that is drawn: give --random SEED")]
    NoSeed,
    /// Options that don't go together.
    #[error("--turn doesn't go with --random, nor --pct with --switch and --weights")]
    Both,
    /// More runs than a journal may have.
    #[error("the journal needs more than 4194304 runs")]
    TooLong,
}

impl From<NoMemory> for ScheduleFault {
    fn from(_e: NoMemory) -> Self {
        ScheduleFault::NoMemory
    }
}
