//! Why something isn't done.

ghost use Rattle.std.specs.Prelude.{◌≡◌};
ghost use Rattle.brd_threads.specs.Faults.{commit_fault_of, race_fault_of};
ghost use Rattle.brd_threads.specs.declared.fault.StationFault.TheVariants as station_fault;
ghost use Rattle.brd_threads.specs.declared.fault.ScriptFault.TheVariants as script_fault;
ghost use Rattle.brd_threads.specs.declared.fault.RaceFault.TheVariants as race_fault;

use brd_base::NoMemory;
use std::alloc::AllocError;
use thiserror::Error;

/// Why a station doesn't do an event. Nothing has changed.
#[derive(Clone, Copy, Debug, PartialEq, Eq, Error)]
pub enum StationFault {
    /// Memory ran out.
    #[error("out of memory")]
    NoMemory,
    /// The events need more runs than the journal's limit.
    #[error("the events need more runs than the journal's limit")]
    JournalFull,
}

impl From<NoMemory> for StationFault {
    ghost from_gives = { λ _ fault. fault ≡ station_fault.NoMemory };

    fn from(_e: NoMemory) -> Self {
        StationFault::NoMemory
    }
}

impl From<AllocError> for StationFault {
    ghost from_gives = { λ _ fault. fault ≡ station_fault.NoMemory };

    fn from(_e: AllocError) -> Self {
        StationFault::NoMemory
    }
}

/// Why a lease isn't committed. Nothing has changed.
#[derive(Clone, Copy, Debug, PartialEq, Eq, Error)]
pub enum CommitFault {
    /// Memory ran out.
    #[error("out of memory")]
    NoMemory,
    /// The events need more runs than the journal's limit.
    #[error("the events need more runs than the journal's limit")]
    JournalFull,
    /// The board is off, an interrupt is deliverable to the lease's processor, or its block or its window of code isn't
    /// what was lent.
    #[error("the lease is stale")]
    Stale,
}

impl From<StationFault> for CommitFault {
    ghost from_gives = { λ fault commit_fault. commit_fault ≡ commit_fault_of fault };

    fn from(fault: StationFault) -> Self {
        match fault {
            StationFault::NoMemory => CommitFault::NoMemory,
            StationFault::JournalFull => CommitFault::JournalFull,
        }
    }
}

/// Why a text isn't read as a script.
#[derive(Clone, Copy, Debug, PartialEq, Eq, Error)]
pub enum ScriptFault {
    /// Memory ran out.
    #[error("out of memory")]
    NoMemory,
    /// A line of the text has none of the forms or no newline at its end, or makes too many events in all. Lines
    /// are counted from 1.
    #[error("line {line}: expected `T COUNT` or `R LINE COUNT`, and at most 1,000,000 events in all")]
    Syntax { line: usize },
}

impl From<NoMemory> for ScriptFault {
    ghost from_gives = { λ _ fault. fault ≡ script_fault.NoMemory };

    fn from(_e: NoMemory) -> Self {
        ScriptFault::NoMemory
    }
}

/// Why a race has no result.
#[derive(Clone, Copy, Debug, PartialEq, Eq, Error)]
pub enum RaceFault {
    /// Memory ran out, or a thread couldn't be started.
    #[error("out of memory, or of threads")]
    NoMemory,
    /// The events need more runs than the journal's limit.
    #[error("the events need more runs than the journal's limit")]
    JournalFull,
    /// What the threads left is of another boot or script, or its journal has more runs than the limit; or something is
    /// undone though the board is on.
    #[error("the threads left another board than theirs, or something undone")]
    Broken,
}

impl From<StationFault> for RaceFault {
    ghost from_gives = { λ fault race_fault. race_fault ≡ race_fault_of fault };

    fn from(fault: StationFault) -> Self {
        match fault {
            StationFault::NoMemory => RaceFault::NoMemory,
            StationFault::JournalFull => RaceFault::JournalFull,
        }
    }
}

impl From<AllocError> for RaceFault {
    ghost from_gives = { λ _ fault. fault ≡ race_fault.NoMemory };

    fn from(_e: AllocError) -> Self {
        RaceFault::NoMemory
    }
}
