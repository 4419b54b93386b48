//! Why an event isn't appended, or a text isn't read.

ghost use Rattle.std.specs.Prelude.{◌≡◌};
ghost use Rattle.brd_journal.specs.declared.fault.JournalFault.TheVariants.{NoMemory as no_memory};

use brd_base::NoMemory;
use thiserror::Error;

/// Why an event isn't appended to a journal, or a text isn't read as one.
#[derive(Clone, Copy, Debug, PartialEq, Eq, Error)]
pub enum JournalFault {
    /// Memory ran out.
    #[error("out of memory")]
    NoMemory,
    /// The events need more runs than the journal's limit.
    #[error("its events need more runs than its limit")]
    Full,
    /// A line of the text has none of the forms, or no newline at its end. Lines are counted from 1.
    #[error("line {line}: expected `board-journal 2 big` or `board-journal 2 little` first, then lines `S CPU \
         COUNT`, `T COUNT` and `R LINE COUNT`")]
    Syntax { line: usize },
}

impl From<NoMemory> for JournalFault {
    ghost from_gives = { λ _ fault. fault ≡ no_memory };

    fn from(_e: NoMemory) -> JournalFault {
        JournalFault::NoMemory
    }
}
