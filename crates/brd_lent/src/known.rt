//! A decoded word.

ghost use Rattle.std.specs.Prelude.{◌≡◌};
ghost use Rattle.brd_lent.specs.Known.{IsRight};

use brd_entries::{CodeEntry, entry_of};

/// A word and its entry.
#[derive(Clone, Copy)]
pub struct Known {
    pub word: u32,
    pub entry: CodeEntry,
}

impl Known {
    /// A word with its entry.
    pub fn of(word: u32) -> Self
        ensures word { result.word ≡ word }
        ensures right { IsRight result }
    {
        Known {
            word,
            entry: entry_of(word),
        }
    }
}
