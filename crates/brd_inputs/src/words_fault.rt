//! What is wrong with the text that `words` reads.

ghost use Rattle.std.specs.Prelude.{◌≡◌};

use brd_base::NoMemory;
use thiserror::Error;

/// What is wrong with the text.
#[derive(Clone, Copy, Debug, PartialEq, Eq, Error)]
pub enum WordsFault {
    /// A growth was refused.
    #[error("out of memory")]
    NoMemory,
    /// Something in this line, counted from 1, isn't a word.
    #[error("line {line}: a word must have eight hexadecimal digits")]
    Syntax { line: usize },
    /// There is one word more than may be.
    #[error("there are more than 16,384 words")]
    TooMany,
}

impl From<NoMemory> for WordsFault {
    ghost use Rattle.brd_inputs.specs.declared.words_fault.WordsFault.TheVariants.{NoMemory as no_memory};

    ghost from_gives = { λ _ fault. fault ≡ no_memory };

    fn from(_e: NoMemory) -> Self {
        WordsFault::NoMemory
    }
}
