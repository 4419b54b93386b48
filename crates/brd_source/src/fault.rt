//! Why a line is no statement.

ghost use Rattle.std.specs.Prelude.{◌≡◌};
ghost use Rattle.brd_source.specs.declared.fault.LineFault.TheVariants.{NoMemory as no_memory};

use brd_base::NoMemory;

/// What keeps a line from being read.
#[derive(Clone, Copy, PartialEq, Eq)]
pub enum LineFault {
    /// The program ran out of memory.
    NoMemory,
    /// The line has none of the language's forms.
    Syntax,
}

impl From<NoMemory> for LineFault {
    ghost from_gives = { λ _ e. e ≡ no_memory };

    fn from(_e: NoMemory) -> LineFault {
        LineFault::NoMemory
    }
}
