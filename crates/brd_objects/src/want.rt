//! What a task wants of an event flag.

ghost use Rattle.std.specs.Prelude.{◌≡◌};
ghost use Rattle.brd_objects.specs.Columns.{mode_word};
ghost use Rattle.brd_objects.specs.Waiters.{satisfies};

use brd_base::Same;

/// Which of the bits have to be set (uITRON 4.0 specification, "Eventflags").
#[derive(Clone, Copy, PartialEq, Eq)]
pub enum Mode {
    /// TWF_ANDW: all of them.
    All,
    /// TWF_ORW: any of them.
    Any,
}

/// The bits for which a task waits.
#[derive(Clone, Copy, PartialEq, Eq)]
pub struct Want {
    /// The bits.
    pub bits: u32,
    /// Which of them have to be set.
    pub mode: Mode,
}

impl Same for Want {
    fn same(&self, other: &Self) -> bool {
        *self == *other
    }
}

impl Mode {
    /// The number by which the scan knows it.
    pub fn word(self) -> u32
        ensures { result ≡ mode_word self }
    {
        match self {
            Mode::All => 0,
            Mode::Any => 1,
        }
    }
}

impl Want {
    /// Whether a pattern satisfies it.
    #[tactic(auto, unfolding(crate::specs::Waiters::satisfies))]
    pub fn is_satisfied_by(self, pattern: u32) -> bool
        ensures { result ≡ satisfies pattern self }
    {
        match self.mode {
            Mode::All => pattern & self.bits == self.bits,
            Mode::Any => pattern & self.bits != 0,
        }
    }
}
