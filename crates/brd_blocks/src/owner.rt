//! Who may touch a word of RAM.

ghost use Rattle.std.specs.Prelude.{◌≡◌};
ghost use Rattle.brd_blocks.specs.Owning.{is_own, is_shared, may_store, may_touch};

use brd_board::TaskId;

/// Who may touch an aligned word of RAM.
#[derive(Clone, Copy, PartialEq, Eq)]
pub enum Owner {
    /// Nobody stores to it, and all may fetch and load it.
    Nobody,
    /// This task alone touches it.
    Task(TaskId),
    /// The handler of this processor alone touches it.
    Handler(u8),
    /// All may touch it.
    Shared,
}

impl Owner {
    /// Whether all may touch such a word.
    pub fn is_shared(self) -> bool
        ensures { result ≡ is_shared self }
    {
        matches!(self, Owner::Shared)
    }

    /// Whether such a word is an agent's own.
    fn is_own(self, me: Owner) -> bool
        ensures { result ≡ is_own me self }
    {
        match (me, self) {
            (Owner::Task(id), Owner::Task(other)) => id == other,
            (Owner::Handler(cpu), Owner::Handler(other)) => cpu == other,
            _ => false,
        }
    }

    /// Whether an agent may store to such a word.
    pub(crate) fn may_store(self, me: Owner) -> bool
        ensures { result ≡ may_store me self }
    {
        self.is_shared() || self.is_own(me)
    }

    /// Whether an agent may touch such a word.
    pub(crate) fn may_touch(self, me: Owner) -> bool
        ensures { result ≡ may_touch me self }
    {
        match self {
            Owner::Nobody => true,
            Owner::Task(_) | Owner::Handler(_) | Owner::Shared => self.may_store(me),
        }
    }
}
