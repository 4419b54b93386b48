//! Which threads requests are of.

ghost use Rattle.std.specs.Prelude.{◌≡◌};
ghost use Rattle.brd_stub.specs.Selecting.{beginning, stepping_of, chosen_by, named_by, asked_by, switched_by};

use crate::threads::{Thread, switched, thread_named};
use brd_board::Board;
use brd_gdb::{ThreadId, ThreadKind};

/// Which threads requests are of.
#[derive(Clone, Copy, PartialEq, Eq)]
pub struct Selection {
    /// The thread whose registers are read.
    pub reading: Thread,
    /// The thread that is named for moves, if one is.
    pub named: Option<Thread>,
    /// The thread that moves where none is named.
    pub chosen: Thread,
}

impl Selection {
    /// This thread, and none that is named.
    pub fn new(thread: Thread) -> Selection
        ensures { result ≡ beginning thread }
    {
        Selection {
            reading: thread,
            named: None,
            chosen: thread,
        }
    }

    /// The thread that a move steps that names none itself.
    pub fn stepping(&self) -> Thread
        ensures { result ≡ stepping_of self.now }
    {
        match self.named {
            Some(thread) => thread,
            None => self.chosen,
        }
    }

    /// The same after a thread was selected for reading, or a move has stopped in it.
    pub fn choosing(self, thread: Thread) -> Selection
        ensures { result ≡ chosen_by thread self }
    {
        Selection {
            reading: thread,
            chosen: thread,
            ..self
        }
    }

    /// The same after a name was given for moves, which is that of this thread unless any is meant.
    pub fn naming(self, name: ThreadId, thread: Thread) -> Selection
        ensures { result ≡ named_by name thread self }
    {
        let named = match name {
            ThreadId::All | ThreadId::Any => None,
            ThreadId::One(_) => Some(thread),
        };
        Selection { named, ..self }
    }

    /// The same after it was asked whether a thread is there.
    pub fn asking(self, kind: ThreadKind, board: &Board, name: ThreadId) -> Selection
        ensures { result ≡ asked_by kind board.now name self }
    {
        match thread_named(kind, board, name, self.chosen) {
            Some(chosen) => Selection { chosen, ..self },
            None => self,
        }
    }

    /// The same after other things are threads.
    pub fn switching(self, kind: ThreadKind, board: &Board) -> Selection
        ensures { result ≡ switched_by kind board.now self }
    {
        Selection {
            reading: switched(kind, board, self.reading),
            named: None,
            chosen: switched(kind, board, self.chosen),
        }
    }
}
