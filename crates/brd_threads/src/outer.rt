//! What comes from outside the processors.

ghost use Rattle.std.specs.Prelude.{◌≡◌};
ghost use Rattle.brd_threads.specs.Outers.{event_of};

use brd_base::Same;
use brd_board::Event;

/// An event that no processor makes: an entry of a script.
#[derive(Clone, Copy, Debug, PartialEq, Eq)]
pub enum Outer {
    /// A tick passes.
    Tick,
    /// An interrupt line is raised.
    Raise(u8),
}

impl Outer {
    /// The event that it is for the board.
    pub fn event(self) -> Event
        ensures { result ≡ event_of self }
    {
        match self {
            Outer::Tick => Event::Tick,
            Outer::Raise(line) => Event::Raise(line),
        }
    }
}

impl Same for Outer {
    fn same(&self, other: &Self) -> bool {
        match (self, other) {
            (Outer::Tick, Outer::Tick) => true,
            (Outer::Raise(line), Outer::Raise(another)) => line == another,
            (Outer::Tick, Outer::Raise(_)) | (Outer::Raise(_), Outer::Tick) => false,
        }
    }
}
