//! What the event of a position does.

ghost use Rattle.std.specs.Prelude.{◌≡◌};

use brd_board::{Board, Event, Report};

/// An event that comes next, and what it does.
pub struct Look {
    /// The event.
    pub event: Event,
    /// What it reports.
    pub report: Report,
    /// Whether it is a stop of who is stepped.
    pub stepped: bool,
    /// Whether it executes an instruction at a break.
    pub breaks: bool,
    /// Whether it raises an exception, where these are stops.
    pub faults: bool,
    /// Whether it changes a watched byte, or reads or writes one where that is a stop.
    pub touches: bool,
    /// The board after it.
    pub board: Board,
}

/// Written out, so that a function that lets one go is proved with a call, and not with the end of each part.
impl Drop for Look {
    fn drop(self) {
        let Look {
            event: _,
            report: _,
            stepped: _,
            breaks: _,
            faults: _,
            touches: _,
            board: _,
        } = self;
    }
}

impl Look {
    /// The board after it.
    pub(crate) fn into_board(self) -> Board
        ensures { result ≡ self.board }
    {
        let Look {
            event: _,
            report: _,
            stepped: _,
            breaks: _,
            faults: _,
            touches: _,
            board,
        } = self;
        board
    }
}
