//! Runs.

ghost use Rattle.std.specs.Prelude.{◌≡◌};
ghost use Rattle.brd_journal.specs.Still.{does_no_more};

use brd_board::{Event, Report};

/// How often an event comes in a row.
#[derive(Clone, Copy, PartialEq, Eq)]
pub struct Run {
    /// The event.
    pub event: Event,
    /// How often it comes.
    pub count: u32,
}

/// Whether an event that comes again does nothing, once it has reported this.
pub(crate) fn does_no_more(event: Event, report: Report) -> bool
    ensures { result ≡ does_no_more event report }
{
    matches!(event, Event::Raise(_))
        || matches!(
            report,
            Report::Off | Report::NoSuch | Report::Stopped | Report::Idle | Report::TimeOver
        )
}
