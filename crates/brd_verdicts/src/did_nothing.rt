//! What did nothing.

ghost use Rattle.std.specs.Prelude.{◌≡◌};
ghost use Rattle.brd_journal.specs.Still.{did_nothing};

use brd_board::Report;

/// Whether a report says that nothing was done.
pub(crate) fn did_nothing(report: Report) -> bool
    ensures { result ≡ did_nothing report }
{
    match report {
        Report::Off | Report::NoSuch | Report::Stopped | Report::Idle | Report::TimeOver => true,
        Report::Accepted(_)
        | Report::Ran(_)
        | Report::Called(_)
        | Report::Faulted(_)
        | Report::Ticked
        | Report::Raised => false,
    }
}
