//! The command `trace` where it makes a page.

ghost use Rattle.std.specs.Prelude.{◌≡◌, ◌⊎◌, ◌≤◌, ◌-◌, length, IfOk, IfSome, MatchResult};
ghost use Rattle.brd_report.specs.Output.{Writes};
ghost use Rattle.brd_page.specs.Page.{IsLastPage, always_shown};
ghost use Rattle.brd_command.specs.TraceCommand.{IsOfWriting};

use crate::trace_command::{Traced, written};
use brd_base::NoMemory;
use brd_board::Board;
use brd_inputs::CommandFault;
use brd_lines::Lines;
use brd_page::{ALWAYS_SHOWN, MOST_EVENTS, PageFault, Part, page};
use brd_printer::Options;
use brd_progress::Progress;
use brd_trace::Tracer;
use brd_verdicts::{Units, findings_of};
use std::io::Write;

impl<'a> Traced<'a> {
    /// Writes the page of the part, with these lines of the source: of all its events, or of the last ones where it has
    /// more than a page has room for.
    pub(crate) fn write_html<W: Write, P: Progress>(
        &self,
        lines: &Lines,
        tracer: Tracer,
        writer: &mut W,
        progress: &mut P,
    ) -> Result<(), CommandFault>
        requires from { self.now.part.from ≤ self.now.part.to }
        requires within { self.now.part.to ≤ length self.now.journal.now.events }
        ensures { MatchResult result (λ _. Writes (IsLastPage tracer.playback.board self.now.journal.now.events
            self.now.part.from self.now.part.to) (W.contents writer.old) (W.contents writer.new)) IsOfWriting }
    {
        let shown = Options {
            cpu: None,
            touching: false,
            ..tracer.printer.options
        };
        let board = &tracer.playback.board;
        let page = self.last_page(board, shown, lines, progress)?;
        written(writer, &page)
    }

    /// The page of the part of a board to which nothing has happened: of all its events, or where it has more than a
    /// page has room for, of the last ones, of which there are half as many until they have.
    pub(crate) fn last_page<P: Progress>(
        &self,
        boot: &Board,
        shown: Options,
        lines: &Lines,
        progress: &mut P,
    ) -> Result<Vec<u8>, NoMemory>
        requires from { self.now.part.from ≤ self.now.part.to }
        requires within { self.now.part.to ≤ length self.now.journal.now.events }
        ensures { IfOk result (λ page. IsLastPage boot.now self.now.journal.now.events self.now.part.from
            self.now.part.to page.items) }
    {
        let found = findings_of(self.alloc, boot.try_copy()?, self.journal, self.part.to)?;
        let units = &found.accounts.units;
        let mut most = MOST_EVENTS.min(self.part.to - self.part.from);
        while most > ALWAYS_SHOWN {
            if let Some(page) = self.page_of_last(most, boot, units, shown, lines, progress)? {
                return Ok(page);
            }
            most /= 2;
        }
        match self.page_of_last(ALWAYS_SHOWN, boot, units, shown, lines, progress)? {
            Some(page) => Ok(page),
            // (So few are always shown.)
            None => Err(NoMemory),
        }
    }

    /// The page of the last events of the part, at most so many, of a board to which nothing has happened; none where
    /// it would be too long.
    fn page_of_last<P: Progress>(
        &self,
        most: u64,
        boot: &Board,
        units: &Units,
        shown: Options,
        lines: &Lines,
        progress: &mut P,
    ) -> Result<Option<Vec<u8>>, NoMemory>
        requires least { always_shown ≤ most }
        requires from { self.now.part.from ≤ self.now.part.to }
        requires within { self.now.part.to ≤ length self.now.journal.now.events }
        ensures { IfOk result (λ found. IfSome found (λ page. IsLastPage boot.now self.now.journal.now.events
            self.now.part.from self.now.part.to page.items)) }
    {
        let first = first_of_last(self.part.from, self.part.to, most);
        let board = boot.try_copy()?;
        let mut tracer = Tracer::new(self.alloc, board, shown)?;
        self.skip(&mut tracer, first, progress)?;
        let part = Part {
            image: self.image,
            journal: self.journal,
            lines,
            units,
            asked: self.part.from,
            to: self.part.to,
        };
        match page(self.alloc, tracer, part) {
            Ok(page) => Ok(Some(page)),
            Err(PageFault::NoMemory) => Err(NoMemory),
            Err(PageFault::TooMuch) => Ok(None),
        }
    }
}

/// The position of the first one of the last events from one position to another, at most so many.
fn first_of_last(from: u64, to: u64, most: u64) -> u64
    requires { from ≤ to }
    ensures least { from ≤ result }
    ensures within { result ≤ to }
    ensures enough { (result ≡ from) ⊎ (most ≤ to - result) }
{
    let events = to - from;
    if events <= most {
        return from;
    }
    to - most
}
