//! The command `trace` where it writes lines.

ghost use Rattle.std.specs.Prelude.{◌≡◌, ◌≤◌, length, [], IfOk, MatchResult};
ghost use Rattle.brd_board.specs.Board.{BoardState as BoardOf};
ghost use Rattle.brd_journal.specs.Playing.{IsPlayed};
ghost use Rattle.brd_listing.specs.Listing.{IsBehind};
ghost use Rattle.brd_report.specs.Output.{Writes};
ghost use Rattle.brd_printer.specs.Telling.{shown_by};
ghost use Rattle.brd_command.specs.TraceCommand.{
  IsOfWriting,
  TellsSpins,
  WritesLines,
  WritesText,
  WritesTold,
  head,
};

use crate::trace_command::{Traced, written};
use crate::trace_options::TraceOptions;
use brd_base::NoMemory;
use brd_board::Board;
use brd_inputs::CommandFault;
use brd_journal::Playback;
use brd_names::HEAD;
use brd_progress::Progress;
use brd_spins::{put_spins, spins};
use brd_trace::Tracer;
use std::io::Write;

impl<'a> Traced<'a> {
    /// Writes the lines of the part, and then, unless only loads and stores are shown, those of the processors that
    /// spin after it.
    pub(crate) fn write_text<W: Write, P: Progress>(
        &self,
        tracer: Tracer,
        options: TraceOptions,
        writer: &mut W,
        progress: &mut P,
    ) -> Result<(), CommandFault>
        requires start { tracer.playback.at ≡ 0 }
        requires from { self.now.part.from ≤ self.now.part.to }
        requires within { self.now.part.to ≤ length self.now.journal.now.events }
        ensures { MatchResult result (λ _. WritesText options.entry self.now.image.now.symbols self.now.manner
            tracer.playback.board self.now.journal.now.events self.now.part.from self.now.part.to
            (shown_by tracer.printer.options) (W.contents writer.old) (W.contents writer.new)) IsOfWriting }
    {
        let mut tracer = tracer;
        if options.words.is_some() {
            return self.write_lines(&mut tracer, writer, progress);
        }
        let boot = tracer.playback.board.try_copy()?;
        match self.write_lines(&mut tracer, writer, progress) {
            Ok(()) => {}
            Err(fault) => return Err(fault),
        }
        self.write_spins(boot, &tracer.playback, options.cpu, writer)
    }

    /// Writes the lines of the processors that spin after the part, of one of them or of all.
    fn write_spins<W: Write>(
        &self,
        boot: Board,
        playback: &Playback,
        cpu: Option<u8>,
        writer: &mut W,
    ) -> Result<(), CommandFault>
        requires within { self.now.part.to ≤ length self.now.journal.now.events }
        requires at { playback.now.at ≡ self.now.part.to }
        requires played { IsPlayed boot self.now.journal.now.events playback.now }
        ensures { MatchResult result (λ _. Writes (TellsSpins self.now.image.now.symbols cpu boot
            self.now.journal.now.events self.now.part.to) (W.contents writer.old) (W.contents writer.new)) IsOfWriting }
    {
        let mut lines = Vec::new(self.alloc);
        self.put_spins(boot, playback, cpu, &mut lines)?;
        written(writer, &lines)
    }

    /// Puts at the end the lines of the processors that spin after the part, of one of them or of all.
    pub(crate) fn put_spins(
        &self,
        boot: Board,
        playback: &Playback,
        cpu: Option<u8>,
        out: &mut Vec<u8>,
    ) -> Result<(), NoMemory>
        requires within { self.now.part.to ≤ length self.now.journal.now.events }
        requires at { playback.now.at ≡ self.now.part.to }
        requires played { IsPlayed boot self.now.journal.now.events playback.now }
        ensures { IfOk result (λ _. IsBehind (TellsSpins self.now.image.now.symbols cpu boot
            self.now.journal.now.events self.now.part.to) out.old.items out.new.items) }
    {
        let symbols = self.image.symbols.as_slice();
        let spinning = spins(self.alloc, boot, self.journal, playback)?;
        put_spins(self.alloc, symbols, cpu, spinning.as_slice(), out)
    }

    /// Lets a tracer do the events up to the end of the part, and writes their lines.
    fn write_events<W: Write, P: Progress>(
        &self,
        tracer: &mut Tracer,
        writer: &mut W,
        progress: &mut P,
    ) -> Result<(), CommandFault>
        requires on { tracer.old.playback.at ≤ self.now.part.to }
        requires within { self.now.part.to ≤ length self.now.journal.now.events }
        ensures at { IfOk result (λ _. tracer.new.playback.at ≡ self.now.part.to) }
        ensures played { IfOk result (λ _. (boot : BoardOf)
            → IsPlayed boot self.now.journal.now.events tracer.old.playback
            → IsPlayed boot self.now.journal.now.events tracer.new.playback) }
        ensures told { MatchResult result (λ _. (boot : BoardOf)
            → IsPlayed boot self.now.journal.now.events tracer.old.playback
            → WritesTold self.now.manner boot self.now.journal.now.events tracer.old.playback.at self.now.part.to
            tracer.old.printer tracer.new.printer (W.contents writer.old) (W.contents writer.new)) IsOfWriting }
    {
        while tracer.playback.at < self.part.to {
            let lines = self.advance(tracer, self.part.to)?;
            progress.hide();
            match written(writer, &lines) {
                Ok(()) => {}
                Err(fault) => return Err(fault),
            }
            progress.show(tracer.playback.at, self.part.to);
        }
        progress.hide();
        Ok(())
    }

    /// Writes the lines of the part, after the names of the columns.
    fn write_lines<W: Write, P: Progress>(
        &self,
        tracer: &mut Tracer,
        writer: &mut W,
        progress: &mut P,
    ) -> Result<(), CommandFault>
        requires start { tracer.old.playback.at ≡ 0 }
        requires from { self.now.part.from ≤ self.now.part.to }
        requires within { self.now.part.to ≤ length self.now.journal.now.events }
        ensures at { IfOk result (λ _. tracer.new.playback.at ≡ self.now.part.to) }
        ensures played { IfOk result (λ _. IsPlayed tracer.old.playback.board self.now.journal.now.events
            tracer.new.playback) }
        ensures told { MatchResult result (λ _. WritesLines head self.now.manner tracer.old.playback.board
            self.now.journal.now.events self.now.part.from self.now.part.to (shown_by tracer.old.printer.options)
            (W.contents writer.old) (W.contents writer.new)) IsOfWriting }
    {
        self.skip(tracer, self.part.from, progress)?;
        match written(writer, HEAD.as_bytes()) {
            Ok(()) => {}
            Err(fault) => return Err(fault),
        }
        self.write_stretch(tracer, writer, progress)
    }

    /// Writes what each processor does, the lines from there to the end of the part, and what was held back.
    fn write_stretch<W: Write, P: Progress>(
        &self,
        tracer: &mut Tracer,
        writer: &mut W,
        progress: &mut P,
    ) -> Result<(), CommandFault>
        requires on { tracer.old.playback.at ≤ self.now.part.to }
        requires within { self.now.part.to ≤ length self.now.journal.now.events }
        ensures at { IfOk result (λ _. tracer.new.playback.at ≡ self.now.part.to) }
        ensures played { IfOk result (λ _. (boot : BoardOf)
            → IsPlayed boot self.now.journal.now.events tracer.old.playback
            → IsPlayed boot self.now.journal.now.events tracer.new.playback) }
        ensures told { MatchResult result (λ _. (boot : BoardOf)
            → IsPlayed boot self.now.journal.now.events tracer.old.playback
            → WritesLines [] self.now.manner boot self.now.journal.now.events tracer.old.playback.at self.now.part.to
            (shown_by tracer.old.printer.options) (W.contents writer.old) (W.contents writer.new)) IsOfWriting }
    {
        let mut first = Vec::new(self.alloc);
        tracer.show(self.alloc, self.manner, &mut first)?;
        match written(writer, &first) {
            Ok(()) => {}
            Err(fault) => return Err(fault),
        }
        match self.write_events(tracer, writer, progress) {
            Ok(()) => {}
            Err(fault) => return Err(fault),
        }
        let mut last = Vec::new(self.alloc);
        tracer.finish(self.alloc, self.manner, &mut last)?;
        written(writer, &last)
    }
}
