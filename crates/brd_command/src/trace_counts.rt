//! The command `trace` where it counts: lcov's format and Callgrind's.

ghost use Rattle.std.specs.Prelude.{◌≡◌, ◌≤◌, length, codes, MatchResult};
ghost use Rattle.brd_timeline.specs.Ends.{EndsWith};
ghost use Rattle.brd_report.specs.Output.{Writes};
ghost use Rattle.brd_command.specs.TraceCommand.{IsOfWriting};

use crate::trace_command::{Traced, written};
use brd_base::NoMemory;
use brd_cover::{Counting, Sources, put_callgrind, put_lcov};
use brd_inputs::CommandFault;
use brd_lines::Source;
use brd_progress::Progress;
use brd_running::PIECE;
use brd_trace::Tracer;
use std::io::Write;

/// What an object file says of its source.
fn sources_of(source: &Source) -> Sources<'_> {
    Sources {
        lines: &source.lines,
        functions: &source.functions,
    }
}

impl<'a> Traced<'a> {
    /// What is counted of the part.
    fn counted<P: Progress>(&self, tracer: Tracer, progress: &mut P) -> Result<Counting, NoMemory>
        requires start { tracer.playback.at ≡ 0 }
        requires from { self.now.part.from ≤ self.now.part.to }
        requires within { self.now.part.to ≤ length self.now.journal.now.events }
    {
        let mut tracer = tracer;
        self.skip(&mut tracer, self.part.from, progress)?;
        let mut counting = Counting::new(self.alloc, tracer.playback);
        while counting.playback.at < self.part.to {
            let piece = counting.playback.at.saturating_add(PIECE).min(self.part.to);
            counting.advance_far(self.alloc, self.journal, piece)?;
            progress.show(counting.playback.at, self.part.to);
        }
        progress.hide();
        Ok(counting)
    }

    /// Writes in lcov's format what the part executes.
    pub(crate) fn write_lcov<W: Write, P: Progress>(
        &self,
        source: &Source,
        tracer: Tracer,
        writer: &mut W,
        progress: &mut P,
    ) -> Result<(), CommandFault>
        requires start { tracer.playback.at ≡ 0 }
        requires from { self.now.part.from ≤ self.now.part.to }
        requires within { self.now.part.to ≤ length self.now.journal.now.events }
        ensures { MatchResult result
            (λ _. Writes (EndsWith (codes "\n")) (W.contents writer.old) (W.contents writer.new)) IsOfWriting }
    {
        let counting = self.counted(tracer, progress)?;
        let mut out = Vec::new(self.alloc);
        put_lcov(
            self.alloc,
            &counting,
            self.image,
            sources_of(source),
            &mut out,
        )?;
        written(writer, &out)
    }

    /// Writes in Callgrind's format where the part spends its steps.
    pub(crate) fn write_callgrind<W: Write, P: Progress>(
        &self,
        source: &Source,
        tracer: Tracer,
        writer: &mut W,
        progress: &mut P,
    ) -> Result<(), CommandFault>
        requires start { tracer.playback.at ≡ 0 }
        requires from { self.now.part.from ≤ self.now.part.to }
        requires within { self.now.part.to ≤ length self.now.journal.now.events }
        ensures { MatchResult result
            (λ _. Writes (EndsWith (codes "\n")) (W.contents writer.old) (W.contents writer.new)) IsOfWriting }
    {
        let mut counting = self.counted(tracer, progress)?;
        let mut out = Vec::new(self.alloc);
        put_callgrind(self.alloc, &mut counting, sources_of(source), &mut out)?;
        written(writer, &out)
    }
}
