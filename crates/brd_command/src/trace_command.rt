//! The command `trace`.

ghost use Rattle.std.specs.Prelude.{◌≡◌, ◌<◌, ◌≤◌, length, [], IfOk, IfSome, MatchResult, codes, option_map};
ghost use Rattle.std.specs.Io.KnownBytes.{Appends};
ghost use Rattle.brd_timeline.specs.Ends.{EndsWith};
ghost use Rattle.brd_report.specs.Output.{Writes};
ghost use Rattle.brd_command.specs.TraceFiles.{TraceFilesEnd};
ghost use Rattle.brd_command.specs.TraceCommand.{
  EndsDrawing,
  EndsTracing,
  IsFollowed,
  IsKnown,
  IsOfWords,
  IsOfWriting,
  IsPart,
  KeepsFromAsking,
  TraceEnds,
  WritesSummary,
  WritesTimeline,
  of_words,
  words_named,
};
ghost use Rattle.brd_board.specs.Board.{BoardState as BoardOf};
ghost use Rattle.brd_journal.specs.Playing.{IsPlayed};
ghost use Rattle.brd_recording.specs.Slices.{AreSlices};
ghost use Rattle.brd_trace.specs.Recorded.{begun_of};
ghost use Rattle.brd_printer.specs.Telling.{IsTrace};
ghost use Rattle.brd_printer.specs.Words.{Adds};

use crate::odd_ends::warn_of_ends;
use crate::races_command::write_races;
use crate::stacks_command::write_stacks;
use crate::trace_options::{TraceFormat, TraceOptions};
use brd_base::{List, NoMemory};
use brd_board::Board;
use brd_config::Config;
use brd_inputs::{CommandFault, Files, Inputs, Start, TraceFault, open_inputs, read_sourced_start};
use brd_journal::Journal;
use brd_lines::Source;
use brd_listing::Places;
use brd_mem::Image;
use brd_names::Names;
use brd_page::draw;
use brd_printer::{Manner, Options, WordsFault, add_words};
use brd_progress::Progress;
use brd_report::write_whole;
use brd_running::PIECE;
use brd_summary::{put_end, put_summary};
use brd_timeline::{PictureFault, Timeline, json};
use brd_trace::Tracer;
use brd_verdicts::findings_of;
use std::alloc::Global;
use std::io::{Read, Write};

/// Reads an object file, a configuration and a journal to their ends, in this order, lets the board that the first two
/// make do the journal's events, and writes what happens. Nothing is written where what was read has a fault. How far
/// it is, is told on the way.
pub fn trace<R: Read, W: Write, P: Progress>(
    alloc: Global,
    inputs: &mut Inputs<R>,
    options: TraceOptions,
    writer: &mut W,
    progress: &mut P,
) -> Result<(), CommandFault>
    ensures { IfSome (R.remaining inputs.old.image) (λ file. IfSome (R.remaining inputs.old.config) (λ statements.
        IfSome (R.remaining inputs.old.last) (λ events.
        TraceEnds result options.entry file statements events (W.contents writer.old) (W.contents writer.new)))) }
{
    let mut source = Source::new(alloc);
    let start = match read_sourced_start(alloc, inputs, &mut source) {
        Ok(start) => start,
        Err(fault) => return Err(fault),
    };
    write_trace(alloc, start, &source, options, writer, progress)
}

/// Does `trace` on its files: IMAGE is opened, then CONFIG, then JOURNAL, and then all are read. The trace is written.
pub fn trace_files<F: Files, W: Write, P: Progress>(
    alloc: Global,
    files: &mut F,
    image: &str,
    config: &str,
    journal: &str,
    options: TraceOptions,
    output: &mut W,
    progress: &mut P,
) -> Result<(), CommandFault>
    ensures { TraceFilesEnd F.opened F.Input.remaining files.old image.now config.now journal.now options.entry
        (W.contents output.old) (W.contents output.new) result files.new }
{
    let mut inputs = match open_inputs(alloc, files, image, config, journal) {
        Ok(inputs) => inputs,
        Err(fault) => return Err(fault),
    };
    trace(alloc, &mut inputs, options, output, progress)
}

/// The processor that handles each interrupt line of a configuration, 0 where none does.
pub(crate) fn lines_of(config: &Config) -> [u8; 160] {
    let mut lines = [0; 160];
    put_lines(config, &mut lines);
    put_cyclics(config, &mut lines);
    put_alarms(config, &mut lines);
    lines
}

/// Puts the processor of each handler of a line that is raised from outside.
fn put_lines(config: &Config, lines: &mut [u8; 160]) {
    for handler in config.handlers.as_slice() {
        put_processor(handler.line as usize, handler.processor, lines);
    }
}

/// Puts the processor of each cyclic handler.
fn put_cyclics(config: &Config, lines: &mut [u8; 160]) {
    for cyclic in config.cyclics.as_slice() {
        put_processor(30 + 2 * cyclic.id as usize, cyclic.processor, lines);
    }
}

/// Puts the processor of each alarm handler.
fn put_alarms(config: &Config, lines: &mut [u8; 160]) {
    for alarm in config.alarms.as_slice() {
        put_processor(31 + 2 * alarm.id as usize, alarm.processor, lines);
    }
}

/// Puts the processor of a line.
fn put_processor(line: usize, processor: u8, lines: &mut [u8; 160]) {
    if line < lines.len() {
        lines[line] = processor;
    }
}

/// Which events are shown, and in which form.
#[derive(Clone, Copy)]
pub(crate) struct Part {
    /// The form.
    pub(crate) format: TraceFormat,
    /// The position of the first event.
    pub(crate) from: u64,
    /// The position after the last one.
    pub(crate) to: u64,
}

/// The part of a journal with n events that the options ask for.
fn part_of(options: TraceOptions, len: u64) -> Result<Part, TraceFault>
    ensures { MatchResult result (IsPart options.entry len) (KeepsFromAsking options.entry len) }
{
    let Some(format) = options.format else {
        return Err(TraceFault::NoSuchFormat);
    };
    let from = options.from.unwrap_or(0);
    let to = options.to.unwrap_or(len).min(len);
    if from > to {
        return Err(TraceFault::NoEvents(from, to, len));
    }
    Ok(Part { format, from, to })
}

/// Writes what happens to a board under a journal.
fn write_trace<W: Write, P: Progress>(
    alloc: Global,
    start: Start,
    source: &Source,
    options: TraceOptions,
    writer: &mut W,
    progress: &mut P,
) -> Result<(), CommandFault>
    ensures { EndsTracing result options.entry start (W.contents writer.old) (W.contents writer.new) }
{
    let Start {
        board,
        image,
        config,
        journal,
    } = start;
    let part = match part_of(options, journal.len()) {
        Ok(part) => part,
        Err(fault) => return Err(CommandFault::Trace(fault)),
    };
    let mut words = List::new(alloc);
    match choose(&mut words, options.words, &image, &board) {
        Ok(()) => {}
        Err(fault) => return Err(fault),
    }
    let symbols = Places::new(alloc, image.symbols.as_slice())?;
    let names = Names::with_lines(&symbols, image.segments.as_slice(), &source.lines);
    if options.races {
        return write_races(
            alloc, board, &config, names, &journal, part.to, writer, progress,
        );
    }
    if options.stacks {
        return write_stacks(
            alloc, board, &image, &config, &journal, part.to, writer, progress,
        );
    }
    warn_of_ends(
        alloc,
        &board,
        &image,
        &config,
        &journal,
        part.to,
        options.summary,
        progress,
    );
    let shown = Options {
        cpu: options.cpu,
        instructions: options.instructions,
        touching: options.words.is_some(),
        shown: false,
        lines: lines_of(&config),
    };
    let tracer = Tracer::new(alloc, board, shown)?;
    let traced = Traced {
        alloc,
        manner: Manner {
            names,
            order: image.order,
            words: words.as_slice(),
        },
        image: &image,
        journal: &journal,
        part,
    };
    if options.summary {
        return traced.write_summary(tracer, writer, progress);
    }
    match part.format {
        TraceFormat::Text => traced.write_text(tracer, options, writer, progress),
        TraceFormat::Json => traced.write_json(tracer, writer, progress),
        TraceFormat::Svg => traced.write_svg(tracer, writer, progress),
        TraceFormat::Html => traced.write_html(&source.lines, tracer, writer, progress),
        TraceFormat::Lcov => traced.write_lcov(source, tracer, writer, progress),
        TraceFormat::Callgrind => traced.write_callgrind(source, tracer, writer, progress),
    }
}

/// Adds the words of which loads and stores are shown, where an option names some, of a board and its image.
fn choose(
    words: &mut List<u32>,
    named: Option<&str>,
    image: &Image,
    board: &Board,
) -> Result<(), CommandFault>
    ensures { MatchResult result
        (λ _. Adds
        (words_named image.now.symbols board.now (option_map (λ text. text.now) named.entry)) words.old words.new)
        (IsOfWords (words_named image.now.symbols board.now (option_map (λ text. text.now) named.entry))) }
{
    let Some(text) = named else {
        return Ok(());
    };
    match add_words(words, text.as_bytes(), image.symbols.as_slice(), board) {
        Ok(()) => Ok(()),
        Err(fault) => Err(of_words(fault)),
    }
}

/// The fault of words that aren't there.
fn of_words(fault: WordsFault) -> CommandFault
    ensures { result ≡ of_words fault }
{
    match fault {
        WordsFault::NoMemory => CommandFault::NoMemory,
        WordsFault::NoSymbol => CommandFault::Trace(TraceFault::NoSymbol),
        WordsFault::NoWord => CommandFault::Trace(TraceFault::NoWord),
    }
}

/// What a trace is made of.
#[derive(Clone, Copy)]
pub(crate) struct Traced<'a> {
    pub(crate) alloc: Global,
    pub(crate) manner: Manner<'a>,
    pub(crate) image: &'a Image,
    pub(crate) journal: &'a Journal,
    pub(crate) part: Part,
}

impl<'a> Traced<'a> {
    /// Lets a tracer do the next events up to a position, at most a piece of them. Answers their lines, where it shows
    /// some.
    pub(crate) fn advance(&self, tracer: &mut Tracer, to: u64) -> Result<Vec<u8>, NoMemory>
        requires on { tracer.old.playback.at ≤ to }
        requires within { to ≤ length self.now.journal.now.events }
        ensures at { tracer.new.playback.at ≤ to }
        ensures goes { tracer.old.playback.at < to → tracer.old.playback.at < tracer.new.playback.at }
        ensures played { (boot : BoardOf) → IsPlayed boot self.now.journal.now.events tracer.old.playback
            → IsPlayed boot self.now.journal.now.events tracer.new.playback }
        ensures told { IfOk result (λ lines. (boot : BoardOf)
            → IsPlayed boot self.now.journal.now.events tracer.old.playback
            → IsTrace self.now.manner boot self.now.journal.now.events tracer.old.playback.at tracer.new.playback.at
            tracer.old.printer tracer.new.printer lines.items) }
        ensures follows { (boot : BoardOf) → IsFollowed boot self.now.journal.now.events tracer.old
            → IfOk result (λ _. IsFollowed boot self.now.journal.now.events tracer.new) }
        ensures knows { (boot : BoardOf) → IsKnown boot self.now.journal.now.events tracer.old
            → IfOk result (λ _. IsKnown boot self.now.journal.now.events tracer.new) }
        ensures begun { begun_of tracer.new.notes ≡ begun_of tracer.old.notes }
    {
        let mut lines = Vec::new(self.alloc);
        let piece = tracer.playback.at.saturating_add(PIECE).min(to);
        tracer.advance_far(self.alloc, self.manner, self.journal, piece, &mut lines)?;
        Ok(lines)
    }

    /// Lets a tracer do the events up to a position. What it tells of them isn't written.
    pub(crate) fn play<P: Progress>(
        &self,
        tracer: &mut Tracer,
        to: u64,
        progress: &mut P,
    ) -> Result<(), NoMemory>
        requires on { tracer.old.playback.at ≤ to }
        requires within { to ≤ length self.now.journal.now.events }
        ensures at { IfOk result (λ _. tracer.new.playback.at ≡ to) }
        ensures played { (boot : BoardOf) → IsPlayed boot self.now.journal.now.events tracer.old.playback
            → IfOk result (λ _. IsPlayed boot self.now.journal.now.events tracer.new.playback) }
        ensures follows { (boot : BoardOf) → IsFollowed boot self.now.journal.now.events tracer.old
            → IfOk result (λ _. IsFollowed boot self.now.journal.now.events tracer.new) }
        ensures knows { (boot : BoardOf) → IsKnown boot self.now.journal.now.events tracer.old
            → IfOk result (λ _. IsKnown boot self.now.journal.now.events tracer.new) }
        ensures begun { begun_of tracer.new.notes ≡ begun_of tracer.old.notes }
    {
        while tracer.playback.at < to {
            let _ = self.advance(tracer, to)?;
            progress.show(tracer.playback.at, to);
        }
        progress.hide();
        Ok(())
    }

    /// Lets a tracer do the events up to a position. Nothing is told of them.
    pub(crate) fn skip<P: Progress>(
        &self,
        tracer: &mut Tracer,
        to: u64,
        progress: &mut P,
    ) -> Result<(), NoMemory>
        requires on { tracer.old.playback.at ≤ to }
        requires within { to ≤ length self.now.journal.now.events }
        ensures at { IfOk result (λ _. tracer.new.playback.at ≡ to) }
        ensures printer { tracer.new.printer ≡ tracer.old.printer }
        ensures played { (boot : BoardOf) → IsPlayed boot self.now.journal.now.events tracer.old.playback
            → IsPlayed boot self.now.journal.now.events tracer.new.playback }
        ensures knows { (boot : BoardOf) → IsKnown boot self.now.journal.now.events tracer.old
            → IfOk result (λ _. IsKnown boot self.now.journal.now.events tracer.new) }
    {
        while tracer.playback.at < to {
            let piece = tracer.playback.at.saturating_add(PIECE).min(to);
            tracer.skip_far(self.alloc, self.journal, piece)?;
            progress.show(tracer.playback.at, to);
        }
        progress.hide();
        Ok(())
    }

    /// Writes what stands at the end of the part.
    fn write_summary<W: Write, P: Progress>(
        &self,
        tracer: Tracer,
        writer: &mut W,
        progress: &mut P,
    ) -> Result<(), CommandFault>
        requires start { tracer.playback.at ≡ 0 }
        requires within { self.now.part.to ≤ length self.now.journal.now.events }
        requires follows { IsFollowed tracer.playback.board self.now.journal.now.events tracer }
        ensures { MatchResult result (λ _. WritesSummary self.now.manner.names self.now.image.now.symbols
            tracer.playback.board self.now.journal.now.events self.now.part.to (W.contents writer.old)
            (W.contents writer.new)) IsOfWriting }
    {
        let boot = tracer.playback.board.try_copy()?;
        let mut tracer = tracer;
        self.play(&mut tracer, self.part.to, progress)?;
        let mut first = Vec::new(self.alloc);
        put_end(&tracer, self.alloc, &mut first)?;
        let start = boot.try_copy()?;
        let found = findings_of(self.alloc, start, self.journal, self.part.to)?;
        let mut rest = Vec::new(self.alloc);
        put_summary(&tracer, self.alloc, self.manner.names, &found, &mut rest)?;
        self.put_spins(boot, &tracer.playback, None, &mut rest)?;
        match written(writer, &first) {
            Ok(()) => {}
            Err(fault) => return Err(fault),
        }
        written(writer, &rest)
    }

    /// The timeline of the part.
    fn timeline<P: Progress>(&self, tracer: Tracer, progress: &mut P) -> Result<Timeline, NoMemory>
        requires start { tracer.playback.at ≡ 0 }
        requires from { self.now.part.from ≤ self.now.part.to }
        requires within { self.now.part.to ≤ length self.now.journal.now.events }
        requires knows { IsKnown tracer.playback.board self.now.journal.now.events tracer }
        ensures { IfOk result (AreSlices tracer.playback.board self.now.journal.now.events self.now.part.from
            self.now.part.to) }
    {
        let mut tracer = tracer;
        self.skip(&mut tracer, self.part.from, progress)?;
        tracer.record(self.alloc)?;
        self.play(&mut tracer, self.part.to, progress)?;
        match tracer.into_timeline(self.alloc, self.journal)? {
            Some(timeline) => Ok(timeline),
            None => Err(NoMemory),
        }
    }

    /// Writes the timeline of the part in the trace event format.
    fn write_json<W: Write, P: Progress>(
        &self,
        tracer: Tracer,
        writer: &mut W,
        progress: &mut P,
    ) -> Result<(), CommandFault>
        requires start { tracer.playback.at ≡ 0 }
        requires from { self.now.part.from ≤ self.now.part.to }
        requires within { self.now.part.to ≤ length self.now.journal.now.events }
        requires knows { IsKnown tracer.playback.board self.now.journal.now.events tracer }
        ensures { MatchResult result (λ _. WritesTimeline tracer.playback.board self.now.journal.now.events
            self.now.part.from self.now.part.to (W.contents writer.old) (W.contents writer.new)) IsOfWriting }
    {
        let timeline = self.timeline(tracer, progress)?;
        let mut out = Vec::new(self.alloc);
        json(&timeline, &mut out)?;
        written(writer, &out)
    }

    /// Writes the picture of the part.
    fn write_svg<W: Write, P: Progress>(
        &self,
        tracer: Tracer,
        writer: &mut W,
        progress: &mut P,
    ) -> Result<(), CommandFault>
        requires start { tracer.playback.at ≡ 0 }
        requires from { self.now.part.from ≤ self.now.part.to }
        requires within { self.now.part.to ≤ length self.now.journal.now.events }
        requires knows { IsKnown tracer.playback.board self.now.journal.now.events tracer }
        ensures { EndsDrawing result tracer.playback.board self.now.journal.now.events self.now.part.from
            self.now.part.to (W.contents writer.old) (W.contents writer.new) }
    {
        let timeline = self.timeline(tracer, progress)?;
        match draw(self.alloc, timeline) {
            Ok(text) => written(writer, &text),
            Err(PictureFault::NoMemory) => Err(CommandFault::NoMemory),
            Err(PictureFault::TooMuch) => Err(CommandFault::Trace(TraceFault::TooMuch)),
        }
    }
}

/// Writes all of the bytes.
pub(crate) fn written<W: Write>(writer: &mut W, bytes: &[u8]) -> Result<(), CommandFault>
    ensures { MatchResult result (λ _. Appends (W.contents writer.old) (W.contents writer.new) bytes.now) IsOfWriting }
{
    match write_whole(writer, bytes) {
        Ok(()) => Ok(()),
        Err(error) => Err(CommandFault::Write(error)),
    }
}
