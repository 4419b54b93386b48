//! Going through a journal.

ghost use Rattle.std.specs.Prelude.{
  ◌≡◌,
  ◌≤◌,
  ◌<◌,
  ◌++◌,
  ◌+◌,
  ◌^◌,
  ◌&&◌,
  ℕ,
  Some,
  not,
  [],
  List as ListOf,
  length,
  IfOk,
  OnOk,
  None,
  true,
  false,
};
ghost use Rattle.brd_board.specs.declared.event.Event.{Event as EventOf};
ghost use Rattle.brd_board.specs.Board.{BoardState as BoardOf};
ghost use Rattle.brd_journal.specs.Playing.{IsPlayed};
ghost use Rattle.brd_journal.specs.Runs.{ComesBehind};
ghost use Rattle.brd_listing.specs.Listing.{IsBehind};
ghost use Rattle.brd_printer.specs.declared.printer.Manner.{Manner as MannerOf};
ghost use Rattle.brd_seen.specs.Quiets.{quiet_of};
ghost use Rattle.brd_trace.specs.Noted.{KeepsKnown};
ghost use Rattle.brd_trace.specs.Recorded.{begun_of, IsNoted};
ghost use Rattle.brd_recording.specs.Recording.{IsTimeline};
ghost use Rattle.brd_trace.specs.Dated.{IsDated};
ghost use Rattle.brd_printer.specs.Links.{ended_text, linked_on};
ghost use Rattle.brd_printer.specs.Concerns.{does_other};
ghost use Rattle.brd_printer.specs.Telling.{
  held_text,
  with_held,
  held_quiet,
  text_quiet,
  held_more,
  text_more,
  more_of,
  instruction_in,
  is_untold,
  is_ran,
  may_list,
  shown,
  shown_by,
  IsFirstLine,
  IsTrace,
  Tells,
  TellsLine,
  TellsOther,
};

use crate::notes::{Notes, Scene};
use crate::playback::next_of;
use crate::source::put_source_of;
use brd_base::NoMemory;
use brd_board::{Board, Report, Standing};
use brd_happening::{Before, Happening, Instruction, What};
use brd_journal::{Journal, Moved, Playback, Run};
use brd_names::{Heading, Names, Quiet, Stretch, printable};
use brd_printer::{Links, Manner, Options, Printer, chosen_standing, does_other, linked_on};
use brd_seen::{quiet_of, tick_of};
use brd_timeline::Timeline;
use std::alloc::Global;

/// How many bytes of lines are made before they are written.
const ENOUGH: usize = 65_536;

/// A board that plays a journal, and what is told of it.
#[derive(Drop)]
pub struct Tracer {
    /// The board, and how many events it has played.
    pub playback: Playback,
    /// What is shown, and what is held back.
    pub printer: Printer,
    /// What is known of the board.
    pub notes: Notes,
    /// Where the journal looks for the next event's run.
    near: usize,
}

impl Tracer {
    /// A board to which nothing has happened.
    pub fn new(alloc: Global, board: Board, options: Options) -> Result<Tracer, NoMemory>
        ensures start { IfOk result (λ tracer. tracer.playback ≡ record { board = board; at = 0 }) }
        ensures printer { IfOk result (λ tracer. tracer.printer ≡ record { options = options; held = None }) }
        ensures noted { IfOk result (λ tracer. (events : ListOf EventOf) → IsNoted board events 0 tracer.notes) }
        ensures dated { IfOk result (λ tracer. (events : ListOf EventOf) → IsDated board events 0 tracer.notes) }
    {
        let notes = Notes::new(alloc, &board, options.lines)?;
        Ok(Tracer {
            playback: Playback { board, at: 0 },
            printer: Printer::new(options),
            notes,
            near: 0,
        })
    }

    /// Does the next event of a journal, and those of its run after it that do nothing, up to a position, and puts
    /// their lines at the end.
    pub fn advance(
        &mut self,
        alloc: Global,
        manner: Manner,
        journal: &Journal,
        to: u64,
        out: &mut Vec<u8>,
    ) -> Result<(), NoMemory>
        requires on { self.old.playback.at ≤ to }
        requires within { to ≤ length journal.now.events }
        ensures at { self.new.playback.at ≤ to }
        ensures goes { self.old.playback.at < to → self.old.playback.at < self.new.playback.at }
        ensures played { (boot : BoardOf) → IsPlayed boot journal.now.events self.old.playback
            → IsPlayed boot journal.now.events self.new.playback }
        ensures told { (boot : BoardOf) → IsPlayed boot journal.now.events self.old.playback
            → IfOk result (λ _. IsBehind
            (IsTrace manner.entry boot journal.now.events self.old.playback.at self.new.playback.at self.old.printer
            self.new.printer) out.old.items out.new.items) }
        ensures noted { (boot : BoardOf) → IsPlayed boot journal.now.events self.old.playback
            → IsNoted boot journal.now.events self.old.playback.at self.old.notes
            → IfOk result (λ _. IsNoted boot journal.now.events self.new.playback.at self.new.notes) }
        ensures dated { (boot : BoardOf) → IsPlayed boot journal.now.events self.old.playback
            → IsNoted boot journal.now.events self.old.playback.at self.old.notes
            → IsDated boot journal.now.events self.old.playback.at self.old.notes
            → IfOk result (λ _. IsDated boot journal.now.events self.new.playback.at self.new.notes) }
        ensures begun { begun_of self.new.notes ≡ begun_of self.old.notes }
    {
        let Some(rest) = next_of(&self.playback, journal, to, &mut self.near) else {
            return Ok(());
        };
        self.advance_in(alloc, manner, rest, to, out)
    }

    /// Does the next events of a journal, up to a position, and puts their lines at the end: many of which nothing is
    /// told, or one, with those of its run after it that do nothing.
    fn advance_some(
        &mut self,
        alloc: Global,
        manner: Manner,
        journal: &Journal,
        to: u64,
        out: &mut Vec<u8>,
    ) -> Result<(), NoMemory>
        requires on { self.old.playback.at ≤ to }
        requires within { to ≤ length journal.now.events }
        ensures at { self.new.playback.at ≤ to }
        ensures goes { self.old.playback.at < to → self.old.playback.at < self.new.playback.at }
        ensures played { (boot : BoardOf) → IsPlayed boot journal.now.events self.old.playback
            → IsPlayed boot journal.now.events self.new.playback }
        ensures told { (boot : BoardOf) → IsPlayed boot journal.now.events self.old.playback
            → IfOk result (λ _. IsBehind
            (IsTrace manner.entry boot journal.now.events self.old.playback.at self.new.playback.at self.old.printer
            self.new.printer) out.old.items out.new.items) }
        ensures noted { (boot : BoardOf) → IsPlayed boot journal.now.events self.old.playback
            → IsNoted boot journal.now.events self.old.playback.at self.old.notes
            → IfOk result (λ _. IsNoted boot journal.now.events self.new.playback.at self.new.notes) }
        ensures dated { (boot : BoardOf) → IsPlayed boot journal.now.events self.old.playback
            → IsNoted boot journal.now.events self.old.playback.at self.old.notes
            → IsDated boot journal.now.events self.old.playback.at self.old.notes
            → IfOk result (λ _. IsDated boot journal.now.events self.new.playback.at self.new.notes) }
        ensures begun { begun_of self.new.notes ≡ begun_of self.old.notes }
    {
        let Some(rest) = next_of(&self.playback, journal, to, &mut self.near) else {
            return Ok(());
        };
        if self.pass(rest, to) > 0 {
            return Ok(());
        }
        self.advance_in(alloc, manner, rest, to, out)
    }

    /// Does the next events of what is left of a run, up to a position, of which nothing is told: where instructions
    /// aren't shown, many that are ordinary ones. Answers how many it did.
    fn pass(&mut self, rest: Run, to: u64) -> u64
        requires on { self.old.playback.at ≤ to }
        ensures at { self.new.playback.at ≡ self.old.playback.at + result }
        ensures to { self.new.playback.at ≤ to }
        ensures none { result ≡ 0 → self.new.playback ≡ self.old.playback }
        ensures notes { self.new.notes ≡ self.old.notes }
        ensures printer { self.new.printer ≡ self.old.printer }
        ensures played { (boot : BoardOf) (events : ListOf EventOf) → to ≤ length events
            → ComesBehind events self.old.playback.at rest → IsPlayed boot events self.old.playback
            → IsPlayed boot events self.new.playback }
        // What is told of each of them is nothing.
        ensures told { (manner : MannerOf) (boot : BoardOf) (events : ListOf EventOf)
            → ComesBehind events self.old.playback.at rest → IsPlayed boot events self.old.playback
            → IsTrace manner boot events self.old.playback.at self.new.playback.at self.old.printer
            self.new.printer [] }
        ensures noted { (boot : BoardOf) (events : ListOf EventOf) → to ≤ length events
            → ComesBehind events self.old.playback.at rest → IsPlayed boot events self.old.playback
            → IsNoted boot events self.old.playback.at self.old.notes
            → IsNoted boot events self.new.playback.at self.new.notes }
        ensures dated { (boot : BoardOf) (events : ListOf EventOf) → to ≤ length events
            → ComesBehind events self.old.playback.at rest → IsPlayed boot events self.old.playback
            → IsDated boot events self.old.playback.at self.old.notes
            → IsDated boot events self.new.playback.at self.new.notes }
    {
        if self.printer.may_list() {
            return 0;
        }
        self.playback.go_on(rest, to)
    }

    /// Does the next event of what is left of a run, and those after it that do nothing, up to a position, and puts
    /// their lines at the end.
    fn advance_in(
        &mut self,
        alloc: Global,
        manner: Manner,
        rest: Run,
        to: u64,
        out: &mut Vec<u8>,
    ) -> Result<(), NoMemory>
        requires on { self.old.playback.at < to }
        requires some { 1 ≤ rest.count }
        ensures at { self.new.playback.at ≤ to }
        ensures goes { self.old.playback.at < self.new.playback.at }
        ensures played { (boot : BoardOf) (events : ListOf EventOf) → to ≤ length events
            → ComesBehind events self.old.playback.at rest → IsPlayed boot events self.old.playback
            → IsPlayed boot events self.new.playback }
        ensures told { (boot : BoardOf) (events : ListOf EventOf) → to ≤ length events
            → ComesBehind events self.old.playback.at rest → IsPlayed boot events self.old.playback
            → IfOk result (λ _. IsBehind (IsTrace manner.entry boot events self.old.playback.at self.new.playback.at
            self.old.printer self.new.printer) out.old.items out.new.items) }
        ensures noted { (boot : BoardOf) (events : ListOf EventOf) → to ≤ length events
            → ComesBehind events self.old.playback.at rest → IsPlayed boot events self.old.playback
            → IsNoted boot events self.old.playback.at self.old.notes
            → IfOk result (λ _. IsNoted boot events self.new.playback.at self.new.notes) }
        ensures dated { (boot : BoardOf) (events : ListOf EventOf) → to ≤ length events
            → ComesBehind events self.old.playback.at rest → IsPlayed boot events self.old.playback
            → IsNoted boot events self.old.playback.at self.old.notes
            → IsDated boot events self.old.playback.at self.old.notes
            → IfOk result (λ _. IsDated boot events self.new.playback.at self.new.notes) }
        ensures begun { begun_of self.new.notes ≡ begun_of self.old.notes }
    {
        let position = self.playback.at;
        let before = match Before::of(alloc, &self.playback.board, rest.event) {
            Ok(before) => before,
            Err(NoMemory) => {
                self.playback.advance(rest, position + 1, to);
                return Err(NoMemory);
            }
        };
        let linked = self.linked_before();
        let stood = chosen_standing(self.printer.options.cpu, &self.playback.board);
        let moved = self.playback.advance(rest, position + 1, to);
        if self.passes(moved.report) {
            return Ok(());
        }
        let told = before.happening(alloc, moved.report, &self.playback.board)?;
        self.tell(
            alloc,
            manner,
            position,
            moved.count,
            &told,
            &linked,
            stood,
            out,
        )?;
        let scene = Scene {
            alloc,
            names: manner.names,
            board: &self.playback.board,
            position,
            told: &told,
        };
        self.notes.follow(scene, moved.report)?;
        Ok(())
    }

    /// Which processors have a link, by number, where lines of instructions may be shown: only these tell of links.
    fn linked_before(&self) -> [bool; 9]
        ensures { may_list self.now.printer.options ≡ true → result ≡ linked_on self.now.playback.board }
    {
        if !self.printer.may_list() {
            return [false; 9];
        }
        linked_on(&self.playback.board)
    }

    /// Whether nothing is told of an event that reports this: it is an ordinary instruction, and those aren't shown.
    fn passes(&self, report: Report) -> bool
        ensures { result ≡ not (may_list self.now.printer.options) && is_ran report }
    {
        !self.printer.may_list() && is_ran(report)
    }

    /// Puts at the end what is told of an event, and of those after it that do nothing. Before it these processors had
    /// a link, and the chosen one stood so.
    fn tell(
        &mut self,
        alloc: Global,
        manner: Manner,
        position: u64,
        count: u64,
        told: &Happening,
        linked: &[bool],
        stood: Option<Standing>,
        out: &mut Vec<u8>,
    ) -> Result<(), NoMemory>
        requires { position + 1 < 2 ^ 64 }
        ensures same { self.new.playback ≡ self.old.playback }
        ensures known { KeepsKnown self.old.notes self.new.notes }
        ensures told { IfOk result (λ _. IsBehind
            (Tells manner.entry position count told.now
            (ended_text told.now.cpu linked.now (linked_on self.old.playback.board))
            (does_other self.old.printer.options.cpu stood self.old.playback.board) self.old.printer self.new.printer)
            out.old.items out.new.items) }
    {
        if let Some(instruction) = instruction_in(told.what) {
            let still = linked_on(&self.playback.board);
            let links = Links {
                cpu: told.cpu,
                before: linked,
                after: &still,
            };
            self.printer
                .put_instruction(alloc, manner, position, told, &instruction, links, out)?;
            return Ok(());
        }
        if is_untold(told.what) {
            return Ok(());
        }
        let concerned = does_other(self.printer.options.cpu, stood, &self.playback.board);
        self.tell_other(alloc, manner, position, count, told, concerned, out)?;
        Ok(())
    }

    /// Puts at the end what is told of an event that is no instruction, and may concern the chosen processor.
    fn tell_other(
        &mut self,
        alloc: Global,
        manner: Manner,
        position: u64,
        count: u64,
        told: &Happening,
        concerned: bool,
        out: &mut Vec<u8>,
    ) -> Result<(), NoMemory>
        requires { position + 1 < 2 ^ 64 }
        ensures same { self.new.playback ≡ self.old.playback }
        ensures known { KeepsKnown self.old.notes self.new.notes }
        ensures told { IfOk result (λ _. IsBehind
            (TellsOther (quiet_of told.now) manner.entry.names.symbols.now position count told.now concerned
            self.old.printer self.new.printer) out.old.items out.new.items) }
    {
        let Some(quiet) = quiet_of(told) else {
            self.tell_line(alloc, manner, position, count, told, concerned, out)?;
            return Ok(());
        };
        let stretch = Stretch {
            quiet,
            position,
            count,
            tick: tick_of(told.what),
        };
        self.tell_quiet(alloc, manner.names, stretch, out)?;
        Ok(())
    }

    /// Puts at the end what is told of events that change nothing.
    fn tell_quiet(
        &mut self,
        alloc: Global,
        names: Names,
        stretch: Stretch,
        out: &mut Vec<u8>,
    ) -> Result<(), NoMemory>
        ensures same { self.new.playback ≡ self.old.playback }
        ensures known { KeepsKnown self.old.notes self.new.notes }
        ensures printer { IfOk result
            (λ _. self.new.printer ≡ with_held self.old.printer (held_quiet self.old.printer stretch)) }
        ensures line { OnOk result
            (out.new.items ≡ out.old.items ++ text_quiet names.entry.symbols.now self.old.printer stretch) }
    {
        self.notes.note_quiet(stretch)?;
        self.printer.put_quiet(alloc, names, stretch, out)
    }

    /// Puts at the end the line of an event, which may concern the chosen processor, and what is told of raises of the
    /// same line after it.
    fn tell_line(
        &mut self,
        alloc: Global,
        manner: Manner,
        position: u64,
        count: u64,
        told: &Happening,
        concerned: bool,
        out: &mut Vec<u8>,
    ) -> Result<(), NoMemory>
        requires { position + 1 < 2 ^ 64 }
        ensures same { self.new.playback ≡ self.old.playback }
        ensures known { KeepsKnown self.old.notes self.new.notes }
        ensures told { IfOk result (λ _. IsBehind
            (TellsLine manner.entry.names.symbols.now position count told.now concerned self.old.printer
            self.new.printer) out.old.items out.new.items) }
    {
        let scene = Scene {
            alloc,
            names: manner.names,
            board: &self.playback.board,
            position,
            told,
        };
        let mut what = self.notes.say(scene)?;
        put_source_of(alloc, manner.names, told, &mut what)?;
        let words = printable(alloc, what.as_slice())?;
        self.printer.put_said(
            alloc,
            manner,
            position,
            told,
            words.as_slice(),
            concerned,
            out,
        )?;
        self.tell_more(
            alloc,
            manner.names,
            more_of(told.what, position, count),
            out,
        )?;
        Ok(())
    }

    /// Puts at the end what is told of events that change nothing, where there are any.
    fn tell_more(
        &mut self,
        alloc: Global,
        names: Names,
        more: Option<Stretch>,
        out: &mut Vec<u8>,
    ) -> Result<(), NoMemory>
        ensures same { self.new.playback ≡ self.old.playback }
        ensures known { KeepsKnown self.old.notes self.new.notes }
        ensures printer { IfOk result
            (λ _. self.new.printer ≡ with_held self.old.printer (held_more self.old.printer more)) }
        ensures line { OnOk result
            (out.new.items ≡ out.old.items ++ text_more names.entry.symbols.now self.old.printer more) }
    {
        match more {
            Some(more) => self.tell_quiet(alloc, names, more, out),
            None => Ok(()),
        }
    }

    /// Does the next events of a journal, up to a position, or until there are many bytes of lines.
    pub fn advance_far(
        &mut self,
        alloc: Global,
        manner: Manner,
        journal: &Journal,
        to: u64,
        out: &mut Vec<u8>,
    ) -> Result<(), NoMemory>
        requires on { self.old.playback.at ≤ to }
        requires within { to ≤ length journal.now.events }
        ensures at { self.new.playback.at ≤ to }
        ensures goes { self.old.playback.at < to → self.old.playback.at < self.new.playback.at }
        ensures played { (boot : BoardOf) → IsPlayed boot journal.now.events self.old.playback
            → IsPlayed boot journal.now.events self.new.playback }
        ensures told { (boot : BoardOf) → IsPlayed boot journal.now.events self.old.playback
            → IfOk result (λ _. IsBehind
            (IsTrace manner.entry boot journal.now.events self.old.playback.at self.new.playback.at self.old.printer
            self.new.printer) out.old.items out.new.items) }
        ensures noted { (boot : BoardOf) → IsPlayed boot journal.now.events self.old.playback
            → IsNoted boot journal.now.events self.old.playback.at self.old.notes
            → IfOk result (λ _. IsNoted boot journal.now.events self.new.playback.at self.new.notes) }
        ensures dated { (boot : BoardOf) → IsPlayed boot journal.now.events self.old.playback
            → IsNoted boot journal.now.events self.old.playback.at self.old.notes
            → IsDated boot journal.now.events self.old.playback.at self.old.notes
            → IfOk result (λ _. IsDated boot journal.now.events self.new.playback.at self.new.notes) }
        ensures begun { begun_of self.new.notes ≡ begun_of self.old.notes }
    {
        while self.playback.at < to {
            self.advance_some(alloc, manner, journal, to, out)?;
            if out.len() >= ENOUGH {
                break;
            }
        }
        Ok(())
    }

    /// Does the next events of a journal up to a position, many at once, and tells nothing of them. What is told after
    /// that is the same, but for a summary: it wants every event.
    pub fn skip_far(&mut self, alloc: Global, journal: &Journal, to: u64) -> Result<(), NoMemory>
        requires on { self.old.playback.at ≤ to }
        requires within { to ≤ length journal.now.events }
        ensures at { self.new.playback.at ≡ to }
        ensures printer { self.new.printer ≡ self.old.printer }
        ensures played { (boot : BoardOf) → IsPlayed boot journal.now.events self.old.playback
            → IsPlayed boot journal.now.events self.new.playback }
        ensures noted { (boot : BoardOf) → IsPlayed boot journal.now.events self.old.playback
            → IfOk result (λ _. IsNoted boot journal.now.events self.new.playback.at self.new.notes) }
    {
        self.playback.play_to(journal, to, to);
        self.notes.see_board(alloc, &self.playback.board, to)?;
        Ok(())
    }

    /// From here on lines are shown. Before them it is put at the end what each processor does.
    pub fn show(&mut self, alloc: Global, manner: Manner, out: &mut Vec<u8>) -> Result<(), NoMemory>
        ensures same { self.new.playback ≡ self.old.playback }
        ensures known { KeepsKnown self.old.notes self.new.notes }
        ensures printer { self.new.printer ≡ shown_by self.old.printer.options }
        ensures line { IfOk result (λ _. IsBehind
            (IsFirstLine manner.entry.names.symbols.now self.old.playback.at) out.old.items out.new.items) }
    {
        self.printer = Printer::new(shown(self.printer.options));
        let mut what = Vec::new(alloc);
        self.notes.standings.put_all(alloc, &mut what)?;
        let words = printable(alloc, what.as_slice())?;
        let heading = Heading {
            position: self.playback.at,
            cpu: None,
            who: None,
            place: None,
        };
        heading.put_line(alloc, manner.names, words.as_slice(), out)?;
        Ok(())
    }

    /// Ends the lines: what was held back is put at the end.
    pub fn finish(
        &mut self,
        alloc: Global,
        manner: Manner,
        out: &mut Vec<u8>,
    ) -> Result<(), NoMemory>
        ensures same { self.new.playback ≡ self.old.playback }
        ensures known { KeepsKnown self.old.notes self.new.notes }
        ensures line { OnOk result
            (out.new.items ≡ out.old.items ++ held_text manner.entry.names.symbols.now self.old.printer.held) }
    {
        self.printer.end(alloc, manner.names, out)
    }

    /// From here on a timeline is made.
    pub fn record(&mut self, alloc: Global) -> Result<(), NoMemory>
        ensures same { self.new.playback ≡ self.old.playback }
        ensures begun { IfOk result (λ _. begun_of self.new.notes ≡ Some self.old.playback.at) }
        ensures noted { (boot : BoardOf) (events : ListOf EventOf) → IsPlayed boot events self.old.playback
            → IsNoted boot events self.old.playback.at self.old.notes
            → IfOk result (λ _. IsNoted boot events self.new.playback.at self.new.notes) }
    {
        self.notes
            .record(alloc, &self.playback.board, self.playback.at)?;
        Ok(())
    }

    /// The timeline that was made up to here, where one was. The journal is the one that was played.
    pub fn into_timeline(
        self,
        alloc: Global,
        journal: &Journal,
    ) -> Result<Option<Timeline>, NoMemory>
        ensures { (boot : BoardOf) (events : ListOf EventOf) (from : ℕ) → IsPlayed boot events self.playback
            → IsNoted boot events self.playback.at self.notes → begun_of self.notes ≡ Some from
            → IfOk result (IsTimeline boot events from self.playback.at) }
    {
        let Tracer {
            playback,
            printer: _,
            notes,
            near: _,
        } = self;
        let made = notes.into_timeline(alloc, journal, playback.at)?;
        Ok(made)
    }
}

/// The instruction that was done.
fn instruction_in(what: What) -> Option<Instruction>
    ensures { result ≡ instruction_in what }
{
    match what {
        What::Instruction(instruction) => Some(instruction),
        _ => None,
    }
}

/// Whether nothing is told.
fn is_untold(what: What) -> bool
    ensures { result ≡ is_untold what }
{
    matches!(what, What::Untold)
}

/// Whether an event that reports this was an ordinary instruction.
fn is_ran(report: Report) -> bool
    ensures { result ≡ is_ran report }
{
    matches!(report, Report::Ran(_))
}

/// These options, but that lines are shown.
fn shown(options: Options) -> Options
    ensures { result ≡ shown options }
{
    let lines = options.lines;
    Options {
        cpu: options.cpu,
        instructions: options.instructions,
        touching: options.touching,
        shown: true,
        lines,
    }
}

/// Raises of the same line after an event that raises one, which change nothing.
fn more_of(what: What, position: u64, count: u64) -> Option<Stretch>
    requires { position + 1 < 2 ^ 64 }
    ensures { result ≡ more_of what position count }
{
    match what {
        What::Raised(line) => Some(Stretch {
            quiet: Quiet::Again(line),
            position: position + 1,
            count: count.saturating_sub(1),
            tick: 0,
        }),
        _ => None,
    }
}
