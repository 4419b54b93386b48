//! The command `shrink`.

ghost use Rattle.std.specs.Prelude.{◌≡◌, IfSome, MatchResult, option_map};
ghost use Rattle.brd_journal.specs.Text.{text_of};
ghost use Rattle.brd_search.specs.Shown.{shown};
ghost use Rattle.brd_running.specs.Saving.{IsOfJournal};
ghost use Rattle.brd_running.specs.ShrinkCommand.{IsShrunk, KeepsFromShrinking, RefusesShrinking, ShrinkFilesEnd};
ghost use Rattle.brd_running.specs.ShrinkCommand.{AreEventsOf, IsOfLength, IsShrunkOf, both};

use crate::saving::{is_over, journal_text, save, tell, try_out};
use brd_base::NoMemory;
use brd_board::Event;
use brd_explore::{Wanted, fails};
use brd_inputs::{CommandFault, Files, Inputs, Start, open_inputs, read_start};
use brd_journal::Journal;
use brd_search::{Looks, SearchFault, put_found, shown_events, wanted_of};
use brd_shrink::{shrink as shrunk_events, switches};
use brd_threads::processors;
use std::alloc::Global;
use std::io::{Read, Write};

/// How many events a journal that is made shorter has at most (own choice).
const MOST_EVENTS: u64 = 1_000_000;

/// What `shrink` looks for.
#[derive(Clone, Copy)]
pub struct ShrinkOptions<'a> {
    /// What fails.
    pub looks: Looks<'a>,
    /// How many rounds the fair end has.
    pub fair: u32,
}

/// What is told of a journal that was made shorter.
#[derive(Drop)]
pub struct Told {
    /// How many events and switches are left, and what fails, in words.
    pub text: Vec<u8>,
    /// The text of the journal that is left.
    pub journal: Vec<u8>,
}

/// Reads an object file, a configuration and a journal to their ends, in this order, and leaves out events of the
/// journal, and moves turns of its processors together, as long as what is left fails. Answers how many events and
/// switches are left and what fails, in words, and the text of the journal of what is left.
pub fn shrink<R: Read>(
    alloc: Global,
    inputs: &mut Inputs<R>,
    options: ShrinkOptions<'_>,
) -> Result<Told, CommandFault>
    ensures { IfSome (R.remaining inputs.old.image) (λ file. IfSome (R.remaining inputs.old.config) (λ statements.
        IfSome (R.remaining inputs.old.last) (λ events.
        MatchResult result
        (λ told. IsShrunkOf options.entry file statements events told.journal.items)
        (RefusesShrinking options.entry file statements events)))) }
{
    let start = match read_start(alloc, inputs) {
        Ok(start) => start,
        Err(fault) => return Err(fault),
    };
    told_of(alloc, &start, options)
}

/// Does `shrink` on its files: IMAGE is opened, then CONFIG, then JOURNAL, and all are read. OUT may be neither of the
/// first two, and is refused before that where it couldn't be created. If it is named, it gets the journal of what is
/// left, whole or not at all, before that is told.
pub fn shrink_files<F: Files, W: Write>(
    alloc: Global,
    files: &mut F,
    image: &str,
    config: &str,
    journal: &str,
    options: ShrinkOptions<'_>,
    out: Option<&str>,
    output: &mut W,
) -> Result<(), CommandFault>
    ensures { ShrinkFilesEnd F.opened F.created F.closed F.Input.remaining F.Output.contents
        files.old image.now config.now journal.now options.entry (option_map (λ name. name.now) out.entry)
        (W.contents output.old) (W.contents output.new) result files.new }
{
    if is_over(out, image, config) {
        return Err(CommandFault::Search(SearchFault::OverInput));
    }
    let mut inputs = match open_inputs(alloc, files, image, config, journal) {
        Ok(inputs) => inputs,
        Err(fault) => return Err(fault),
    };
    match try_out(alloc, files, out, image, config) {
        Ok(()) => {}
        Err(fault) => return Err(fault),
    }
    let Told { text, journal } = match shrink(alloc, &mut inputs, options) {
        Ok(told) => told,
        Err(fault) => return Err(fault),
    };
    let saved = save(alloc, files, out, &journal);
    both_ended(saved, tell(output, &text))
}

/// How both of two ended: with the fault of the first, or that of the second.
fn both_ended(
    first: Result<(), CommandFault>,
    second: Result<(), CommandFault>,
) -> Result<(), CommandFault>
    ensures { result ≡ both first second }
{
    match first {
        Ok(()) => second,
        Err(fault) => Err(fault),
    }
}

/// What is told of what is left of a journal.
fn told_of(alloc: Global, start: &Start, options: ShrinkOptions<'_>) -> Result<Told, CommandFault>
    ensures { MatchResult result (λ told. IsShrunk options.entry start.now told.journal.items)
        (KeepsFromShrinking options.entry start.now) }
{
    let symbols = start.image.symbols.as_slice();
    let cpus = processors(&start.board) as u8;
    let wanted = match wanted_of(alloc, &options.looks, options.fair, cpus, symbols) {
        Ok(wanted) => wanted,
        Err(fault) => return Err(CommandFault::of_search(fault)),
    };
    let events = match events_of(alloc, &start.journal) {
        Ok(events) => events,
        Err(fault) => return Err(CommandFault::of_search(fault)),
    };
    if !fails(&start.board, &events, &wanted)? {
        return Err(CommandFault::Passes);
    }
    let left = shrunk_events(alloc, &start.board, &events, &wanted)?;
    told_left(alloc, start, &wanted, &events, &left)
}

/// The events of a journal one by one.
fn events_of(alloc: Global, journal: &Journal) -> Result<Vec<Event>, SearchFault>
    ensures { MatchResult result (λ events. AreEventsOf journal.now events.items) (IsOfLength journal.now) }
{
    if journal.len() > MOST_EVENTS {
        return Err(SearchFault::Journal);
    }
    let mut events = Vec::new(alloc);
    'events: while let Some(event) = journal.event_at(events.len() as u64) {
        let Ok(()) = events.push(event) else {
            return Err(SearchFault::NoMemory);
        };
    }
    Ok(events)
}

/// What is told of the events that are left of others.
fn told_left(
    alloc: Global,
    start: &Start,
    wanted: &Wanted,
    all: &[Event],
    left: &[Event],
) -> Result<Told, CommandFault>
    ensures { MatchResult result
        (λ told. told.journal.items ≡ text_of start.now.board.memory.order (shown wanted.now start.now.board left.now))
        (IsOfJournal (shown wanted.now start.now.board left.now)) }
{
    let text = text_left(alloc, start, wanted, all, left)?;
    let shown = shown_events(alloc, wanted, &start.board, left)?;
    match journal_text(alloc, start.board.order(), &shown) {
        Ok(journal) => Ok(Told { text, journal }),
        Err(fault) => Err(fault),
    }
}

/// How many events and switches are left of others, and what fails, in words.
fn text_left(
    alloc: Global,
    start: &Start,
    wanted: &Wanted,
    all: &[Event],
    left: &[Event],
) -> Result<Vec<u8>, NoMemory> {
    let (events, of_events) = (left.len(), all.len());
    let (kept, given) = (switches(left), switches(all));
    let front = format!(in alloc;
        "{events} of {of_events} events are left, with {kept} of {given} switches\nfails "
    )?;
    let mut text = Vec::from_slice(alloc, front.as_bytes())?;
    let symbols = start.image.symbols.as_slice();
    put_found(alloc, symbols, &start.board, wanted, left, &mut text)?;
    Ok(text)
}
