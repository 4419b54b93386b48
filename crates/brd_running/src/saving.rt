//! Journals that a search has found: their texts, and the files that get them.

ghost use Rattle.std.specs.Prelude.{◌≡◌, IfErr, MatchResult, option_map};
ghost use Rattle.brd_journal.specs.Text.{text_of};
ghost use Rattle.brd_running.specs.Saving.{AreWritten, IsOfJournal, IsRefused, KeepsFromJournal, Saves, is_over};

use brd_board::Event;
use brd_inputs::{CommandFault, Files, ScheduleFault};
use brd_journal::{Journal, JournalFault, MOST_RUNS};
use brd_report::write_whole;
use brd_word::Order;
use std::alloc::Global;
use std::io::Write;

/// The text of the journal of these events, for boards of this byte order.
pub fn journal_text(alloc: Global, order: Order, events: &[Event]) -> Result<Vec<u8>, CommandFault>
    ensures { MatchResult result (λ text. text.items ≡ text_of order events.now) (IsOfJournal events.now) }
{
    let journal = match journal_of(alloc, order, events) {
        Ok(journal) => journal,
        Err(JournalFault::NoMemory) => return Err(CommandFault::NoMemory),
        Err(JournalFault::Full | JournalFault::Syntax { .. }) => {
            return Err(CommandFault::Schedule(ScheduleFault::TooLong));
        }
    };
    let text = journal.write_text(alloc)?;
    Ok(text)
}

/// The journal of these events, for boards of this byte order.
fn journal_of(alloc: Global, order: Order, events: &[Event]) -> Result<Journal, JournalFault>
    ensures { MatchResult result (λ journal. (journal.events ≡ events.now) × (journal.order ≡ order))
        (KeepsFromJournal events.now) }
{
    let mut journal = Journal::new(alloc, MOST_RUNS, order);
    for event in events {
        match journal.push(*event) {
            Ok(()) => {}
            Err(fault) => return Err(fault),
        }
    }
    Ok(journal)
}

/// Whether a journal would be written over the object file or the configuration: by its name.
pub fn is_over(out: Option<&str>, image: &str, config: &str) -> bool
    ensures { result ≡ is_over (option_map (λ name. name.now) out.entry) image.now config.now }
{
    match out {
        Some(name) => {
            name.as_bytes() == image.as_bytes() || name.as_bytes() == config.as_bytes()
        }
        None => false,
    }
}

/// Refuses a file for a journal, if one is named, that couldn't be created now, or that is the object file or the
/// configuration under another name.
pub fn try_out<F: Files>(
    alloc: Global,
    files: &F,
    out: Option<&str>,
    image: &str,
    config: &str,
) -> Result<(), CommandFault>
    ensures { IfErr result (IsRefused F.created files.now (option_map (λ name. name.now) out.entry)) }
{
    let Some(name) = out else {
        return Ok(());
    };
    match files.try_create(name, image, config) {
        Ok(()) => Ok(()),
        Err(error) => Err(CommandFault::of_open(alloc, name, error)),
    }
}

/// Writes a journal to the file that is named, if one is, whole or not at all.
pub fn save<F: Files>(
    alloc: Global,
    files: &mut F,
    out: Option<&str>,
    journal: &[u8],
) -> Result<(), CommandFault>
    ensures { Saves F.created F.closed F.Output.contents files.old (option_map (λ name. name.now) out.entry)
        journal.now result files.new }
{
    let Some(name) = out else {
        return Ok(());
    };
    let mut writer = match files.begin(name) {
        Ok(writer) => writer,
        Err(error) => return Err(CommandFault::of_open(alloc, name, error)),
    };
    match tell(&mut writer, journal) {
        Ok(()) => match files.keep(writer) {
            Ok(()) => Ok(()),
            Err(error) => Err(CommandFault::Write(error)),
        },
        Err(fault) => {
            files.close(writer);
            Err(fault)
        }
    }
}

/// Writes bytes whole.
pub fn tell<W: Write>(writer: &mut W, bytes: &[u8]) -> Result<(), CommandFault>
    ensures { AreWritten bytes.now result (W.contents writer.old) (W.contents writer.new) }
{
    match write_whole(writer, bytes) {
        Ok(()) => Ok(()),
        Err(error) => Err(CommandFault::Write(error)),
    }
}
