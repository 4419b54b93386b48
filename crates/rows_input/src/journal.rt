//! What journals are answered.

use brd_board::Event;
use brd_journal::{Journal, JournalFault, MOST_RUNS, Run, read_text};
use brd_word::Order;
use std::alloc::{AllocError, Global};
use test_help::unescaped;

/// The most events of a run that are appended one by one.
const FEW: u32 = 16;

/// A run as a row has it.
fn shown_run(alloc: Global, run: Run) -> Result<String, AllocError> {
    let count = run.count;
    match run.event {
        Event::Step(cpu) => format!(in alloc; "S {cpu} {count}"),
        Event::Tick => format!(in alloc; "T {count}"),
        Event::Raise(line) => format!(in alloc; "R {line} {count}"),
    }
}

/// A byte order as a row has it.
fn shown_order(order: Order) -> &'static str {
    match order {
        Order::Big => "big",
        Order::Little => "little",
    }
}

/// The byte order and the runs of a journal as a row has them.
fn shown(alloc: Global, journal: &Journal) -> Result<String, AllocError> {
    let mut text = String::from_str(alloc, shown_order(journal.order()))?;
    for run in journal.runs() {
        let run = shown_run(alloc, *run)?;
        text.push_str(", ")?;
        text.push_str(run.as_str())?;
    }
    Ok(text)
}

/// A fault as a row has it. That the program ran out of memory is no answer.
fn shown_fault(alloc: Global, fault: JournalFault) -> Result<String, AllocError> {
    match fault {
        JournalFault::NoMemory => Err(AllocError),
        JournalFault::Full => String::from_str(alloc, "Full"),
        JournalFault::Syntax { line } => format!(in alloc; "Syntax {line}"),
    }
}

/// Appends the events of a run: few of them one by one.
fn append(journal: &mut Journal, run: Run) -> Result<(), JournalFault> {
    if run.count > FEW {
        return journal.push_run(run.event, run.count);
    }
    for _ in 0..run.count {
        journal.push(run.event)?;
    }
    Ok(())
}

/// Appends the events of runs.
fn append_all(journal: &mut Journal, runs: &[Run]) -> Result<(), JournalFault> {
    for run in runs {
        append(journal, *run)?;
    }
    Ok(())
}

/// What the journal is that is made of a journal's byte order and events, or the fault.
fn made_again(alloc: Global, journal: &Journal, limit: u32) -> Result<String, AllocError> {
    let mut made = Journal::new(alloc, limit.min(MOST_RUNS), journal.order());
    match append_all(&mut made, journal.runs()) {
        Ok(()) => shown(alloc, &made),
        Err(fault) => shown_fault(alloc, fault),
    }
}

/// What the journal is that is read of a journal's text, or the fault.
fn read_again(alloc: Global, journal: &Journal, limit: u32) -> Result<String, AllocError> {
    let Ok(text) = journal.write_text(alloc) else {
        return Err(AllocError);
    };
    match read_text(alloc, &text, limit.min(MOST_RUNS)) {
        Ok(again) => shown(alloc, &again),
        Err(fault) => shown_fault(alloc, fault),
    }
}

/// What a text is answered: the byte order and the runs, where the journal that is read again and the one that is made
/// again have the same; or the fault.
fn answer(alloc: Global, text: &[u8], limit: u32) -> Result<String, AllocError> {
    let journal = match read_text(alloc, text, limit.min(MOST_RUNS)) {
        Ok(journal) => journal,
        Err(fault) => return shown_fault(alloc, fault),
    };
    let runs = shown(alloc, &journal)?;
    let again = read_again(alloc, &journal, limit)?;
    let made = made_again(alloc, &journal, limit)?;
    if again.as_str() == runs.as_str() && made.as_str() == runs.as_str() {
        return Ok(runs);
    }
    format!(in alloc; "{runs}; read again: {again}; made again: {made}")
}

/// What a journal is answered, of a row's limit and text. `None` where there is no limit.
pub fn journal_answer(alloc: Global, row: &str) -> Result<Option<String>, AllocError> {
    let Some((limit, text)) = row.split_once(" ") else {
        return Ok(None);
    };
    let Ok(limit) = limit.parse::<u32>() else {
        return Ok(None);
    };
    let text = unescaped(alloc, text)?;
    Ok(Some(answer(alloc, &text, limit)?))
}
