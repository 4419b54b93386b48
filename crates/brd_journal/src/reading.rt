//! Reading a text.

ghost use Rattle.std.specs.Prelude.{◌≡◌, ◌≤◌, ◌<◌, ◌+◌, ◌^◌, ◌∷◌, ℕ, length, IfSome, None};
ghost use Rattle.brd_text.specs.Lines.{lines_of};
ghost use Rattle.brd_journal.specs.Faults.{Gives};
ghost use Rattle.brd_journal.specs.Front.{IsFront, IsShorter};
ghost use Rattle.brd_journal.specs.declared.reading.Front.TheVariants.{Line};
ghost use Rattle.brd_journal.specs.Journal.{most_runs};
ghost use Rattle.brd_journal.specs.Reading.{journal_of, lines_read};

use crate::fault::JournalFault;
use crate::journal::Journal;
use crate::line::{order_of_line, run_of_line};
use crate::run::Run;
use brd_board::Event;
use brd_text::{behind, split_line};
use std::alloc::Global;

/// What stands at the front of a text.
pub(crate) enum Front<'a> {
    /// A line that spells a run, and the text after it.
    Line(Run, &'a [u8]),
    /// Nothing: the text's end.
    End,
    /// A line that spells no run, or that no newline ends.
    Wrong,
}

/// The journal of this limit that a text says, or the fault of the first line that has one.
#[tactic(auto, unfolding(crate::specs::Reading::journal_of))]
pub fn read_text(alloc: Global, text: &[u8], limit: u32) -> Result<Journal, JournalFault>
    requires { limit ≤ most_runs }
    ensures { Gives (λ journal. journal) result (journal_of limit text.now) }
{
    let (first, behind) = split_line(text);
    let Some(rest) = behind else {
        return Err(JournalFault::Syntax { line: 1 });
    };
    let Some(order) = order_of_line(first) else {
        return Err(JournalFault::Syntax { line: 1 });
    };
    let mut journal = Journal::new(alloc, limit, order);
    read_lines(&mut journal, rest)?;
    Ok(journal)
}

/// Appends the runs of the lines after the first.
#[inline(never)]
fn read_lines(journal: &mut Journal, text: &[u8]) -> Result<(), JournalFault>
    requires { length text.now + 2 < 2 ^ 64 }
    ensures { Gives (λ _. journal.new) result (lines_read journal.old 2 (lines_of text.now)) }
{
    let mut rest = text;
    let mut number = 2;
    'lines: loop {
        if let Some(after) = puts_line(journal, rest) {
            rest = after;
            number += 1;
            continue 'lines;
        }
        match line_front(rest) {
            Front::Line(run, after) => {
                journal.push_run_apart(run)?;
                rest = after;
                number += 1;
            }
            Front::End => return Ok(()),
            Front::Wrong => return Err(JournalFault::Syntax { line: number }),
        }
    }
}

/// Appends the run of the first line, where that is of steps with numbers below 10, as most lines of most journals are,
/// and a run at the end is all that this takes. Answers the text after it; else nothing has changed.
#[inline(always)]
fn puts_line<'a>(journal: &mut Journal, text: &'a [u8]) -> Option<&'a [u8]>
    ensures reads { IfSome result (λ after. (number : ℕ) → lines_read journal.old number (lines_of text.now)
        ≡ lines_read journal.new (number + 1) (lines_of after.now)) }
    ensures shorter { IfSome result (λ after. length after.now < length text.now) }
    ensures stays { result ≡ None → journal.new ≡ journal.old }
{
    let (run, after) = short_line(text)?;
    if journal.puts(run.event, run.count) {
        return Some(after);
    }
    None
}

/// The run of the first line, where that is of steps with two digits for its numbers, and the text after it.
#[inline(always)]
fn short_line(text: &[u8]) -> Option<(Run, &[u8])>
    ensures reads { IfSome result (λ found. IsFront text.now (Line found.0 found.1)) }
    ensures shorter { IfSome result (λ found. length found.1.now < length text.now) }
    ensures some { IfSome result (λ found. 1 ≤ found.0.count) }
{
    // One test of the length, which the others follow from.
    if text.len() < 6 {
        return None;
    }
    let blank = behind(b'S', text)?;
    let fields = behind(b' ', blank)?;
    let (cpu, second) = digit_at(b'0', fields)?;
    let counted = behind(b' ', second)?;
    let (count, end) = digit_at(b'1', counted)?;
    let after = behind(b'\n', end)?;
    let run = Run {
        event: Event::Step(cpu as u8),
        count,
    };
    Some((run, after))
}

/// The value of the decimal digit at the front, where that is this one or a later one, and what follows it.
#[inline(always)]
fn digit_at(least: u8, text: &[u8]) -> Option<(u32, &[u8])>
    requires { 48 ≤ least }
    ensures found { IfSome result (λ found. text.now ≡ (48 + found.0) ∷ found.1.now) }
    ensures least { IfSome result (λ found. least ≤ 48 + found.0) }
    ensures most { IfSome result (λ found. found.0 ≤ 9) }
{
    match text.split_first() {
        Some((byte, after)) if *byte >= least && *byte <= b'9' => Some((
            u32::from(*byte) - 48,
            after,
        )),
        _ => None,
    }
}

/// What stands at the front of a text, whatever its first line is.
#[inline(never)]
fn line_front(text: &[u8]) -> Front<'_>
    ensures reads { IsFront text.now result }
    ensures shorter { IsShorter text.now result }
{
    let (line, behind) = split_line(text);
    let Some(after) = behind else {
        return if line.is_empty() {
            Front::End
        } else {
            Front::Wrong
        };
    };
    match run_of_line(line) {
        Some(run) => Front::Line(run, after),
        None => Front::Wrong,
    }
}
