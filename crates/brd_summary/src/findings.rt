//! What was found of a run: tasks that wait for each other, calls that were refused, and raises that had no effect.

ghost use Rattle.std.specs.Prelude.{◌≡◌, ◌++◌, IfOk, OnOk, codes};
ghost use Rattle.std.specs.List.{filter, flat_map};
ghost use Rattle.brd_listing.specs.Listing.{IsBehind};
ghost use Rattle.brd_verdicts.specs.Circle.{is_of};
ghost use Rattle.brd_summary.specs.Findings.{
  AreFindings,
  IsCircle,
  IsRefused,
  circle_text,
  first_text,
  holder_text,
  holders_text,
  lock_text,
  lost_text,
  more_text,
  next_text,
  raised_text,
  refused_text,
  unraised_text,
  wait_text,
  why_text,
};
ghost use Rattle.brd_summary.specs.Texts.{AreTexts};

use brd_base::{List, NoMemory};
use brd_board::Board;
use brd_names::{Names, put, put_called, put_count, put_named, put_number, put_signed};
use brd_seen::{SaidCall, error_name, refusal_advice};
use brd_verdicts::{
    Accounts, Lock, LostRaises, Refused, Unit, Units, Wait, circular_wait, is_same,
};
use std::alloc::Global;

/// Puts at the end which tasks of a board wait for each other, which calls were refused, and which raises had no
/// effect, by what was counted of the run.
pub(crate) fn put_findings(
    alloc: Global,
    names: Names,
    accounts: &Accounts,
    board: &Board,
    out: &mut Vec<u8>,
) -> Result<(), NoMemory>
    ensures { IfOk result
        (λ _. IsBehind (AreFindings names.entry accounts.now board.now) out.old.items out.new.items) }
{
    put_circle(alloc, &accounts.units, board, out)?;
    put_refusals(alloc, names, accounts.refused.as_slice(), out)?;
    put_losses(alloc, accounts.lost.as_slice(), out)?;
    Ok(())
}

/// Puts a line at the end, where tasks wait for each other on a board that is on.
fn put_circle(
    alloc: Global,
    units: &Units,
    board: &Board,
    out: &mut Vec<u8>,
) -> Result<(), NoMemory>
    ensures { IfOk result (λ _. IsBehind (IsCircle units.now board.now) out.old.items out.new.items) }
{
    if board.is_off() {
        return Ok(());
    }
    let found = circular_wait(alloc, units, board)?;
    let taken = units.lock_units(alloc, board)?;
    put_waits(alloc, taken.as_slice(), found.as_slice(), out)?;
    Ok(())
}

/// Puts the line of some tasks that wait for each other at the end, if there are some.
fn put_waits(
    alloc: Global,
    units: &[Unit],
    found: &[Wait],
    out: &mut Vec<u8>,
) -> Result<(), NoMemory>
    ensures { OnOk result (out.new.items ≡ out.old.items ++ circle_text units.now found.now) }
{
    let Some((first, more)) = found.split_first() else {
        return Ok(());
    };
    put(out, "circular wait: ")?;
    put_waiting(alloc, units, *first, out)?;
    put_more_waits(alloc, units, more, out)?;
    put(out, "\n")
}

/// Puts more tasks at the end that wait for each other.
fn put_more_waits(
    alloc: Global,
    units: &[Unit],
    waits: &[Wait],
    out: &mut Vec<u8>,
) -> Result<(), NoMemory>
    ensures { OnOk result (out.new.items ≡ out.old.items ++ flat_map (next_text units.now) waits.now) }
{
    for wait in waits {
        put_next(alloc, units, *wait, out)?;
    }
    Ok(())
}

/// Puts one more task at the end that waits.
fn put_next(alloc: Global, units: &[Unit], wait: Wait, out: &mut Vec<u8>) -> Result<(), NoMemory>
    ensures { OnOk result (out.new.items ≡ out.old.items ++ next_text units.now wait) }
{
    put(out, "; ")?;
    put_waiting(alloc, units, wait, out)
}

/// Puts at the end which semaphore or mutex a task waits for, and which tasks have units of it.
fn put_waiting(alloc: Global, units: &[Unit], wait: Wait, out: &mut Vec<u8>) -> Result<(), NoMemory>
    ensures { OnOk result (out.new.items ≡ out.old.items ++ wait_text units.now wait) }
{
    put_named(alloc, out, "task", u64::from(wait.task))?;
    put_lock(alloc, wait.lock, out)?;
    let held = units_of(alloc, units, wait)?;
    put_holders(alloc, held.as_slice(), out)
}

/// Puts at the end which semaphore or mutex is waited for.
fn put_lock(alloc: Global, lock: Lock, out: &mut Vec<u8>) -> Result<(), NoMemory>
    ensures { OnOk result (out.new.items ≡ out.old.items ++ lock_text lock) }
{
    match lock {
        Lock::Semaphore(id) => put_named(alloc, out, " waits for semaphore", u64::from(id)),
        Lock::Mutex(id) => put_named(alloc, out, " waits for mutex", u64::from(id)),
    }
}

/// The units of what a task waits for.
fn units_of(alloc: Global, units: &[Unit], wait: Wait) -> Result<List<Unit>, NoMemory>
    ensures { IfOk result (λ held. held ≡ filter (is_of wait) units.now) }
{
    let mut held = List::new(alloc);
    for unit in units {
        if is_of(wait, *unit) {
            held.push(*unit)?;
        }
    }
    Ok(held)
}

/// Whether a unit is one of what a task waits for.
fn is_of(wait: Wait, unit: Unit) -> bool
    ensures { result ≡ is_of wait unit }
{
    is_same(wait.lock, unit.lock)
}

/// Puts at the end which tasks have these units.
fn put_holders(alloc: Global, units: &[Unit], out: &mut Vec<u8>) -> Result<(), NoMemory>
    ensures { OnOk result (out.new.items ≡ out.old.items ++ holders_text units.now) }
{
    let Some((first, more)) = units.split_first() else {
        return Ok(());
    };
    put_holder(alloc, ", which task", *first, out)?;
    put_more_holders(alloc, more, out)
}

/// Puts at the end which other tasks have these units.
fn put_more_holders(alloc: Global, units: &[Unit], out: &mut Vec<u8>) -> Result<(), NoMemory>
    ensures { OnOk result (out.new.items ≡ out.old.items ++ flat_map (holder_text (codes " and task")) units.now) }
{
    for unit in units {
        put_holder(alloc, " and task", *unit, out)?;
    }
    Ok(())
}

/// Puts at the end, behind some words, which task has a unit.
fn put_holder(alloc: Global, before: &str, unit: Unit, out: &mut Vec<u8>) -> Result<(), NoMemory>
    ensures { OnOk result (out.new.items ≡ out.old.items ++ holder_text before.now unit) }
{
    put_named(alloc, out, before, u64::from(unit.task))?;
    put_named(alloc, out, " took at event", unit.position)
}

/// Puts the lines of calls at the end that were refused.
fn put_refusals(
    alloc: Global,
    names: Names,
    kinds: &[Refused],
    out: &mut Vec<u8>,
) -> Result<(), NoMemory>
    ensures { IfOk result
        (λ _. IsBehind (AreTexts (IsRefused names.entry) kinds.now) out.old.items out.new.items) }
{
    for i in 0..kinds.len() {
        put_refused(alloc, names, kinds[i], out)?;
    }
    Ok(())
}

/// Puts the line of calls of one kind at the end: the first, its answer, where it was made, and how many came after it.
fn put_refused(
    alloc: Global,
    names: Names,
    kind: Refused,
    out: &mut Vec<u8>,
) -> Result<(), NoMemory>
    ensures { IfOk result (λ _. IsBehind (IsRefused names.entry kind) out.old.items out.new.items) }
{
    let what = said(alloc, kind)?;
    put_refused_line(alloc, names, kind, what.as_slice(), out)?;
    Ok(())
}

/// The call in words, with its answer.
fn said(alloc: Global, kind: Refused) -> Result<Vec<u8>, NoMemory> {
    let mut what = Vec::new(alloc);
    let call = SaidCall { asked: kind.call };
    call.put(alloc, &mut what)?;
    put(&mut what, " = ")?;
    match error_name(kind.code) {
        Some(name) => put(&mut what, name)?,
        None => put_signed(alloc, &mut what, kind.code)?,
    }
    put_advice(&mut what, kind)?;
    Ok(what)
}

/// Puts at the end what is said of such a refusal, if something is.
fn put_advice(what: &mut Vec<u8>, kind: Refused) -> Result<(), NoMemory> {
    let Some(advice) = refusal_advice(kind.code, kind.call.number) else {
        return Ok(());
    };
    put(what, " (")?;
    put(what, advice)?;
    put(what, ")")
}

/// Puts the line of calls of one kind at the end, of which these words are said.
fn put_refused_line(
    alloc: Global,
    names: Names,
    kind: Refused,
    what: &[u8],
    out: &mut Vec<u8>,
) -> Result<(), NoMemory>
    ensures { OnOk result (out.new.items ≡ out.old.items ++ refused_text names.entry kind what.now) }
{
    put(out, "refused: ")?;
    out.extend_from_slice(what)?;
    put(out, " at event ")?;
    put_number(alloc, out, kind.position)?;
    put(out, ", at ")?;
    names.put_both(out, kind.place)?;
    put_more(alloc, kind.count, out)?;
    put(out, "\n")
}

/// Puts at the end how many more calls of a kind there were.
fn put_more(alloc: Global, count: u64, out: &mut Vec<u8>) -> Result<(), NoMemory>
    ensures { OnOk result (out.new.items ≡ out.old.items ++ more_text count) }
{
    if count <= 1 {
        return Ok(());
    }
    put(out, ", and ")?;
    put_count(alloc, out, count - 1, "time")?;
    put(out, " after it")
}

/// Puts the lines of raises at the end that had no effect.
fn put_losses(alloc: Global, lines: &[LostRaises], out: &mut Vec<u8>) -> Result<(), NoMemory>
    ensures { OnOk result (out.new.items ≡ out.old.items ++ flat_map lost_text lines.now) }
{
    for line in lines {
        put_lost(alloc, *line, out)?;
    }
    Ok(())
}

/// Puts a line at the end: how many raises there were, of which line, why they had no effect, and where the first was.
fn put_lost(alloc: Global, it: LostRaises, out: &mut Vec<u8>) -> Result<(), NoMemory>
    ensures { OnOk result (out.new.items ≡ out.old.items ++ lost_text it) }
{
    put(out, "lost: ")?;
    put_count(alloc, out, it.count, "raise")?;
    put(out, " of ")?;
    put_raised(alloc, it, out)?;
    put(out, why_of(it))?;
    put(out, first_of(it.count))?;
    put_named(alloc, out, " at event", it.position)?;
    put(out, "\n")
}

/// Puts the line at the end; if it was pending, and from line 32 on, its time handler.
fn put_raised(alloc: Global, it: LostRaises, out: &mut Vec<u8>) -> Result<(), NoMemory>
    ensures { OnOk result (out.new.items ≡ out.old.items ++ raised_text it) }
{
    if it.pending {
        return put_called(alloc, out, "line", u16::from(it.line));
    }
    put_named(alloc, out, "line", u64::from(it.line))
}

/// Why raises had no effect.
fn why_of(it: LostRaises) -> &'static str
    ensures { result.now ≡ why_text it }
{
    if it.pending {
        ", pending already"
    } else {
        unraised(it.line)
    }
}

/// Why a raise of a line from outside finds no handler.
fn unraised(line: u8) -> &'static str
    ensures { result.now ≡ unraised_text line }
{
    if line < 32 {
        ", which has no handler"
    } else {
        ", which is raised by ticks alone"
    }
}

/// What stands before the position of so many raises.
fn first_of(count: u64) -> &'static str
    ensures { result.now ≡ first_text count }
{
    if count == 1 { "," } else { ", the first" }
}
