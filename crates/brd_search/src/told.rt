//! What is told of a search: what fails, the few switches that matter; or within which bounds nothing fails, what was
//! looked for, and how many schedules came to an end.

use crate::plan::Plan;
use crate::shown::stops;
use brd_base::NoMemory;
use brd_board::{Board, Event};
use brd_explore::{Bounds, Comparison, Condition, Counts, Ending, Failure, Term, Wanted};
use brd_isa::decode;
use brd_listing::{write_instruction, write_place};
use brd_mem::Symbol;
use brd_only::Region;
use brd_text::hex_digits;
use brd_word::word_of;
use std::alloc::Global;

/// Puts a text at the end.
fn put(out: &mut Vec<u8>, text: &str) -> Result<(), NoMemory> {
    out.extend_from_slice(text.as_bytes())?;
    Ok(())
}

/// Puts a number at the end.
fn put_number(alloc: Global, out: &mut Vec<u8>, number: u64) -> Result<(), NoMemory> {
    let text = format!(in alloc; "{number}")?;
    put(out, &text)
}

/// Puts a number of things at the end, `schedule` or `schedules`.
fn put_count(alloc: Global, out: &mut Vec<u8>, number: u64, thing: &str) -> Result<(), NoMemory> {
    put_number(alloc, out, number)?;
    put(out, " ")?;
    put(out, thing)?;
    if number != 1 {
        put(out, "s")?;
    }
    Ok(())
}

/// Puts bounds at the end.
fn put_bounds(alloc: Global, out: &mut Vec<u8>, bounds: Bounds) -> Result<(), NoMemory> {
    put_count(alloc, out, u64::from(bounds.events), "event")?;
    put(out, ", ")?;
    put_count(alloc, out, u64::from(bounds.preemptions), "preemption")?;
    put(out, ", ")?;
    put_extras(alloc, out, bounds)
}

/// Puts how many ticks and raises bounds leave at the end, and how many raises come before an end.
fn put_extras(alloc: Global, out: &mut Vec<u8>, bounds: Bounds) -> Result<(), NoMemory> {
    put_count(alloc, out, u64::from(bounds.ticks), "tick")?;
    put(out, " and ")?;
    put_count(alloc, out, u64::from(bounds.raises), "raise")?;
    if bounds.raises == 0 {
        return Ok(());
    }
    put(out, "; rest is an end after ")?;
    put_count(alloc, out, u64::from(bounds.owed), "raise")
}

/// Puts at the end of how many schedules none fails, and within which bounds, as what follows "none of "; and below
/// that what was looked for, and how many of the schedules came to an end. If the lazy ones alone were searched, places
/// are counted.
pub fn put_none(
    alloc: Global,
    symbols: &[Symbol],
    plan: &Plan,
    lazily: bool,
    counts: Counts,
    out: &mut Vec<u8>,
) -> Result<(), NoMemory> {
    if lazily {
        return put_none_lazily(alloc, symbols, plan, counts, out);
    }
    put_count(alloc, out, counts.tried, "schedule")?;
    put(out, " fails: at most ")?;
    put_bounds(alloc, out, plan.bounds)?;
    if plan.shard.of > 1 {
        put(out, ", shard ")?;
        put_number(alloc, out, u64::from(plan.shard.number) + 1)?;
        put(out, " of ")?;
        put_number(alloc, out, u64::from(plan.shard.of))?;
    }
    put(out, "\n")?;
    put_looked_for(alloc, symbols, plan, out)?;
    put_ends(alloc, plan, counts, out)
}

/// Puts at the end a line of the regions in which such events may come, if there are any.
fn put_regions(
    symbols: &[Symbol],
    events: &str,
    regions: &[Region],
    out: &mut Vec<u8>,
) -> Result<(), NoMemory> {
    if regions.is_empty() {
        return Ok(());
    }
    put(out, events)?;
    put(out, " only in ")?;
    let mut others = false;
    for region in regions {
        if others {
            put(out, ", ")?;
        }
        write_place(symbols, region.from, out)?;
        put(out, "..")?;
        write_place(symbols, region.upto, out)?;
        others = true;
    }
    put(out, "\n")
}

/// Puts at the end that of the schedules within bounds none fails, where places were gone through, which are counted so:
/// by the lazy ones alone, or by those that keep to regions.
fn put_none_lazily(
    alloc: Global,
    symbols: &[Symbol],
    plan: &Plan,
    counts: Counts,
    out: &mut Vec<u8>,
) -> Result<(), NoMemory> {
    put(out, "the schedules fails: at most ")?;
    put_bounds(alloc, out, plan.bounds)?;
    put(out, "\n")?;
    put_regions(symbols, "switches", plan.regions.switches.as_slice(), out)?;
    put_regions(symbols, "raises", plan.regions.raises.as_slice(), out)?;
    put_looked_for(alloc, symbols, plan, out)?;
    put_gone(alloc, counts.tried, counts.ended, out)?;
    put_cut(alloc, counts.out_of_events, "--events", out)?;
    put_cut(alloc, counts.out_of_ticks, "--ticks", out)?;
    put(out, "\n")?;
    if counts.ended == 0 {
        return put(out, NO_LAZY_END);
    }
    Ok(())
}

/// Puts at the end through how many places a search went, and how many of them are ends.
fn put_gone(alloc: Global, places: u64, ends: u64, out: &mut Vec<u8>) -> Result<(), NoMemory> {
    put_count(alloc, out, places, "place")?;
    put(out, if places == 1 { " was" } else { " were" })?;
    put(out, " gone through, ")?;
    put_number(alloc, out, ends)?;
    put(out, if ends == 1 { " is an end" } else { " are ends" })
}

/// What is said where no place within bounds is an end.
const NO_LAZY_END: &str =
    "warning: none is an end, so nothing that should be so at the end was looked at; more --events or --ticks may \
help\n";

/// Through how many places a search went for which events and preemptions have no bound; how many of them are ends; and
/// from how many of them no schedule comes to an end.
#[derive(Clone, Copy)]
pub struct Extent {
    /// Through how many it went.
    pub places: u64,
    /// How many of them are ends.
    pub ends: u64,
    /// From how many no schedule comes to an end, though there are ticks left for each wait that ends by one.
    pub hopeless: u64,
}

/// Puts at the end that no schedule fails, however many events and preemptions it has, as what follows "none "; and
/// below that what was looked for, and through how many places the search went.
pub fn put_all_hold(
    alloc: Global,
    symbols: &[Symbol],
    plan: &Plan,
    extent: Extent,
    out: &mut Vec<u8>,
) -> Result<(), NoMemory> {
    put(
        out,
        "fails, however many events and preemptions it has: at most ",
    )?;
    put_extras(alloc, out, plan.bounds)?;
    put(out, "\n")?;
    put_looked_for(alloc, symbols, plan, out)?;
    put_gone(alloc, extent.places, extent.ends, out)?;
    put(out, "\n")?;
    put_hopeless(alloc, plan, extent, out)
}

/// Puts a line at the end, if no schedule comes to an end from some places, or if none of them is an end.
fn put_hopeless(
    alloc: Global,
    plan: &Plan,
    extent: Extent,
    out: &mut Vec<u8>,
) -> Result<(), NoMemory> {
    if extent.hopeless > 0 && !plan.livelock {
        put(out, "warning: from ")?;
        put_number(alloc, out, extent.hopeless)?;
        return put(out, HOPELESS);
    }
    if extent.ends == 0 {
        return put(out, NO_END_PLACE);
    }
    Ok(())
}

/// What is said where no schedule comes to an end from so many places.
const HOPELESS: &str =
    " of them no schedule comes to an end, so nothing that should be so at the end was looked at there; --livelock \
     shows how one gets there\n";

/// What is said where no place is an end.
const NO_END_PLACE: &str =
    "warning: none is an end, so nothing that should be so at the end was looked at; more --ticks may help\n";

/// Puts at the end the console of an end and the values of these words there, and below that the schedule to it.
pub fn put_final(
    alloc: Global,
    symbols: &[Symbol],
    board: &Board,
    words: &[u32],
    ending: &Ending,
    events: &[Event],
    out: &mut Vec<u8>,
) -> Result<(), NoMemory> {
    put_quoted(ending.console.as_slice(), out)?;
    put_values(alloc, symbols, words, ending.values.as_slice(), out)?;
    put(out, " at an end after ")?;
    put_count(alloc, out, events.len() as u64, "event")?;
    put(out, "\n")?;
    let mut copy = board.try_copy()?;
    put_schedule(alloc, symbols, &mut copy, events, out)
}

/// Puts at the end the values of words, each behind a comma.
fn put_values(
    alloc: Global,
    symbols: &[Symbol],
    words: &[u32],
    values: &[u32],
    out: &mut Vec<u8>,
) -> Result<(), NoMemory> {
    for (at, value) in values.iter().enumerate() {
        put(out, ", ")?;
        if let Some(address) = words.get(at) {
            write_place(symbols, *address, out)?;
            put(out, "=")?;
        }
        put_number(alloc, out, u64::from(*value))?;
    }
    Ok(())
}

/// Puts a line at the end of how many consoles there are at the ends, with the values of words if there are any; `more`
/// says that there are more than these.
pub fn put_final_count(
    alloc: Global,
    count: u64,
    with_values: bool,
    more: bool,
    out: &mut Vec<u8>,
) -> Result<(), NoMemory> {
    if more {
        put(out, "more than ")?;
    }
    put_count(alloc, out, count, "console")?;
    if with_values {
        put(out, " with values")?;
    }
    put(out, " at the ends")?;
    put(
        out,
        if more {
            ", not all below\n"
        } else {
            ", and no other\n"
        },
    )
}

/// Puts at the end that from some board no schedule comes to an end, as what follows "fails ": after how many events it
/// is there; and below that the schedule to it.
pub fn put_hung(
    alloc: Global,
    symbols: &[Symbol],
    board: &Board,
    events: &[Event],
    out: &mut Vec<u8>,
) -> Result<(), NoMemory> {
    put(out, "after ")?;
    put_count(alloc, out, events.len() as u64, "event")?;
    put(
        out,
        ": nobody gets on: from there no schedule comes to an end\n",
    )?;
    let mut copy = board.try_copy()?;
    put_schedule(alloc, symbols, &mut copy, events, out)
}

/// Puts at the end a line of what is looked for.
fn put_looked_for(
    alloc: Global,
    symbols: &[Symbol],
    plan: &Plan,
    out: &mut Vec<u8>,
) -> Result<(), NoMemory> {
    put(out, "looked for: ")?;
    let mut others = false;
    for failure in plan.wanted.failures.as_slice() {
        if others {
            put(out, ", ")?;
        }
        put_kind(alloc, symbols, failure, out)?;
        others = true;
    }
    if plan.livelock {
        put(out, ", a board from which no schedule comes to an end")?;
    }
    put(out, "\n")
}

/// Puts at the end which boards fail by a failure.
fn put_kind(
    alloc: Global,
    symbols: &[Symbol],
    failure: &Failure,
    out: &mut Vec<u8>,
) -> Result<(), NoMemory> {
    match failure {
        Failure::Exception => put(out, "an exception"),
        Failure::Deadlock => put(out, "a deadlock"),
        Failure::On => put(out, "a board that is on at the end"),
        Failure::Ended => put(out, "an end"),
        Failure::Unlisted { .. } => put(out, "an end that isn't listed"),
        Failure::Console(text) => {
            put(out, "a console that isn't ")?;
            put_quoted(text.as_slice(), out)
        }
        Failure::Word { address, value } => {
            write_place(symbols, *address, out)?;
            put(out, " that isn't ")?;
            put_number(alloc, out, u64::from(*value))?;
            put(out, " at the end")
        }
        Failure::Outside {
            address,
            least,
            most,
        } => {
            write_place(symbols, *address, out)?;
            put(out, " that isn't ")?;
            put_range(alloc, *least, *most, out)
        }
        Failure::Holds(condition) => put_condition(alloc, symbols, None, condition, out),
        Failure::At { address } => {
            put(out, "a processor at ")?;
            write_place(symbols, *address, out)
        }
    }
}

/// Puts at the end a line of how many schedules came to an end, and how many were cut short by what; and if none came
/// to an end, and none went on to a fair end, a line that says so.
fn put_ends(alloc: Global, plan: &Plan, counts: Counts, out: &mut Vec<u8>) -> Result<(), NoMemory> {
    put_number(alloc, out, counts.ended)?;
    put(out, " came to an end")?;
    put_cut(alloc, counts.out_of_events, "--events", out)?;
    put_cut(alloc, counts.out_of_ticks, "--ticks", out)?;
    if counts.tried == counts.ended {
        return put(out, ", none was cut short\n");
    }
    if plan.wanted.rounds > 0 && plan.bounds.owed == 0 {
        return put(out, ", and went on to the fair end\n");
    }
    put(out, "\n")?;
    if counts.ended == 0 {
        return put(out, NO_END);
    }
    Ok(())
}

/// What is said where no schedule came to an end.
const NO_END: &str =
    "warning: none came to an end, so nothing that should be so at the end was looked at; more --events or --ticks may \
     help, or --fair\n";

/// Puts at the end how many schedules were cut short by a bound, if any were.
fn put_cut(alloc: Global, number: u64, bound: &str, out: &mut Vec<u8>) -> Result<(), NoMemory> {
    if number == 0 {
        return Ok(());
    }
    put(out, ", ")?;
    put_number(alloc, out, number)?;
    put(out, if number == 1 { " was" } else { " were" })?;
    put(out, " cut short by ")?;
    put(out, bound)
}

/// Puts a range at the end.
fn put_range(alloc: Global, least: u32, most: u32, out: &mut Vec<u8>) -> Result<(), NoMemory> {
    put_number(alloc, out, u64::from(least))?;
    put(out, "..")?;
    put_number(alloc, out, u64::from(most))
}

/// Puts bytes at the end, between quotation marks: printable ASCII as it is, others as `--console` takes them.
fn put_quoted(bytes: &[u8], out: &mut Vec<u8>) -> Result<(), NoMemory> {
    out.push(b'"')?;
    for byte in bytes {
        put_byte(*byte, out)?;
    }
    out.push(b'"')?;
    Ok(())
}

/// Puts a byte at the end as `--console` takes it.
fn put_byte(byte: u8, out: &mut Vec<u8>) -> Result<(), NoMemory> {
    match byte {
        b'\n' => put(out, "\\n"),
        b'\r' => put(out, "\\r"),
        b'\t' => put(out, "\\t"),
        b'\\' => put(out, "\\\\"),
        b' '..=b'~' => {
            out.push(byte)?;
            Ok(())
        }
        _ => {
            put(out, "\\x")?;
            out.extend_from_slice(&hex_digits(u32::from(byte))[6..])?;
            Ok(())
        }
    }
}

/// Puts at the end how many events a schedule has, whether what fails shows only at its fair end, and what fails; and
/// below that the schedule.
pub fn put_found(
    alloc: Global,
    symbols: &[Symbol],
    board: &Board,
    wanted: &Wanted,
    events: &[Event],
    out: &mut Vec<u8>,
) -> Result<(), NoMemory> {
    put(out, "after ")?;
    put_count(alloc, out, events.len() as u64, "event")?;
    if wanted.rounds > 0 && !stops(wanted, board, events)? {
        put(out, " and the fair end")?;
    }
    put(out, ": ")?;
    put_shown(alloc, symbols, board, wanted, events, out)?;
    put(out, "\n")?;
    let mut copy = board.try_copy()?;
    put_schedule(alloc, symbols, &mut copy, events, out)
}

/// Puts at the end the first failure that the board shows after events, or at their fair end.
fn put_shown(
    alloc: Global,
    symbols: &[Symbol],
    board: &Board,
    wanted: &Wanted,
    events: &[Event],
    out: &mut Vec<u8>,
) -> Result<(), NoMemory> {
    let mut copy = board.try_copy()?;
    copy.play(events);
    match wanted.shown(&mut copy)? {
        Some(failure) => put_failure(alloc, symbols, &copy, failure, out),
        None => put(out, "nothing"),
    }
}

/// Puts at the end what fails on a board.
pub fn put_failure(
    alloc: Global,
    symbols: &[Symbol],
    board: &Board,
    failure: &Failure,
    out: &mut Vec<u8>,
) -> Result<(), NoMemory> {
    match failure {
        Failure::Exception => put(out, "an exception"),
        Failure::Deadlock => put(out, "a deadlock: nobody goes on, and a task waits"),
        Failure::Console(text) => {
            put(out, "the console is ")?;
            put_quoted(board.console(), out)?;
            put(out, ", not ")?;
            put_quoted(text.as_slice(), out)
        }
        Failure::On => put(out, "the board is on at the end"),
        Failure::Ended => put(out, "an end"),
        Failure::Unlisted { .. } => put(out, "the end isn't listed"),
        Failure::Word { address, value } => {
            put_word(alloc, symbols, board, *address, out)?;
            put(out, ", not ")?;
            put_number(alloc, out, u64::from(*value))
        }
        Failure::Outside {
            address,
            least,
            most,
        } => {
            put_word(alloc, symbols, board, *address, out)?;
            put(out, ", not ")?;
            put_range(alloc, *least, *most, out)
        }
        Failure::Holds(condition) => {
            put_condition(alloc, symbols, None, condition, out)?;
            put(out, ", as ")?;
            put_condition(alloc, symbols, Some(board), condition, out)
        }
        Failure::At { address } => {
            put(out, "processor ")?;
            put_number(alloc, out, u64::from(first_at(board, *address)))?;
            put(out, " is at ")?;
            write_place(symbols, *address, out)
        }
    }
}

/// Puts at the end a condition; on a board, each word is what it is there.
fn put_condition(
    alloc: Global,
    symbols: &[Symbol],
    board: Option<&Board>,
    condition: &Condition,
    out: &mut Vec<u8>,
) -> Result<(), NoMemory> {
    put_sum(alloc, symbols, board, condition.left.as_slice(), out)?;
    put(out, sign(condition.order))?;
    put_sum(alloc, symbols, board, condition.right.as_slice(), out)
}

/// The sign of a comparison, with blanks around it.
fn sign(order: Comparison) -> &'static str {
    match order {
        Comparison::Less => " < ",
        Comparison::AtMost => " <= ",
        Comparison::More => " > ",
        Comparison::AtLeast => " >= ",
        Comparison::Same => " == ",
        Comparison::Other => " != ",
    }
}

/// Puts at the end a sum; on a board, each word is what it is there.
fn put_sum(
    alloc: Global,
    symbols: &[Symbol],
    board: Option<&Board>,
    terms: &[Term],
    out: &mut Vec<u8>,
) -> Result<(), NoMemory> {
    let mut others = false;
    for term in terms {
        if others {
            put(out, " + ")?;
        }
        put_term(alloc, symbols, board, *term, out)?;
        others = true;
    }
    Ok(())
}

/// Puts at the end a term; on a board, a word is what it is there.
fn put_term(
    alloc: Global,
    symbols: &[Symbol],
    board: Option<&Board>,
    term: Term,
    out: &mut Vec<u8>,
) -> Result<(), NoMemory> {
    match (term, board) {
        (Term::Number(number), _) => put_number(alloc, out, u64::from(number)),
        (Term::Word(address), None) => write_place(symbols, address, out),
        (Term::Word(address), Some(board)) => match word_at(board, address) {
            Some(word) => put_number(alloc, out, u64::from(word)),
            None => put(out, "a word that isn't there"),
        },
    }
}

/// The first processor on which the instruction at an address is the next one; 0 if there is none.
fn first_at(board: &Board, address: u32) -> u8 {
    for cpu in 1..9u8 {
        if let Some(context) = board.registers(cpu) {
            if context.pc() == address {
                return cpu;
            }
        }
    }
    0
}

/// Puts at the end what a word is.
fn put_word(
    alloc: Global,
    symbols: &[Symbol],
    board: &Board,
    address: u32,
    out: &mut Vec<u8>,
) -> Result<(), NoMemory> {
    put(out, "the word at ")?;
    write_place(symbols, address, out)?;
    match word_at(board, address) {
        Some(word) => {
            put(out, " is ")?;
            put_number(alloc, out, u64::from(word))
        }
        None => put(out, " isn't there"),
    }
}

/// The word at an address, where RAM has its four bytes.
fn word_at(board: &Board, address: u32) -> Option<u32> {
    let bytes = [
        board.memory(address)?,
        board.memory(address.wrapping_add(1))?,
        board.memory(address.wrapping_add(2))?,
        board.memory(address.wrapping_add(3))?,
    ];
    Some(word_of(bytes, board.order()))
}

/// Puts at the end the events of a schedule that are more than the next step of the same processor: preemptions, ticks,
/// raises. The board does the events.
pub fn put_schedule(
    alloc: Global,
    symbols: &[Symbol],
    board: &mut Board,
    events: &[Event],
    out: &mut Vec<u8>,
) -> Result<(), NoMemory> {
    let mut last = 0;
    for (at, event) in events.iter().enumerate() {
        put_event(alloc, symbols, board, last, at as u64, *event, out)?;
        let _ = board.event_apart(*event);
        if let Event::Step(cpu) = *event {
            last = cpu;
        }
    }
    Ok(())
}

/// Puts an event at the end, unless it is the next step of the same processor.
fn put_event(
    alloc: Global,
    symbols: &[Symbol],
    board: &Board,
    last: u8,
    at: u64,
    event: Event,
    out: &mut Vec<u8>,
) -> Result<(), NoMemory> {
    match event {
        Event::Step(cpu) if cpu == last => Ok(()),
        Event::Step(cpu) => {
            put_position(alloc, out, at)?;
            put_stop(alloc, symbols, board, last, out)?;
            put_begin(alloc, symbols, board, cpu, out)
        }
        Event::Tick => {
            put_position(alloc, out, at)?;
            put(out, "a tick\n")
        }
        Event::Raise(line) => {
            put_position(alloc, out, at)?;
            put(out, "interrupt line ")?;
            put_number(alloc, out, u64::from(line))?;
            put(out, " is raised\n")
        }
    }
}

/// Puts a position at the end, in a column of its own.
fn put_position(alloc: Global, out: &mut Vec<u8>, at: u64) -> Result<(), NoMemory> {
    let text = format!(in alloc; "{at:8}  ")?;
    put(out, &text)
}

/// Puts at the end before what the processor stops that has done the last step.
fn put_stop(
    alloc: Global,
    symbols: &[Symbol],
    board: &Board,
    last: u8,
    out: &mut Vec<u8>,
) -> Result<(), NoMemory> {
    let Some(context) = board.registers(last) else {
        return Ok(());
    };
    put(out, "processor ")?;
    put_number(alloc, out, u64::from(last))?;
    put(out, " stops before ")?;
    put_instruction(symbols, board, context.pc(), out)?;
    put(out, "; ")
}

/// Puts at the end with what a processor goes on.
fn put_begin(
    alloc: Global,
    symbols: &[Symbol],
    board: &Board,
    cpu: u8,
    out: &mut Vec<u8>,
) -> Result<(), NoMemory> {
    put(out, "processor ")?;
    put_number(alloc, out, u64::from(cpu))?;
    put(out, " goes on")?;
    if let Some(context) = board.registers(cpu) {
        put(out, " at ")?;
        write_place(symbols, context.pc(), out)?;
    }
    put(out, "\n")
}

/// Puts an instruction at the end, and where it is.
fn put_instruction(
    symbols: &[Symbol],
    board: &Board,
    address: u32,
    out: &mut Vec<u8>,
) -> Result<(), NoMemory> {
    match word_at(board, address) {
        None => put(out, "what is outside RAM")?,
        Some(word) => {
            match decode(word) {
                Some(insn) => write_instruction(&insn, address, out)?,
                None => out.extend_from_slice(&hex_digits(word))?,
            }
        }
    }
    put(out, " at ")?;
    write_place(symbols, address, out)
}
