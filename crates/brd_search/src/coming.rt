//! The events that may come in a search, and a round of the fair end.

ghost use Rattle.std.specs.Prelude.{◌≡◌, ◌++◌, Some, IfErr, IfOk, MatchResult, OnOk};
ghost use Rattle.brd_search.specs.Plans.{Adds, IsOfRaises, MayCome, raise_of, raises_in, raises_of, round_of, steps_of};
ghost use Rattle.brd_search.specs.Plans.{AreFit, AreUnfit, IsOfLine, is_again, is_idle, is_twice, raises_line};
ghost use Rattle.brd_search.specs.Plans.{text_of, ticks_of};
ghost use Rattle.std.specs.List.{list_any};
ghost use Rattle.brd_search.specs.declared.fault.SearchFault.TheVariants.{Lines as no_line};

use crate::fault::SearchFault;
use crate::options::SearchOptions;
use brd_base::{List, NoMemory};
use brd_board::{Board, Event};
use brd_explore::did_nothing;
use brd_text::{piece, plain_decimal};
use std::alloc::Global;

/// The highest number of an interrupt line.
const MOST_LINE: u64 = 31;

/// How many steps each processor takes in a round of the fair end, after which comes a tick (own choice).
const ROUND: u32 = 16;

/// The events that may come: a step of each processor, a tick and raises where options allow them.
pub(crate) fn may_come(
    alloc: Global,
    options: &SearchOptions<'_>,
    most: u32,
    cpus: u8,
) -> Result<List<Event>, SearchFault>
    ensures { MatchResult result (MayCome options.now most cpus) (IsOfRaises most (text_of options.now.lines)) }
{
    let mut among = List::new(alloc);
    add_steps(&mut among, cpus)?;
    add_tick(&mut among, options.sizes.ticks)?;
    add_raises(&mut among, most, options.lines)?;
    Ok(among)
}

/// Adds a step of each of the first processors, of so many.
fn add_steps(events: &mut List<Event>, cpus: u8) -> Result<(), NoMemory>
    ensures { OnOk result (events.new ≡ events.old ++ steps_of cpus) }
{
    for cpu in 0..cpus {
        events.push(Event::Step(cpu + 1))?;
    }
    Ok(())
}

/// Adds a tick, where any are allowed.
fn add_tick(events: &mut List<Event>, most: u32) -> Result<(), NoMemory>
    ensures { OnOk result (events.new ≡ events.old ++ ticks_of most) }
{
    if most > 0 {
        events.push(Event::Tick)?;
    }
    Ok(())
}

/// Adds a raise of each line that a text names, if raises are allowed; no line is named if they aren't.
fn add_raises(events: &mut List<Event>, most: u32, lines: Option<&str>) -> Result<(), SearchFault>
    ensures ok { OnOk result (Adds (raises_of most (text_of lines.entry)) events.old events.new) }
    ensures err { IfErr result (IsOfRaises most (text_of lines.entry)) }
{
    match lines {
        Some(_) if most == 0 => Err(SearchFault::NoLines),
        Some(text) => add_lines(events, text.as_bytes()),
        None if most == 0 => Ok(()),
        None => Err(SearchFault::NoLines),
    }
}

/// Adds a raise of each line that a text names.
fn add_lines(events: &mut List<Event>, text: &[u8]) -> Result<(), SearchFault>
    ensures ok { OnOk result (Adds (raises_in (Some text.now)) events.old events.new) }
    ensures err { IfErr result (IsOfLine (raises_in (Some text.now))) }
{
    let mut rest = text;
    'pieces: loop {
        let (word, after) = piece(rest);
        let raise = raised(word)?;
        events.push(raise)?;
        let Some(left) = after else {
            return Ok(());
        };
        rest = left;
    }
}

/// The raise of the line that a text names.
#[tactic(auto, unfolding(crate::specs::Plans::raise_of))]
fn raised(word: &[u8]) -> Result<Event, SearchFault>
    ensures is { result ≡ raise_of word.now }
    ensures fault { IfErr result (λ fault. fault ≡ no_line) }
{
    match plain_decimal(word, MOST_LINE) {
        Some(line) => Ok(Event::Raise(line as u8)),
        None => Err(SearchFault::Lines),
    }
}

/// Sees that events raise no line twice, and none without a handler.
pub(crate) fn check_lines(board: &Board, among: &[Event]) -> Result<(), SearchFault>
    ensures { MatchResult result (λ done. AreFit board.now among.now) (AreUnfit board.now among.now) }
{
    if is_twice(among) {
        return Err(SearchFault::Twice);
    }
    if some_are_idle(board, among)? {
        return Err(SearchFault::NoHandler);
    }
    Ok(())
}

/// Whether two events raise the same line.
fn is_twice(events: &[Event]) -> bool
    ensures { result ≡ is_twice events.now }
{
    let mut rest = events;
    'events: while let Some((event, others)) = rest.split_first() {
        if is_again(*event, others) {
            return true;
        }
        rest = others;
    }
    false
}

/// Whether an event raises a line that one of some others raises, too.
fn is_again(event: Event, others: &[Event]) -> bool
    ensures { result ≡ is_again event others.now }
{
    match event {
        Event::Raise(line) => raises_line(line, others),
        Event::Step(_) | Event::Tick => false,
    }
}

/// Whether one of some events raises a line.
fn raises_line(line: u8, events: &[Event]) -> bool
    ensures { result ≡ list_any (raises_line line) events.now }
{
    for event in events {
        match *event {
            Event::Raise(other) if other == line => return true,
            Event::Raise(_) | Event::Step(_) | Event::Tick => {}
        }
    }
    false
}

/// Whether one of some events raises a line without a handler on a board.
fn some_are_idle(board: &Board, events: &[Event]) -> Result<bool, NoMemory>
    ensures { IfOk result (λ idle. idle ≡ list_any (is_idle board.now) events.now) }
{
    for event in events {
        if is_idle(board, *event)? {
            return Ok(true);
        }
    }
    Ok(false)
}

/// Whether an event raises a line without a handler on a board.
#[tactic(auto, unfolding(brd_explore::specs::Schedules::does))]
fn is_idle(board: &Board, event: Event) -> Result<bool, NoMemory>
    ensures { IfOk result (λ idle. idle ≡ is_idle board.now event) }
{
    let Event::Raise(_) = event else {
        return Ok(false);
    };
    let mut copy = board.try_copy()?;
    Ok(did_nothing(copy.event_apart(event)))
}

/// A round of the fair end: each processor takes a step in turn, some times over, and then a tick passes.
#[tactic(auto, using(crate::proofs::PlanLemmas::times_none, crate::proofs::PlanLemmas::times_more))]
pub(crate) fn round(alloc: Global, cpus: u8) -> Result<List<Event>, NoMemory>
    ensures { IfOk result (λ round. round ≡ round_of cpus) }
{
    let mut round = List::new(alloc);
    for _ in 0..ROUND {
        add_steps(&mut round, cpus)?;
    }
    round.push(Event::Tick)?;
    Ok(round)
}
