//! Whose steps the events of a journal are.

use brd_base::NoMemory;
use brd_board::Event;
use brd_journal::{Journal, Run};
use brd_timeline::Turn;
use std::alloc::Global;

/// The turns of a journal's events from one position to another, of these processors: the longest stretches of steps of
/// the same one.
pub fn turns_of(
    alloc: Global,
    journal: &Journal,
    processors: &[u8],
    from: u64,
    to: u64,
) -> Result<Vec<Turn>, NoMemory> {
    let mut turns = Vec::new(alloc);
    let mut at = 0u64;
    for run in journal.runs() {
        let end = at.saturating_add(u64::from(run.count));
        if let Some(turn) = turn_of(*run, at.max(from), end.min(to))
            && processors.contains(&turn.cpu)
        {
            put_turn(&mut turns, turn)?;
        }
        at = end;
    }
    Ok(turns)
}

/// The turn that a run is from one position to another, if it is of steps, and there are some.
fn turn_of(run: Run, from: u64, to: u64) -> Option<Turn> {
    match run.event {
        Event::Step(cpu) if from < to => Some(Turn { cpu, from, to }),
        _ => None,
    }
}

/// Puts a turn at the end: one of the same processor goes on in it.
fn put_turn(turns: &mut Vec<Turn>, turn: Turn) -> Result<(), NoMemory> {
    let last = turns.len().saturating_sub(1);
    if last < turns.len() && turns[last].cpu == turn.cpu && turns[last].to == turn.from {
        turns[last].to = turn.to;
        return Ok(());
    }
    turns.push(turn)?;
    Ok(())
}
