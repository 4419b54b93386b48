//! What is known of places of which none fails.

use crate::ways::{Shown, Ways};
use brd_base::{List, NoMemory};
use brd_board::Event;
use brd_explore::Ending;
use brd_places::Places;
use std::alloc::Global;

/// What is known of places of which none fails.
#[derive(Drop)]
pub struct Held {
    /// How many there are.
    pub places: usize,
    /// How many of them are ends.
    pub ends: usize,
    /// From how many no way was found to an end, nor to where ticks ran out.
    pub hopeless: usize,
    /// The events that lead to the first of these.
    pub first: Option<List<Event>>,
    /// The ends that aren't alike, at most 64 of them.
    pub finals: List<Final>,
    /// Whether there are more.
    pub more: bool,
}

/// An end.
#[derive(Drop)]
pub struct Final {
    /// What the console and the words are there.
    pub ending: Ending,
    /// The events that lead to one that is so.
    pub events: List<Event>,
}

/// What is known of places that were gone through.
pub(crate) fn what_holds(alloc: Global, places: &Places, ways: &Ways) -> Result<Held, NoMemory> {
    let lead = ways.lead_on(alloc)?;
    let (hopeless, first) = hopeless_of(lead.as_slice());
    let first = match first {
        Some(at) => Some(places.path(at)?),
        None => None,
    };
    Ok(Held {
        places: places.len(),
        ends: ways.ends(),
        hopeless,
        first,
        finals: finals_of(alloc, places, ways.endings())?,
        more: ways.are_more(),
    })
}

/// Ends, each with the events that lead to it.
fn finals_of(alloc: Global, places: &Places, endings: &[Shown]) -> Result<List<Final>, NoMemory> {
    let mut finals = List::new(alloc);
    for shown in endings {
        let ending = shown.ending.try_copy(alloc)?;
        let events = places.path(shown.at)?;
        finals.push(Final { ending, events })?;
    }
    Ok(finals)
}

/// How many places don't lead on, and the index of the first of them.
fn hopeless_of(lead: &[bool]) -> (usize, Option<usize>) {
    let mut count = 0usize;
    let mut first = None;
    for at in 0..lead.len() {
        if lead[at] {
            continue;
        }
        count = count.wrapping_add(1);
        if first.is_none() {
            first = Some(at);
        }
    }
    (count, first)
}
