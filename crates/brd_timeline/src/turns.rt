//! Turns in a picture: whose steps the events were. Short ones that follow one another are one bar.

ghost use Rattle.std.specs.Prelude.{OnOk};
ghost use Rattle.brd_timeline.specs.Bars.{GoesOn};

use crate::cpus::{Bar, Cpus};
use crate::layout::{shows_turns, turns_y};
use crate::picture::put_title;
use crate::timeline::{Timeline, Turn};
use brd_base::NoMemory;
use brd_text::put;

/// How many turns of the same length a picture shows one by one. So it has at most twice as many bars, and one.
const MOST_TURNS: u64 = 500;

/// Turns that follow one another.
#[derive(Clone, Copy)]
struct Piece {
    bar: Bar,
    /// Whether each of them is short.
    is_short: bool,
}

impl Piece {
    /// One turn. It is short where it has fewer than so many events.
    fn of(turn: &Turn, least: u64) -> Piece {
        Piece {
            bar: Bar {
                cpus: Cpus::one(turn.cpu),
                from: turn.from,
                to: turn.to,
            },
            is_short: turn.to.saturating_sub(turn.from) < least,
        }
    }

    /// These turns and the next one, where all are short, and there are fewer than so many events in between.
    fn joined(self, next: Piece, least: u64) -> Option<Piece> {
        let between = next.bar.from.saturating_sub(self.bar.to);
        if !self.is_short || !next.is_short || between >= least {
            return None;
        }
        Some(Piece {
            bar: Bar {
                cpus: self.bar.cpus.with(next.bar.cpus),
                from: self.bar.from,
                to: next.bar.to,
            },
            is_short: true,
        })
    }

    /// Puts their bar at the end.
    fn put(&self, to: &mut Vec<u8>, timeline: &Timeline) -> Result<(), NoMemory>
        ensures { OnOk result (GoesOn to.old.items to.new.items) }
    {
        let words = if self.bar.cpus.count() > 1 {
            ("turns of ", "")
        } else {
            ("", "")
        };
        self.bar.put(to, timeline, turns_y(timeline), words)
    }
}

/// How many events a turn has at least that always stands for itself.
pub(crate) fn least_of(timeline: &Timeline) -> u64 {
    let length = timeline.to.saturating_sub(timeline.from);
    (length / MOST_TURNS).saturating_add(if length % MOST_TURNS == 0 { 0 } else { 1 })
}

/// Puts the lane of the turns at the end, where it is shown.
pub(crate) fn put_turns(to: &mut Vec<u8>, timeline: &Timeline) -> Result<(), NoMemory>
    ensures { OnOk result (GoesOn to.old.items to.new.items) }
{
    if !shows_turns(timeline) {
        return Ok(());
    }
    put_title(to, turns_y(timeline))?;
    put(to, "turn</text>\n")?;
    let least = least_of(timeline);
    let mut last: Option<Piece> = None;
    for turn in timeline.turns.iter() {
        last = Some(put_next(to, timeline, last, Piece::of(turn, least))?);
    }
    match last {
        Some(piece) => piece.put(to, timeline),
        None => Ok(()),
    }
}

/// The turns that come last, with the next one. Those that it doesn't join are put at the end.
fn put_next(
    to: &mut Vec<u8>,
    timeline: &Timeline,
    last: Option<Piece>,
    next: Piece,
) -> Result<Piece, NoMemory>
    ensures { OnOk result (GoesOn to.old.items to.new.items) }
{
    let Some(last) = last else {
        return Ok(next);
    };
    if let Some(joined) = last.joined(next, least_of(timeline)) {
        return Ok(joined);
    }
    last.put(to, timeline)?;
    Ok(next)
}

/// Whether the picture has a bar for the turns of several processors.
pub(crate) fn joins_turns(timeline: &Timeline) -> bool {
    let least = least_of(timeline);
    let mut last: Option<Piece> = None;
    for turn in timeline.turns.iter() {
        let next = Piece::of(turn, least);
        let joined = match last {
            Some(last) => last.joined(next, least),
            None => None,
        };
        if let Some(joined) = joined
            && joined.bar.cpus.count() > 1
        {
            return true;
        }
        last = Some(joined.unwrap_or(next));
    }
    false
}
