//! The two axes of a picture: events and ticks.

ghost use Rattle.std.specs.Prelude.{◌≤◌};

use crate::layout::{AXIS, LEFT, SPAN, TOP, bottom_of, x_of};
use crate::number::put_attribute;
use crate::timeline::Timeline;
use brd_base::NoMemory;
use brd_text::{put, put_decimal};

/// The most labels of an axis, about, fewer where the numbers are long; and the most lines of ticks.
const LABELS: u64 = 12;

const LONG_LABELS: u64 = 5;

const LONG: u64 = 1_000_000_000;

const LINES: u64 = 260;

/// How far the number of a tick is from the next at least: ticks may be close together.
const ROOM: u32 = 500;

/// Puts the axis of events at the end, with a line through all lanes at each label.
pub(crate) fn put_events(to: &mut Vec<u8>, timeline: &Timeline) -> Result<(), NoMemory> {
    let bottom = bottom_of(timeline);
    put_line(to, "#999999", (LEFT, bottom), (LEFT + SPAN, bottom))?;
    put_title(to, "events", bottom + 160)?;
    let step = step_of(
        timeline.to.saturating_sub(timeline.from),
        labels_for(timeline.to),
    );
    let mut at = multiple_from(timeline.from, step);
    for _ in 0..2 * LABELS {
        if at > timeline.to {
            return Ok(());
        }
        put_event(to, timeline, at, bottom)?;
        let Some(next) = at.checked_add(step) else {
            return Ok(());
        };
        at = next;
    }
    Ok(())
}

/// Puts a label of the axis of events at the end, and its line.
fn put_event(to: &mut Vec<u8>, timeline: &Timeline, at: u64, bottom: u32) -> Result<(), NoMemory>
    requires { bottom ≤ 3000000 }
{
    let x = x_of(timeline, at);
    put_line(to, "#d0d0d0", (x, TOP - 40), (x, bottom + 40))?;
    put_number(to, at, x, bottom + 160)
}

/// Puts the axis of ticks at the end, if there are any. Where there are many ticks, only some have a line, and fewer a
/// number; of those that are close together, only some have a number.
pub(crate) fn put_ticks(to: &mut Vec<u8>, timeline: &Timeline) -> Result<(), NoMemory> {
    if timeline.ticks.is_empty() {
        return Ok(());
    }
    let bottom = bottom_of(timeline) + AXIS;
    put_line(to, "#999999", (LEFT, bottom), (LEFT + SPAN, bottom))?;
    put_title(to, "ticks", bottom + 160)?;
    let count = timeline.ticks.len() as u64;
    let (lines, labels) = (
        step_of(count, LINES),
        step_of(count, labels_for(timeline.first_tick.saturating_add(count))),
    );
    let mut free = 0;
    for (place, at) in timeline.ticks.iter().enumerate() {
        let number = timeline.first_tick.saturating_add(place as u64);
        let x = x_of(timeline, *at);
        if number.checked_rem(lines) == Some(0) {
            put_line(to, "#000000", (x, bottom - 40), (x, bottom))?;
        }
        if number.checked_rem(labels) == Some(0) && free <= x {
            put_number(to, number, x, bottom + 160)?;
            free = x.saturating_add(ROOM);
        }
    }
    Ok(())
}

/// How many labels an axis has at most, about, whose greatest number is this one.
fn labels_for(greatest: u64) -> u64 {
    if greatest < LONG { LABELS } else { LONG_LABELS }
}

/// The least of 1, 2, 5, 10, 20, 50 and so on of which at most n make up a length.
fn step_of(length: u64, most: u64) -> u64 {
    let mut power = 1u64;
    for _ in 0..20 {
        for factor in [1u64, 2, 5] {
            let step = power.saturating_mul(factor);
            if step.saturating_mul(most) >= length {
                return step;
            }
        }
        power = power.saturating_mul(10);
    }
    power
}

/// The first multiple of a step from a position on; the greatest position where there is none.
fn multiple_from(position: u64, step: u64) -> u64 {
    let whole = position.checked_div(step).unwrap_or(0).saturating_mul(step);
    if whole == position {
        return position;
    }
    whole.saturating_add(step)
}

/// Puts the name of an axis at the end, so far to the left that the first number has room, however long it is.
fn put_title(to: &mut Vec<u8>, name: &str, y: u32) -> Result<(), NoMemory> {
    put(to, "<text text-anchor=\"end\"")?;
    put_attribute(to, "x", LEFT - 720)?;
    put_attribute(to, "y", y)?;
    put(to, ">")?;
    put(to, name)?;
    put(to, "</text>\n")
}

/// Puts a number at the end whose middle is at a place.
fn put_number(to: &mut Vec<u8>, number: u64, x: u32, y: u32) -> Result<(), NoMemory> {
    put(to, "<text text-anchor=\"middle\"")?;
    put_attribute(to, "x", x)?;
    put_attribute(to, "y", y)?;
    put(to, ">")?;
    put_decimal(to, number)?;
    put(to, "</text>\n")
}

/// Puts a line from one place to another at the end.
fn put_line(
    to: &mut Vec<u8>,
    colour: &str,
    from: (u32, u32),
    till: (u32, u32),
) -> Result<(), NoMemory> {
    put(to, "<line")?;
    put_attribute(to, "x1", from.0)?;
    put_attribute(to, "y1", from.1)?;
    put_attribute(to, "x2", till.0)?;
    put_attribute(to, "y2", till.1)?;
    put(to, " stroke=\"")?;
    put(to, colour)?;
    put(to, "\"/>\n")
}
