//! Mutexes in a picture: which task has each.

ghost use Rattle.std.specs.Prelude.{◌≤◌, OnOk};
ghost use Rattle.brd_timeline.specs.Bars.{GoesOn};

use crate::layout::{HEIGHT, LEAST_WIDTH, LETTER, MARGIN, mutex_y, mutexes_shown, x_of};
use crate::picture::put_title;
use crate::slice::{put_ink, put_rect, put_span};
use crate::timeline::{Owning, Timeline};
use brd_base::NoMemory;
use brd_text::{put, put_decimal};

/// The colour of a stretch in which a task has a mutex: none of those of kinds and processors.
pub(crate) const OWNED: &str = "#c2a5cf";

/// How many letters `task 255` has.
const LETTERS: u32 = 8;

/// Puts the lanes of the mutexes at the end, where there is room for them all.
pub(crate) fn put_mutexes(to: &mut Vec<u8>, timeline: &Timeline) -> Result<(), NoMemory>
    ensures { OnOk result (GoesOn to.old.items to.new.items) }
{
    if mutexes_shown(timeline) == 0 {
        return Ok(());
    }
    put_names(to, timeline)?;
    put_owned(to, timeline)
}

/// Puts the names of the mutexes at the end.
fn put_names(to: &mut Vec<u8>, timeline: &Timeline) -> Result<(), NoMemory>
    ensures { OnOk result (GoesOn to.old.items to.new.items) }
{
    for (place, mutex) in timeline.mutexes.iter().enumerate() {
        put_name(to, mutex_y(timeline, place), *mutex)?;
    }
    Ok(())
}

/// Puts the name of a mutex at the end, in a lane.
fn put_name(to: &mut Vec<u8>, y: u32, mutex: u8) -> Result<(), NoMemory>
    requires { y ≤ 2700000 }
    ensures { OnOk result (GoesOn to.old.items to.new.items) }
{
    put_title(to, y)?;
    put(to, "mutex ")?;
    put_decimal(to, u64::from(mutex))?;
    put(to, "</text>\n")
}

/// Puts at the end who has the mutexes.
fn put_owned(to: &mut Vec<u8>, timeline: &Timeline) -> Result<(), NoMemory>
    ensures { OnOk result (GoesOn to.old.items to.new.items) }
{
    for owning in timeline.owned.iter() {
        put_owning(to, timeline, *owning)?;
    }
    Ok(())
}

/// Puts at the end that a task has a mutex, where that has a lane and lies in the picture.
fn put_owning(to: &mut Vec<u8>, timeline: &Timeline, it: Owning) -> Result<(), NoMemory>
    ensures { OnOk result (GoesOn to.old.items to.new.items) }
{
    if it.mutex >= timeline.mutexes.len() || it.to <= timeline.from || timeline.to <= it.from {
        return Ok(());
    }
    let x = x_of(timeline, it.from);
    let width = x_of(timeline, it.to).saturating_sub(x);
    let y = mutex_y(timeline, it.mutex);
    put_rect(to, (x, y), (width.max(LEAST_WIDTH), HEIGHT), OWNED)?;
    put_hint(to, it)?;
    put_label(to, it.task, x, y, width)
}

/// Puts at the end what a browser shows of the bar under the pointer, and closes it.
fn put_hint(to: &mut Vec<u8>, it: Owning) -> Result<(), NoMemory>
    ensures { OnOk result (GoesOn to.old.items to.new.items) }
{
    put(to, "<title>")?;
    put_task(to, it.task)?;
    put(to, " has it, ")?;
    put_span(to, it.from, it.to)
}

/// Puts the name of a task at the end.
fn put_task(to: &mut Vec<u8>, task: u16) -> Result<(), NoMemory>
    ensures { OnOk result (GoesOn to.old.items to.new.items) }
{
    put(to, "task ")?;
    put_decimal(to, u64::from(task))
}

/// Puts the task in a bar at the end, where it has room for that.
fn put_label(to: &mut Vec<u8>, task: u16, x: u32, y: u32, width: u32) -> Result<(), NoMemory>
    requires across { x ≤ 11400 }
    requires down { y ≤ 2700000 }
    ensures { OnOk result (GoesOn to.old.items to.new.items) }
{
    if LETTERS > width.saturating_sub(MARGIN) / LETTER {
        return Ok(());
    }
    put_ink(to, "#000000", x + MARGIN / 2, y + 140)?;
    put_task(to, task)?;
    put(to, "</text>\n")
}
