//! Spin locks in a picture: who holds them, and who asks for one again and again.

ghost use Rattle.std.specs.Prelude.{◌≤◌, OnOk};
ghost use Rattle.brd_timeline.specs.Bars.{GoesOn};

use crate::cpus::{Bar, Cpus};
use crate::layout::{HEIGHT, LEAST_WIDTH, lock_y, locks_shown, x_of, y_of};
use crate::picture::put_title;
use crate::slice::{put_rect, put_span};
use crate::timeline::{Hold, Spinning, Timeline};
use brd_base::NoMemory;
use brd_text::{put, put_decimal};

/// The colour of a stretch in which a task or a handler asks for a spin lock again and again.
pub(crate) const SPINS: &str = "#d55e00";

/// How high such a stretch is, at the bottom of the processor's slice.
pub(crate) const SPINS_HEIGHT: u32 = HEIGHT / 4;

/// Puts the lanes of the spin locks at the end, and who asks for them, where there is room for them all.
pub(crate) fn put_locks(to: &mut Vec<u8>, timeline: &Timeline) -> Result<(), NoMemory>
    ensures { OnOk result (GoesOn to.old.items to.new.items) }
{
    if locks_shown(timeline) == 0 {
        return Ok(());
    }
    put_names(to, timeline)?;
    put_holds(to, timeline)?;
    put_spins(to, timeline)
}

/// Puts the names of the spin locks at the end.
fn put_names(to: &mut Vec<u8>, timeline: &Timeline) -> Result<(), NoMemory>
    ensures { OnOk result (GoesOn to.old.items to.new.items) }
{
    for (place, lock) in timeline.locks.iter().enumerate() {
        put_name(to, lock_y(timeline, place), *lock)?;
    }
    Ok(())
}

/// Puts the name of a spin lock at the end, in a lane.
fn put_name(to: &mut Vec<u8>, y: u32, lock: u8) -> Result<(), NoMemory>
    requires { y ≤ 2700000 }
    ensures { OnOk result (GoesOn to.old.items to.new.items) }
{
    put_title(to, y)?;
    put(to, "lock ")?;
    put_decimal(to, u64::from(lock))?;
    put(to, "</text>\n")
}

/// Puts at the end who holds the spin locks.
fn put_holds(to: &mut Vec<u8>, timeline: &Timeline) -> Result<(), NoMemory>
    ensures { OnOk result (GoesOn to.old.items to.new.items) }
{
    for hold in timeline.holds.iter() {
        put_hold(to, timeline, *hold)?;
    }
    Ok(())
}

/// Puts at the end who holds a spin lock, where it has a lane.
fn put_hold(to: &mut Vec<u8>, timeline: &Timeline, hold: Hold) -> Result<(), NoMemory>
    ensures { OnOk result (GoesOn to.old.items to.new.items) }
{
    if hold.lock >= timeline.locks.len() {
        return Ok(());
    }
    let bar = Bar {
        cpus: Cpus::one(hold.cpu),
        from: hold.from,
        to: hold.to,
    };
    bar.put(to, timeline, lock_y(timeline, hold.lock), ("held by ", ""))
}

/// Puts at the end who asks for the spin locks.
fn put_spins(to: &mut Vec<u8>, timeline: &Timeline) -> Result<(), NoMemory>
    ensures { OnOk result (GoesOn to.old.items to.new.items) }
{
    for spinning in timeline.spins.iter() {
        put_spinning(to, timeline, spinning)?;
    }
    Ok(())
}

/// Puts a stretch in which a task asks again and again at the end, where it has a lane and lies in the picture.
fn put_spinning(to: &mut Vec<u8>, timeline: &Timeline, it: &Spinning) -> Result<(), NoMemory>
    ensures { OnOk result (GoesOn to.old.items to.new.items) }
{
    let Some(lane) = timeline.lanes.get(it.lane) else {
        return Ok(());
    };
    if it.to <= timeline.from || timeline.to <= it.from {
        return Ok(());
    }
    let x = x_of(timeline, it.from);
    let width = x_of(timeline, it.to).saturating_sub(x);
    let y = y_of(it.lane, lane.group) + (HEIGHT - SPINS_HEIGHT);
    put_rect(to, (x, y), (width.max(LEAST_WIDTH), SPINS_HEIGHT), SPINS)?;
    put(to, "<title>spins for lock ")?;
    put_decimal(to, u64::from(it.lock))?;
    put(to, ", ")?;
    put_span(to, it.from, it.to)
}
