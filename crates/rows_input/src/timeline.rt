//! A timeline that rows list, and its pictures.

use brd_timeline::{
    Group, Hold, Kind, Lane, Mark, MarkKind, Owning, PictureFault, Slice, Spinning, Timeline, Turn,
    json, svg,
};
use std::alloc::{AllocError, Global};
use test_help::unescaped;

/// The kinds of slices and marks by their numbers.
const KINDS: [Kind; 11] = [
    Kind::Task,
    Kind::Handler,
    Kind::Idle,
    Kind::Stopped,
    Kind::Running,
    Kind::Ready,
    Kind::Waiting,
    Kind::Suspended,
    Kind::WaitingSuspended,
    Kind::Dormant,
    Kind::Off,
];

const MARKS: [MarkKind; 4] = [
    MarkKind::Call,
    MarkKind::Fault,
    MarkKind::Interrupt,
    MarkKind::Tick,
];

/// The number that a text is, 0 for none.
fn number(text: &str) -> u64 {
    text.parse::<u64>().unwrap_or(0)
}

/// A word, and the text after the space after it.
fn word(text: &str) -> (&str, &str) {
    text.split_once(" ").unwrap_or((text, ""))
}

/// Puts a lane at the end.
fn put_lane(alloc: Global, timeline: &mut Timeline, text: &str) -> Result<(), AllocError> {
    let (group, name) = word(text);
    let group = if group == "task" {
        Group::Task
    } else {
        Group::Processor
    };
    let name = unescaped(alloc, name)?;
    timeline.lanes.push(Lane { name, group })?;
    Ok(())
}

/// Puts a slice at the end.
fn put_slice(alloc: Global, timeline: &mut Timeline, text: &str) -> Result<(), AllocError> {
    let (lane, text) = word(text);
    let (from, text) = word(text);
    let (to, text) = word(text);
    let (kind, label) = word(text);
    let label = unescaped(alloc, label)?;
    timeline.slices.push(Slice {
        lane: number(lane) as usize,
        from: number(from),
        to: number(to),
        kind: *KINDS.get(number(kind) as usize).unwrap_or(&Kind::Idle),
        label,
    })?;
    Ok(())
}

/// Puts a mark at the end.
fn put_mark(alloc: Global, timeline: &mut Timeline, text: &str) -> Result<(), AllocError> {
    let (lane, text) = word(text);
    let (at, text) = word(text);
    let (kind, label) = word(text);
    let label = unescaped(alloc, label)?;
    timeline.marks.push(Mark {
        lane: number(lane) as usize,
        at: number(at),
        kind: *MARKS.get(number(kind) as usize).unwrap_or(&MarkKind::Call),
        label,
    })?;
    Ok(())
}

/// A number of a processor, a task, a spin lock or a mutex: what is greater than 255 is 255.
fn small(text: &str) -> u8 {
    number(text).min(255) as u8
}

/// Puts at the end that a processor holds a spin lock.
fn put_hold(timeline: &mut Timeline, text: &str) -> Result<(), AllocError> {
    let (lock, text) = word(text);
    let (cpu, text) = word(text);
    let (from, to) = word(text);
    timeline.holds.push(Hold {
        lock: number(lock) as usize,
        cpu: small(cpu),
        from: number(from),
        to: number(to),
    })?;
    Ok(())
}

/// Puts at the end that a task has a mutex.
fn put_owning(timeline: &mut Timeline, text: &str) -> Result<(), AllocError> {
    let (mutex, text) = word(text);
    let (task, text) = word(text);
    let (from, to) = word(text);
    timeline.owned.push(Owning {
        mutex: number(mutex) as usize,
        task: u16::from(small(task)),
        from: number(from),
        to: number(to),
    })?;
    Ok(())
}

/// Puts at the end that a task asks for a spin lock.
fn put_spinning(timeline: &mut Timeline, text: &str) -> Result<(), AllocError> {
    let (lane, text) = word(text);
    let (lock, text) = word(text);
    let (from, to) = word(text);
    timeline.spins.push(Spinning {
        lane: number(lane) as usize,
        lock: u32::from(small(lock)),
        from: number(from),
        to: number(to),
    })?;
    Ok(())
}

/// Puts a turn at the end.
fn put_turn(timeline: &mut Timeline, text: &str) -> Result<(), AllocError> {
    let (cpu, text) = word(text);
    let (from, to) = word(text);
    timeline.turns.push(Turn {
        cpu: small(cpu),
        from: number(from),
        to: number(to),
    })?;
    Ok(())
}

/// Adds the part that a row is. Answers whether it is one.
pub fn add(
    alloc: Global,
    timeline: &mut Timeline,
    name: &str,
    text: &str,
) -> Result<bool, AllocError> {
    match name {
        "span" => {
            let (from, to) = word(text);
            timeline.from = number(from);
            timeline.to = number(to);
        }
        "lane" => put_lane(alloc, timeline, text)?,
        "slice" => put_slice(alloc, timeline, text)?,
        "mark" => put_mark(alloc, timeline, text)?,
        "lock" => timeline.locks.push(small(text))?,
        "hold" => put_hold(timeline, text)?,
        "spin" => put_spinning(timeline, text)?,
        "mutex" => timeline.mutexes.push(small(text))?,
        "owning" => put_owning(timeline, text)?,
        "turn" => put_turn(timeline, text)?,
        "tick" => timeline.ticks.push(number(text))?,
        "first" => timeline.first_tick = number(text),
        _ => return Ok(false),
    }
    Ok(true)
}

/// The picture of a timeline, or the line that says why there is none.
pub fn picture(alloc: Global, timeline: &Timeline, format: &str) -> Result<Vec<u8>, AllocError> {
    let mut text = Vec::new(alloc);
    if format == "json" {
        return match json(timeline, &mut text) {
            Ok(()) => Ok(text),
            Err(_) => Err(AllocError),
        };
    }
    match svg(timeline, &mut text) {
        Ok(()) => Ok(text),
        Err(PictureFault::TooMuch) => Vec::from_slice(alloc, b"TooMuch\n"),
        Err(PictureFault::NoMemory) => Err(AllocError),
    }
}

/// A timeline without anything.
pub fn empty(alloc: Global) -> Timeline {
    Timeline {
        lanes: Vec::new(alloc),
        slices: Vec::new(alloc),
        marks: Vec::new(alloc),
        locks: Vec::new(alloc),
        holds: Vec::new(alloc),
        spins: Vec::new(alloc),
        mutexes: Vec::new(alloc),
        owned: Vec::new(alloc),
        turns: Vec::new(alloc),
        ticks: Vec::new(alloc),
        first_tick: 1,
        from: 0,
        to: 0,
    }
}
