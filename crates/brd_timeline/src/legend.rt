//! What the colours and shapes of a picture mean: those that it has.

ghost use Rattle.std.specs.Prelude.{◌≤◌};

use crate::cpus::Cpus;
use crate::layout::{HEIGHT, LEFT, locks_shown, mutexes_shown, shows_turns};
use crate::locks::{SPINS, SPINS_HEIGHT};
use crate::mark::put_shape;
use crate::mutexes::OWNED;
use crate::number::put_attribute;
use crate::slice::{colour_of, height_of};
use crate::timeline::{Kind, MarkKind, Timeline, kind_name, mark_name};
use crate::turns::joins_turns;
use brd_base::NoMemory;
use brd_text::put;

/// The kinds in the order of the legend.
const KINDS: [Kind; 11] = [
    Kind::Task,
    Kind::Handler,
    Kind::Idle,
    Kind::Stopped,
    Kind::Running,
    Kind::Ready,
    Kind::Waiting,
    Kind::Suspended,
    Kind::WaitingSuspended,
    Kind::Dormant,
    Kind::Off,
];

/// The kinds of marks in the order of the legend.
const MARKS: [MarkKind; 4] = [
    MarkKind::Call,
    MarkKind::Fault,
    MarkKind::Interrupt,
    MarkKind::Tick,
];

/// Where the middles of the two rows are.
const KIND_ROW: u32 = 170;

const MARK_ROW: u32 = 390;

/// Puts the legend at the end: each colour once, each shape, and then the processors.
pub(crate) fn put_legend(to: &mut Vec<u8>, timeline: &Timeline) -> Result<(), NoMemory> {
    put_kinds(to, timeline)?;
    let x = put_marks(to, timeline)?;
    let x = put_spins(to, timeline, x)?;
    let x = put_owned(to, timeline, x)?;
    put_cpus(to, timeline, x)
}

/// Puts the kinds of slices that there are at the end; those of one colour are one entry.
fn put_kinds(to: &mut Vec<u8>, timeline: &Timeline) -> Result<(), NoMemory> {
    let mut x = LEFT;
    for kind in KINDS {
        if has_kind(timeline, kind) && !stands_before(timeline, kind) {
            put_swatch(to, colour_of(kind), height_of(kind), x, KIND_ROW)?;
            x = put_kind_names(to, timeline, kind, x)?;
        }
    }
    Ok(())
}

/// Whether a kind's colour has an entry before it: that of a task that runs is its processor's.
fn stands_before(timeline: &Timeline, kind: Kind) -> bool {
    kind == Kind::Running && has_kind(timeline, Kind::Task)
}

/// Puts the names of the kinds at the end that have a kind's colour. Answers where the next entry begins.
fn put_kind_names(
    to: &mut Vec<u8>,
    timeline: &Timeline,
    kind: Kind,
    x: u32,
) -> Result<u32, NoMemory> {
    let name = if kind == Kind::Task && has_kind(timeline, Kind::Running) {
        "task, running"
    } else {
        kind_name(kind)
    };
    put_name(to, name, x, KIND_ROW)?;
    Ok(after(x, name))
}

/// Puts the kinds of marks that there are at the end. Answers where the next entry begins.
fn put_marks(to: &mut Vec<u8>, timeline: &Timeline) -> Result<u32, NoMemory> {
    let mut x = LEFT;
    for kind in MARKS {
        if has_mark(timeline, kind) {
            put_shape(to, kind, x.saturating_add(60), mark_top(kind))?;
            put(to, "</path>\n")?;
            put_name(to, mark_name(kind), x, MARK_ROW)?;
            x = after(x, mark_name(kind));
        }
    }
    Ok(x)
}

/// Puts what asks for a spin lock again and again at the end, if there is some. Answers where the next entry begins.
fn put_spins(to: &mut Vec<u8>, timeline: &Timeline, x: u32) -> Result<u32, NoMemory> {
    if locks_shown(timeline) == 0 || timeline.spins.is_empty() {
        return Ok(x);
    }
    put_swatch(to, SPINS, SPINS_HEIGHT, x, MARK_ROW)?;
    put_name(to, "spins", x, MARK_ROW)?;
    Ok(after(x, "spins"))
}

/// Puts what a mutex is that a task has at the end, if there is one. Answers where the next entry begins.
fn put_owned(to: &mut Vec<u8>, timeline: &Timeline, x: u32) -> Result<u32, NoMemory> {
    if mutexes_shown(timeline) == 0 || timeline.owned.is_empty() {
        return Ok(x);
    }
    put_swatch(to, OWNED, HEIGHT, x, MARK_ROW)?;
    put_name(to, "has the mutex", x, MARK_ROW)?;
    Ok(after(x, "has the mutex"))
}

/// Puts the processors at the end that have turns or hold spin locks, and what stands for several.
fn put_cpus(to: &mut Vec<u8>, timeline: &Timeline, x: u32) -> Result<(), NoMemory> {
    let mut x = x;
    let cpus = cpus_shown(timeline);
    for cpu in 1..9u8 {
        if cpus.contains(cpu) {
            let one = Cpus::one(cpu);
            put_swatch(to, one.colour(), HEIGHT, x, MARK_ROW)?;
            put_name_start(to, x, MARK_ROW)?;
            one.put(to)?;
            put(to, "</text>\n")?;
            x = after(x, "cpu 1");
        }
    }
    if !shows_turns(timeline) || !joins_turns(timeline) {
        return Ok(());
    }
    put_swatch(
        to,
        Cpus::one(1).with(Cpus::one(2)).colour(),
        HEIGHT,
        x,
        MARK_ROW,
    )?;
    put_name(to, "in turns", x, MARK_ROW)
}

/// The processors whose colours the picture has.
fn cpus_shown(timeline: &Timeline) -> Cpus {
    let mut cpus = Cpus::none();
    if locks_shown(timeline) > 0 {
        for hold in timeline.holds.iter() {
            cpus.add(hold.cpu);
        }
    }
    if shows_turns(timeline) {
        for turn in timeline.turns.iter() {
            cpus.add(turn.cpu);
        }
    }
    cpus
}

/// From where on a shape is drawn, so that its middle is in its row.
fn mark_top(kind: MarkKind) -> u32 {
    match kind {
        MarkKind::Call => MARK_ROW + 30,
        MarkKind::Fault | MarkKind::Interrupt => MARK_ROW + 5,
        MarkKind::Tick => MARK_ROW - 100,
    }
}

/// Where the next entry begins.
fn after(x: u32, name: &str) -> u32 {
    let letters = name.len().min(100) as u32;
    x.min(100_000) + 300 + 65 * letters
}

/// Whether a timeline has a slice of a kind.
fn has_kind(timeline: &Timeline, kind: Kind) -> bool {
    for slice in timeline.slices.iter() {
        if slice.kind == kind {
            return true;
        }
    }
    false
}

/// Whether a timeline has a mark of a kind.
fn has_mark(timeline: &Timeline, kind: MarkKind) -> bool {
    for mark in timeline.marks.iter() {
        if mark.kind == kind {
            return true;
        }
    }
    false
}

/// Puts a piece of a colour at the end, as high as what it stands for, but smaller.
fn put_swatch(to: &mut Vec<u8>, colour: &str, height: u32, x: u32, row: u32) -> Result<(), NoMemory>
    requires high { height ≤ 200 }
    requires down { 60 ≤ row }
{
    let height = height * 3 / 5;
    put(to, "<rect")?;
    put_attribute(to, "x", x)?;
    put_attribute(to, "y", row - height / 2)?;
    put_attribute(to, "width", 120)?;
    put_attribute(to, "height", height)?;
    put(to, " fill=\"")?;
    put(to, colour)?;
    put(to, "\"/>\n")
}

/// Puts the name of an entry at the end.
fn put_name(to: &mut Vec<u8>, name: &str, x: u32, row: u32) -> Result<(), NoMemory> {
    put_name_start(to, x, row)?;
    put(to, name)?;
    put(to, "</text>\n")
}

/// Puts the beginning of an entry's name at the end; the element stays open.
fn put_name_start(to: &mut Vec<u8>, x: u32, row: u32) -> Result<(), NoMemory> {
    put(to, "<text")?;
    put_attribute(to, "x", x.saturating_add(170))?;
    put_attribute(to, "y", row.saturating_add(40))?;
    put(to, ">")
}
