//! Slices in a picture.

ghost use Rattle.std.specs.Prelude.{◌≡◌, ◌≤◌, ◌++◌, OnOk};
ghost use Rattle.brd_timeline.specs.Names.{slice_name};
ghost use Rattle.brd_timeline.specs.Bars as bars;

use crate::escape::put_xml;
use crate::layout::{HEIGHT, LEAST_WIDTH, LETTER, MARGIN, x_of, y_of};
use crate::number::put_attribute;
use crate::timeline::{Kind, Slice, Timeline, kind_name, label_or, lane_at};
use brd_base::NoMemory;
use brd_text::{put, put_decimal};

/// The width from which on a slice is parted from the next by a gap.
const PARTED: u32 = 30;

/// The colour of a kind, from a palette that is told apart without regard to how one sees colours (Okabe and Ito,
/// "Color Universal Design"), with greys for what executes nothing.
pub(crate) fn colour_of(kind: Kind) -> &'static str
    ensures { result.now ≡ bars.colour_of kind }
{
    match kind {
        Kind::Task | Kind::Running => "#009e73",
        Kind::Handler => "#e69f00",
        Kind::Idle => "#e4e4e4",
        Kind::Stopped => "#4d4d4d",
        Kind::Ready => "#f0e442",
        Kind::Waiting => "#56b4e9",
        Kind::Suspended => "#cc79a7",
        Kind::WaitingSuspended => "#0072b2",
        Kind::Dormant => "#bdbdbd",
        Kind::Off => "#000000",
    }
}

/// The colour of text on a kind's colour.
fn ink_of(kind: Kind) -> &'static str
    ensures { result.now ≡ bars.ink_of kind }
{
    match kind {
        Kind::Stopped | Kind::WaitingSuspended => "#ffffff",
        _ => "#000000",
    }
}

/// How high a kind's slices are: those of a dormant task, and of a board that is off, are a thin line.
pub(crate) fn height_of(kind: Kind) -> u32
    ensures is { result ≡ bars.height_of kind }
    ensures most { result ≤ 200 }
{
    match kind {
        Kind::Dormant | Kind::Off => HEIGHT / 5,
        _ => HEIGHT,
    }
}

/// Puts the slices at the end that have a lane and lie in the picture.
pub(crate) fn put_slices(to: &mut Vec<u8>, timeline: &Timeline) -> Result<(), NoMemory>
    ensures { OnOk result (to.new.items ≡ to.old.items ++ bars.slices_text timeline.now) }
{
    for slice in timeline.slices.iter() {
        put_slice(to, timeline, slice)?;
    }
    Ok(())
}

/// Puts a slice at the end, where it has a lane and lies in the picture.
fn put_slice(to: &mut Vec<u8>, timeline: &Timeline, slice: &Slice) -> Result<(), NoMemory>
    ensures { OnOk result (to.new.items ≡ to.old.items ++ bars.slice_text timeline.now slice.now) }
{
    let Some(lane) = lane_at(timeline, slice.lane) else {
        return Ok(());
    };
    if is_outside(timeline, slice) {
        return Ok(());
    }
    let x = x_of(timeline, slice.from);
    let width = x_of(timeline, slice.to).saturating_sub(x);
    put_drawn(to, slice, x, y_of(slice.lane, lane.group), width)
}

/// Whether a slice lies outside the picture.
fn is_outside(timeline: &Timeline, slice: &Slice) -> bool
    ensures { result ≡ bars.is_outside timeline.now slice.now }
{
    slice.to <= timeline.from || timeline.to <= slice.from
}

/// Puts a slice at the end, at a place: its bar and its label.
fn put_drawn(to: &mut Vec<u8>, slice: &Slice, x: u32, y: u32, width: u32) -> Result<(), NoMemory>
    requires across { x ≤ 11400 }
    requires down { y ≤ 3000000 }
    ensures { OnOk result (to.new.items ≡ to.old.items ++ bars.drawn_at slice.now x y width) }
{
    put_box(to, slice.kind, x, y, width)?;
    put_title(to, slice)?;
    put_label(to, slice, x, y, width)
}

/// Puts the bar of a slice at the end; the element stays open.
fn put_box(to: &mut Vec<u8>, kind: Kind, x: u32, y: u32, width: u32) -> Result<(), NoMemory>
    requires across { x ≤ 11400 }
    requires down { y ≤ 3000000 }
    ensures { OnOk result (to.new.items ≡ to.old.items ++ bars.box_text kind x y width) }
{
    let height = height_of(kind);
    let place = (x, y + (HEIGHT - height) / 2);
    put_rect(to, place, (shown_width(width), height), colour_of(kind))
}

/// Puts a rectangle at the end, with its place, its size and its colour; the element stays open.
pub(crate) fn put_rect(
    to: &mut Vec<u8>,
    place: (u32, u32),
    size: (u32, u32),
    colour: &str,
) -> Result<(), NoMemory>
    ensures { OnOk result (to.new.items ≡ to.old.items ++ bars.rect_text place.0 place.1 size.0 size.1 colour.now) }
{
    put(to, "<rect")?;
    put_attribute(to, "x", place.0)?;
    put_attribute(to, "y", place.1)?;
    put_attribute(to, "width", size.0)?;
    put_attribute(to, "height", size.1)?;
    put(to, " fill=\"")?;
    put(to, colour)?;
    put(to, "\">")
}

/// How wide the bar of a slice of a width is.
fn shown_width(width: u32) -> u32
    ensures { result ≡ bars.shown_width width }
{
    let gap = if width < PARTED { 0 } else { 5 };
    (width - gap).max(LEAST_WIDTH)
}

/// Puts at the end what a browser shows of a slice under the pointer, and closes its bar.
fn put_title(to: &mut Vec<u8>, slice: &Slice) -> Result<(), NoMemory>
    ensures { OnOk result (to.new.items ≡ to.old.items ++ bars.title_text slice.now) }
{
    put_what(to, slice)?;
    put_span(to, slice.from, slice.to)
}

/// Puts at the end what a slice is called, and of which kind it is.
fn put_what(to: &mut Vec<u8>, slice: &Slice) -> Result<(), NoMemory>
    ensures { OnOk result (to.new.items ≡ to.old.items ++ bars.what_text slice.now) }
{
    put(to, "<title>")?;
    put_xml(to, name_of(slice))?;
    put(to, " (")?;
    put(to, kind_name(slice.kind))?;
    put(to, "), ")
}

/// Puts at the end from where to where a bar is, and closes it.
pub(crate) fn put_span(to: &mut Vec<u8>, from: u64, till: u64) -> Result<(), NoMemory>
    ensures { OnOk result (to.new.items ≡ to.old.items ++ bars.span_text from till) }
{
    put_decimal(to, from)?;
    put(to, " to ")?;
    put_decimal(to, till)?;
    put(to, "</title></rect>\n")
}

/// What a slice is called.
fn name_of(slice: &Slice) -> &[u8]
    ensures { result.now ≡ slice_name slice.now }
{
    label_or(&slice.label, kind_name(slice.kind))
}

/// Whether the bar of a slice has room for its label.
fn has_room(slice: &Slice, width: u32) -> bool
    ensures { result ≡ bars.has_room slice.now width }
{
    let letters = width.saturating_sub(MARGIN) / LETTER;
    HEIGHT <= height_of(slice.kind) && name_of(slice).len() <= letters as usize
}

/// Puts the label of a slice at the end, where its bar has room for it.
fn put_label(to: &mut Vec<u8>, slice: &Slice, x: u32, y: u32, width: u32) -> Result<(), NoMemory>
    requires across { x ≤ 11400 }
    requires down { y ≤ 3000000 }
    ensures { OnOk result (to.new.items ≡ to.old.items ++ bars.label_text slice.now x y width) }
{
    if !has_room(slice, width) {
        return Ok(());
    }
    put_name(to, slice, x, y)
}

/// Puts the name of a slice at the end, at the place of its bar.
fn put_name(to: &mut Vec<u8>, slice: &Slice, x: u32, y: u32) -> Result<(), NoMemory>
    requires across { x ≤ 11400 }
    requires down { y ≤ 3000000 }
    ensures { OnOk result (to.new.items ≡ to.old.items ++ bars.name_text slice.now x y) }
{
    put_ink(to, ink_of(slice.kind), x + MARGIN / 2, y + 140)?;
    put_xml(to, name_of(slice))?;
    put(to, "</text>\n")
}

/// Puts the beginning of a label at the end, with its colour and its place; the element stays open.
pub(crate) fn put_ink(to: &mut Vec<u8>, colour: &str, x: u32, y: u32) -> Result<(), NoMemory>
    ensures { OnOk result (to.new.items ≡ to.old.items ++ bars.ink_text colour.now x y) }
{
    put(to, "<text pointer-events=\"none\"")?;
    put_attribute(to, "x", x)?;
    put_attribute(to, "y", y)?;
    put(to, " fill=\"")?;
    put(to, colour)?;
    put(to, "\">")
}
