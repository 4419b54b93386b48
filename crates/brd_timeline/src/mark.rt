//! Marks in a picture. Each kind has a shape of its own, so that it needs no colour.

ghost use Rattle.std.specs.Prelude.{OnOk};
ghost use Rattle.brd_timeline.specs.Bars.{GoesOn};

use crate::escape::put_xml;
use crate::layout::{HEIGHT, x_of, y_of};
use crate::number::put_tenths;
use crate::timeline::{Mark, MarkKind, Timeline, label_or, mark_name};
use brd_base::NoMemory;
use brd_text::{put, put_decimal};

/// The shape of a kind, from the middle of the lane's upper edge on, in pixels, with how it is drawn: a triangle for a
/// call, a cross for a fault, a diamond for an interrupt, and a line for a tick. A cross and a diamond end above where
/// letters of a label begin, so that they cover none.
fn shape_of(kind: MarkKind) -> &'static str {
    match kind {
        MarkKind::Call => "l-3.5-6h7z\" fill=\"#000000",
        MarkKind::Fault => {
            "m0-2.8l3.2-3.2 2.3 2.3-3.2 3.2 3.2 3.2-2.3 2.3-3.2-3.2-3.2 3.2-2.3-2.3 3.2-3.2-3.2-3.2 \
             2.3-2.3z\" stroke=\"#ffffff\" fill=\"#d55e00"
        }
        MarkKind::Interrupt => "m0-6l4 5.5l-4 5.5l-4-5.5z\" stroke=\"#ffffff\" fill=\"#000000",
        MarkKind::Tick => "v20\" fill=\"none\" stroke-width=\"1.5\" stroke=\"#000000",
    }
}

/// Puts the shape of a kind at the end, at a place; the element stays open.
pub(crate) fn put_shape(to: &mut Vec<u8>, kind: MarkKind, x: u32, y: u32) -> Result<(), NoMemory>
    ensures { OnOk result (GoesOn to.old.items to.new.items) }
{
    put(to, "<path d=\"M")?;
    put_tenths(to, x)?;
    put(to, " ")?;
    put_tenths(to, y)?;
    put(to, shape_of(kind))?;
    put(to, "\">")
}

/// Puts the marks at the end that have a lane and lie in the picture.
pub(crate) fn put_marks(to: &mut Vec<u8>, timeline: &Timeline) -> Result<(), NoMemory>
    ensures { OnOk result (GoesOn to.old.items to.new.items) }
{
    for mark in timeline.marks.iter() {
        put_mark(to, timeline, mark)?;
    }
    Ok(())
}

/// Puts a mark at the end, where it has a lane and lies in the picture.
fn put_mark(to: &mut Vec<u8>, timeline: &Timeline, mark: &Mark) -> Result<(), NoMemory>
    ensures { OnOk result (GoesOn to.old.items to.new.items) }
{
    let Some(lane) = timeline.lanes.get(mark.lane) else {
        return Ok(());
    };
    if mark.at < timeline.from || timeline.to < mark.at {
        return Ok(());
    }
    let name = mark_name(mark.kind);
    put_shape(
        to,
        mark.kind,
        x_of(timeline, mark.at),
        y_of(mark.lane, lane.group),
    )?;
    put_title(to, mark, name)
}

/// Puts at the end what a browser shows of a mark of a kind of this name under the pointer, and closes it.
fn put_title(to: &mut Vec<u8>, mark: &Mark, name: &str) -> Result<(), NoMemory>
    ensures { OnOk result (GoesOn to.old.items to.new.items) }
{
    put(to, "<title>")?;
    put_xml(to, label_or(&mark.label, name))?;
    put(to, " (")?;
    put(to, name)?;
    put(to, "), at ")?;
    put_decimal(to, mark.at)?;
    put(to, "</title></path>\n")
}
