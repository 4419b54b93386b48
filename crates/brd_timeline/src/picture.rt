//! A timeline as a picture in SVG.

ghost use Rattle.std.specs.Prelude.{◌≡◌, ◌≤◌, ◌↔◌, IfOk, OnOk, IsTrue, Err, codes};
ghost use Rattle.brd_timeline.specs.Bars.{GoesOn, Holds, slices_text};
ghost use Rattle.brd_timeline.specs.Ends.{EndsWith};
ghost use Rattle.brd_timeline.specs.Picture.{IsTooMuch};
ghost use Rattle.brd_timeline.specs.declared.fault.PictureFault.TheVariants.{TooMuch};

use crate::axis::{put_events, put_ticks};
use crate::escape::put_xml;
use crate::fault::PictureFault;
use crate::layout::{HEIGHT, LEFT, MOST_DRAWN, WIDTH, axes_of, bottom_of, y_of};
use crate::legend::put_legend;
use crate::locks::put_locks;
use crate::mark::put_marks;
use crate::mutexes::put_mutexes;
use crate::number::{put_attribute, put_tenths};
use crate::slice::put_slices;
use crate::timeline::{Lane, Timeline};
use crate::turns::put_turns;
use brd_base::NoMemory;
use brd_text::{put, put_decimal};

/// Puts a timeline at the end as a picture ("Scalable Vector Graphics (SVG) 1.1", W3C): a lane for each processor, each
/// task, each spin lock and each mutex, and one for the turns; a legend above, and the axes of events and ticks below.
/// Where memory runs out, a front of it may be there.
///
/// # Errors
///
/// `TooMuch` where there are more than `MOST_DRAWN` lanes, slices and marks; then nothing is put. `NoMemory` where
/// memory runs out.
pub fn svg(timeline: &Timeline, to: &mut Vec<u8>) -> Result<(), PictureFault>
    ensures much { (result ≡ Err TooMuch) ↔ IsTooMuch timeline.now }
    ensures same { result ≡ Err TooMuch → to.new ≡ to.old }
    ensures slices { OnOk result (Holds (slices_text timeline.now) to.new.items) }
    ensures ends { IfOk result (λ _. EndsWith (codes "</svg>\n") to.new.items) }
{
    if is_too_much(timeline) {
        return Err(PictureFault::TooMuch);
    }
    put_picture(to, timeline)?;
    Ok(())
}

/// Whether there is more than a picture can show.
fn is_too_much(timeline: &Timeline) -> bool
    ensures { IsTrue result ↔ IsTooMuch timeline.now }
{
    let lanes = timeline.lanes.len() as u128;
    let slices = timeline.slices.len() as u128;
    let marks = timeline.marks.len() as u128;
    lanes + slices + marks > MOST_DRAWN as u128
}

/// Puts the picture at the end.
fn put_picture(to: &mut Vec<u8>, timeline: &Timeline) -> Result<(), NoMemory>
    ensures slices { OnOk result (Holds (slices_text timeline.now) to.new.items) }
    ensures ends { IfOk result (λ _. EndsWith (codes "</svg>\n") to.new.items) }
{
    put_head(to, timeline)?;
    put_legend(to, timeline)?;
    put_events(to, timeline)?;
    put_ticks(to, timeline)?;
    put_lanes(to, timeline)?;
    put_slices(to, timeline)?;
    put_locks(to, timeline)?;
    put_mutexes(to, timeline)?;
    put_turns(to, timeline)?;
    put_marks(to, timeline)?;
    put(to, "</svg>\n")
}

/// Puts the beginning at the end: the size, what a reader aloud says, a white ground.
fn put_head(to: &mut Vec<u8>, timeline: &Timeline) -> Result<(), NoMemory> {
    let height = bottom_of(timeline) + axes_of(timeline);
    put(
        to,
        "<svg xmlns=\"http://www.w3.org/2000/svg\" viewBox=\"0 0 ",
    )?;
    put_tenths(to, WIDTH)?;
    put(to, " ")?;
    put_tenths(to, height)?;
    put(to, "\"")?;
    put_attribute(to, "width", WIDTH)?;
    put_attribute(to, "height", height)?;
    put(
        to,
        " role=\"img\" font-family=\"sans-serif\" font-size=\"11\">\n<title>events ",
    )?;
    put_decimal(to, timeline.from)?;
    put(to, " to ")?;
    put_decimal(to, timeline.to)?;
    put(
        to,
        "</title>\n<rect width=\"100%\" height=\"100%\" fill=\"#ffffff\"/>\n",
    )
}

/// Puts the names of the lanes at the end.
fn put_lanes(to: &mut Vec<u8>, timeline: &Timeline) -> Result<(), NoMemory> {
    for (place, lane) in timeline.lanes.iter().enumerate() {
        put_name(to, place, lane)?;
    }
    Ok(())
}

/// Puts the name of a lane at the end.
fn put_name(to: &mut Vec<u8>, place: usize, lane: &Lane) -> Result<(), NoMemory> {
    put_title(to, y_of(place, lane.group))?;
    put_xml(to, &lane.name)?;
    put(to, "</text>\n")
}

/// Puts the beginning of a lane's name at the end, of a lane at a place; the element stays open.
pub(crate) fn put_title(to: &mut Vec<u8>, y: u32) -> Result<(), NoMemory>
    requires { y ≤ 3000000 }
    ensures { OnOk result (GoesOn to.old.items to.new.items) }
{
    put(to, "<text text-anchor=\"end\"")?;
    put_attribute(to, "x", LEFT - 80)?;
    put_attribute(to, "y", y + HEIGHT * 7 / 10)?;
    put(to, ">")
}
