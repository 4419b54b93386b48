//! Points at which GDB wants to stop.

ghost use Rattle.std.specs.Prelude.{◌≡◌, ◌≤◌, [], ◌∷◌, IfOk, OnOk};
ghost use Rattle.brd_stub.specs.Points.{
  is_kind,
  is_break,
  is_point,
  is_set,
  AreSet,
  places,
  weight,
  taken,
  fits,
  may_set,
  with_point,
  without_point,
  add_bytes,
  with_stops,
  stops_of,
};
ghost use Rattle.brd_stub.specs.Reasons.{kind_at, is_other, differ, changed, meets, touches_point, touched};

use brd_base::NoMemory;
use brd_board::Board;
use brd_debug::Debugger;
use brd_exec::Span;
use brd_gdb::PointKind;
use std::alloc::Global;
use std::marker::Model;

/// How many breaks of a kind there are at most (own choice).
const MOST_BREAKS: u64 = 64;

/// How many bytes the watches of a kind have together at most (own choice).
const MOST_WATCHED: u64 = 512;

/// A point.
#[derive(Clone, Copy)]
pub struct Point {
    /// What it stops at.
    pub kind: PointKind,
    /// The first byte's address.
    pub address: u32,
    /// How many bytes.
    pub length: u32,
}

/// The points that are set: of each kind at most 64 breaks, or watches of 512 bytes together.
#[derive(Drop)]
pub struct Points {
    points: Vec<Point>,
}

impl Model for Points {
    ghost use Rattle.std.specs.Prelude.{List};
    ghost use Rattle.brd_stub.specs.declared.points.Point.{Point as PointOf};
    ghost use Rattle.brd_stub.specs.Points.{AreSet};

    ghost Value = { List PointOf };

    ghost view = { λ it. it.points.items };

    ghost invariant = { λ it. AreSet it.points.items };
}

impl Points {
    /// No points.
    pub fn new(alloc: Global) -> Points
        ensures { result ≡ [] }
    {
        Points {
            points: Vec::new(alloc),
        }
    }

    /// The points, in the order in which they were set.
    pub fn as_slice(&self) -> &[Point]
        ensures is { result.now ≡ self.now }
        ensures set { AreSet self.now }
    {
        self.points.as_slice()
    }

    /// Sets a point that isn't set, unless those of its kind leave too few places, or it is a watch of no byte. Answers
    /// whether it is set now.
    pub fn set(&mut self, point: Point) -> Result<bool, NoMemory>
        ensures set { IfOk result (λ set. set ≡ may_set self.old point) }
        ensures points { OnOk result (self.new ≡ with_point self.old point) }
    {
        if !fits(point) {
            return Ok(false);
        }
        if is_set(&self.points, point) {
            return Ok(true);
        }
        if taken(point.kind, &self.points) + weight(point) > places(point.kind) {
            return Ok(false);
        }
        self.points.push(point)?;
        Ok(true)
    }

    /// Takes a point away, if it is set.
    pub fn clear(&mut self, point: Point)
        ensures { self.new ≡ without_point self.old point }
    {
        remove(&mut self.points, point);
    }
}

/// Removes a point, if it is there.
fn remove(points: &mut Vec<Point>, point: Point)
    ensures { points.new.items ≡ without_point points.old.items point }
{
    points.retain(|other| !is_point(*other, point));
}

/// Whether it isn't a watch of no bytes.
fn fits(point: Point) -> bool
    ensures { result ≡ fits point }
{
    is_break(point.kind) || 0 < point.length
}

/// How many places there are for points of a kind.
fn places(kind: PointKind) -> u64
    ensures { result ≡ places kind }
{
    if is_break(kind) {
        return MOST_BREAKS;
    }
    MOST_WATCHED
}

/// How many places a point takes: a watch one for each of its bytes.
fn weight(point: Point) -> u64
    ensures { result ≡ weight point }
{
    if is_break(point.kind) {
        return 1;
    }
    u64::from(point.length)
}

/// Whether a point is set.
fn is_set(points: &[Point], point: Point) -> bool
    ensures { result ≡ is_set points.now point }
{
    for other in points {
        if is_point(*other, point) {
            return true;
        }
    }
    false
}

/// How many places the points of a kind take, which are no more than there are.
fn taken(kind: PointKind, points: &[Point]) -> u64
    requires { taken kind points.now ≤ places kind }
    ensures { result ≡ taken kind points.now }
{
    let mut found = 0;
    for point in points {
        if is_kind(point.kind, kind) {
            found += weight(*point);
        }
    }
    found
}

/// Whether two points are the same.
fn is_point(point: Point, other: Point) -> bool
    ensures { result ≡ is_point point other }
{
    is_kind(point.kind, other.kind)
        && point.address == other.address
        && point.length == other.length
}

/// Whether two kinds are the same.
fn is_kind(kind: PointKind, other: PointKind) -> bool
    ensures { result ≡ is_kind kind other }
{
    matches!(
        (kind, other),
        (PointKind::SoftwareBreak, PointKind::SoftwareBreak)
            | (PointKind::HardwareBreak, PointKind::HardwareBreak)
            | (PointKind::WriteWatch, PointKind::WriteWatch)
            | (PointKind::ReadWatch, PointKind::ReadWatch)
            | (PointKind::AccessWatch, PointKind::AccessWatch)
    )
}

/// Whether points of this kind are breaks.
fn is_break(kind: PointKind) -> bool
    ensures { result ≡ is_break kind }
{
    match kind {
        PointKind::SoftwareBreak | PointKind::HardwareBreak => true,
        PointKind::WriteWatch | PointKind::ReadWatch | PointKind::AccessWatch => false,
    }
}

/// Lets a debugger stop at points, and at exceptions.
pub fn load(debugger: &mut Debugger, points: &[Point])
    ensures { debugger.new ≡ record debugger.old { stops = stops_of points.now } }
{
    debugger.clear_stops();
    debugger.set_faults(true);
    for point in points {
        add(debugger, *point);
    }
}

/// Lets a debugger stop at a point too.
fn add(debugger: &mut Debugger, point: Point)
    ensures { debugger.new ≡ record debugger.old { stops = with_stops debugger.old.stops (point ∷ []) } }
{
    match point.kind {
        PointKind::SoftwareBreak | PointKind::HardwareBreak => {
            let _ = debugger.stop_at(point.address);
        }
        PointKind::WriteWatch => watch_bytes(debugger, point.address, point.length),
        PointKind::ReadWatch => watch_reads(debugger, point.address, point.length),
        PointKind::AccessWatch => watch_accesses(debugger, point.address, point.length),
    }
}

/// Lets a debugger stop where one of so many bytes from an address on changes.
fn watch_bytes(debugger: &mut Debugger, address: u32, length: u32)
    ensures { debugger.new ≡ record debugger.old {
      stops = record debugger.old.stops { watches = add_bytes debugger.old.stops.watches address 0 length };
    } }
{
    for i in 0..length {
        let _ = debugger.watch_byte(address.wrapping_add(i));
    }
}

/// Lets a debugger stop where one of them is read.
fn watch_reads(debugger: &mut Debugger, address: u32, length: u32)
    ensures { debugger.new ≡ record debugger.old {
      stops = record debugger.old.stops { reads = add_bytes debugger.old.stops.reads address 0 length };
    } }
{
    for i in 0..length {
        let _ = debugger.stop_at_read(address.wrapping_add(i));
    }
}

/// Lets a debugger stop where one of them is read or written.
fn watch_accesses(debugger: &mut Debugger, address: u32, length: u32)
    ensures { debugger.new ≡ record debugger.old {
      stops = record debugger.old.stops { accesses = add_bytes debugger.old.stops.accesses address 0 length };
    } }
{
    for i in 0..length {
        let _ = debugger.stop_at_access(address.wrapping_add(i));
    }
}

/// The kind of the first break at an address, if there is one.
pub fn kind_at(points: &[Point], address: u32) -> Option<PointKind>
    ensures { result ≡ kind_at points.now address }
{
    for point in points {
        if point.address == address && is_break(point.kind) {
            return Some(point.kind);
        }
    }
    None
}

/// The first watch of which a byte differs between two boards.
pub fn changed(points: &[Point], before: &Board, after: &Board) -> Option<Point>
    ensures { result ≡ changed points.now before.now.memory after.now.memory }
{
    for point in points {
        if is_kind(PointKind::WriteWatch, point.kind)
            && differ(before, after, point.address, point.length)
        {
            return Some(*point);
        }
    }
    None
}

/// Whether one of so many bytes from an address on differs between two boards.
fn differ(before: &Board, after: &Board, address: u32, length: u32) -> bool
    ensures { result ≡ differ before.now.memory after.now.memory address 0 length }
{
    for i in 0..length {
        let place = address.wrapping_add(i);
        if is_other(before.memory(place), after.memory(place)) {
            return true;
        }
    }
    false
}

/// Whether a byte is another one.
fn is_other(before: Option<u8>, after: Option<u8>) -> bool
    ensures { result ≡ is_other before after }
{
    match (before, after) {
        (None, None) => false,
        (Some(old), Some(new)) => old != new,
        _ => true,
    }
}

/// The first watch of reads, or of reads and writes, of which a byte is so touched.
pub fn touched(points: &[Point], read: Option<Span>, written: Option<Span>) -> Option<Point>
    ensures { result ≡ touched points.now read written }
{
    for point in points {
        if touches(*point, read, written) {
            return Some(*point);
        }
    }
    None
}

/// Whether a byte of a watch is read, or written, as its kind says.
fn touches(point: Point, read: Option<Span>, written: Option<Span>) -> bool
    ensures { result ≡ touches_point point.kind point read written }
{
    match point.kind {
        PointKind::ReadWatch => meets(point, read),
        PointKind::AccessWatch => meets(point, read) || meets(point, written),
        PointKind::WriteWatch | PointKind::SoftwareBreak | PointKind::HardwareBreak => false,
    }
}

/// Whether a point has one of these bytes.
fn meets(point: Point, span: Option<Span>) -> bool
    ensures { result ≡ meets point span }
{
    match span {
        Some(span) => {
            point.address.wrapping_sub(span.first) < span.count
                || span.first.wrapping_sub(point.address) < point.length
        }
        None => false,
    }
}
