//! What is told of a stack.

ghost use Rattle.std.specs.Prelude.{◌≡◌, ◌++◌, ◌∷◌, [], false, List as ListOf, map, IfOk};
ghost use Rattle.brd_stacks.specs.declared.stack.Point.{Point as PointOf};
ghost use Rattle.brd_stacks.specs.declared.stack.Stack.{Stack as StackOf};
ghost use Rattle.brd_stacks.specs.Strands.{deeper, overflows_when, stands_after, stores_below};
ghost use Rattle.brd_stacks.specs.Depths.{AreFollowed, IsSoonest, some_overflow};
ghost use Rattle.brd_stacks.specs.Tracks.{deepest_after, overflow_after, started, taken};

use crate::stack::{Point, Stack};
use brd_base::NoMemory;
use std::alloc::Global;

/// A stack, and what is told of it.
#[derive(Clone, Copy)]
pub struct Track {
    /// The stack.
    pub stack: Stack,
    /// Whether its strand stands on it.
    pub(crate) stands: bool,
    /// Its deepest point, if its strand's stack pointer was in it.
    pub deepest: Option<Point>,
    /// The first store below it, if there was one.
    pub overflow: Option<Point>,
}

/// Whether a store at a point is below a stack.
fn stores_below(stack: Stack, point: Point) -> bool
    ensures { result ≡ stores_below stack point }
{
    match point.store {
        Some(store) => {
            store.address < stack.low && (store.by_pointer || point.before <= store.address)
        }
        None => false,
    }
}

/// Whether a point is a store below a stack by its strand, where that stood on it before or not.
fn overflows(stack: Stack, stands: bool, point: Point) -> bool
    ensures { result ≡ overflows_when stack stands point }
{
    point.strand == stack.strand
        && (stands || stack.is_inside(point.before))
        && stores_below(stack, point)
}

/// Whether a stack's strand stands on it after a point, where it stood on it before or not.
fn stands_after(stack: Stack, stands: bool, point: Point) -> bool
    ensures { result ≡ stands_after stack stands point }
{
    if point.strand != stack.strand {
        return stands;
    }
    (stands || stack.is_inside(point.before)) && point.kept
}

/// Whether a point lies in a stack, below what is its deepest point so far.
fn is_deeper(stack: Stack, deepest: Option<Point>, point: Point) -> bool
    ensures { result ≡ deeper stack deepest point }
{
    if point.strand != stack.strand || !stack.is_inside(point.after) {
        return false;
    }
    match deepest {
        Some(deepest) => point.after < deepest.after,
        None => true,
    }
}

impl Track {
    /// Nothing has happened.
    fn started(stack: Stack) -> Track
        ensures { result ≡ started stack }
    {
        Track {
            stack,
            stands: false,
            deepest: None,
            overflow: None,
        }
    }

    /// The deepest point after a point more.
    fn deepest_after(self, point: Point) -> Option<Point>
        ensures { result ≡ deepest_after self point }
    {
        if is_deeper(self.stack, self.deepest, point) {
            return Some(point);
        }
        self.deepest
    }

    /// The first store below the stack after a point more.
    fn overflow_after(self, point: Point) -> Option<Point>
        ensures { result ≡ overflow_after self point }
    {
        match self.overflow {
            Some(_) => self.overflow,
            None if overflows(self.stack, self.stands, point) => Some(point),
            None => None,
        }
    }

    /// What is told of the stack after a point more.
    fn taken(self, point: Point) -> Track
        ensures { result ≡ taken point self }
    {
        Track {
            stack: self.stack,
            stands: stands_after(self.stack, self.stands, point),
            deepest: self.deepest_after(point),
            overflow: self.overflow_after(point),
        }
    }
}

/// What is told of these stacks before anything has happened.
pub fn tracks_of(alloc: Global, stacks: &[Stack]) -> Result<Vec<Track>, NoMemory>
    ensures { IfOk result (λ tracks. AreFollowed stacks.now [] tracks.items) }
{
    let mut tracks = Vec::new(alloc);
    for stack in stacks {
        tracks.push(Track::started(*stack))?;
    }
    Ok(tracks)
}

/// What is told of stacks after a point more.
pub fn follow(tracks: &mut Vec<Track>, point: Point)
    ensures followed { (stacks : ListOf StackOf) (points : ListOf PointOf) →
        AreFollowed stacks points tracks.old.items →
        AreFollowed stacks (points ++ point ∷ []) tracks.new.items }
    // Where no store below a stack was told, none comes before this point.
    ensures soonest { (stacks : ListOf StackOf) (points : ListOf PointOf) → AreFollowed stacks points tracks.old.items →
        some_overflow tracks.old.items ≡ false → IsSoonest stacks (points ++ point ∷ []) }
{
    take_all(tracks.as_mut_slice(), point);
}

/// Takes a point in each.
fn take_all(tracks: &mut [Track], point: Point)
    ensures { tracks.new ≡ map (taken point) tracks.old }
{
    for track in tracks.iter_mut() {
        *track = track.taken(point);
    }
}

/// Whether a store below one of these stacks is told.
pub fn has_overflow(tracks: &[Track]) -> bool
    ensures { result ≡ some_overflow tracks.now }
{
    for track in tracks {
        if track.overflow.is_some() {
            return true;
        }
    }
    false
}
