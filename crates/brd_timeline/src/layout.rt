//! Where things stand in a picture, in tenths of a pixel.

ghost use Rattle.std.specs.Prelude.{◌≡◌, ◌≤◌};
ghost use Rattle.brd_timeline.specs.Bars as bars;

use crate::timeline::{Group, Timeline};

/// How wide the picture is.
pub(crate) const WIDTH: u32 = 12_000;

/// Where the lanes begin: the names stand before.
pub(crate) const LEFT: u32 = 1_400;

/// How wide the lanes are. The last number of an axis needs some room after them.
pub(crate) const SPAN: u32 = 10_000;

/// Where the first lane is: the legend stands above.
pub(crate) const TOP: u32 = 600;

/// How far one lane is from the next.
pub(crate) const STEP: u32 = 260;

/// How high a slice is.
pub(crate) const HEIGHT: u32 = 200;

/// How far the lanes of one kind are from those of the kind before, beside that.
const GAP: u32 = 120;

/// The least width of a bar, so that each can be seen.
pub(crate) const LEAST_WIDTH: u32 = 5;

/// How much room a letter takes, and how much a label takes beside its letters.
pub(crate) const LETTER: u32 = 65;

pub(crate) const MARGIN: u32 = 60;

/// How high an axis is, and how far the picture goes on below the last one.
pub(crate) const AXIS: u32 = 260;

const REST: u32 = 80;

/// How many lanes, slices and marks a picture has at most together: more can't be told apart.
pub const MOST_DRAWN: usize = 5_000;

/// Where a position is. One before the picture's first is there, and one after its last is at the end.
pub(crate) fn x_of(timeline: &Timeline, position: u64) -> u32
    ensures is { result ≡ bars.x_of timeline.now position }
    ensures left { 1400 ≤ result }
    ensures right { result ≤ 11400 }
{
    let length = timeline.to.saturating_sub(timeline.from);
    let done = position.saturating_sub(timeline.from).min(length);
    LEFT + share_of(done, length)
}

/// Which part of `SPAN` a part of a length is.
fn share_of(part: u64, whole: u64) -> u32
    ensures is { result ≡ bars.share_of part whole }
    ensures most { result ≤ 10000 }
{
    if whole == 0 {
        return 0;
    }
    let share = part as u128 * SPAN as u128 / whole as u128;
    share.min(SPAN as u128) as u32
}

/// Where a lane is, with so many lanes before it, and so many gaps.
fn row_at(place: usize, gaps: u32) -> u32
    requires { gaps ≤ 4 }
    ensures is { result ≡ bars.row_at place gaps }
    ensures most { result ≤ 2700000 }
{
    TOP + gaps * GAP + place.min(10_000) as u32 * STEP
}

/// Where the lane at a place of the list is.
pub(crate) fn y_of(place: usize, group: Group) -> u32
    ensures is { result ≡ bars.y_of place group }
    ensures most { result ≤ 3000000 }
{
    match group {
        Group::Processor => row_at(place, 0),
        Group::Task => row_at(place, 1),
    }
}

/// Whether there is room for the spin locks and the mutexes: with them there is no more than can be told apart.
fn has_room(timeline: &Timeline) -> bool {
    let others = timeline.lanes.len() as u128
        + timeline.slices.len() as u128
        + timeline.marks.len() as u128;
    let locks = timeline.locks.len() as u128
        + timeline.holds.len() as u128
        + timeline.spins.len() as u128;
    let mutexes = timeline.mutexes.len() as u128 + timeline.owned.len() as u128;
    others + locks + mutexes <= MOST_DRAWN as u128
}

/// How many spin locks have a lane: all of them or none.
pub(crate) fn locks_shown(timeline: &Timeline) -> usize {
    if has_room(timeline) {
        timeline.locks.len()
    } else {
        0
    }
}

/// How many mutexes have a lane: all of them or none.
pub(crate) fn mutexes_shown(timeline: &Timeline) -> usize {
    if has_room(timeline) {
        timeline.mutexes.len()
    } else {
        0
    }
}

/// Whether the turns have a lane: there are some of two processors.
pub(crate) fn shows_turns(timeline: &Timeline) -> bool {
    let Some(first) = timeline.turns.first() else {
        return false;
    };
    for turn in timeline.turns.iter() {
        if turn.cpu != first.cpu {
            return true;
        }
    }
    false
}

/// Where the lane of the spin lock at a place of their list is.
pub(crate) fn lock_y(timeline: &Timeline, place: usize) -> u32
    ensures { result ≤ 2700000 }
{
    row_at(timeline.lanes.len().saturating_add(place), 2)
}

/// Where the lane of the mutex at a place of their list is: below those of the spin locks.
pub(crate) fn mutex_y(timeline: &Timeline, place: usize) -> u32
    ensures { result ≤ 2700000 }
{
    let locks = locks_shown(timeline);
    let above = timeline.lanes.len().saturating_add(locks);
    row_at(above.saturating_add(place), 2 + gap_of(locks))
}

/// One gap below some lanes, none where there is no lane.
fn gap_of(lanes: usize) -> u32
    ensures { result ≤ 1 }
{
    if lanes == 0 { 0 } else { 1 }
}

/// Where the lane of the turns is.
pub(crate) fn turns_y(timeline: &Timeline) -> u32
    ensures { result ≤ 2700000 }
{
    let locks = locks_shown(timeline);
    let mutexes = mutexes_shown(timeline);
    let above = timeline.lanes.len().saturating_add(locks);
    row_at(
        above.saturating_add(mutexes),
        2 + gap_of(locks) + gap_of(mutexes),
    )
}

/// Where the lanes end.
pub(crate) fn bottom_of(timeline: &Timeline) -> u32
    ensures { result ≤ 3000000 }
{
    if shows_turns(timeline) {
        return turns_y(timeline) + STEP;
    }
    let mutexes = mutexes_shown(timeline);
    if mutexes > 0 {
        return mutex_y(timeline, mutexes);
    }
    let locks = locks_shown(timeline);
    if locks > 0 {
        return lock_y(timeline, locks);
    }
    y_of(timeline.lanes.len(), Group::Task)
}

/// How high the axes are together: where there are no ticks, there is only that of events.
pub(crate) fn axes_of(timeline: &Timeline) -> u32
    ensures { result ≤ 600 }
{
    if timeline.ticks.is_empty() {
        return AXIS + REST;
    }
    2 * AXIS + REST
}
