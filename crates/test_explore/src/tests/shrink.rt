//! What is left of a list of events that fails.

use super::sources::{APART, DEADLOCK};
use brd_base::List;
use brd_board::{Board, Event};
use brd_explore::{Failure, Wanted, fails, shrink as left_out};
use brd_image::build;
use brd_shrink::{shrink, switches};
use std::alloc::Global;

/// By turns, with ticks, and longer than needed.
const LONG: &[Event] = &[
    Event::Tick,
    Event::Step(1),
    Event::Step(2),
    Event::Step(1),
    Event::Step(2),
    Event::Tick,
    Event::Step(1),
    Event::Step(2),
    Event::Step(1),
    Event::Step(2),
    Event::Step(3),
    Event::Step(1),
    Event::Step(2),
    Event::Raise(1),
    Event::Step(1),
    Event::Step(2),
    Event::Step(1),
    Event::Step(2),
    Event::Step(1),
    Event::Tick,
];

/// What is not to happen: a deadlock.
fn no_deadlock(alloc: Global) -> Option<Wanted> {
    let mut failures = List::new(alloc);
    failures.push(Failure::Deadlock).ok()?;
    Some(Wanted {
        failures,
        round: List::new(alloc),
        rounds: 0,
    })
}

/// How many events are left of a list, where it fails, and with how many switches: of those that are left out alone,
/// and where turns are moved, too.
fn left_of(alloc: Global, board: &Board, events: &[Event]) -> Option<[usize; 3]> {
    let wanted = no_deadlock(alloc)?;
    if !fails(board, events, &wanted).ok()? {
        return None;
    }
    let part = left_out(alloc, board, events, &wanted).ok()?;
    let left = shrink(alloc, board, events, &wanted).ok()?;
    if !fails(board, &left, &wanted).ok()? {
        return None;
    }
    Some([part.len(), left.len(), switches(&left)])
}

/// Whether of the long list so many events are left, with so many switches, and its first ones don't fail.
fn goes_well(alloc: Global) -> bool {
    match build(alloc, DEADLOCK.as_bytes(), APART.as_bytes()) {
        Ok(board) => {
            left_of(alloc, &board, LONG) == Some([12, 12, 2])
                && left_of(alloc, &board, &LONG[..14]).is_none()
        }
        Err(_) => false,
    }
}

/// Each task needs three steps to take its first semaphore and three to wait for its second one, and no ticks. One of
/// them has taken its first one, then the other does all that it does, and then the first one goes on.
#[test]
fn a_deadlock_needs_twelve_steps_and_two_switches(rt: HostRuntime) {
    assert!(rt; goes_well(rt.alloc()));
}

/// Ticks and raises are nobody's steps, and the first step is no switch.
#[test]
fn switches_are_counted(rt: HostRuntime) {
    assert!(rt; switches(LONG) == 15);
    assert!(rt; switches(&LONG[..2]) == 0);
    assert!(rt; switches(&[]) == 0);
    let between = [
        Event::Step(2),
        Event::Tick,
        Event::Step(2),
        Event::Raise(3),
        Event::Step(1),
    ];
    assert!(rt; switches(&between) == 1);
}
