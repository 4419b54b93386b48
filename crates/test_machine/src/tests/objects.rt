use super::configs::{flag, queue, semaphore};
use brd_base::NoMemory;
use brd_objects::*;
use std::alloc::Global;

/// Semaphores 1, with these attributes, and 3.
fn semaphores(
    alloc: Global,
    attributes: u32,
    initial: u16,
    maximum: u16,
) -> Result<Semaphores, NoMemory> {
    let configs = [
        semaphore(1, attributes, initial, maximum),
        semaphore(3, 0, 0, 1),
        semaphore(1, 0, 9, 9),
    ];
    Semaphores::new(alloc, &configs)
}

/// Flag 1 with these attributes and pattern 0.
fn flags(alloc: Global, attributes: u32) -> Result<Flags, NoMemory> {
    Flags::new(alloc, &[flag(1, attributes, 0)])
}

/// Queue 1 with these attributes and this capacity.
fn queues(alloc: Global, attributes: u32, capacity: u16) -> Result<Queues, NoMemory> {
    Queues::new(alloc, &[queue(1, attributes, capacity)])
}

fn want(bits: u32, mode: Mode) -> Want {
    Want { bits, mode }
}

/// A task waits for bits of flag 1, if it is one and wants some.
fn wait(flags: &mut Flags, task: u16, want: Want) {
    if task < 256 && want.bits != 0 {
        flags.wait(1, task, 5, want);
    }
}

/// What a test does with semaphores.
#[derive(Clone, Copy)]
enum Counting {
    Counts,
    ByArrival,
    ByPriority,
}

/// Whether semaphores, of which 1 has these attributes and this count of 2, do what they should.
fn semaphores_go_well(alloc: Global, attributes: u32, initial: u16, scene: Counting) -> bool {
    match semaphores(alloc, attributes, initial, 2) {
        Ok(mut table) => count(&mut table, scene),
        Err(_) => false,
    }
}

fn count(table: &mut Semaphores, scene: Counting) -> bool {
    match scene {
        Counting::Counts => counts_to_two(table) && are_absent(table),
        Counting::ByArrival => serves_in_order(table, &[1, 2, 3], &[4, 5, 6, 7, 9, 10]),
        Counting::ByPriority => serves_in_order(table, &[2, 4, 6], &[255, 12, 14, 16, 18, 20]),
    }
}

/// What a test does with flag 1.
#[derive(Clone, Copy)]
enum Waiting {
    Clears,
    LastOf(u16),
    AtOnce,
    ByPriority,
}

/// Whether flag 1 with these attributes does what it should.
fn flags_go_well(alloc: Global, attributes: u32, scene: Waiting) -> bool {
    match flags(alloc, attributes) {
        Ok(mut table) => wait_all(&mut table, scene),
        Err(_) => false,
    }
}

fn wait_all(table: &mut Flags, scene: Waiting) -> bool {
    match scene {
        Waiting::Clears => releases_clear(table),
        Waiting::LastOf(count) => satisfies_the_last(table, count),
        Waiting::AtOnce => is_taken_at_once(table),
        Waiting::ByPriority => come_by_priority(table),
    }
}

/// What a test does with queue 1.
#[derive(Clone, Copy)]
enum Sending {
    ASender,
    Nothing,
    Largest,
}

/// Whether queue 1 with these attributes and this capacity does what it should.
fn queues_go_well(alloc: Global, attributes: u32, capacity: u16, scene: Sending) -> bool {
    match queues(alloc, attributes, capacity) {
        Ok(mut table) => send_all(&mut table, scene),
        Err(_) => false,
    }
}

fn send_all(table: &mut Queues, scene: Sending) -> bool {
    match scene {
        Sending::ASender => takes_a_sender_in(table) && hands_over(table),
        Sending::Nothing => stores_nothing(table) && senders_come(table),
        Sending::Largest => stores_256(table)
            && forces(table, 256, Sent::Stored)
            && gives_256(table),
    }
}

/// Whether a semaphore that isn't there does nothing.
fn is_absent(table: &mut Semaphores, id: u16) -> bool {
    table.semaphore(id).is_none() && !table.take(id) && table.signal(id).is_none()
}

/// Whether a semaphore is full, and whether it has one.
fn stands_so(table: &Semaphores, id: u16, is_full: bool, has_one: bool) -> bool {
    match table.semaphore(id) {
        Some(semaphore) => semaphore.is_full() == is_full && semaphore.has_one() == has_one,
        None => false,
    }
}

/// Whether semaphore 1 has one, and counts to 2 and no further.
fn counts_to_two(table: &mut Semaphores) -> bool {
    if !table.take(1) || table.take(1) {
        return false;
    }
    for _ in 0..3u8 {
        if table.signal(1).is_some() {
            return false;
        }
    }
    stands_so(table, 1, true, true) && stands_so(table, 3, false, false)
}

/// Whether none of these numbers is a semaphore's.
fn are_absent(table: &mut Semaphores) -> bool {
    is_absent(table, 0)
        && is_absent(table, 2)
        && is_absent(table, 255)
        && is_absent(table, 256)
        && is_absent(table, 65_535)
}

/// A semaphore counts up to its maximum, and an absent one does nothing.
#[test]
fn counts(rt: HostRuntime) {
    assert!(rt; semaphores_go_well(rt.alloc(), 0, 1, Counting::Counts));
}

/// Whether semaphore 1 serves these tasks, one after the other.
fn serves(table: &mut Semaphores, tasks: &[u16]) -> bool {
    for task in tasks {
        if table.signal(1) != Some(*task) {
            return false;
        }
    }
    true
}

/// 255 tasks wait for semaphore 1, the even ones with priority 3, the odd ones with 7. Whether these are served first,
/// and these after them where 8 leaves, 255 gets priority 1 and 10 priority 3.
fn serves_in_order(table: &mut Semaphores, first: &[u16], next: &[u16]) -> bool {
    for task in 1..256u16 {
        table.wait(1, task, if task % 2 == 0 { 3 } else { 7 });
    }
    if !serves(table, first) {
        return false;
    }
    table.leave(8);
    table.reorder(255, 1);
    table.reorder(10, 3);
    serves(table, next) && stands_so(table, 1, false, false)
}

/// 255 tasks wait for one semaphore, by arrival, and are served in that order.
#[test]
fn all_wait_by_arrival(rt: HostRuntime) {
    assert!(rt; semaphores_go_well(rt.alloc(), 0, 0, Counting::ByArrival));
}

/// The same by priority.
#[test]
fn all_wait_by_priority(rt: HostRuntime) {
    assert!(rt; semaphores_go_well(rt.alloc(), 1, 0, Counting::ByPriority));
}

/// Whether the next waiter of flag 1 that is satisfied is this one, by this pattern.
fn satisfies(table: &mut Flags, task: u16, pattern: u32) -> bool {
    match table.next_satisfied(1) {
        Some((found, by)) => found == task && by == pattern,
        None => false,
    }
}

/// Whether no waiter of flag 1 is satisfied.
fn satisfies_none(table: &mut Flags) -> bool {
    table.next_satisfied(1).is_none()
}

/// Whether flag 1 has this pattern.
fn has_pattern(table: &Flags, pattern: u32) -> bool {
    match table.flag(1) {
        Some(flag) => flag.pattern() == pattern,
        None => false,
    }
}

/// Three tasks wait, and each is released by a pattern that clears the flag.
fn releases_clear(table: &mut Flags) -> bool {
    wait(table, 1, want(4, Mode::All));
    wait(table, 2, want(3, Mode::All));
    wait(table, 3, want(1, Mode::Any));
    table.set(1, 3);
    if !satisfies(table, 2, 3) || !satisfies_none(table) || !has_pattern(table, 0) {
        return false;
    }
    table.set(1, 5);
    if !satisfies(table, 1, 5) || !satisfies_none(table) {
        return false;
    }
    table.set(1, 9);
    satisfies(table, 3, 9) && table.next_satisfied(2).is_none()
}

/// Of three waiters the second is released, and clears the flag (TA_CLR).
#[test]
fn a_release_clears(rt: HostRuntime) {
    assert!(rt; flags_go_well(rt.alloc(), 6, Waiting::Clears));
}

/// Whether the last of n waiters alone is satisfied by a bit that only it wants.
fn satisfies_the_last(table: &mut Flags, count: u16) -> bool {
    for task in 1..count {
        wait(table, task, want(1, Mode::All));
    }
    wait(table, count, want(2, Mode::All));
    table.set(1, 2);
    satisfies(table, count, 2) && satisfies_none(table) && has_pattern(table, 2)
}

/// Only the last of many waiters is satisfied, at each number of them past a multiple of eight.
#[test]
fn the_last_of_many(rt: HostRuntime) {
    for count in [1u16, 8, 9, 16, 17, 255] {
        assert!(rt; flags_go_well(rt.alloc(), 2, Waiting::LastOf(count)));
    }
}

/// Whether a wait for bits of flag 1 is satisfied at once by this pattern, or isn't.
fn takes(table: &mut Flags, want: Want, pattern: Option<u32>) -> bool {
    table.take(1, want) == pattern
}

/// Whether flag 1 lets nobody else wait.
fn is_occupied(table: &Flags) -> bool {
    match table.flag(1) {
        Some(flag) => flag.is_occupied(),
        None => false,
    }
}

/// A flag of 2 and 4 is taken once, then one task waits and leaves, and bits are cleared.
fn is_taken_at_once(table: &mut Flags) -> bool {
    table.set(1, 6);
    if !takes(table, want(9, Mode::Any), None)
        || !takes(table, want(3, Mode::All), None)
        || !takes(table, want(3, Mode::Any), Some(6))
        || !takes(table, want(3, Mode::Any), None)
    {
        return false;
    }
    let was_free = !is_occupied(table);
    wait(table, 4, want(1, Mode::Any));
    let was_occupied = is_occupied(table);
    table.leave(4);
    let is_free = !is_occupied(table);
    table.set(1, 7);
    table.clear(1, 5);
    was_free && was_occupied && is_free && has_pattern(table, 5)
}

/// A wait that is satisfied at once, and who may wait.
#[test]
fn at_once(rt: HostRuntime) {
    assert!(rt; flags_go_well(rt.alloc(), 4, Waiting::AtOnce));
}

/// Four tasks wait by priority, of which 4 and 1 are given others. Whether they are satisfied in that order.
fn come_by_priority(table: &mut Flags) -> bool {
    for task in 1..5u16 {
        wait(table, task, want(task as u32, Mode::Any));
    }
    table.reorder(4, 2);
    table.reorder(1, 5);
    table.set(1, 7);
    satisfies(table, 4, 7)
        && satisfies(table, 2, 7)
        && satisfies(table, 3, 7)
        && satisfies(table, 1, 7)
        && satisfies_none(table)
}

/// Waiters by priority, of which one is given another.
#[test]
fn waiters_by_priority(rt: HostRuntime) {
    assert!(rt; flags_go_well(rt.alloc(), 3, Waiting::ByPriority));
}

/// Whether queue 1 gives this datum, and lets this sender go, if one.
fn gives(table: &mut Queues, datum: u32, sender: Option<u16>) -> bool {
    match table.receive(1) {
        Some(received) => received.datum == datum && received.sender == sender,
        None => false,
    }
}

/// Whether queue 1 gives nothing.
fn gives_nothing(table: &mut Queues) -> bool {
    table.receive(1).is_none()
}

/// Whether a datum sent to queue 1 goes so.
fn sends(table: &mut Queues, datum: u32, sent: Sent) -> bool {
    table.send(1, datum) == sent
}

/// Whether a datum forced into queue 1 goes so.
fn forces(table: &mut Queues, datum: u32, sent: Sent) -> bool {
    table.force(1, datum) == sent
}

/// Whether a queue of one datum lets a sender wait, and takes its datum in once there is room.
fn takes_a_sender_in(table: &mut Queues) -> bool {
    if !gives_nothing(table) || !sends(table, 7, Sent::Stored) || !sends(table, 8, Sent::Full) {
        return false;
    }
    table.wait_to_send(1, 5, 3, 8);
    gives(table, 7, Some(5))
        && forces(table, 9, Sent::Stored)
        && gives(table, 9, None)
        && gives_nothing(table)
}

/// Whether data go to two receivers that wait, and there is no queue 2.
fn hands_over(table: &mut Queues) -> bool {
    table.wait_to_receive(1, 6, 3);
    table.wait_to_receive(1, 7, 1);
    forces(table, 1, Sent::Handed(6))
        && sends(table, 2, Sent::Handed(7))
        && table.send(2, 2) == Sent::Full
        && table.receive(2).is_none()
}

/// A queue that holds one datum, and a sender that waits.
#[test]
fn a_sender_waits(rt: HostRuntime) {
    assert!(rt; queues_go_well(rt.alloc(), 0, 1, Sending::ASender));
}

/// Whether queue 1 has room for nothing.
fn stores_nothing(table: &mut Queues) -> bool {
    let has_none = match table.queue(1) {
        Some(queue) => queue.capacity() == 0,
        None => false,
    };
    has_none && sends(table, 1, Sent::Full) && forces(table, 1, Sent::Full)
}

/// Four senders wait by priority, of which 2 leaves and 3 is given another. Whether their data come in that order.
fn senders_come(table: &mut Queues) -> bool {
    for task in 1..5u8 {
        table.wait_to_send(1, task as u16, 9, task as u32 * 10);
    }
    table.leave(2);
    table.reorder(3, 8);
    gives(table, 30, Some(3))
        && gives(table, 10, Some(1))
        && gives(table, 40, Some(4))
        && gives_nothing(table)
}

/// A queue that stores nothing: data go from senders to receivers, and a sender that leaves takes its datum along.
#[test]
fn nothing_stored(rt: HostRuntime) {
    assert!(rt; queues_go_well(rt.alloc(), 1, 0, Sending::Nothing));
}

/// Whether a queue stores 256 data and refuses one more.
fn stores_256(table: &mut Queues) -> bool {
    for datum in 0..256u32 {
        if !sends(table, datum, Sent::Stored) {
            return false;
        }
    }
    sends(table, 256, Sent::Full)
}

/// Whether a queue gives the data 1 to 256, and then nothing.
fn gives_256(table: &mut Queues) -> bool {
    for datum in 1..257u32 {
        if !gives(table, datum, None) {
            return false;
        }
    }
    gives_nothing(table)
}

/// 256 data are stored, and one more pushes the oldest out.
#[test]
fn the_largest_queue(rt: HostRuntime) {
    assert!(rt; queues_go_well(rt.alloc(), 0, 256, Sending::Largest));
}
