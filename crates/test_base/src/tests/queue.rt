//! Queues of tasks, by arrival and by priority.

use brd_queue::{Queue, QueueEntry, QueueOrder};
use std::test::Fail;

/// Puts a task into a queue in which it doesn't stand.
fn put(queue: &mut Queue<u32>, order: QueueOrder, id: u16, priority: u8) -> Option<usize> {
    if id >= 256 || queue.has(id) {
        return None;
    }
    let wanted = id as u32 * 1000;
    let entry = QueueEntry {
        id,
        priority,
        wanted,
    };
    Some(queue.enter(order, entry))
}

/// Whether a queue has these tasks, with these priorities, in this order.
fn holds(queue: &Queue<u32>, tasks: &[(u16, u8)]) -> bool {
    let entries = queue.as_slice();
    if entries.len() != tasks.len() {
        return false;
    }
    for i in 0..tasks.len() {
        let (id, priority) = tasks[i];
        let entry = &entries[i];
        if entry.id != id || entry.priority != priority || entry.wanted != id as u32 * 1000 {
            return false;
        }
    }
    true
}

/// Tasks in order of arrival, their priorities, and the places at which they come.
const ARRIVALS: &[(u16, u8, usize)] = &[(1, 3, 0), (2, 1, 0), (3, 3, 2), (4, 2, 1), (5, 16, 4)];

/// Whether the tasks come at those places.
fn arrive(queue: &mut Queue<u32>) -> bool {
    for (id, priority, at) in ARRIVALS {
        if put(queue, QueueOrder::Priority, *id, *priority) != Some(*at) {
            return false;
        }
    }
    true
}

const BY_PRIORITY: &[(u16, u8)] = &[(2, 1), (4, 2), (1, 3), (3, 3), (5, 16)];

const LEFT: &[(u16, u8)] = &[(4, 2), (1, 3), (3, 3), (5, 16)];

/// Whether those tasks come by priority, and one of them leaves once.
fn come_and_leave(queue: &mut Queue<u32>) -> bool {
    let has_come = arrive(queue) && holds(queue, BY_PRIORITY);
    let at = queue.leave(2);
    let again = queue.leave(2);
    has_come && at == Some(0) && again.is_none() && holds(queue, LEFT)
}

const RENUMBERED: &[(u16, u8)] = &[(4, 2), (1, 3), (3, 1), (5, 16)];

const MOVED: &[(u16, u8)] = &[(3, 1), (1, 1), (4, 3), (5, 16)];

/// Whether one that is given a priority then keeps its place by arrival, and comes after its equals by priority.
fn are_reordered(queue: &mut Queue<u32>) -> bool {
    queue.reorder(QueueOrder::Arrival, 3, 1);
    queue.reorder(QueueOrder::Arrival, 9, 1);
    let is_renumbered = holds(queue, RENUMBERED);
    queue.reorder(QueueOrder::Priority, 4, 3);
    queue.reorder(QueueOrder::Priority, 1, 1);
    queue.reorder(QueueOrder::Priority, 9, 2);
    is_renumbered && holds(queue, MOVED)
}

#[test]
fn by_priority(rt: HostRuntime) -> Result<(), Fail> {
    let mut queue = Queue::new(rt.alloc())?;
    assert!(rt; come_and_leave(&mut queue) && are_reordered(&mut queue));
    Ok(())
}

/// Whether there is room for every task, the even ones of a lower priority than the odd ones, and where the last one
/// stands then.
fn holds_all(queue: &mut Queue<u32>, order: QueueOrder, last: usize) -> bool {
    for id in 0..256u16 {
        let priority = if id % 2 == 0 { 2 } else { 1 };
        if put(queue, order, id, priority).is_none() {
            return false;
        }
    }
    queue.as_slice().len() == 256 && queue.leave(255) == Some(last)
}

#[test]
fn every_task(rt: HostRuntime) -> Result<(), Fail> {
    let mut by_arrival = Queue::new(rt.alloc())?;
    assert!(rt; holds_all(&mut by_arrival, QueueOrder::Arrival, 255));
    let mut by_priority = Queue::new(rt.alloc())?;
    assert!(rt; holds_all(&mut by_priority, QueueOrder::Priority, 127));
    Ok(())
}
