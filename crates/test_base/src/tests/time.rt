//! Ends of waits, by tick and by ID.

use brd_time::Timeouts;
use std::test::Fail;

/// Tasks whose waits end at tick 3, in the order in which they are armed.
const ARMED: &[u8] = &[5, 3, 255, 16, 8];

/// From which ID on, and the first of them.
const DUE: &[(u16, Option<u16>)] = &[
    (0, Some(3)),
    (4, Some(5)),
    (6, Some(8)),
    (9, Some(16)),
    (17, Some(255)),
    (255, Some(255)),
    (256, None),
];

/// Arms those waits, one that ends later, and one that has no end after all.
fn arm(timeouts: &mut Timeouts) {
    for task in ARMED {
        timeouts.arm(*task as u16, 3);
    }
    timeouts.arm(4, 4);
    timeouts.arm(7, 2);
    timeouts.disarm(7);
}

/// Whether the waits that have ended are found by ascending ID.
fn are_due(timeouts: &Timeouts) -> bool {
    for (from, task) in DUE {
        if *from > 256 || timeouts.next_due(*from) != *task {
            return false;
        }
    }
    timeouts.due(4) == Some(4) && timeouts.due(7).is_none() && timeouts.due(256).is_none()
}

/// Whether nothing is due before tick 3, and then each wait, whatever the order in which they were armed.
fn end_by_id(timeouts: &mut Timeouts) -> bool {
    arm(timeouts);
    let is_early = timeouts.advance() && timeouts.next_due(0).is_none();
    is_early && timeouts.advance() && timeouts.now() == 3 && are_due(timeouts)
}

/// Whether the waits of all tasks, which end at tick 1, are found and go one by one.
fn end_at_once(timeouts: &mut Timeouts) -> bool {
    for task in 0..256u16 {
        timeouts.arm(task, 1);
    }
    if timeouts.next_due(0).is_some() || !timeouts.advance() {
        return false;
    }
    for task in 0..256u16 {
        if timeouts.next_due(0) != Some(task) {
            return false;
        }
        timeouts.disarm(task);
    }
    timeouts.next_due(0).is_none()
}

#[test]
fn waits_end(rt: HostRuntime) -> Result<(), Fail> {
    let mut timeouts = Timeouts::new(rt.alloc())?;
    assert!(rt; end_at_once(&mut timeouts) && end_by_id(&mut timeouts));
    Ok(())
}
