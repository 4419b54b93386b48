//! Workers that wait for each other while neither holds the lock, and what a gate is told.

use crate::tests::boards::{LOOP, TWO, board_of};
use crate::tests::races::raced_on;
use brd_board::Lease;
use brd_threads::Gate;
use std::sync::atomic::{AtomicU64, Ordering};

/// How often a worker looks at most whether the other has come as far.
const LOOKS: u32 = 1_000_000_000;

/// Where two workers meet: nobody goes on before the other has come as often. Who looks in vain is late, and from then
/// on nobody waits.
#[derive(Drop)]
struct Meeting {
    first: AtomicU64,
    second: AtomicU64,
    late: AtomicU64,
}

impl Meeting {
    fn new() -> Self {
        Meeting {
            first: AtomicU64::new(0),
            second: AtomicU64::new(0),
            late: AtomicU64::new(0),
        }
    }

    /// Comes once more, and waits until the other has come as often, unless somebody was late.
    fn come(&self, cpu: u8) {
        let (mine, other) = if cpu == 1 {
            (&self.first, &self.second)
        } else {
            (&self.second, &self.first)
        };
        let count = mine.fetch_add(1, Ordering::SeqCst).wrapping_add(1);
        if self.late.load(Ordering::SeqCst) > 0 {
            return;
        }
        for _ in 0..LOOKS {
            if other.load(Ordering::SeqCst) >= count {
                return;
            }
        }
        self.late.fetch_add(1, Ordering::SeqCst);
    }

    /// Whether each has come so often, and nobody was late.
    fn was_kept(&self, times: u64) -> bool {
        self.late.load(Ordering::SeqCst) == 0
            && self.first.load(Ordering::SeqCst) == times
            && self.second.load(Ordering::SeqCst) == times
    }
}

/// A gate that nobody enters again before the other has entered as often. A turn is odd that doesn't enter with a lease
/// under which nothing was done, or doesn't leave with one under which 64 instructions were.
#[derive(Drop)]
struct Together {
    meeting: Meeting,
    odd: AtomicU64,
}

impl Gate for Together {
    fn enter(&self, cpu: u8, lease: Option<&Lease>) {
        if !matches!(lease, Some(lease) if lease.len() == 0) {
            self.odd.fetch_add(1, Ordering::SeqCst);
        }
        self.meeting.come(cpu);
    }

    fn leave(&self, _cpu: u8, lease: Option<&Lease>) {
        let done = match lease {
            Some(lease) => lease.len(),
            None => 0,
        };
        if done != 64 {
            self.odd.fetch_add(1, Ordering::SeqCst);
        }
    }
}

/// Each of two workers enters only with the other, so they take their turns at the same time: two turns each.
#[test]
fn workers_overlap(rt: HostRuntime) {
    let alloc = rt.alloc();
    let Some(boot) = board_of(alloc, LOOP, TWO) else {
        return assert!(rt; false, "no board");
    };
    let gate = Together {
        meeting: Meeting::new(),
        odd: AtomicU64::new(0),
    };
    let done = raced_on(&rt, alloc, &boot, &[], &[128, 128], 1000, &gate);
    assert!(rt;
        matches!(done, Ok(left) if left.steps == 256 && left.is_replay),
        "{done:?}"
    );
    let odd = gate.odd.load(Ordering::SeqCst);
    assert!(rt; gate.meeting.was_kept(2) && odd == 0, "odd {odd}");
}

/// A gate that is told of no turn's end before it is told of as many of the other's.
#[derive(Drop)]
struct EndingTogether {
    meeting: Meeting,
}

impl Gate for EndingTogether {
    fn enter(&self, _cpu: u8, _lease: Option<&Lease>) {}

    fn leave(&self, _cpu: u8, _lease: Option<&Lease>) {}

    fn count(&self, cpu: u8, _steps: u64) {
        self.meeting.come(cpu);
    }
}

/// A worker holds no lock while the gate is told of its turn's end, so the other can end its own.
#[test]
fn turns_end_together(rt: HostRuntime) {
    let alloc = rt.alloc();
    let Some(boot) = board_of(alloc, LOOP, TWO) else {
        return assert!(rt; false, "no board");
    };
    let gate = EndingTogether {
        meeting: Meeting::new(),
    };
    let done = raced_on(&rt, alloc, &boot, &[], &[128, 128], 1000, &gate);
    assert!(rt;
        matches!(done, Ok(left) if left.steps == 256 && left.is_replay),
        "{done:?}"
    );
    assert!(rt; gate.meeting.was_kept(2));
}

/// What a gate is told of a processor's turns.
#[derive(Drop)]
struct Told {
    /// How often a turn began, with a lease and without.
    leased: AtomicU64,
    bare: AtomicU64,
    /// How often it was done without the lock.
    left: AtomicU64,
    /// How often it was over, and how many steps these turns were.
    over: AtomicU64,
    steps: AtomicU64,
}

impl Told {
    fn new() -> Self {
        Told {
            leased: AtomicU64::new(0),
            bare: AtomicU64::new(0),
            left: AtomicU64::new(0),
            over: AtomicU64::new(0),
            steps: AtomicU64::new(0),
        }
    }

    /// How often a turn began with a lease and without, was done without the lock, and was over, and the steps.
    fn sums(&self) -> [u64; 5] {
        [
            self.leased.load(Ordering::SeqCst),
            self.bare.load(Ordering::SeqCst),
            self.left.load(Ordering::SeqCst),
            self.over.load(Ordering::SeqCst),
            self.steps.load(Ordering::SeqCst),
        ]
    }
}

/// A gate that adds up what it is told.
#[derive(Drop)]
struct Sums {
    first: Told,
    second: Told,
}

impl Sums {
    /// What it is told of a processor.
    fn of(&self, cpu: u8) -> &Told {
        if cpu == 1 { &self.first } else { &self.second }
    }
}

impl Gate for Sums {
    fn enter(&self, cpu: u8, lease: Option<&Lease>) {
        let told = self.of(cpu);
        match lease {
            Some(_) => told.leased.fetch_add(1, Ordering::SeqCst),
            None => told.bare.fetch_add(1, Ordering::SeqCst),
        };
    }

    fn leave(&self, cpu: u8, _lease: Option<&Lease>) {
        self.of(cpu).left.fetch_add(1, Ordering::SeqCst);
    }

    fn count(&self, cpu: u8, steps: u64) {
        self.of(cpu).over.fetch_add(1, Ordering::SeqCst);
        self.of(cpu).steps.fetch_add(steps, Ordering::SeqCst);
    }
}

/// Two processors, of which only the first has a task.
const ONE_OF_TWO: &str = "BOARD(2, 0x10000);
CRE_TSK(1, {TA_ACT, 0, 0x80000000, 1, 256, NULL});
";

/// The first processor's 130 steps are turns of 64, 64 and 2 under leases; an idle processor has none, so each of its
/// five steps is a turn. The gate is told of each.
#[test]
fn gate_is_told_all(rt: HostRuntime) {
    let alloc = rt.alloc();
    let Some(boot) = board_of(alloc, LOOP, ONE_OF_TWO) else {
        return assert!(rt; false, "no board");
    };
    let gate = Sums {
        first: Told::new(),
        second: Told::new(),
    };
    let done = raced_on(&rt, alloc, &boot, &[], &[130, 5], 1000, &gate);
    assert!(rt;
        matches!(done, Ok(left) if left.first == 130 && left.second == 5 && left.is_replay),
        "{done:?}"
    );
    let (first, second) = (gate.first.sums(), gate.second.sums());
    assert!(rt;
        first == [3, 0, 3, 3, 130] && second == [0, 5, 5, 5, 5],
        "{first:?} {second:?}"
    );
}
