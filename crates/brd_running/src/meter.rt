//! How far a race is.

use brd_board::Lease;
use brd_progress::Progress;
use brd_threads::Gate;
use std::sync::Mutex;
use std::sync::atomic::{AtomicU64, Ordering};

/// How many steps are done before it is told anew how many are done (own choice).
const PIECE: u64 = 16_384;

/// A gate that tells how many steps of a race are done.
#[derive(Drop)]
pub struct Meter<'a, P> {
    /// How many there are unless the board goes off.
    all: u64,
    done: AtomicU64,
    progress: Mutex<&'a mut P>,
}

impl<'a, P: Progress> Meter<'a, P> {
    /// That of a race with this many steps.
    pub fn new(all: u64, progress: &'a mut P) -> Meter<'a, P> {
        Meter {
            all,
            done: AtomicU64::new(0),
            progress: Mutex::new(progress),
        }
    }
}

impl<'a, P: Progress> Gate for Meter<'a, P> {
    fn enter(&self, _cpu: u8, _lease: Option<&Lease>) {}

    fn leave(&self, _cpu: u8, _lease: Option<&Lease>) {}

    /// Tells it where a piece is done, unless another worker is telling it. So nobody waits.
    fn count(&self, _cpu: u8, steps: u64) {
        let before = self.done.fetch_add(steps, Ordering::SeqCst);
        if before / PIECE == before.wrapping_add(steps) / PIECE {
            return;
        }
        if let Some(mut progress) = self.progress.try_lock() {
            progress.show(self.done.load(Ordering::SeqCst), self.all);
        }
    }
}
