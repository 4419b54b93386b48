//! What the threads of a search share.

ghost use Rattle.std.specs.Prelude.{◌<◌, IfSome};

use brd_explore::Watch;
use std::sync::Mutex;
use std::sync::atomic::{AtomicBool, AtomicU32, AtomicU64, Ordering};

/// Which parts are taken, whether the threads are to go on, and who watches.
#[derive(Drop)]
pub(crate) struct Sharing<'a, W> {
    /// The first part that nobody has taken.
    next: AtomicU32,
    /// Whether no thread is to go on.
    is_over: AtomicBool,
    /// How many schedules all threads have searched together.
    tried: AtomicU64,
    watch: Mutex<&'a mut W>,
}

impl<'a, W: Watch> Sharing<'a, W> {
    /// Nothing is taken yet.
    pub(crate) fn new(watch: &'a mut W) -> Sharing<'a, W> {
        Sharing {
            next: AtomicU32::new(0),
            is_over: AtomicBool::new(false),
            tried: AtomicU64::new(0),
            watch: Mutex::new(watch),
        }
    }

    /// Takes the next of so many parts. `None`: all are taken, or no thread is to go on.
    pub(crate) fn take(&self, parts: u32) -> Option<u32>
        ensures { IfSome result (λ part. part < parts) }
    {
        if self.is_over.load(Ordering::SeqCst) {
            return None;
        }
        let part = self.next.fetch_add(1, Ordering::SeqCst);
        (part < parts).then_some(part)
    }

    /// No thread is to go on.
    pub(crate) fn end(&self) {
        self.is_over.store(true, Ordering::SeqCst);
    }

    /// So many more schedules were searched, which who watches is told unless another thread is telling it. So nobody
    /// waits. Answers whether the threads are to go on.
    fn count(&self, schedules: u64) -> bool {
        let before = self.tried.fetch_add(schedules, Ordering::SeqCst);
        if let Some(mut watch) = self.watch.try_lock() {
            if !watch.tried(before.wrapping_add(schedules)) {
                self.end();
            }
        }
        !self.is_over.load(Ordering::SeqCst)
    }
}

/// Who watches the search of one thread.
#[derive(Drop)]
pub(crate) struct Lookout<'a, 'b, W> {
    sharing: &'a Sharing<'b, W>,
    /// How many schedules of the search are counted.
    counted: u64,
}

impl<'a, 'b, W: Watch> Lookout<'a, 'b, W> {
    /// A search that begins.
    pub(crate) fn new(sharing: &'a Sharing<'b, W>) -> Lookout<'a, 'b, W> {
        Lookout {
            sharing,
            counted: 0,
        }
    }
}

impl<'a, 'b, W: Watch> Watch for Lookout<'a, 'b, W> {
    ghost use Rattle.std.specs.Prelude.{true};

    ghost may_stop = { true };

    fn tried(&mut self, schedules: u64) -> bool {
        let more = schedules.saturating_sub(self.counted);
        self.counted = schedules;
        self.sharing.count(more)
    }
}
