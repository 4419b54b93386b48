//! Which events may change memory.

ghost use Rattle.std.specs.Prelude.{◌≡◌};
ghost use Rattle.brd_kernel.specs.Kernel.{context_on};
ghost use Rattle.brd_board.specs.Storing.{may_store, may_store_in};

use super::Board;
use crate::event::Event;
use brd_exec::may_store;

impl Board {
    /// Whether an event is a step of a processor whose next instruction is a store, also an SC. No other event changes
    /// memory (`laws::only_stores_change_memory`).
    #[inline(always)]
    pub fn may_store(&self, event: Event) -> bool
        ensures { result ≡ may_store self.now event }
    {
        match event {
            Event::Step(cpu) => self.next_stores(cpu),
            Event::Tick | Event::Raise(_) => false,
        }
    }

    /// Whether the next instruction of a processor is a store.
    #[inline(always)]
    fn next_stores(&self, cpu: u8) -> bool
        ensures { result ≡ may_store_in (context_on self.now.kernel cpu) self.now.memory }
    {
        match self.kernel.context(cpu) {
            Some(context) => may_store(context, &self.ram),
            None => false,
        }
    }
}
