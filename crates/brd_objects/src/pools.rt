//! The fixed memory pools of a board.

ghost use Rattle.std.specs.Prelude.{◌≡◌, ◌<◌, IfSome, option_copied};
ghost use Rattle.brd_objects.specs.Table.{object_at, object_changed};
ghost use Rattle.brd_objects.specs.Pools.{handed_out, block_for_in, given_back, next_holder_in, pool_awaited};

use crate::objects::{Objects, SavedObjects};
use crate::pool::Pool;

/// The fixed memory pools of a board by their IDs. Only `new` takes memory.
pub type Pools = Objects<Pool>;

/// What a snapshot keeps of them.
pub type SavedPools = SavedObjects<Pool>;

impl Objects<Pool> {
    /// The pool of an ID.
    pub fn pool(&self, id: u16) -> Option<&Pool>
        ensures { option_copied result ≡ object_at self.now id }
    {
        self.object(id)
    }

    /// The block of a pool with the lowest address that is there is handed out: its address.
    #[tactic(auto, using(crate::proofs::RowLemmas::at_rows, crate::proofs::RowLemmas::past_rows, crate::proofs::RowLemmas::changed_row, crate::proofs::RowLemmas::changed_none, crate::proofs::RowLemmas::changed_past))]
    pub fn get(&mut self, id: u16) -> Option<u32>
        ensures is { self.new ≡ object_changed handed_out self.old id }
        ensures block { result ≡ block_for_in (object_at self.old id) }
    {
        if (id as usize) < self.rows.len() {
            if let Some(pool) = &mut self.rows[id as usize] {
                return pool.get();
            }
        }
        None
    }

    /// A block of a pool comes back: the first waiter leaves with it, and is answered; else it is there again. What is
    /// no block of the pool that is out changes nothing.
    #[tactic(auto, using(crate::proofs::RowLemmas::at_rows, crate::proofs::RowLemmas::past_rows, crate::proofs::RowLemmas::changed_row, crate::proofs::RowLemmas::changed_none, crate::proofs::RowLemmas::changed_past))]
    pub fn give(&mut self, id: u16, address: u32) -> Option<u16>
        ensures is { self.new ≡ object_changed (given_back address) self.old id }
        ensures who { result ≡ next_holder_in address (object_at self.old id) }
        ensures small { IfSome result (λ id. id < 256) }
    {
        if (id as usize) < self.rows.len() {
            if let Some(pool) = &mut self.rows[id as usize] {
                return pool.give(address);
            }
        }
        None
    }

    /// A task waits for a block of a pool, in the order that its attributes say.
    #[tactic(auto, using(crate::proofs::RowLemmas::at_rows, crate::proofs::RowLemmas::past_rows, crate::proofs::RowLemmas::changed_row, crate::proofs::RowLemmas::changed_none, crate::proofs::RowLemmas::changed_past))]
    pub fn wait(&mut self, id: u16, task: u16, priority: u8)
        requires { task < 256 }
        ensures { self.new ≡ object_changed (pool_awaited task priority) self.old id }
    {
        if (id as usize) < self.rows.len() {
            if let Some(pool) = &mut self.rows[id as usize] {
                pool.wait(task, priority);
            }
        }
    }
}
