//! The semaphores of a board.

ghost use Rattle.std.specs.Prelude.{◌≡◌, ◌<◌, IfSome, option_copied};
ghost use Rattle.brd_objects.specs.Table.{object_at, object_changed};
ghost use Rattle.brd_objects.specs.Semaphores.{
  returned,
  taken,
  semaphore_awaited,
  first_waiter_in,
  has_one_in,
};

use crate::objects::{Objects, SavedObjects};
use crate::semaphore::Semaphore;

/// The semaphores of a board by their IDs. Only `new` takes memory.
pub type Semaphores = Objects<Semaphore>;

/// What a snapshot keeps of them.
pub type SavedSemaphores = SavedObjects<Semaphore>;

impl Objects<Semaphore> {
    /// The semaphore of an ID.
    pub fn semaphore(&self, id: u16) -> Option<&Semaphore>
        ensures { option_copied result ≡ object_at self.now id }
    {
        self.object(id)
    }

    /// Returns one to a semaphore: the first waiter leaves with it, and is answered; where nobody waits it is counted,
    /// up to the maximum.
    #[tactic(auto, using(crate::proofs::RowLemmas::at_rows, crate::proofs::RowLemmas::past_rows, crate::proofs::RowLemmas::changed_row, crate::proofs::RowLemmas::changed_none, crate::proofs::RowLemmas::changed_past))]
    pub fn signal(&mut self, id: u16) -> Option<u16>
        ensures is { self.new ≡ object_changed returned self.old id }
        ensures who { result ≡ first_waiter_in (object_at self.old id) }
        ensures small { IfSome result (λ id. id < 256) }
    {
        if (id as usize) < self.rows.len() {
            if let Some(semaphore) = &mut self.rows[id as usize] {
                return semaphore.give();
            }
        }
        None
    }

    /// Takes one from a semaphore. Answers whether there was one.
    #[tactic(auto, using(crate::proofs::RowLemmas::at_rows, crate::proofs::RowLemmas::past_rows, crate::proofs::RowLemmas::changed_row, crate::proofs::RowLemmas::changed_none, crate::proofs::RowLemmas::changed_past))]
    pub fn take(&mut self, id: u16) -> bool
        ensures is { self.new ≡ object_changed taken self.old id }
        ensures there { result ≡ has_one_in (object_at self.old id) }
    {
        if (id as usize) < self.rows.len() {
            if let Some(semaphore) = &mut self.rows[id as usize] {
                return semaphore.take();
            }
        }
        false
    }

    /// A task waits for one of a semaphore, in the order that its attributes say.
    #[tactic(auto, using(crate::proofs::RowLemmas::at_rows, crate::proofs::RowLemmas::past_rows, crate::proofs::RowLemmas::changed_row, crate::proofs::RowLemmas::changed_none, crate::proofs::RowLemmas::changed_past))]
    pub fn wait(&mut self, id: u16, task: u16, priority: u8)
        requires { task < 256 }
        ensures { self.new ≡ object_changed (semaphore_awaited task priority) self.old id }
    {
        if (id as usize) < self.rows.len() {
            if let Some(semaphore) = &mut self.rows[id as usize] {
                semaphore.wait(task, priority);
            }
        }
    }
}
