//! The mutexes of a board.

ghost use Rattle.std.specs.Prelude.{◌≡◌, ◌<◌, IfSome, option_copied};
ghost use Rattle.brd_objects.specs.Table.{object_at, object_changed};
ghost use Rattle.brd_objects.specs.Mutexes.{owned, given, next_owner_in, mutex_awaited};

use crate::mutex::Mutex;
use crate::objects::{Objects, SavedObjects};

/// The mutexes of a board by their IDs. Only `new` takes memory.
pub type Mutexes = Objects<Mutex>;

/// What a snapshot keeps of them.
pub type SavedMutexes = SavedObjects<Mutex>;

impl Objects<Mutex> {
    /// The mutex of an ID.
    pub fn mutex(&self, id: u16) -> Option<&Mutex>
        ensures { option_copied result ≡ object_at self.now id }
    {
        self.object(id)
    }

    /// A task takes a mutex.
    #[tactic(auto, using(crate::proofs::RowLemmas::at_rows, crate::proofs::RowLemmas::past_rows, crate::proofs::RowLemmas::changed_row, crate::proofs::RowLemmas::changed_none, crate::proofs::RowLemmas::changed_past))]
    pub fn take(&mut self, id: u16, task: u16)
        ensures { self.new ≡ object_changed (owned task) self.old id }
    {
        if (id as usize) < self.rows.len() {
            if let Some(mutex) = &mut self.rows[id as usize] {
                mutex.take(task);
            }
        }
    }

    /// A mutex is given back: the first waiter leaves with it, and is answered; else nobody has it.
    #[tactic(auto, using(crate::proofs::RowLemmas::at_rows, crate::proofs::RowLemmas::past_rows, crate::proofs::RowLemmas::changed_row, crate::proofs::RowLemmas::changed_none, crate::proofs::RowLemmas::changed_past))]
    pub fn give(&mut self, id: u16) -> Option<u16>
        ensures is { self.new ≡ object_changed given self.old id }
        ensures who { result ≡ next_owner_in (object_at self.old id) }
        ensures small { IfSome result (λ id. id < 256) }
    {
        if (id as usize) < self.rows.len() {
            if let Some(mutex) = &mut self.rows[id as usize] {
                return mutex.give();
            }
        }
        None
    }

    /// A task waits for a mutex, in the order that its attribute says.
    #[tactic(auto, using(crate::proofs::RowLemmas::at_rows, crate::proofs::RowLemmas::past_rows, crate::proofs::RowLemmas::changed_row, crate::proofs::RowLemmas::changed_none, crate::proofs::RowLemmas::changed_past))]
    pub fn wait(&mut self, id: u16, task: u16, priority: u8)
        requires { task < 256 }
        ensures { self.new ≡ object_changed (mutex_awaited task priority) self.old id }
    {
        if (id as usize) < self.rows.len() {
            if let Some(mutex) = &mut self.rows[id as usize] {
                mutex.wait(task, priority);
            }
        }
    }
}
