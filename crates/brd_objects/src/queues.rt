//! The data queues of a board.

ghost use Rattle.std.specs.Prelude.{◌≡◌, ◌<◌, IfSome, option_copied};
ghost use Rattle.brd_objects.specs.Table.{object_at, object_changed};
ghost use Rattle.brd_objects.specs.DataQueues.{
  sent,
  outcome_in,
  forced,
  forced_outcome_in,
  received,
  receipt_in,
  IsToTask,
  IsFromTask,
  awaited_by_sender,
  awaited_by_receiver,
};

use crate::data_queue::DataQueue;
use crate::objects::{Objects, SavedObjects};
use crate::sent::{Received, Sent};

/// The data queues of a board by their IDs. Only `new` takes memory.
pub type Queues = Objects<DataQueue>;

/// What a snapshot keeps of them.
pub type SavedQueues = SavedObjects<DataQueue>;

impl Objects<DataQueue> {
    /// The data queue of an ID.
    pub fn queue(&self, id: u16) -> Option<&DataQueue>
        ensures { option_copied result ≡ object_at self.now id }
    {
        self.object(id)
    }

    /// A datum is sent: to the first receiver, which no longer waits, else it is stored, where there is room.
    #[tactic(auto, using(crate::proofs::RowLemmas::at_rows, crate::proofs::RowLemmas::past_rows, crate::proofs::RowLemmas::changed_row, crate::proofs::RowLemmas::changed_none, crate::proofs::RowLemmas::changed_past))]
    pub fn send(&mut self, id: u16, datum: u32) -> Sent
        ensures is { self.new ≡ object_changed (sent datum) self.old id }
        ensures outcome { result ≡ outcome_in (object_at self.old id) }
        ensures small { IsToTask result }
    {
        if (id as usize) < self.rows.len() {
            if let Some(queue) = &mut self.rows[id as usize] {
                return queue.send(datum);
            }
        }
        Sent::Full
    }

    /// A datum is sent: to the first receiver, which no longer waits, else it is stored, and a full queue gives its
    /// oldest datum up for it.
    #[tactic(auto, using(crate::proofs::RowLemmas::at_rows, crate::proofs::RowLemmas::past_rows, crate::proofs::RowLemmas::changed_row, crate::proofs::RowLemmas::changed_none, crate::proofs::RowLemmas::changed_past))]
    pub fn force(&mut self, id: u16, datum: u32) -> Sent
        ensures is { self.new ≡ object_changed (forced datum) self.old id }
        ensures outcome { result ≡ forced_outcome_in (object_at self.old id) }
        ensures small { IsToTask result }
    {
        if (id as usize) < self.rows.len() {
            if let Some(queue) = &mut self.rows[id as usize] {
                return queue.force(datum);
            }
        }
        Sent::Full
    }

    /// The oldest datum is received, and the first sender's takes the free place; where none is stored, the first
    /// sender's is received.
    #[tactic(auto, using(crate::proofs::RowLemmas::at_rows, crate::proofs::RowLemmas::past_rows, crate::proofs::RowLemmas::changed_row, crate::proofs::RowLemmas::changed_none, crate::proofs::RowLemmas::changed_past))]
    pub fn receive(&mut self, id: u16) -> Option<Received>
        ensures is { self.new ≡ object_changed received self.old id }
        ensures receipt { result ≡ receipt_in (object_at self.old id) }
        ensures small { IfSome result IsFromTask }
    {
        if (id as usize) < self.rows.len() {
            if let Some(queue) = &mut self.rows[id as usize] {
                return queue.receive();
            }
        }
        None
    }

    /// A task waits to send a datum, in the order that the attributes say.
    #[tactic(auto, using(crate::proofs::RowLemmas::at_rows, crate::proofs::RowLemmas::past_rows, crate::proofs::RowLemmas::changed_row, crate::proofs::RowLemmas::changed_none, crate::proofs::RowLemmas::changed_past))]
    pub fn wait_to_send(&mut self, id: u16, task: u16, priority: u8, datum: u32)
        requires { task < 256 }
        ensures { self.new ≡ object_changed (awaited_by_sender task priority datum) self.old id }
    {
        if (id as usize) < self.rows.len() {
            if let Some(queue) = &mut self.rows[id as usize] {
                queue.wait_to_send(task, priority, datum);
            }
        }
    }

    /// A task waits to receive a datum, after all others.
    #[tactic(auto, using(crate::proofs::RowLemmas::at_rows, crate::proofs::RowLemmas::past_rows, crate::proofs::RowLemmas::changed_row, crate::proofs::RowLemmas::changed_none, crate::proofs::RowLemmas::changed_past))]
    pub fn wait_to_receive(&mut self, id: u16, task: u16, priority: u8)
        requires { task < 256 }
        ensures { self.new ≡ object_changed (awaited_by_receiver task priority) self.old id }
    {
        if (id as usize) < self.rows.len() {
            if let Some(queue) = &mut self.rows[id as usize] {
                queue.wait_to_receive(task, priority);
            }
        }
    }
}
