//! The mailboxes of a board.

ghost use Rattle.std.specs.Prelude.{◌≡◌, ◌<◌, option_copied};
ghost use Rattle.brd_objects.specs.Table.{object_at, object_changed};
ghost use Rattle.brd_objects.specs.DataQueues.{IsToTask};
ghost use Rattle.brd_objects.specs.Mailboxes.{
  message_sent,
  message_outcome_in,
  message_received,
  next_message_in,
  mailbox_awaited,
};

use crate::mailbox::Mailbox;
use crate::message::Message;
use crate::objects::{Objects, SavedObjects};
use crate::sent::Sent;

/// The mailboxes of a board by their IDs. Only `new` takes memory.
pub type Mailboxes = Objects<Mailbox>;

/// What a snapshot keeps of them.
pub type SavedMailboxes = SavedObjects<Mailbox>;

impl Objects<Mailbox> {
    /// The mailbox of an ID.
    pub fn mailbox(&self, id: u16) -> Option<&Mailbox>
        ensures { option_copied result ≡ object_at self.now id }
    {
        self.object(id)
    }

    /// A message is sent: to the first waiter, which no longer waits, else it is kept, where there is room.
    #[tactic(auto, using(crate::proofs::RowLemmas::at_rows, crate::proofs::RowLemmas::past_rows, crate::proofs::RowLemmas::changed_row, crate::proofs::RowLemmas::changed_none, crate::proofs::RowLemmas::changed_past))]
    pub fn send(&mut self, id: u16, message: Message) -> Sent
        ensures is { self.new ≡ object_changed (message_sent message) self.old id }
        ensures outcome { result ≡ message_outcome_in (object_at self.old id) }
        ensures small { IsToTask result }
    {
        if (id as usize) < self.rows.len() {
            if let Some(mailbox) = &mut self.rows[id as usize] {
                return mailbox.send(message);
            }
        }
        Sent::Full
    }

    /// The first message is received: its address.
    #[tactic(auto, using(crate::proofs::RowLemmas::at_rows, crate::proofs::RowLemmas::past_rows, crate::proofs::RowLemmas::changed_row, crate::proofs::RowLemmas::changed_none, crate::proofs::RowLemmas::changed_past))]
    pub fn receive(&mut self, id: u16) -> Option<u32>
        ensures is { self.new ≡ object_changed message_received self.old id }
        ensures message { result ≡ next_message_in (object_at self.old id) }
    {
        if (id as usize) < self.rows.len() {
            if let Some(mailbox) = &mut self.rows[id as usize] {
                return mailbox.receive();
            }
        }
        None
    }

    /// A task waits for a message, in the order that the attributes say.
    #[tactic(auto, using(crate::proofs::RowLemmas::at_rows, crate::proofs::RowLemmas::past_rows, crate::proofs::RowLemmas::changed_row, crate::proofs::RowLemmas::changed_none, crate::proofs::RowLemmas::changed_past))]
    pub fn wait(&mut self, id: u16, task: u16, priority: u8)
        requires { task < 256 }
        ensures { self.new ≡ object_changed (mailbox_awaited task priority) self.old id }
    {
        if (id as usize) < self.rows.len() {
            if let Some(mailbox) = &mut self.rows[id as usize] {
                mailbox.wait(task, priority);
            }
        }
    }
}
