//! What a snapshot keeps of a mailbox.

ghost use Rattle.std.specs.Prelude.{◌≡◌, IfOk};

use super::{MOST_MESSAGES, Mailbox};
use crate::message::Message;
use brd_base::{NoMemory, copy_with_room};
use brd_queue::{QueueOrder, SavedQueue};
use std::marker::Model;

/// A mailbox without room for any message but those that it keeps, and any task but those that wait.
#[derive(Drop)]
pub struct SavedMailbox {
    priorities: u8,
    order: QueueOrder,
    message_order: QueueOrder,
    messages: Vec<Message>,
    waiters: SavedQueue<()>,
}

impl Model for SavedMailbox {
    ghost use Rattle.std.specs.Prelude.{◌≤◌, length};
    ghost use Rattle.brd_objects.specs.Mailboxes.{MailboxState};

    ghost Value = { MailboxState };

    ghost view = { λ m.
        record {
          priorities = m.priorities;
          order = m.order;
          message_order = m.message_order;
          messages = m.messages.items;
          waiters = m.waiters;
        } };

    ghost invariant = { λ m. length m.messages.items ≤ 256 };
}

impl Mailbox {
    /// The same mailbox without room.
    pub fn save(&self) -> Result<SavedMailbox, NoMemory>
        ensures { IfOk result (λ saved. saved ≡ self.now) }
    {
        Ok(SavedMailbox {
            priorities: self.priorities,
            order: self.order,
            message_order: self.message_order,
            messages: copy_with_room(&self.messages, 0)?,
            waiters: self.waiters.save()?,
        })
    }
}

impl SavedMailbox {
    /// The same mailbox with room.
    pub fn restore(&self) -> Result<Mailbox, NoMemory>
        ensures { IfOk result (λ mailbox. mailbox ≡ self.now) }
    {
        Ok(Mailbox {
            priorities: self.priorities,
            order: self.order,
            message_order: self.message_order,
            messages: copy_with_room(&self.messages, MOST_MESSAGES)?,
            waiters: self.waiters.restore()?,
        })
    }
}
