//! A mailbox.

ghost use Rattle.std.specs.Prelude.{◌≡◌, ◌<◌, ◌≤◌, IfOk, insert, length};
ghost use Rattle.brd_objects.specs.QueueOrder.{order_of};
ghost use Rattle.brd_objects.specs.Waiters.{first_in};
ghost use Rattle.brd_objects.specs.DataQueues.{IsToTask};
ghost use Rattle.brd_objects.specs.Mailboxes.{
  message_order_of,
  mailbox_of,
  has_no_place,
  behind_equals,
  with_message,
  message_sent,
  message_outcome,
  message_received,
  next_message,
  mailbox_awaited,
  mailbox_left,
  mailbox_reordered,
};

mod saved;

use crate::message::Message;
use crate::object::Object;
use crate::sent::Sent;
use bitflags::Flags;
use brd_base::{NoMemory, Same, copy_with_room, same_slices};
use brd_config::{MailboxAttributes, MailboxConfig};
use brd_queue::{Queue, QueueEntry, QueueOrder, insert_within};
pub use saved::SavedMailbox;
use std::alloc::{AllocError, Global};
use std::marker::Model;

/// How many messages a mailbox keeps.
pub const MOST_MESSAGES: usize = 256;

/// A mailbox (uITRON 4.0 specification, "Mailboxes"): where its messages lie. The messages themselves are the board's.
/// Only `new` takes memory.
#[derive(Drop)]
pub struct Mailbox {
    priorities: u8,
    order: QueueOrder,
    message_order: QueueOrder,
    messages: Vec<Message>,
    waiters: Queue<()>,
}

impl Model for Mailbox {
    ghost use Rattle.std.specs.Prelude.{◌≤◌, length, vec_capacity};
    ghost use Rattle.brd_objects.specs.Mailboxes.{MailboxState};

    ghost Value = { MailboxState };

    ghost view = { λ m.
        record {
          priorities = m.priorities;
          order = m.order;
          message_order = m.message_order;
          messages = m.messages.items;
          waiters = m.waiters;
        } };

    ghost invariant = { λ m. (length m.messages.items ≤ 256) × (256 ≤ vec_capacity m.messages) };
}

impl Clone for Mailbox {
    ghost is_clone = { λ mailbox copy. copy ≡ mailbox };

    fn clone(&self) -> Result<Self, AllocError> {
        Ok(Mailbox {
            priorities: self.priorities,
            order: self.order,
            message_order: self.message_order,
            messages: copy_with_room(&self.messages, MOST_MESSAGES)?,
            waiters: self.waiters.clone()?,
        })
    }
}

impl Same for Mailbox {
    fn same(&self, other: &Self) -> bool {
        self.priorities == other.priorities
            && self.order == other.order
            && self.message_order == other.message_order
            && same_slices(self.messages.as_slice(), other.messages.as_slice())
            && self.waiters.same(&other.waiters)
    }
}

impl Object for Mailbox {
    type Config = MailboxConfig;

    type Saved = SavedMailbox;

    ghost id_of = { λ config. config.id };

    ghost made_of = { mailbox_of };

    ghost left = { mailbox_left };

    ghost reordered = { mailbox_reordered };

    ghost restored = { λ saved. saved };

    ghost clones_are_equal = { λ _ _ same. same };

    fn id(config: &MailboxConfig) -> u16 {
        config.id
    }

    /// No message is there, too.
    fn new(alloc: Global, config: &MailboxConfig) -> Result<Mailbox, NoMemory> {
        Ok(Mailbox {
            priorities: config.priorities,
            order: order_of(config.attributes),
            message_order: message_order_of(config.attributes),
            messages: Vec::with_capacity(alloc, MOST_MESSAGES)?,
            waiters: Queue::new(alloc)?,
        })
    }

    fn leave(&mut self, task: u16) {
        let _ = self.waiters.leave(task);
    }

    fn reorder(&mut self, task: u16, priority: u8) {
        self.waiters.reorder(self.order, task, priority);
    }

    fn save(&self) -> Result<SavedMailbox, NoMemory> {
        self.save()
    }

    fn restore(saved: &SavedMailbox) -> Result<Mailbox, NoMemory> {
        saved.restore()
    }
}

impl Mailbox {
    /// How many priorities its messages have, where they are received by priority.
    pub fn priorities(&self) -> u8
        ensures { result ≡ self.now.priorities }
    {
        self.priorities
    }

    /// In which order messages are received.
    pub fn message_order(&self) -> QueueOrder
        ensures { result ≡ self.now.message_order }
    {
        self.message_order
    }

    /// The task that waits first.
    pub fn first(&self) -> Option<u16>
        ensures { result ≡ first_in self.now.waiters }
    {
        match self.waiters.first() {
            Some(first) => Some(first.id),
            None => None,
        }
    }

    /// The address of the message that is received next.
    pub fn next(&self) -> Option<u32>
        ensures { result ≡ next_message self.now }
    {
        if self.messages.is_empty() {
            return None;
        }
        Some(self.messages[0].address)
    }

    /// Whether one more message is too many: nobody waits for it, and there is no room.
    pub fn is_full(&self) -> bool
        ensures { result ≡ has_no_place self.now }
    {
        self.waiters.is_empty() && self.messages.len() >= MOST_MESSAGES
    }

    /// A message is sent: to the first waiter, which no longer waits, else it is kept, where there is room.
    pub fn send(&mut self, message: Message) -> Sent
        ensures is { self.new ≡ message_sent message self.old }
        ensures outcome { result ≡ message_outcome self.old }
        ensures small { IsToTask result }
    {
        if let Some(first) = self.waiters.serve() {
            return Sent::Handed(first.id);
        }
        if self.messages.len() >= MOST_MESSAGES {
            return Sent::Full;
        }
        let at = place_for(self.messages.as_slice(), self.message_order, message);
        insert_within(&mut self.messages, at, message);
        Sent::Stored
    }

    /// The first message is received: its address.
    pub fn receive(&mut self) -> Option<u32>
        ensures is { self.new ≡ message_received self.old }
        ensures message { result ≡ next_message self.old }
    {
        if self.messages.is_empty() {
            return None;
        }
        let first = self.messages.remove(0);
        Some(first.address)
    }

    /// A task waits for a message, in the order that the attributes say.
    pub fn wait(&mut self, task: u16, priority: u8)
        requires { task < 256 }
        ensures { self.new ≡ mailbox_awaited task priority self.old }
    {
        let entry = QueueEntry {
            id: task,
            priority,
            wanted: (),
        };
        self.waiters.place(self.order, entry);
    }
}

/// The order in which tasks wait for a mailbox of these attributes.
fn order_of(attributes: MailboxAttributes) -> QueueOrder
    ensures { result ≡ order_of attributes.0 }
{
    if attributes.contains(MailboxAttributes::TA_TPRI) {
        return QueueOrder::Priority;
    }
    QueueOrder::Arrival
}

/// The order in which messages are received from a mailbox of these attributes.
fn message_order_of(attributes: MailboxAttributes) -> QueueOrder
    ensures { result ≡ message_order_of attributes.0 }
{
    if attributes.contains(MailboxAttributes::TA_MPRI) {
        return QueueOrder::Priority;
    }
    QueueOrder::Arrival
}

/// How many messages stand before one that comes.
fn place_for(messages: &[Message], order: QueueOrder, message: Message) -> usize
    ensures within { result ≤ length messages.now }
    ensures is { insert messages.now result message ≡ with_message order message messages.now }
{
    match order {
        QueueOrder::Arrival => messages.len(),
        QueueOrder::Priority => place_of(messages, message),
    }
}

/// How many messages stand before one that comes by priority.
fn place_of(messages: &[Message], message: Message) -> usize
    ensures within { result ≤ length messages.now }
    ensures is { insert messages.now result message ≡ behind_equals message messages.now }
{
    for (i, other) in messages.iter().enumerate() {
        if message.priority < other.priority {
            return i;
        }
    }
    messages.len()
}
