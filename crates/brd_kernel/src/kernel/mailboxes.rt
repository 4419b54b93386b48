//! Mailboxes: the service calls, each as its row of the table says.

ghost use Rattle.std.specs.Prelude.{◌≡◌, ◌<◌};
ghost use Rattle.brd_kernel.specs.Row.{Serves, served};
ghost use Rattle.brd_kernel.specs.Services as table;
ghost use Rattle.brd_kernel.specs.Services.{is_no_priority, message_of, mailbox_words};

use super::Kernel;
use super::profile::id_or_none;
use super::serve::{OK, id_in_range};
use super::waits::is_bad_timeout;
use crate::call::{Ercd, Reply};
use brd_objects::{Mailbox, Message, Sent};
use brd_queue::QueueOrder;
use brd_tasks::{TaskId, WaitKind, WaitReason};

impl Kernel {
    pub(super) fn snd_mbx(&mut self, id: u32, address: u32, priority: u32) -> Result<Reply, Ercd>
        ensures { Serves self.old self.new result (served (table.snd_mbx self.old id address priority)) }
    {
        let id = id_in_range(id)?;
        let Some(mailbox) = self.mailboxes.mailbox(id) else {
            return Err(Ercd::Noexs);
        };
        if is_no_priority(mailbox.message_order(), mailbox.priorities(), priority) {
            return Err(Ercd::Par);
        }
        if mailbox.is_full() {
            return Err(Ercd::Qovr);
        }
        if let Sent::Handed(task) = self.mailboxes.send(id, message_of(address, priority)) {
            self.release(task, 0, Some(address));
        }
        Ok(OK)
    }

    pub(super) fn trcv_mbx(&mut self, caller: TaskId, id: u32, timeout: u32) -> Result<Reply, Ercd>
        requires { caller < 256 }
        ensures { Serves self.old self.new result (served (table.trcv_mbx self.old caller id timeout)) }
    {
        let id = id_in_range(id)?;
        if is_bad_timeout(timeout) {
            return Err(Ercd::Par);
        }
        if self.mailboxes.mailbox(id).is_none() {
            return Err(Ercd::Noexs);
        }
        if let Some(address) = self.mailboxes.receive(id) {
            return Ok(Reply::Answer(0, Some(address)));
        }
        if timeout == 0 {
            return Err(Ercd::Tmout);
        }
        if self.can_wait(caller) {
            let due = self.due_by(timeout);
            let priority = self.priority(caller);
            self.mailboxes.wait(id, caller, priority);
            self.block(caller, WaitReason::On(WaitKind::Message, id), due);
        }
        Ok(Reply::Silent)
    }

    pub(super) fn ref_mbx(&self, id: u32, word: u32) -> Result<Reply, Ercd>
        ensures { Serves self.now self.now result (served (table.ref_mbx self.now id word)) }
    {
        let id = id_in_range(id)?;
        if word > 1 {
            return Err(Ercd::Par);
        }
        let Some(mailbox) = self.mailboxes.mailbox(id) else {
            return Err(Ercd::Noexs);
        };
        let words = mailbox_words(mailbox);
        Ok(Reply::Answer(0, Some(words[word as usize])))
    }
}

/// Whether no message has this priority, of a mailbox that has so many.
fn is_no_priority(order: QueueOrder, most: u8, priority: u32) -> bool
    ensures { result ≡ is_no_priority order most priority }
{
    match order {
        QueueOrder::Arrival => false,
        QueueOrder::Priority => priority == 0 || priority > most as u32,
    }
}

/// A message at an address, with a priority.
fn message_of(address: u32, priority: u32) -> Message
    ensures { result ≡ message_of address priority }
{
    Message {
        address,
        priority: (priority % 256) as u8,
    }
}

/// The words of T_RMBX.
fn mailbox_words(mailbox: &Mailbox) -> [u32; 2]
    ensures { result ≡ mailbox_words mailbox.now }
{
    [id_or_none(mailbox.first()), mailbox.next().unwrap_or(0)]
}
