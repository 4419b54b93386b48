//! The service calls of semaphores, event flags and data queues, each as its row of the table says.

ghost use Rattle.std.specs.Prelude.{◌≡◌, ◌≢◌, ◌<◌, false, IfSome};
ghost use Rattle.brd_kernel.specs.Row.{Serves, served};
ghost use Rattle.brd_kernel.specs.Waits.{with_released};
ghost use Rattle.brd_kernel.specs.Services as table;
ghost use Rattle.brd_kernel.specs.Services.{
  callers_priority,
  with_satisfied_released,
  is_bad_want,
  want_of,
};

use super::Kernel;
use super::serve::{OK, id_in_range};
use super::waits::is_bad_timeout;
use crate::call::{Ercd, Reply};
use brd_objects::{Mode, Sent, Want};
use brd_tasks::{TaskId, WaitKind, WaitReason};

impl Kernel {
    pub(super) fn sig_sem(&mut self, id: u32) -> Result<Reply, Ercd>
        ensures { Serves self.old self.new result (served (table.sig_sem self.old id)) }
    {
        let id = id_in_range(id)?;
        let Some(semaphore) = self.semaphores.semaphore(id) else {
            return Err(Ercd::Noexs);
        };
        if semaphore.is_full() {
            return Err(Ercd::Qovr);
        }
        let first = self.semaphores.signal(id);
        self.release_one(first);
        Ok(OK)
    }

    pub(super) fn twai_sem(&mut self, caller: TaskId, id: u32, timeout: u32) -> Result<Reply, Ercd>
        requires { caller < 256 }
        ensures { Serves self.old self.new result (served (table.twai_sem self.old caller id timeout)) }
    {
        let id = id_in_range(id)?;
        if is_bad_timeout(timeout) {
            return Err(Ercd::Par);
        }
        let Some(semaphore) = self.semaphores.semaphore(id) else {
            return Err(Ercd::Noexs);
        };
        if semaphore.has_one() {
            let _ = self.semaphores.take(id);
            return Ok(OK);
        }
        if timeout == 0 {
            return Err(Ercd::Tmout);
        }
        if self.can_wait(caller) {
            let due = self.due_by(timeout);
            let priority = self.priority(caller);
            self.semaphores.wait(id, caller, priority);
            self.block(caller, WaitReason::On(WaitKind::Semaphore, id), due);
        }
        Ok(Reply::Silent)
    }

    pub(super) fn set_flg(&mut self, id: u32, bits: u32) -> Result<Reply, Ercd>
        ensures { Serves self.old self.new result (served (table.set_flg self.old id bits)) }
    {
        let id = id_in_range(id)?;
        if self.flags.flag(id).is_none() {
            return Err(Ercd::Noexs);
        }
        self.flags.set(id, bits);
        self.release_satisfied(id);
        Ok(OK)
    }

    pub(super) fn clr_flg(&mut self, id: u32, bits: u32) -> Result<Reply, Ercd>
        ensures { Serves self.old self.new result (served (table.clr_flg self.old id bits)) }
    {
        let id = id_in_range(id)?;
        if self.flags.flag(id).is_none() {
            return Err(Ercd::Noexs);
        }
        self.flags.clear(id, bits);
        Ok(OK)
    }

    pub(super) fn twai_flg(
        &mut self,
        caller: TaskId,
        id: u32,
        bits: u32,
        mode: u32,
        timeout: u32,
    ) -> Result<Reply, Ercd>
        requires { caller < 256 }
        ensures { Serves self.old self.new result (served (table.twai_flg self.old caller id bits mode timeout)) }
    {
        let id = id_in_range(id)?;
        if is_bad_want(bits, mode) || is_bad_timeout(timeout) {
            return Err(Ercd::Par);
        }
        let Some(flag) = self.flags.flag(id) else {
            return Err(Ercd::Noexs);
        };
        if flag.is_occupied() {
            return Err(Ercd::Iluse);
        }
        let want = want_of(bits, mode);
        if let Some(pattern) = self.flags.take(id, want) {
            return Ok(Reply::Answer(0, Some(pattern)));
        }
        if timeout == 0 {
            return Err(Ercd::Tmout);
        }
        if self.can_wait(caller) {
            let due = self.due_by(timeout);
            let priority = self.priority(caller);
            self.flags.wait(id, caller, priority, want);
            self.block(caller, WaitReason::On(WaitKind::Flag, id), due);
        }
        Ok(Reply::Silent)
    }

    pub(super) fn tsnd_dtq(
        &mut self,
        caller: TaskId,
        id: u32,
        datum: u32,
        timeout: u32,
    ) -> Result<Reply, Ercd>
        requires { caller < 256 }
        ensures { Serves self.old self.new result (served (table.tsnd_dtq self.old caller id datum timeout)) }
    {
        let id = id_in_range(id)?;
        if is_bad_timeout(timeout) {
            return Err(Ercd::Par);
        }
        if self.queues.queue(id).is_none() {
            return Err(Ercd::Noexs);
        }
        match self.queues.send(id, datum) {
            Sent::Handed(task) => {
                self.release(task, 0, Some(datum));
                return Ok(OK);
            }
            Sent::Stored => return Ok(OK),
            Sent::Full => {}
        }
        if timeout == 0 {
            return Err(Ercd::Tmout);
        }
        if self.can_wait(caller) {
            let due = self.due_by(timeout);
            let priority = self.priority(caller);
            self.queues.wait_to_send(id, caller, priority, datum);
            self.block(caller, WaitReason::On(WaitKind::Room, id), due);
        }
        Ok(Reply::Silent)
    }

    pub(super) fn fsnd_dtq(&mut self, id: u32, datum: u32) -> Result<Reply, Ercd>
        ensures { Serves self.old self.new result (served (table.fsnd_dtq self.old id datum)) }
    {
        let id = id_in_range(id)?;
        let Some(queue) = self.queues.queue(id) else {
            return Err(Ercd::Noexs);
        };
        if queue.capacity() == 0 {
            return Err(Ercd::Iluse);
        }
        if let Sent::Handed(task) = self.queues.force(id, datum) {
            self.release(task, 0, Some(datum));
        }
        Ok(OK)
    }

    pub(super) fn trcv_dtq(&mut self, caller: TaskId, id: u32, timeout: u32) -> Result<Reply, Ercd>
        requires { caller < 256 }
        ensures { Serves self.old self.new result (served (table.trcv_dtq self.old caller id timeout)) }
    {
        let id = id_in_range(id)?;
        if is_bad_timeout(timeout) {
            return Err(Ercd::Par);
        }
        if self.queues.queue(id).is_none() {
            return Err(Ercd::Noexs);
        }
        if let Some(received) = self.queues.receive(id) {
            self.release_one(received.sender);
            return Ok(Reply::Answer(0, Some(received.datum)));
        }
        if timeout == 0 {
            return Err(Ercd::Tmout);
        }
        if self.can_wait(caller) {
            let due = self.due_by(timeout);
            let priority = self.priority(caller);
            self.queues.wait_to_receive(id, caller, priority);
            self.block(caller, WaitReason::On(WaitKind::Datum, id), due);
        }
        Ok(Reply::Silent)
    }

    /// The priority of the caller.
    pub(super) fn priority(&self, id: TaskId) -> u8
        ensures { result ≡ callers_priority self.now id }
    {
        match self.common.tasks.task(id) {
            Some(task) => task.priority,
            None => 0,
        }
    }

    /// A task, if it is one, is released with E_OK.
    pub(super) fn release_one(&mut self, id: Option<TaskId>)
        requires { IfSome id (λ n. n < 256) }
        ensures { self.new ≡ with_released self.old id }
    {
        if let Some(id) = id {
            self.release(id, 0, None);
        }
    }

    /// Those who wait for an event flag and are satisfied by its pattern are released.
    fn release_satisfied(&mut self, id: u16)
        ensures { self.new ≡ with_satisfied_released self.old id }
    {
        while let Some((task, pattern)) = self.flags.next_satisfied(id) {
            self.release(task, 0, Some(pattern));
        }
    }
}

/// Whether no wait may be for these bits in this mode.
#[tactic(auto, unfolding(crate::specs::Services::is_bad_want))]
fn is_bad_want(bits: u32, mode: u32) -> bool
    ensures is { result ≡ is_bad_want bits mode }
    ensures some { result ≡ false → bits ≢ 0 }
{
    bits == 0 || mode > 1
}

/// A wait for bits in a mode.
fn want_of(bits: u32, mode: u32) -> Want
    ensures { result ≡ want_of bits mode }
{
    let mode = if mode == 0 { Mode::All } else { Mode::Any };
    Want { bits, mode }
}
