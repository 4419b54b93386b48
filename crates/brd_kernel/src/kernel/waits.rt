//! Waits: how they begin, and how they end.

ghost use Rattle.std.specs.Prelude.{◌≡◌, ◌<◌, ◌^◌, ◌-◌, Some, IfSome};
ghost use Rattle.brd_tasks.specs.Tasks.{task_at, through};
ghost use Rattle.brd_tasks.specs.Status.{blocked};
ghost use Rattle.brd_time.specs.Time.{with_due, due_from};
ghost use Rattle.brd_kernel.specs.Waits.{
  is_bad_timeout,
  due_after,
  due_by,
  can_wait,
  released_in,
  reason_of,
  unlisted_from,
  unlisted,
  broken_off,
  ended_in,
  reordered_in,
  answer_by,
  timed_out,
  all_timed_out,
};

use super::Kernel;
use crate::call::Ercd;
use brd_tasks::{TaskId, WaitKind, WaitReason};

/// A wait without an end (TMO_FEVR, -1).
const FOREVER: u32 = 0xffff_ffff;

impl Kernel {
    /// Whether a task can begin to wait.
    pub(super) fn can_wait(&self, id: TaskId) -> bool
        ensures { result ≡ can_wait (task_at self.now.tasks id) }
    {
        match self.common.tasks.task(id) {
            Some(task) => task.status.is_ready(),
            None => false,
        }
    }

    /// The tick at which a wait ends that begins now and takes n ticks.
    pub(super) fn due_after(&self, ticks: u32) -> u64
        ensures is { result ≡ due_after self.now ticks }
        ensures counted { result < 2 ^ 64 - 1 }
    {
        self.common.time.now() + ticks as u64 + 1
    }

    /// The tick at which a wait of this timeout ends, if it has an end.
    #[tactic(auto, unfolding(crate::specs::Waits::due_by))]
    pub(super) fn due_by(&self, timeout: u32) -> Option<u64>
        ensures is { result ≡ due_by self.now timeout }
        ensures counted { IfSome result (λ due. due < 2 ^ 64 - 1) }
    {
        if timeout == FOREVER {
            return None;
        }
        Some(self.due_after(timeout))
    }

    /// A task begins to wait, until a tick, if its wait has an end.
    pub(super) fn block(&mut self, id: TaskId, reason: WaitReason, due: Option<u64>)
        requires small { id < 256 }
        requires counted { IfSome due (λ at. at < 2 ^ 64 - 1) }
        ensures { self.new
            ≡ record self.old {
              tasks = through (blocked reason) self.old.tasks id;
              time = with_due self.old.time id due;
            } }
    {
        self.common.tasks.block(id, reason);
        match due {
            Some(due) => self.common.time.arm(id, due),
            None => self.common.time.disarm(id),
        }
    }

    /// A wait ends, and the task's service call is answered.
    pub(super) fn release(&mut self, id: TaskId, code: u32, second: Option<u32>)
        requires { id < 256 }
        ensures { self.new ≡ released_in self.old id code second }
    {
        self.common.tasks.release(id, code, second);
        self.common.time.disarm(id);
    }

    /// What a task waits for.
    pub(super) fn reason(&self, id: TaskId) -> Option<WaitReason>
        ensures { result ≡ reason_of self.now id }
    {
        let task = self.common.tasks.task(id)?;
        task.status.waiting()
    }

    /// A task leaves the list of what it waits for.
    fn leave(&mut self, id: TaskId)
        ensures { self.new ≡ unlisted self.old id }
    {
        let reason = self.reason(id);
        self.leave_list(id, reason);
    }

    /// A task leaves the list of those that wait for this.
    fn leave_list(&mut self, id: TaskId, reason: Option<WaitReason>)
        ensures { self.new ≡ unlisted_from self.old id reason }
    {
        let Some(WaitReason::On(kind, _)) = reason else {
            return
        };
        match kind {
            WaitKind::Semaphore => self.semaphores.leave(id),
            WaitKind::Flag => self.flags.leave(id),
            WaitKind::Room | WaitKind::Datum => self.queues.leave(id),
            WaitKind::Mutex => self.mutexes.leave(id),
            WaitKind::Block => self.pools.leave(id),
            WaitKind::Message => self.mailboxes.leave(id),
        }
    }

    /// A wait is broken off, or ends by time: the task leaves the list in which it waits.
    pub(super) fn break_off(&mut self, id: TaskId, code: u32)
        requires { id < 256 }
        ensures { self.new ≡ broken_off self.old id code }
    {
        self.leave(id);
        self.release(id, code, None);
    }

    /// A task ends, in a wait or not; it starts again where a request was queued.
    pub(super) fn end(&mut self, id: TaskId)
        requires { id < 256 }
        ensures { self.new ≡ ended_in self.old id }
    {
        self.leave(id);
        self.common.tasks.end(id);
        self.common.time.disarm(id);
    }

    /// A task has another priority: in the list of what it waits for it is placed anew where that goes by priority,
    /// else it keeps its place.
    pub(super) fn reorder(&mut self, id: TaskId, priority: u8, reason: Option<WaitReason>)
        ensures { self.new ≡ reordered_in self.old id priority reason }
    {
        let Some(WaitReason::On(kind, _)) = reason else {
            return
        };
        match kind {
            WaitKind::Semaphore => self.semaphores.reorder(id, priority),
            WaitKind::Flag => self.flags.reorder(id, priority),
            WaitKind::Room | WaitKind::Datum => self.queues.reorder(id, priority),
            WaitKind::Mutex => self.mutexes.reorder(id, priority),
            WaitKind::Block => self.pools.reorder(id, priority),
            WaitKind::Message => self.mailboxes.reorder(id, priority),
        }
    }

    /// The wait of a task ends by time.
    fn time_out(&mut self, id: TaskId)
        requires { id < 256 }
        ensures { self.new ≡ timed_out self.old id }
    {
        let code = answer_of(self.reason(id));
        self.break_off(id, code);
    }

    /// The waits end whose tick has come, by ascending ID.
    pub(super) fn end_waits(&mut self)
        ensures { self.new ≡ all_timed_out self.old (due_from self.old.time 0) }
    {
        let mut from = 0u16;
        while let Some(id) = self.common.time.next_due(from) {
            self.time_out(id);
            from = id + 1;
        }
    }
}

/// What a task is answered whose wait ends by time.
fn answer_of(reason: Option<WaitReason>) -> u32
    ensures { result ≡ answer_by reason }
{
    match reason {
        Some(WaitReason::Delay) => 0,
        _ => Ercd::Tmout.word(),
    }
}

/// Whether a timeout is below -1.
#[tactic(auto, unfolding(crate::specs::Waits::is_bad_timeout))]
pub(super) fn is_bad_timeout(timeout: u32) -> bool
    ensures { result ≡ is_bad_timeout timeout }
{
    timeout >= 0x8000_0000 && timeout != FOREVER
}
