//! The service calls of the profile, each as its row of the table says.

ghost use Rattle.std.specs.Prelude.{◌≡◌};
ghost use Rattle.brd_kernel.specs.Row.{Serves, served};
ghost use Rattle.brd_kernel.specs.Services as table;
ghost use Rattle.brd_kernel.specs.Services.{
  bit_word,
  clock_for,
  flag_words,
  id_or_none,
  kind_word,
  left_word,
  object_word,
  queue_words,
  semaphore_words,
  sensed,
  state_word,
  status_word,
  system_time,
  task_words,
  ticks_left,
  wait_word,
};

use super::processors::priority_or_callers;
use super::serve::{OK, id_in_range};
use super::{Kernel, is_same_task};
use crate::call::{Ercd, Reply, Sensed};
use crate::processor::Processor;
use brd_objects::{DataQueue, Flag, Semaphore};
use brd_tasks::{Status, Task, TaskId, WaitKind, WaitReason};

/// A wait without an end (TMO_FEVR, -1).
const FOREVER: u32 = 0xffff_ffff;

/// How many values a word has.
const WORDS: u64 = 0x1_0000_0000;

impl Kernel {
    /// The system time.
    pub(super) fn system_time(&self) -> u32
        ensures { result ≡ system_time self.now }
    {
        ((self.common.clock as u64 + self.common.time.now()) % WORDS) as u32
    }

    /// What the system time was before the first tick, where it is this now.
    fn clock_for(&self, time: u32) -> u32
        ensures { result ≡ clock_for self.now time }
    {
        ((time as u64 + (WORDS - self.common.time.now() % WORDS)) % WORDS) as u32
    }

    pub(super) fn set_tim(&mut self, time: u32) -> Result<Reply, Ercd>
        ensures { Serves self.old self.new result (served (table.set_tim self.old time)) }
    {
        self.common.clock = self.clock_for(time);
        Ok(OK)
    }

    pub(super) fn sns(&self, cpu: u8, what: Sensed) -> Result<Reply, Ercd>
        ensures { Serves self.now self.now result (served (table.sns self.now cpu what)) }
    {
        let processor = self.own_processor(cpu)?;
        Ok(Reply::Answer(bit_word(sensed(processor, what)), None))
    }

    pub(super) fn mget_tid(&self, on: u32) -> Result<Reply, Ercd>
        ensures { Serves self.now self.now result (served (table.mget_tid self.now on)) }
    {
        let on = self.processor_in_range(on)?;
        let processor = self.own_processor(on)?;
        Ok(Reply::Answer(0, Some(id_or_none(processor.running))))
    }

    pub(super) fn mrot_rdq(&mut self, caller: TaskId, priority: u32, on: u32) -> Result<Reply, Ercd>
        ensures { Serves self.old self.new result (served (table.mrot_rdq self.old caller priority on)) }
    {
        if priority > 16 {
            return Err(Ercd::Par);
        }
        let on = self.processor_in_range(on)?;
        let _ = self.own_processor(on)?;
        let priority = priority_or_callers(priority as u8, self.base(caller));
        self.common.tasks.rotate(on, priority);
        Ok(OK)
    }

    pub(super) fn ref_tsk(&self, id: u32, word: u32) -> Result<Reply, Ercd>
        ensures { Serves self.now self.now result (served (table.ref_tsk self.now id word)) }
    {
        let id = id_in_range(id)?;
        if word > 8 {
            return Err(Ercd::Par);
        }
        let task = self.named_task(id)?;
        let words = self.task_words(id, task);
        Ok(Reply::Answer(0, Some(words[word as usize])))
    }

    /// The words of T_RTSK.
    fn task_words(&self, id: TaskId, task: Task) -> [u32; 9]
        ensures { result ≡ task_words self.now id task }
    {
        let why = task.status.waiting();
        [
            state_word(is_same_task(self.running(task.cpu), Some(id)), task.status),
            task.priority as u32,
            task.base as u32,
            wait_word(why),
            object_word(why),
            left_word(
                self.common.time.now(),
                self.common.time.due(id),
                task.status.is_waiting(),
            ),
            bit_word(task.activation.is_some()),
            bit_word(task.wakeup),
            bit_word(task.status.is_suspended()),
        ]
    }

    pub(super) fn ref_sem(&self, id: u32, word: u32) -> Result<Reply, Ercd>
        ensures { Serves self.now self.now result (served (table.ref_sem self.now id word)) }
    {
        let id = id_in_range(id)?;
        if word > 1 {
            return Err(Ercd::Par);
        }
        let Some(semaphore) = self.semaphores.semaphore(id) else {
            return Err(Ercd::Noexs);
        };
        let words = semaphore_words(semaphore);
        Ok(Reply::Answer(0, Some(words[word as usize])))
    }

    pub(super) fn ref_flg(&self, id: u32, word: u32) -> Result<Reply, Ercd>
        ensures { Serves self.now self.now result (served (table.ref_flg self.now id word)) }
    {
        let id = id_in_range(id)?;
        if word > 1 {
            return Err(Ercd::Par);
        }
        let Some(flag) = self.flags.flag(id) else {
            return Err(Ercd::Noexs);
        };
        let words = flag_words(flag);
        Ok(Reply::Answer(0, Some(words[word as usize])))
    }

    pub(super) fn ref_dtq(&self, id: u32, word: u32) -> Result<Reply, Ercd>
        ensures { Serves self.now self.now result (served (table.ref_dtq self.now id word)) }
    {
        let id = id_in_range(id)?;
        if word > 2 {
            return Err(Ercd::Par);
        }
        let Some(queue) = self.queues.queue(id) else {
            return Err(Ercd::Noexs);
        };
        let words = queue_words(queue);
        Ok(Reply::Answer(0, Some(words[word as usize])))
    }
}

/// 1 for true, 0 for false.
pub(super) fn bit_word(bit: bool) -> u32
    ensures { result ≡ bit_word bit }
{
    if bit { 1 } else { 0 }
}

/// Whether a processor is in a state.
fn sensed(processor: Processor, what: Sensed) -> bool
    ensures { result ≡ sensed processor what }
{
    match what {
        Sensed::Context => processor.handling.is_some(),
        Sensed::Locked => processor.locked,
        Sensed::Disabled => processor.disabled,
        Sensed::Pending => processor.is_held(),
    }
}

/// A task's ID, or 0 (TSK_NONE).
pub(super) fn id_or_none(id: Option<TaskId>) -> u32
    ensures { result ≡ id_or_none id }
{
    match id {
        Some(id) => id as u32,
        None => 0,
    }
}

/// A task's state (TTS_..), of one that runs or doesn't.
fn state_word(runs: bool, status: Status) -> u32
    ensures { result ≡ state_word runs status }
{
    if runs { 1 } else { status_word(status) }
}

/// The state of a task that doesn't run.
fn status_word(status: Status) -> u32
    ensures { result ≡ status_word status }
{
    match status {
        Status::Dormant => 16,
        Status::Ready => 2,
        Status::Waiting(_) => 4,
        Status::Suspended => 8,
        Status::WaitingSuspended(_) => 12,
    }
}

/// What a task waits for (TTW_..), or 0.
fn wait_word(why: Option<WaitReason>) -> u32
    ensures { result ≡ wait_word why }
{
    match why {
        None => 0,
        Some(WaitReason::Sleep) => 1,
        Some(WaitReason::Delay) => 2,
        Some(WaitReason::On(kind, _)) => kind_word(kind),
    }
}

/// What a task waits for of an object.
fn kind_word(kind: WaitKind) -> u32
    ensures { result ≡ kind_word kind }
{
    match kind {
        WaitKind::Semaphore => 4,
        WaitKind::Flag => 8,
        WaitKind::Room => 16,
        WaitKind::Datum => 32,
        WaitKind::Mutex => 128,
        WaitKind::Block => 0x2000,
        WaitKind::Message => 64,
    }
}

/// The ID of the object that a task waits for, or 0.
fn object_word(why: Option<WaitReason>) -> u32
    ensures { result ≡ object_word why }
{
    match why {
        Some(WaitReason::On(_, object)) => object as u32,
        _ => 0,
    }
}

/// How many ticks are left of a wait that is over at a tick, if it is at one; of no wait 0.
pub(super) fn left_word(count: u64, due: Option<u64>, waits: bool) -> u32
    ensures { result ≡ left_word count due waits }
{
    if !waits {
        return 0;
    }
    ticks_left(count, due)
}

/// How many ticks are left, without the one that ends the wait.
fn ticks_left(count: u64, due: Option<u64>) -> u32
    ensures { result ≡ ticks_left count due }
{
    match due {
        Some(due) => (due.saturating_sub(count).saturating_sub(1) % WORDS) as u32,
        None => FOREVER,
    }
}

/// The words of T_RSEM.
fn semaphore_words(semaphore: &Semaphore) -> [u32; 2]
    ensures { result ≡ semaphore_words semaphore.now }
{
    [id_or_none(semaphore.first()), semaphore.count() as u32]
}

/// The words of T_RFLG.
fn flag_words(flag: &Flag) -> [u32; 2]
    ensures { result ≡ flag_words flag.now }
{
    [id_or_none(flag.first()), flag.pattern()]
}

/// The words of T_RDTQ.
fn queue_words(queue: &DataQueue) -> [u32; 3]
    ensures { result ≡ queue_words queue.now }
{
    [
        id_or_none(queue.first_sender()),
        id_or_none(queue.first_receiver()),
        queue.stored() as u32,
    ]
}
