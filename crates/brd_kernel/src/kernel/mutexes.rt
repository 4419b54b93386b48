//! Mutexes: the service calls, each as its row of the table says, and the priorities that tasks have by them.

ghost use Rattle.std.specs.Prelude.{◌≡◌, ◌<◌, ◌&&◌};
ghost use Rattle.brd_tasks.specs.Tasks.{task_at};
ghost use Rattle.brd_objects.specs.Table.{object_at};
ghost use Rattle.brd_kernel.specs.Row.{Serves, served};
ghost use Rattle.brd_kernel.specs.Services as table;
ghost use Rattle.brd_kernel.specs.Services.{
  is_over,
  is_over_mutex,
  is_over_below,
  is_over_for,
  is_over_ceiling,
  may_not_have,
  mutex_words,
  prioritized_after,
};
ghost use Rattle.brd_kernel.specs.Waits.{
  given_in,
  has_mutex_in,
  given_by_in,
  given_below,
  all_given_in,
  quits_in,
  base_in,
  bases_below,
  ceiling_by,
  ceiling_in,
  ceilings_below,
  lifts_owner,
  inheritor_in,
  inheritor_for,
  inheritors_below,
  priorities_of,
  prioritized_by,
  prioritized_below,
  prioritized,
};

use super::Kernel;
use super::profile::id_or_none;
use super::serve::{OK, id_in_range};
use super::waits::is_bad_timeout;
use crate::call::{Ercd, Reply};
use brd_config::Protocol;
use brd_mutexes::lift;
use brd_objects::Mutex;
use brd_tasks::{TaskId, WaitKind, WaitReason};

impl Kernel {
    pub(super) fn tloc_mtx(&mut self, caller: TaskId, id: u32, timeout: u32) -> Result<Reply, Ercd>
        requires { caller < 256 }
        ensures { Serves self.old self.new result (served (table.tloc_mtx self.old caller id timeout)) }
    {
        let id = id_in_range(id)?;
        if is_bad_timeout(timeout) {
            return Err(Ercd::Par);
        }
        let Some(mutex) = self.mutexes.mutex(id) else {
            return Err(Ercd::Noexs);
        };
        if self.may_not_have(caller, mutex) {
            return Err(Ercd::Iluse);
        }
        if mutex.owner().is_none() {
            self.mutexes.take(id, caller);
            return Ok(OK);
        }
        if timeout == 0 {
            return Err(Ercd::Tmout);
        }
        if self.can_wait(caller) {
            let due = self.due_by(timeout);
            let priority = self.priority(caller);
            self.mutexes.wait(id, caller, priority);
            self.block(caller, WaitReason::On(WaitKind::Mutex, id), due);
        }
        Ok(Reply::Silent)
    }

    pub(super) fn unl_mtx(&mut self, caller: TaskId, id: u32) -> Result<Reply, Ercd>
        ensures { Serves self.old self.new result (served (table.unl_mtx self.old caller id)) }
    {
        let id = id_in_range(id)?;
        let Some(mutex) = self.mutexes.mutex(id) else {
            return Err(Ercd::Noexs);
        };
        if !mutex.is_owned_by(caller) {
            return Err(Ercd::Iluse);
        }
        self.give(id);
        Ok(OK)
    }

    pub(super) fn ref_mtx(&self, id: u32, word: u32) -> Result<Reply, Ercd>
        ensures { Serves self.now self.now result (served (table.ref_mtx self.now id word)) }
    {
        let id = id_in_range(id)?;
        if word > 1 {
            return Err(Ercd::Par);
        }
        let Some(mutex) = self.mutexes.mutex(id) else {
            return Err(Ercd::Noexs);
        };
        let words = mutex_words(mutex);
        Ok(Reply::Answer(0, Some(words[word as usize])))
    }

    /// Whether a task can't have a mutex: it has it already, or its base priority is higher than the ceiling.
    #[tactic(auto, unfolding(crate::specs::Services::may_not_have))]
    fn may_not_have(&self, id: TaskId, mutex: &Mutex) -> bool
        ensures { result ≡ may_not_have self.now id mutex.now }
    {
        mutex.is_owned_by(id) || is_over(mutex.protocol(), mutex.ceiling(), self.base(id))
    }

    /// Whether a task can't have a priority for the ceilings of the mutexes that it has, or of the one that it waits
    /// for.
    #[tactic(auto, unfolding(crate::specs::Services::is_over_ceiling))]
    pub(super) fn is_over_ceiling(&self, id: TaskId, priority: u8, why: Option<WaitReason>) -> bool
        ensures { result ≡ is_over_ceiling self.now id priority why }
    {
        if !self.common.standard {
            return false;
        }
        self.is_over_for(priority, why) || self.is_over_owned(id, priority)
    }

    /// Whether a priority is higher than the ceiling of the mutex that is waited for, if one is.
    fn is_over_for(&self, priority: u8, why: Option<WaitReason>) -> bool
        ensures { result ≡ is_over_for self.now priority why }
    {
        match why {
            Some(WaitReason::On(WaitKind::Mutex, id)) => self.is_over_mutex(priority, id),
            _ => false,
        }
    }

    /// Whether a priority is higher than the ceiling of one of the mutexes that a task has.
    #[tactic(auto, using(crate::proofs::BelowLemmas::over_none, crate::proofs::BelowLemmas::over_more))]
    fn is_over_owned(&self, id: TaskId, priority: u8) -> bool
        ensures { result ≡ is_over_below self.now id priority 256 }
    {
        let mut over = false;
        for at in 0..256u16 {
            let here = self.is_over_at(id, priority, at);
            over = over || here;
        }
        over
    }

    /// Whether a task has the mutex of an ID, and a priority is higher than its ceiling.
    fn is_over_at(&self, id: TaskId, priority: u8, at: u16) -> bool
        ensures { result ≡ (has_mutex_in id (object_at self.now.mutexes at)
            && is_over_mutex priority (object_at self.now.mutexes at)) }
    {
        self.has_mutex(id, at) && self.is_over_mutex(priority, at)
    }

    /// Whether a priority is higher than the ceiling of the mutex of an ID, if that has an effect.
    fn is_over_mutex(&self, priority: u8, id: u16) -> bool
        ensures { result ≡ is_over_mutex priority (object_at self.now.mutexes id) }
    {
        match self.mutexes.mutex(id) {
            Some(mutex) => is_over(mutex.protocol(), mutex.ceiling(), priority),
            None => false,
        }
    }

    /// Whether a task has the mutex of an ID.
    fn has_mutex(&self, id: TaskId, at: u16) -> bool
        ensures { result ≡ has_mutex_in id (object_at self.now.mutexes at) }
    {
        match self.mutexes.mutex(at) {
            Some(mutex) => mutex.is_owned_by(id),
            None => false,
        }
    }

    /// A mutex is given back: its first waiter has it then, and goes on, else nobody has it.
    fn give(&mut self, at: u16)
        ensures { self.new ≡ given_in self.old at }
    {
        let next = self.mutexes.give(at);
        self.release_one(next);
    }

    /// A task gives a mutex back where it has it.
    fn give_by(&mut self, id: TaskId, at: u16)
        ensures { self.new ≡ given_by_in self.old id at }
    {
        if self.has_mutex(id, at) {
            self.give(at);
        }
    }

    /// A task gives back each mutex that it has.
    #[tactic(auto, using(crate::proofs::BelowLemmas::given_none, crate::proofs::BelowLemmas::given_more))]
    fn give_each(&mut self, id: TaskId)
        ensures { self.new ≡ given_below self.old id 256 }
    {
        for at in 0..256u16 {
            self.give_by(id, at);
        }
    }

    /// A task gives back all mutexes that it has, of a kernel with the profile.
    fn give_all(&mut self, id: TaskId)
        ensures { self.new ≡ all_given_in self.old id }
    {
        if !self.common.standard {
            return;
        }
        self.give_each(id);
    }

    /// A task ends, and gives back all mutexes that it has before.
    pub(super) fn quit(&mut self, id: TaskId)
        requires { id < 256 }
        ensures { self.new ≡ quits_in self.old id }
    {
        self.give_all(id);
        self.end(id);
    }

    /// The base priority of a task, 0 where there is none.
    pub(super) fn base(&self, id: TaskId) -> u8
        ensures { result ≡ base_in (task_at self.now.tasks id) }
    {
        match self.common.tasks.task(id) {
            Some(task) => task.base,
            None => 0,
        }
    }

    /// The base priorities by ID.
    #[tactic(auto, using(crate::proofs::BelowLemmas::bases_none, crate::proofs::BelowLemmas::bases_more))]
    fn bases(&self) -> [u8; 256]
        ensures { result ≡ bases_below self.now.tasks 256 }
    {
        let mut bases = [0; 256];
        for id in 0..256u16 {
            bases[id as usize] = self.base(id);
        }
        bases
    }

    /// The base priorities by ID, but of the owner of a mutex with TA_CEILING its ceiling, where that is higher.
    #[tactic(auto, using(crate::proofs::BelowLemmas::ceilings_none, crate::proofs::BelowLemmas::ceilings_more))]
    fn own_priorities(&self) -> [u8; 256]
        ensures { result ≡ ceilings_below self.now 256 }
    {
        let mut priorities = self.bases();
        for at in 0..256u16 {
            self.raise_owner(&mut priorities, at);
        }
        priorities
    }

    /// Gives the owner of a mutex its ceiling.
    fn raise_owner(&self, priorities: &mut [u8], at: u16)
        ensures { priorities.new ≡ ceiling_in (object_at self.now.mutexes at) priorities.old }
    {
        let Some(mutex) = self.mutexes.mutex(at) else {
            return
        };
        let Some(id) = mutex.owner() else { return };
        raise_to(priorities, mutex.protocol(), mutex.ceiling(), id);
    }

    /// Who has the mutex with TA_INHERIT that is waited for, if one is.
    fn inheritor(&self, why: Option<WaitReason>) -> Option<TaskId>
        ensures { result ≡ inheritor_for self.now why }
    {
        match why {
            Some(WaitReason::On(WaitKind::Mutex, at)) => self.inheritor_of(at),
            _ => None,
        }
    }

    /// Who has a mutex, where it is one with TA_INHERIT.
    fn inheritor_of(&self, at: u16) -> Option<TaskId>
        ensures { result ≡ inheritor_in (object_at self.now.mutexes at) }
    {
        let mutex = self.mutexes.mutex(at)?;
        if !lifts_owner(mutex.protocol()) {
            return None;
        }
        mutex.owner()
    }

    /// By ID: who has the mutex with TA_INHERIT that a task waits for.
    #[tactic(auto, using(crate::proofs::BelowLemmas::inheritors_none, crate::proofs::BelowLemmas::inheritors_more))]
    fn inheritors(&self) -> [Option<TaskId>; 256]
        ensures { result ≡ inheritors_below self.now 256 }
    {
        let mut inheritors = [None; 256];
        for id in 0..256u16 {
            inheritors[id as usize] = self.inheritor(self.reason(id));
        }
        inheritors
    }

    /// The current priorities that tasks are to have.
    fn priorities(&self) -> [u8; 256]
        ensures { result ≡ priorities_of self.now }
    {
        let mut priorities = self.own_priorities();
        let inheritors = self.inheritors();
        lift(&mut priorities, &inheritors);
        priorities
    }

    /// Lifts a task to a priority, or lets it come down, where it has another one.
    fn give_priority(&mut self, id: TaskId, priority: u8)
        ensures { self.new ≡ prioritized_by self.old id priority (task_at self.old.tasks id) }
    {
        let Some(task) = self.common.tasks.task(id) else {
            return
        };
        if task.priority == priority {
            return;
        }
        self.common.tasks.lift(id, priority);
        self.reorder(id, priority, task.status.waiting());
    }

    /// Gives each task the priority that stands for it.
    #[tactic(auto, using(crate::proofs::BelowLemmas::prioritized_none, crate::proofs::BelowLemmas::prioritized_more))]
    fn give_priorities(&mut self, priorities: &[u8; 256])
        ensures { self.new ≡ prioritized_below self.old priorities.now 256 }
    {
        for id in 0..256u16 {
            self.give_priority(id, priorities[id as usize]);
        }
    }

    /// Gives each task the current priority that it is to have, of a kernel with the profile.
    pub(super) fn prioritize(&mut self)
        ensures { self.new ≡ prioritized self.old }
    {
        if !self.common.standard {
            return;
        }
        let priorities = self.priorities();
        self.give_priorities(&priorities);
    }

    /// The same after a call that was answered so.
    pub(super) fn prioritize_after(&mut self, reply: Reply)
        ensures { self.new ≡ prioritized_after self.old reply }
    {
        match reply {
            Reply::Again => {}
            _ => self.prioritize(),
        }
    }
}

/// Whether a priority is higher than the ceiling of a mutex, if that has an effect.
fn is_over(protocol: Protocol, ceiling: u8, priority: u8) -> bool
    ensures { result ≡ is_over protocol ceiling priority }
{
    match protocol {
        Protocol::Ceiling => priority < ceiling,
        _ => false,
    }
}

/// Gives a task the ceiling of a mutex, if that has an effect, where it is higher.
fn raise_to(priorities: &mut [u8], protocol: Protocol, ceiling: u8, id: TaskId)
    ensures { priorities.new ≡ ceiling_by protocol ceiling id priorities.old }
{
    if protocol != Protocol::Ceiling {
        return;
    }
    if (id as usize) >= priorities.len() || priorities[id as usize] <= ceiling {
        return;
    }
    priorities[id as usize] = ceiling;
}

/// Whether who waits for a mutex lifts its owner.
fn lifts_owner(protocol: Protocol) -> bool
    ensures { result ≡ lifts_owner protocol }
{
    match protocol {
        Protocol::Inherit => true,
        _ => false,
    }
}

/// The words of T_RMTX.
fn mutex_words(mutex: &Mutex) -> [u32; 2]
    ensures { result ≡ mutex_words mutex.now }
{
    [id_or_none(mutex.owner()), id_or_none(mutex.first())]
}
