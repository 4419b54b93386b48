//! The kernel.

ghost use Rattle.std.specs.Prelude.{◌≡◌, Decides, ◌<◌, ◌≤◌, ◌+◌, ◌==◌, ◌&&◌, ℕ, if◌then◌else◌, All, IfOk, IfSome};
ghost use Rattle.std.specs.Prelude.{is_some, nat_lt, option_copied, option_map, true};
ghost use Rattle.brd_tasks.specs.Ready.{IsProcessor, IsSetup};
ghost use Rattle.brd_tasks.specs.Tasks.{activated, are_there};
ghost use Rattle.brd_tasks.specs.declared.task.Request.TheVariants.{Assigned};
ghost use Rattle.brd_kernel.specs.Making.{made_kernel};
ghost use Rattle.brd_kernel.specs.Kernel.{
  with_tasks,
  with_processor,
  processor_at,
  running_on,
  executor_on,
  context_of,
  context_on,
  with_context_of,
  marks_of,
  has_spin_lock,
  owner_of,
  spin_of,
  standing_on,
};
ghost use Rattle.brd_time.specs.Time.{last_count};
ghost use Rattle.brd_kernel.specs.Waits.{faulted_in, ended_by_fault, ticked, seen_at};
ghost use Rattle.brd_kernel.specs.Services.{unmarked_on};
ghost use Rattle.brd_kernel.specs.Always.{IsIdOrNone, is_task_or_none, HasContext, HasPlace};
ghost use Rattle.brd_kernel.specs.Dispatch.{dispatched, dispatched_on, is_same_task, has_changed};
ghost use Rattle.std.specs.Int.{bit_at};
ghost use Rattle.std.specs.Borrow.{sem};
ghost use Rattle.brd_kernel.specs.Lending.{LendsContext};

mod interrupts;
mod mailboxes;
mod mutexes;
mod objects;
mod pools;
mod processors;
mod profile;
mod saved;
mod serve;
mod spin_locks;
mod time_handlers;
mod waits;

use crate::common::Common;
use crate::making::{idle_processors, lines_of, no_contexts, spin_locks_of, timers_of};
use crate::processor::{Executor, LineSetup, Marks, Processor, Spin, Standing, holder};
use brd_base::{NoMemory, same_slices};
use brd_config::{
    FlagConfig, MailboxConfig, MutexConfig, QueueConfig, SemaphoreConfig, SpinLockConfig,
};
use brd_exec::Context;
use brd_objects::{Flags, Mailboxes, Mutexes, PoolSetup, Pools, Queues, Semaphores};
use brd_tasks::{Request, TaskId, TaskSetup, TaskView, Tasks};
use brd_time::Timeouts;
pub use saved::SavedKernel;
use std::alloc::Global;
use std::marker::Model;

/// How many bytes the console holds.
const CONSOLE_SIZE: usize = 65_536;

/// Tasks, the objects that they wait for, the time, processors, interrupt lines and the console. Only `new` takes
/// memory.
pub struct Kernel {
    common: Common,
    semaphores: Semaphores,
    flags: Flags,
    queues: Queues,
    mutexes: Mutexes,
    pools: Pools,
    mailboxes: Mailboxes,
}

impl Model for Kernel {
    ghost use Rattle.std.specs.Prelude.{◌≤◌, vec_capacity};
    ghost use Rattle.brd_kernel.specs.Kernel.{KernelState};
    ghost use Rattle.brd_kernel.specs.Services.{console_size};
    ghost use Rattle.brd_kernel.specs.Common.{kernel_of, IsCommon};

    ghost Value = { KernelState };

    ghost view = { λ k. kernel_of k.common k.semaphores k.flags k.queues k.mutexes k.pools k.mailboxes };

    ghost invariant = { λ k.
        IsCommon k.common (kernel_of k.common k.semaphores k.flags k.queues k.mutexes k.pools k.mailboxes)
        × (console_size ≤ vec_capacity k.common.console) };
}

/// Written out, so that a function that lets a kernel go is proved with a call, and not with the end of each part.
impl Drop for Kernel {
    fn drop(self) {
        let Kernel {
            common: _,
            semaphores: _,
            flags: _,
            queues: _,
            mutexes: _,
            pools: _,
            mailboxes: _,
        } = self;
    }
}

impl Kernel {
    /// A board's kernel with this many processors, these tasks, none of them started, these interrupt handlers and
    /// these objects, with the profile or without. A line that isn't named has no handler, and nothing is pending.
    /// Lines above 31 are there with the profile alone.
    pub fn new(
        alloc: Global,
        standard: bool,
        processors: u8,
        tasks: &[TaskSetup],
        lines: &[LineSetup],
        semaphores: &[SemaphoreConfig],
        flags: &[FlagConfig],
        queues: &[QueueConfig],
        spin_locks: &[SpinLockConfig],
        mutexes: &[MutexConfig],
        pools: &[PoolSetup],
        mailboxes: &[MailboxConfig],
    ) -> Result<Kernel, NoMemory>
        requires few { processors ≤ 8 }
        requires setups { All IsSetup tasks.now }
        ensures { IfOk result
            (λ kernel. kernel
            ≡ made_kernel standard processors tasks.now lines.now semaphores.now flags.now queues.now spin_locks.now
            mutexes.now pools.now mailboxes.now) }
    {
        Ok(Kernel {
            common: Common {
                off: false,
                standard,
                clock: 0,
                time: Timeouts::new(alloc)?,
                timers: timers_of(alloc, standard, lines)?,
                tasks: Tasks::new(alloc, tasks)?,
                spin_locks: spin_locks_of(alloc, spin_locks)?,
                processors: idle_processors(processors),
                executing: [None; 9],
                handler_contexts: no_contexts(alloc)?,
                lines: lines_of(alloc, standard, lines)?,
                console: Vec::with_capacity(alloc, CONSOLE_SIZE)?,
                pending: false,
            },
            semaphores: Semaphores::new(alloc, semaphores)?,
            flags: Flags::new(alloc, flags)?,
            queues: Queues::new(alloc, queues)?,
            mutexes: Mutexes::new(alloc, mutexes)?,
            pools: Pools::new(alloc, pools)?,
            mailboxes: Mailboxes::new(alloc, mailboxes)?,
        })
    }

    /// An equal kernel.
    pub fn try_copy(&self) -> Result<Kernel, NoMemory>
        ensures { IfOk result (λ copy. copy ≡ self.now) }
    {
        Ok(Kernel {
            common: self.common.copy(CONSOLE_SIZE)?,
            semaphores: self.semaphores.try_copy()?,
            flags: self.flags.try_copy()?,
            queues: self.queues.try_copy()?,
            mutexes: self.mutexes.try_copy()?,
            pools: self.pools.try_copy()?,
            mailboxes: self.mailboxes.try_copy()?,
        })
    }

    /// Whether both are equal, also in what was fixed when they were made.
    pub fn same(&self, other: &Kernel) -> bool
        ensures { Decides result (self.now ≡ other.now) }
    {
        self.is_off() == other.is_off()
            && self.has_same_profile(other)
            && self.has_same_tables(other)
            && self.has_same_processors(other)
    }

    /// Whether both have the profile or neither, the same system time before the first tick, and the same time
    /// handlers.
    fn has_same_profile(&self, other: &Kernel) -> bool
        ensures { Decides result ((self.now.standard ≡ other.now.standard) × (self.now.clock ≡ other.now.clock)
            × (self.now.timers ≡ other.now.timers)) }
    {
        self.common.standard == other.common.standard
            && self.common.clock == other.common.clock
            && self.common.timers.same(&other.common.timers)
    }

    /// Whether both have the same time, tasks and objects.
    fn has_same_tables(&self, other: &Kernel) -> bool
        ensures { Decides result ((self.now.time ≡ other.now.time) × (self.now.tasks ≡ other.now.tasks)
            × (self.now.semaphores ≡ other.now.semaphores) × (self.now.flags ≡ other.now.flags)
            × (self.now.queues ≡ other.now.queues) × (self.now.spin_locks ≡ other.now.spin_locks)
            × (self.now.mutexes ≡ other.now.mutexes) × (self.now.pools ≡ other.now.pools)
            × (self.now.mailboxes ≡ other.now.mailboxes)) }
    {
        self.common.time.same(&other.common.time)
            && self.common.tasks.same(&other.common.tasks)
            && self.has_same_objects(other)
    }

    /// Whether both have the same objects.
    fn has_same_objects(&self, other: &Kernel) -> bool
        ensures { Decides result ((self.now.semaphores ≡ other.now.semaphores) × (self.now.flags ≡ other.now.flags)
            × (self.now.queues ≡ other.now.queues) × (self.now.spin_locks ≡ other.now.spin_locks)
            × (self.now.mutexes ≡ other.now.mutexes) × (self.now.pools ≡ other.now.pools)
            × (self.now.mailboxes ≡ other.now.mailboxes)) }
    {
        self.semaphores.same(&other.semaphores)
            && self.flags.same(&other.flags)
            && self.queues.same(&other.queues)
            && same_bools(
                self.common.spin_locks.as_slice(),
                other.common.spin_locks.as_slice(),
            )
            && self.mutexes.same(&other.mutexes)
            && self.pools.same(&other.pools)
            && self.mailboxes.same(&other.mailboxes)
    }

    /// Whether both have the same processors, lines and console.
    fn has_same_processors(&self, other: &Kernel) -> bool
        ensures { Decides result ((self.now.processors ≡ other.now.processors)
            × (self.now.handler_contexts ≡ other.now.handler_contexts) × (self.now.lines ≡ other.now.lines)
            × (self.now.console ≡ other.now.console)) }
    {
        same_slices(&self.common.processors, &other.common.processors)
            && same_slices(
                self.common.handler_contexts.as_slice(),
                other.common.handler_contexts.as_slice(),
            )
            && same_slices(self.common.lines.as_slice(), other.common.lines.as_slice())
            && self.console() == other.console()
    }

    /// Starts a task when the board is made; one that has been started before keeps the request.
    pub fn start(&mut self, id: TaskId)
        ensures { self.new ≡ with_tasks self.old (activated self.old.tasks id Assigned) }
    {
        self.common.tasks.activate(id, Request::Assigned);
    }

    /// The processor of a number, where there is one.
    pub fn processor(&self, cpu: u8) -> Option<Processor>
        ensures is { result ≡ processor_at self.now cpu }
        ensures small { IfSome result (λ p. IsIdOrNone p.running) }
        ensures known { IfSome result (λ p. is_task_or_none (are_there self.now.tasks) p.running ≡ true) }
        ensures within { IfSome result (λ _. IsProcessor cpu) }
    {
        // For the proof alone: what is always true of tasks.
        self.common.tasks.are_consistent();
        if (cpu as usize) < self.common.processors.len() {
            return self.common.processors[cpu as usize];
        }
        None
    }

    /// The running task of a processor.
    pub fn running(&self, cpu: u8) -> Option<TaskId>
        ensures is { result ≡ running_on self.now cpu }
        ensures small { IsIdOrNone result }
    {
        let processor = self.processor(cpu)?;
        processor.running
    }

    /// What a processor is doing, where there is one of that number.
    pub fn standing(&self, cpu: u8) -> Option<Standing>
        ensures { result ≡ standing_on self.now cpu }
    {
        let processor = self.processor(cpu)?;
        if processor.stopped {
            return Some(Standing::Stopped);
        }
        if let Some(line) = processor.handling {
            return Some(Standing::Handler(line));
        }
        match processor.running {
            Some(id) => Some(Standing::Task(id)),
            None => Some(Standing::Idle),
        }
    }

    /// The task of a number as it stands.
    pub fn task(&self, id: TaskId) -> Option<TaskView>
        ensures { result ≡ seen_at self.now id }
    {
        let view = self.common.tasks.view(id)?;
        Some(TaskView {
            due: self.common.time.due(id),
            ..view
        })
    }

    /// The spin lock of an ID, where there is one.
    pub fn spin(&self, id: u8) -> Option<Spin>
        ensures { result ≡ spin_of self.now id }
    {
        if !self.has_spin_lock(id) {
            return None;
        }
        match holder(&self.common.processors, id) {
            Some(cpu) => Some(Spin::Held(cpu)),
            None => Some(Spin::Free),
        }
    }

    /// The task that has the mutex of an ID, if one does.
    pub fn mutex_owner(&self, id: u16) -> Option<TaskId>
        ensures { result ≡ owner_of self.now id }
    {
        match self.mutexes.mutex(id) {
            Some(mutex) => mutex.owner(),
            None => None,
        }
    }

    /// Whether there is a spin lock of an ID.
    fn has_spin_lock(&self, id: u8) -> bool
        ensures { result ≡ has_spin_lock self.now id }
    {
        (id as usize) < self.common.spin_locks.len() && self.common.spin_locks[id as usize]
    }

    /// The bytes that were written to the console.
    pub fn console(&self) -> &[u8]
        ensures { result.now ≡ self.now.console }
    {
        self.common.console.as_slice()
    }

    /// How many ticks have passed.
    pub fn now(&self) -> u64
        ensures { result ≡ self.now.time.count }
    {
        self.common.time.now()
    }

    /// Whether the board is off.
    pub fn is_off(&self) -> bool
        ensures { result ≡ self.now.off }
    {
        self.common.off
    }

    /// Whether it has the profile, which `PROFILE(STANDARD);` asks for.
    pub fn is_standard(&self) -> bool
        ensures { result ≡ self.now.standard }
    {
        self.common.standard
    }

    /// Who executes on a processor, if somebody does.
    pub fn executor(&self, cpu: u8) -> Option<Executor>
        ensures is { result ≡ executor_on self.now cpu }
        ensures there { IfSome result (HasContext self.now cpu) }
        ensures place { IfSome result (HasPlace self.now cpu) }
        ensures within { IfSome result (λ _. IsProcessor cpu) }
    {
        // For the proof alone: what is always true of tasks.
        self.common.tasks.are_consistent();
        if (cpu as usize) < self.common.executing.len() {
            if let Some(id) = self.common.executing[cpu as usize] {
                return Some(Executor::Task(id));
            }
        }
        let processor = self.processor(cpu)?;
        processor.executor()
    }

    /// The context in which a processor executes, if it does.
    pub fn context(&self, cpu: u8) -> Option<&Context>
        ensures { option_copied result ≡ context_on self.now cpu }
    {
        match self.executor(cpu)? {
            Executor::Handler => Some(&self.common.handler_contexts[cpu as usize]),
            Executor::Task(id) => Some(self.common.tasks.context(id)),
        }
    }

    /// The context of who executes on a processor, of a task that is there, to be changed where it lies.
    pub fn context_mut(&mut self, cpu: u8, who: Executor) -> &mut Context
        requires { HasContext self.old cpu who }
        ensures* writes_back { sem 𝓛 (LendsContext self.entry cpu who result) }
        ensures value { result.now ≡ context_of self.old cpu who }
    {
        match who {
            Executor::Handler => &mut self.common.handler_contexts[cpu as usize],
            Executor::Task(id) => self.common.tasks.context_mut(id),
        }
    }

    /// Whether a processor is CPU-locked, whether dispatching is disabled on it, and which spin lock it holds; None
    /// where there is no such processor.
    pub fn marks(&self, cpu: u8) -> Option<Marks>
        ensures { result ≡ option_map marks_of (processor_at self.now cpu) }
    {
        let processor = self.processor(cpu)?;
        Some(Marks {
            locked: processor.locked,
            disabled: processor.disabled,
            spin: processor.spin,
        })
    }

    /// Gives who executes on a processor another context.
    pub fn put_context(&mut self, cpu: u8, context: Context)
        requires { is_some (executor_on self.old cpu) ≡ true }
        ensures is { IfSome (executor_on self.old cpu) (λ who. self.new ≡ with_context_of self.old cpu who context) }
        ensures place { IfSome (executor_on self.old cpu) (HasPlace self.old cpu) }
    {
        if let Some(who) = self.executor(cpu) {
            *self.context_mut(cpu, who) = context;
        }
    }

    /// Ends what a processor executes by an exception: a handler, which stops the processor for good, or the running
    /// task.
    pub fn end_by_fault(&mut self, cpu: u8)
        ensures { self.new ≡ ended_by_fault self.old cpu }
    {
        self.fault(cpu);
        self.prioritize();
    }

    /// The same, before priorities are what they are to be.
    #[tactic(auto, using(crate::proofs::SameLemmas::quits_processor))]
    fn fault(&mut self, cpu: u8)
        ensures { self.new ≡ faulted_in self.old cpu (processor_at self.old cpu) }
    {
        let Some(processor) = self.processor(cpu) else {
            return
        };
        if processor.handling.is_some() {
            self.put_processor(
                cpu,
                Processor {
                    stopped: true,
                    ..processor.letting_go()
                },
            );
            return;
        }
        let Some(id) = processor.running else { return };
        self.common.tasks.clear_activation(id);
        self.quit(id);
        self.unmark(cpu);
    }

    /// Writes a processor anew.
    fn put_processor(&mut self, cpu: u8, processor: Processor)
        requires there { IsProcessor cpu }
        requires known { is_task_or_none (are_there self.old.tasks) processor.running ≡ true }
        ensures { self.new ≡ with_processor self.old cpu processor }
    {
        self.common.processors[cpu as usize] = Some(processor);
        self.common.executing[cpu as usize] = processor.task();
    }

    /// Takes a processor's CPU lock, its mark that dispatching is disabled and its spin lock away.
    fn unmark(&mut self, cpu: u8)
        ensures { self.new ≡ unmarked_on self.old cpu (processor_at self.old cpu) }
    {
        let Some(processor) = self.processor(cpu) else {
            return
        };
        self.put_processor(cpu, processor.unmarked());
    }

    /// Chooses the running task of each processor that isn't held. Bit j of the answer: that of processor j + 1 has
    /// become another.
    pub fn dispatch(&mut self) -> u8
        ensures is { self.new ≡ dispatched self.old }
        ensures changed { (j : ℕ) → j < 8 →
            bit_at result j ≡ (if has_changed self.old (dispatched self.old) (j + 1) then 1 else 0) }
    {
        // For the proof alone: what is always true of tasks.
        self.common.tasks.are_consistent();
        let mut changed = 0u8;
        for cpu in 0..9u8 {
            let other = self.dispatch_on(cpu);
            changed = with_change(changed, cpu, other);
        }
        changed
    }

    /// Chooses the running task of a processor, unless it is held. Answers whether it has become another.
    fn dispatch_on(&mut self, cpu: u8) -> bool
        ensures is { self.new ≡ dispatched_on self.old cpu }
        ensures changed { result ≡ has_changed self.old (dispatched_on self.old cpu) cpu }
    {
        let Some(processor) = self.processor(cpu) else {
            return false
        };
        if processor.is_held() {
            return false;
        }
        let running = self.common.tasks.top(cpu);
        if is_same_task(processor.running, running) {
            return false;
        }
        self.put_processor(
            cpu,
            Processor {
                running,
                ..processor
            },
        );
        true
    }

    /// A tick passes: the waits end whose tick has come, and then the lines of time handlers are pending whose time has
    /// come. Answers whether it was counted; at the end of time it isn't, and nothing changes.
    pub fn tick(&mut self) -> bool
        ensures is { self.new ≡ ticked self.old }
        ensures counted { result ≡ nat_lt self.old.time.count last_count }
    {
        if !self.common.time.advance() {
            return false;
        }
        self.end_waits();
        self.prioritize();
        self.ring();
        true
    }
}

/// The answer of `dispatch` with a processor's bit, where its running task has become another; there is no processor 0.
fn with_change(changed: u8, cpu: u8, other: bool) -> u8
    requires { cpu < 9 }
    ensures { (j : ℕ) → j < 8 → bit_at result j ≡ (if j + 1 == cpu && other then 1 else bit_at changed j) }
{
    if cpu == 0 || !other {
        return changed;
    }
    changed | 1 << (cpu - 1)
}

/// Whether two processors' running tasks, or none, are the same.
fn is_same_task(one: Option<TaskId>, other: Option<TaskId>) -> bool
    ensures { result ≡ is_same_task one other }
{
    match (one, other) {
        (None, None) => true,
        (Some(one), Some(other)) => one == other,
        _ => false,
    }
}

/// Whether two slices of truth values are equal.
fn same_bools(a: &[bool], b: &[bool]) -> bool
    ensures { Decides result (a.now ≡ b.now) }
{
    if a.len() != b.len() {
        return false;
    }
    for i in 0..a.len() {
        if a[i] != b[i] {
            return false;
        }
    }
    true
}
