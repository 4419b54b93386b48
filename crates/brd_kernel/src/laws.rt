//! What is true of the service table, of dispatch and of waits.

ghost use Rattle.std.specs.Prelude.{◌≡◌, ℕ, Bool, false, true, List, None, Some};
ghost use Rattle.brd_tasks.specs.Tasks.{top_of};
ghost use Rattle.brd_tasks.specs.declared.task.TaskSetup.{TaskSetup as SetupOf};
ghost use Rattle.brd_config.specs.declared.objects.SemaphoreConfig.{SemaphoreConfig};
ghost use Rattle.brd_config.specs.declared.objects.FlagConfig.{FlagConfig};
ghost use Rattle.brd_config.specs.declared.objects.QueueConfig.{QueueConfig};
ghost use Rattle.brd_config.specs.declared.objects.SpinLockConfig.{SpinLockConfig};
ghost use Rattle.brd_config.specs.declared.objects.MutexConfig.{MutexConfig};
ghost use Rattle.brd_config.specs.declared.objects.MailboxConfig.{MailboxConfig};
ghost use Rattle.brd_objects.specs.declared.block.PoolSetup.{PoolSetup};
ghost use Rattle.brd_kernel.specs.declared.processor.LineSetup.{LineSetup as LineOf};
ghost use Rattle.brd_kernel.specs.declared.processor.Processor.{Processor as ProcessorOf};
ghost use Rattle.brd_kernel.specs.Kernel.{KernelState, processor_at, is_held};
ghost use Rattle.brd_kernel.specs.Dispatch.{dispatched, IsSettled};
ghost use Rattle.brd_kernel.specs.declared.call.Call.{Call as CallOf};
ghost use Rattle.brd_kernel.specs.Row.{Row, AnswersFirst};
ghost use Rattle.brd_kernel.specs.Waits.{ticked, ended_by_fault};
ghost use Rattle.brd_kernel.specs.Services.{serve_of};
ghost use Rattle.brd_kernel.specs.Making.{made_kernel};
ghost use Rattle.brd_kernel.specs.Waiting.{WaitsAreKept};
ghost use Rattle.brd_kernel.specs.Holding.{AreLocks};
ghost use Rattle.brd_kernel.specs.Prioritized.{IsPrioritized};
ghost use Rattle.brd_kernel.specs.Waits.{ceilings_below, inheritors_below, priorities_of};
ghost use Rattle.brd_mutexes.specs.Lifting.{AreLifted};

/// Of the reasons to refuse a call, the first in the order is answered; a call that has none does what its row says.
pub fn checks_in_order<X>()
    ensures { (row : Row X) → AnswersFirst row }
{}

/// After a dispatch each processor that isn't held runs the first of its ready tasks, or none, and is else as it was;
/// one that is held is as it was; where there is no processor there is none after it.
pub fn dispatch_gives_each_its_first()
    ensures settled { (k : KernelState) → IsSettled (dispatched k) }
    ensures free { (k : KernelState) (cpu : ℕ) (p : ProcessorOf) → processor_at k cpu ≡ Some p → is_held p ≡ false →
        processor_at (dispatched k) cpu ≡ Some (record p { running = top_of k.tasks cpu }) }
    ensures held { (k : KernelState) (cpu : ℕ) (p : ProcessorOf) → processor_at k cpu ≡ Some p → is_held p ≡ true →
        processor_at (dispatched k) cpu ≡ Some p }
    ensures none { (k : KernelState) (cpu : ℕ) → processor_at k cpu ≡ None → processor_at (dispatched k) cpu ≡ None }
{}

/// This holds of a kernel as it is made, and every service call, tick and exception keeps it: each task that waits for
/// a semaphore, for bits of an event flag, for a mutex, for a block of a memory pool, for a message of a mailbox, or to
/// send to or receive from a data queue stands once, with its priority, in the waiting list for just that, and in no
/// other waiting list of an object; where that list is in the order of priority, no task stands in front of one with a
/// higher priority; no task waits for something that it could have at once; only a task that waits has a due tick, and
/// a delay has one.
pub fn who_waits_stands_in_its_list()
    ensures made { (standard : Bool) (processors : ℕ) (setups : List SetupOf) (lines : List LineOf)
        (semaphores : List SemaphoreConfig) (flags : List FlagConfig) (queues : List QueueConfig)
        (spin_locks : List SpinLockConfig) (mutexes : List MutexConfig) (pools : List PoolSetup)
        (mailboxes : List MailboxConfig) →
        WaitsAreKept (made_kernel standard processors setups lines semaphores flags queues spin_locks mutexes pools
        mailboxes) }
    ensures call { (k : KernelState) (cpu : ℕ) (asked : CallOf) → WaitsAreKept k →
        WaitsAreKept (serve_of k cpu asked).kernel }
    ensures tick { (k : KernelState) → WaitsAreKept k → WaitsAreKept (ticked k) }
    ensures fault { (k : KernelState) (cpu : ℕ) → WaitsAreKept k → WaitsAreKept (ended_by_fault k cpu) }
{}

/// Whether a kernel has the profile stays as it is, through every service call, tick and exception.
pub fn the_profile_stays()
    ensures call { (k : KernelState) (cpu : ℕ) (asked : CallOf) → (serve_of k cpu asked).kernel.standard ≡ k.standard }
    ensures tick { (k : KernelState) → (ticked k).standard ≡ k.standard }
    ensures fault { (k : KernelState) (cpu : ℕ) → (ended_by_fault k cpu).standard ≡ k.standard }
{}

/// This holds of a kernel as it is made, and every tick, exception and dispatch keeps it (as does every service call
/// that the gate lets through, `laws` of brd_board): each spin lock is free, and then no processor holds it, or exactly
/// one processor holds it; and a processor that holds one is CPU-locked, and its task or its handler executes, without
/// the profile its task.
pub fn a_spin_lock_has_one_holder()
    ensures made { (standard : Bool) (processors : ℕ) (setups : List SetupOf) (lines : List LineOf)
        (semaphores : List SemaphoreConfig) (flags : List FlagConfig) (queues : List QueueConfig)
        (spin_locks : List SpinLockConfig) (mutexes : List MutexConfig) (pools : List PoolSetup)
        (mailboxes : List MailboxConfig) →
        AreLocks (made_kernel standard processors setups lines semaphores flags queues spin_locks mutexes pools
        mailboxes) }
    ensures tick { (k : KernelState) → AreLocks k → AreLocks (ticked k) }
    ensures fault { (k : KernelState) (cpu : ℕ) → AreLocks k → AreLocks (ended_by_fault k cpu) }
    ensures dispatch { (k : KernelState) → AreLocks k → AreLocks (dispatched k) }
{}

/// In a kernel with the profile each task has the current priority that it is to have, and every service call, tick and
/// exception keeps that. It is the highest of its own, which is its base priority, or the ceiling of a mutex with
/// TA_CEILING that it has, and of the current priorities of the tasks that wait for the mutexes with TA_INHERIT that it
/// has, through chains of owners that wait themselves.
pub fn tasks_have_their_priorities()
    ensures rule { (k : KernelState) → AreLifted (ceilings_below k 256) (inheritors_below k 256) (priorities_of k) }
    ensures call { (k : KernelState) (cpu : ℕ) (asked : CallOf) → IsPrioritized k →
        IsPrioritized (serve_of k cpu asked).kernel }
    ensures tick { (k : KernelState) → IsPrioritized k → IsPrioritized (ticked k) }
    ensures fault { (k : KernelState) (cpu : ℕ) → IsPrioritized (ended_by_fault k cpu) }
{}
