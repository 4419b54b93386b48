//! What is true of every board, whatever happened to it.

ghost use Rattle.std.specs.Prelude.{◌≡◌, ◌<◌, ◌≤◌, ℕ, true, false, List, replicate, None, Some, Ok, Err};
ghost use Rattle.brd_link.specs.LinkSet.{linked_address};
ghost use Rattle.brd_mem.specs.declared.image.Image.{Image as ImageOf};
ghost use Rattle.brd_mem.specs.Memory.{size_of};
ghost use Rattle.brd_mem.specs.Window.{window_start, window_at};
ghost use Rattle.brd_exec.specs.State.{State, read};
ghost use Rattle.brd_exec.specs.Went.{Machine, went};
ghost use Rattle.brd_exec.specs.Lent.{lent};
ghost use Rattle.brd_config.specs.Configuration.{Configuration, IsConfiguration};
ghost use Rattle.brd_queue.specs.Queue.{has, AreApart};
ghost use Rattle.brd_tasks.specs.Tasks.{task_at, ready_on};
ghost use Rattle.brd_kernel.specs.declared.processor.Executor.{Executor as ExecutorOf};
ghost use Rattle.brd_kernel.specs.declared.call.Ercd.TheVariants.{Rsfn};
ghost use Rattle.brd_kernel.specs.Kernel.{running_on, context_of, with_context_of};
ghost use Rattle.brd_kernel.specs.Dispatch.{IsSettled, has_changed};
ghost use Rattle.brd_kernel.specs.Waiting.{EachIsKept, WaitsAreKept};
ghost use Rattle.brd_kernel.specs.Prioritized.{IsPrioritized};
ghost use Rattle.brd_kernel.specs.Running.{is_ready_on, IsRunning, RunsOnce};
ghost use Rattle.brd_kernel.specs.Holding.{AreLocks};
ghost use Rattle.brd_sysgate.specs.Gate.{caller_of, read_of};
ghost use Rattle.brd_board.specs.declared.event.Event.{Event as EventOf};
ghost use Rattle.brd_board.specs.declared.event.Event.TheVariants.{Step};
ghost use Rattle.brd_board.specs.declared.event.Report.TheVariants as report;
ghost use Rattle.brd_board.specs.Board.{BoardState, reported, happens, after};
ghost use Rattle.brd_board.specs.Boot.{boot};
ghost use Rattle.brd_board.specs.Runs.{ChangesOnlyItsOwn};
ghost use Rattle.brd_board.specs.Batch.{GoesOn, machine_of, with_machine};
ghost use Rattle.brd_board.specs.Conditional.{ConditionalLaw, WordLaw};
ghost use Rattle.brd_board.specs.Storing.{may_store};
ghost use Rattle.brd_board.specs.SpinLocks.{LocksGoOn};

/// After every list of events from a boot each processor that isn't held runs the first of its ready tasks, or none
/// where none is ready. No event ends this.
pub fn each_processor_runs_its_first()
    ensures boot { (image : ImageOf) (config : Configuration) (board : BoardState) (events : List EventOf) →
        boot image config ≡ Ok board → IsSettled (after board events).kernel }
    ensures event { (board : BoardState) (event : EventOf) → IsSettled board.kernel →
        IsSettled (happens board event).board.kernel }
{}

/// A processor on which another task runs after an event than before it, or none, or one where none ran, has no link
/// after it.
pub fn a_change_of_task_ends_the_link()
    ensures { (board : BoardState) (event : EventOf) (cpu : ℕ) → 1 ≤ cpu → cpu ≤ 8 →
        has_changed board.kernel (happens board event).board.kernel cpu ≡ true →
        linked_address (happens board event).board.links cpu ≡ None }
{}

/// After every list of events from a boot each task that waits for a semaphore, for bits of an event flag, for a mutex,
/// for a block of a memory pool, for a message of a mailbox, or to send to or receive from a data queue stands once,
/// with its priority, in the waiting list for just that, and in no other waiting list of an object; if that list is in
/// the order of priority, no task stands in front of one with a higher priority; no task waits for something that it
/// could have at once; only a task that waits has a due tick, and a delay has one. No event ends this.
pub fn who_waits_stands_in_its_list()
    ensures boot { (image : ImageOf) (config : Configuration) (board : BoardState) (events : List EventOf) →
        boot image config ≡ Ok board → WaitsAreKept (after board events).kernel }
    ensures event { (board : BoardState) (event : EventOf) → WaitsAreKept board.kernel →
        WaitsAreKept (happens board event).board.kernel }
{}

/// After every list of events from a boot no task waits for something that it could have at once: none for a wake-up
/// that is queued; none for a semaphore whose count isn't 0; none for a mutex that nobody has; none for bits of an
/// event flag while the pattern satisfies the wait (TWF_ANDW: all of them are set; TWF_ORW: any of them), nor for an
/// empty set of bits; none to send to a data queue that has room; none to receive from one that stores a datum, or to
/// which another task waits to send one; none for a memory pool of which a block is there; none for a mailbox in which
/// a message is. And if waiters stand in the order of priority, none stands in front of one with a higher priority.
///
/// This is the part `each` of `WaitsAreKept`, and speaks of the waiting lists; that each task that waits for an object
/// stands in its list is said by `who_waits_stands_in_its_list`.
pub fn nobody_waits_for_what_is_there()
    ensures { (image : ImageOf) (config : Configuration) (board : BoardState) (events : List EventOf) →
        boot image config ≡ Ok board → EachIsKept (after board events).kernel }
{}

/// When an SC stores, and what its word was. This is for who writes locks.
///
/// A processor has a reservation of a word from an LL of it on, until there is one of these: another LL of that
/// processor, of whatever address, that raises no exception; an SC of it, also one that raises an exception; a store of
/// another processor into the aligned block of 16 bytes that holds the word, by SB, SH, SW, SWL, SWR or an SC that
/// stores; a SYSCALL that is served on that processor, an interrupt that it accepts, or another running task there.
/// Nothing else ends it: no load, no LL of another processor, and no store of the processor itself other than an SC.
pub fn conditional_stores()
    // An SC that raises no exception stores rt, and writes 1 to rt, exactly where its processor has a reservation of
    // the word. Else it stores nothing, and writes 0 to rt. Register 0 stays 0.
    ensures exact { (image : ImageOf) (config : Configuration) (board : BoardState) (events : List EventOf) →
        boot image config ≡ Ok board → ConditionalLaw board events }
    // Where a processor has a reservation, and has itself stored nothing into the block since the LL, the word is the
    // one that the LL loaded. So that is the word that an SC which stores meets.
    ensures word { (image : ImageOf) (config : Configuration) (board : BoardState) (events : List EventOf) →
        boot image config ≡ Ok board → WordLaw board events }
{}

/// After every list of events from a boot a spin lock is free, and then no processor holds it, or exactly one processor
/// holds it. A processor that holds one is CPU-locked, and its task or its handler executes; without the profile it
/// handles no interrupt, so that is its task. No event ends this.
///
/// A lock becomes free only by a step of the processor that holds it, and a processor takes one only by a step of its
/// own. While it holds one, who executes on it stays: the task or the handler that took the lock.
pub fn a_spin_lock_has_one_holder()
    ensures boot { (image : ImageOf) (config : Configuration) (board : BoardState) (events : List EventOf) →
        boot image config ≡ Ok board → AreLocks (after board events).kernel }
    ensures event { (board : BoardState) (event : EventOf) →
        AreLocks board.kernel → AreLocks (happens board event).board.kernel }
    ensures goes_on { (image : ImageOf) (config : Configuration) (board : BoardState) (events : List EventOf)
        (event : EventOf) → boot image config ≡ Ok board →
        LocksGoOn (after board events) event (happens (after board events) event).board }
{}

/// After every list of events from a boot the kernel has the profile just where its configuration asks for it. Where it
/// doesn't, a SYSCALL with a number above 62 is E_RSFN, whoever makes it.
pub fn the_profile_alone_has_more_calls()
    ensures stays { (image : ImageOf) (config : Configuration) (board : BoardState) (events : List EventOf) →
        boot image config ≡ Ok board → (after board events).kernel.standard ≡ config.standard }
    ensures refused { (image : ImageOf) (config : Configuration) (board : BoardState) (events : List EventOf)
        (s : State) (cpu : ℕ) →
        boot image config ≡ Ok board → config.standard ≡ false → 62 < read s 2 →
        read_of s (caller_of (after board events).kernel cpu) ≡ Err Rsfn }
{}

/// After every list of events from a boot, with the profile, each task has the current priority that it is to have: the
/// highest of its own, which is its base priority, or the ceiling of a mutex with TA_CEILING that it has, and of the
/// current priorities of the tasks that wait for the mutexes with TA_INHERIT that it has (`laws` of brd_kernel says by
/// which rule). No event ends this.
pub fn tasks_have_their_priorities()
    ensures boot { (image : ImageOf) (config : Configuration) (board : BoardState) (events : List EventOf) →
        boot image config ≡ Ok board → IsPrioritized (after board events).kernel }
    ensures event { (board : BoardState) (event : EventOf) →
        IsPrioritized board.kernel → IsPrioritized (happens board event).board.kernel }
{}

/// A board that is off stays as it is: whatever happens, it reports Off and nothing else, and after every list of
/// events it is the same board.
pub fn an_off_board_stays()
    ensures event { (board : BoardState) (event : EventOf) →
        board.kernel.off ≡ true → happens board event ≡ reported board report.Off }
    ensures after { (board : BoardState) (events : List EventOf) →
        board.kernel.off ≡ true → after board events ≡ board }
{}

/// After every list of events from a boot the task that runs on a processor is ready, and assigned to it, also where
/// the processor is held: while it handles an interrupt, is CPU-locked, has dispatching disabled or is stopped. No
/// event ends this.
pub fn who_runs_is_ready()
    ensures boot { (image : ImageOf) (config : Configuration) (board : BoardState) (events : List EventOf) →
        IsConfiguration config → boot image config ≡ Ok board → IsRunning (after board events).kernel }
    ensures event { (board : BoardState) (event : EventOf) →
        IsRunning board.kernel → IsRunning (happens board event).board.kernel }
    // So the running task of a processor stands in its ready list, and in no other, and runs on no other processor.
    ensures once { (board : BoardState) (cpu id : ℕ) →
        IsRunning board.kernel → running_on board.kernel cpu ≡ Some id → RunsOnce board.kernel cpu id }
{}

/// Where an event reports Ran, an ordinary instruction was executed, and beside memory and links it has changed only
/// the context in which it was executed: the running task's, or where a handler executed the handler's. No other task
/// differs in anything, nor does a register of another processor; who runs, the marks of processors, ready lists,
/// objects, interrupt lines, faults, console and count of ticks are as they were.
pub fn an_instruction_changes_only_its_own()
    ensures boot { (image : ImageOf) (config : Configuration) (board : BoardState) (events : List EventOf)
        (event : EventOf) (address : ℕ) →
        IsConfiguration config → boot image config ≡ Ok board →
        (happens (after board events) event).report ≡ report.Ran address →
        ChangesOnlyItsOwn (after board events) event address (happens (after board events) event).board }
    ensures event { (board : BoardState) (event : EventOf) (address : ℕ) →
        IsRunning board.kernel → (happens board event).report ≡ report.Ran address →
        ChangesOnlyItsOwn board event address (happens board event).board }
{}

/// After every list of events from a boot each task stands in the ready list of a processor exactly where it is ready
/// and assigned to it, and stands there once.
pub fn who_is_ready_stands_in_its_list()
    ensures listed { (image : ImageOf) (config : Configuration) (board : BoardState) (events : List EventOf)
        (id cpu : ℕ) →
        IsConfiguration config → boot image config ≡ Ok board →
        has id (ready_on (after board events).kernel.tasks cpu)
        ≡ is_ready_on (task_at (after board events).kernel.tasks id) cpu }
    ensures once { (image : ImageOf) (config : Configuration) (board : BoardState) (events : List EventOf) (cpu : ℕ) →
        IsConfiguration config → boot image config ≡ Ok board →
        AreApart (ready_on (after board events).kernel.tasks cpu) }
{}

/// No event changes the size of RAM.
pub fn ram_keeps_its_size()
    ensures { (board : BoardState) (events : List EventOf) →
        size_of (after board events).memory ≡ size_of board.memory }
{}

/// No event changes a board's byte order.
pub fn the_byte_order_stays()
    ensures { (board : BoardState) (events : List EventOf) → (after board events).memory.order ≡ board.memory.order }
{}

/// On a board that is on, where somebody executes on a processor and no interrupt is deliverable to it: n steps of that
/// processor that go on, so long as no SYSCALL and no exception comes, change the context in which they are executed,
/// memory and links, as the definition of one instruction says of each, and nothing else of the board.
pub fn steps_of_a_batch()
    ensures { (board : BoardState) (cpu count : ℕ) (who : ExecutorOf) (left : Machine) →
        GoesOn board cpu who → went cpu count (machine_of board cpu who) ≡ Some left →
        after board (replicate count (Step cpu)) ≡ with_machine board cpu who left }
{}

/// On such a board n steps of the processor that can be done by a window of the board's memory, as they are local,
/// change the context in which they are executed, and nothing else of the board.
pub fn lent_steps_change_the_context_alone()
    ensures { (board : BoardState) (cpu count address : ℕ) (who : ExecutorOf) (left : State) (window : List ℕ) →
        GoesOn board cpu who → window_at board.memory address ≡ Some window →
        lent count (context_of board.kernel cpu who) window (window_start address) ≡ Some left →
        after board (replicate count (Step cpu)) ≡ record board { kernel = with_context_of board.kernel cpu who left } }
{}

/// No event changes memory but a step whose instruction is a store.
pub fn only_stores_change_memory()
    ensures { (board : BoardState) (event : EventOf) → may_store board event ≡ false →
        (happens board event).board.memory ≡ board.memory }
{}
