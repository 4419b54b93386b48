//! What is true of every happening.

ghost use Rattle.std.specs.Prelude.{◌≡◌, ℕ, ◌≤◌, ◌<◌, ◌+◌, ◌||◌, Option, length, true, false};
ghost use Rattle.std.specs.List.{filter_map};
ghost use Rattle.std.specs.Option.{option_map};
ghost use Rattle.brd_isa.specs.declared.instruction.Insn.{Insn};
ghost use Rattle.brd_mem.specs.Memory.{Memory};
ghost use Rattle.brd_link.specs.LinkSet.{LinkSet, IsLinkSet};
ghost use Rattle.brd_exec.specs.State.{State};
ghost use Rattle.brd_exec.specs.Step.{meaning};
ghost use Rattle.brd_time.specs.Time.{last_count};
ghost use Rattle.brd_timers.specs.Timers.{timer_at, is_due_at, ticked as timer_ticked};
ghost use Rattle.brd_kernel.specs.Kernel.{KernelState, timer_line, line_at};
ghost use Rattle.brd_kernel.specs.Waits.{ticked};
ghost use Rattle.brd_kernel.specs.Running.{IsRunning};
ghost use Rattle.brd_board.specs.declared.event.Event.{Event as EventOf};
ghost use Rattle.brd_board.specs.Board.{BoardState, happens, linked_word_of};
ghost use Rattle.brd_happening.specs.declared.found.Found.{Found as FoundOf};
ghost use Rattle.brd_happening.specs.Happening.{happening_of, released_between, is_told};
ghost use Rattle.brd_happening.specs.Release.{waiters_of, release_in};
ghost use Rattle.brd_happening.specs.Telling.{TellsEffect, stores_by, KeepsMemory};
ghost use Rattle.brd_happening.specs.Instruction.{address_by};
ghost use Rattle.brd_happening.specs.Found.{is_link_to};

/// The tasks that an event releases are looked for among all that wait before it: that this is read of a board only
/// where the event is a tick, or finds a SYSCALL, leaves none out.
pub fn who_is_released_is_told()
    ensures { (board : BoardState) (event : EventOf) →
        (happening_of board event).released ≡ released_between board (happens board event) }
{}

/// No other event than a service call, a tick and, with the profile, an exception releases a task: on every board whose
/// running tasks are ready, as all are after a boot, these are all tasks that wait before an event and whose call is
/// answered after it.
pub fn no_other_event_releases()
    ensures { (board : BoardState) (event : EventOf) → IsRunning board.kernel →
        (happening_of board event).released
        ≡ filter_map (release_in (happens board event).board) (waiters_of board) }
{}

/// Of an instruction that is done the registers, HI and LO after it are those before it with what is told of them: no
/// other has changed.
pub fn what_is_written_is_told()
    ensures { (cpu : ℕ) (insn : Insn) (found : FoundOf) (memory : Memory) (links : LinkSet) (held : Option ℕ) →
        TellsEffect insn found held (meaning cpu insn found.context memory links) }
{}

/// Of each event something is told, on every board that keeps a last exception for each processor.
pub fn each_event_is_told()
    ensures { (board : BoardState) (event : EventOf) → length board.faults ≡ length board.kernel.processors →
        is_told (happening_of board event).what ≡ true }
{}

/// An instruction that isn't told to store, as an SC isn't whose processor's link is to another word or to none, leaves
/// memory as it was.
pub fn what_is_stored_is_told()
    ensures { (board : BoardState) (cpu : ℕ) (insn : Insn) (s : State) →
        1 ≤ cpu → cpu ≤ 8 → IsLinkSet board.links →
        stores_by insn (is_link_to (linked_word_of board cpu) (address_by insn s)) ≡ false →
        KeepsMemory board.memory (meaning cpu insn s board.memory board.links) }
{}

/// A tick that is counted makes the line of each time handler pending whose time has come then, and has each time
/// handler go on; every other line stays as it was. Without the profile it changes no line, and after the last tick
/// that is counted none changes anything.
pub fn a_tick_rings_who_is_due()
    ensures count { (k : KernelState) → k.time.count < last_count → (ticked k).time.count ≡ k.time.count + 1 }
    ensures line { (k : KernelState) (place : ℕ) → k.standard ≡ true → k.time.count < last_count → place < 128 →
        timer_line place < length k.lines →
        line_at (ticked k) (timer_line place)
        ≡ record (line_at k (timer_line place)) {
          pending = (line_at k (timer_line place)).pending || is_due_at (k.time.count + 1) k.timers place;
        } }
    ensures timer { (k : KernelState) (place : ℕ) → k.standard ≡ true → k.time.count < last_count → place < 128 →
        timer_at (ticked k).timers place ≡ option_map (timer_ticked (k.time.count + 1)) (timer_at k.timers place) }
    ensures device { (k : KernelState) (line : ℕ) → line < 32 → line_at (ticked k) line ≡ line_at k line }
    ensures plain { (k : KernelState) → k.standard ≡ false →
        ((ticked k).lines ≡ k.lines) × ((ticked k).timers ≡ k.timers) }
    ensures last { (k : KernelState) → last_count ≤ k.time.count → ticked k ≡ k }
{}
