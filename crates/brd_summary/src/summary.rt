//! What stands at the end.

ghost use Rattle.std.specs.Prelude.{◌≡◌, ◌++◌, ◌<◌, List as ListOf, IfOk, None, OnOk, Some, codes};
ghost use Rattle.std.specs.Prelude.{slice_index_or, take};
ghost use Rattle.std.specs.List.{range_with_len};
ghost use Rattle.brd_board.specs.declared.event.Event.{Event as EventOf};
ghost use Rattle.brd_board.specs.Board.{BoardState as BoardOf};
ghost use Rattle.brd_journal.specs.Playing.{IsPlayed};
ghost use Rattle.brd_listing.specs.Listing.{IsBehind};
ghost use Rattle.brd_timeline.specs.Ends.{EndsWith};
ghost use Rattle.brd_trace.specs.Dated.{IsDated};
ghost use Rattle.brd_trace.specs.Recorded.{IsNoted};
ghost use Rattle.brd_verdicts.specs.Accounts.{accounts_of_run};
ghost use Rattle.brd_verdicts.specs.Steps.{AreLastSteps};
ghost use Rattle.brd_summary.specs.Texts.{AreTexts};
ghost use Rattle.brd_summary.specs.Summary.{
  end_text,
  off_text,
  fault_behind,
  fault_front,
  fault_text,
  last_text,
  owner_text,
  owners_text,
  processor_text,
  since_text,
  step_text,
  task_text,
  IsDeadlock,
  IsEnd,
  IsKnownProcessor,
  IsSummary,
  IsTaskLine,
  IsWait,
};

use crate::findings::put_findings;
use brd_base::NoMemory;
use brd_board::{Board, Standing, TaskId, TaskState};
use brd_names::{Names, put, put_named, put_number, put_standing, put_wait, put_who, state_name};
use brd_seen::TaskSeen;
use brd_trace::{LastFault, Tracer};
use brd_verdicts::{Findings, is_deadlocked};
use std::alloc::Global;

/// Puts at the end what stands after the events that were played: what each processor does, its last step and its last
/// exception, what each task is, which tasks have mutexes, whether the board is deadlocked, which tasks wait for each
/// other, which calls were refused, and which raises had no effect. It is given what was found of this run. `put_end`
/// says what comes before it.
pub fn put_summary(
    tracer: &Tracer,
    alloc: Global,
    names: Names,
    found: &Findings,
    out: &mut Vec<u8>,
) -> Result<(), NoMemory>
    ensures { (boot : BoardOf) (events : ListOf EventOf) → IsPlayed boot events tracer.now.playback
        → IsNoted boot events tracer.now.playback.at tracer.now.notes
        → IsDated boot events tracer.now.playback.at tracer.now.notes
        → AreLastSteps boot events tracer.now.playback.at found.now.steps
        → found.now.accounts ≡ accounts_of_run boot (take tracer.now.playback.at events)
        → IfOk result (λ _. IsBehind
        (IsSummary names.entry boot events tracer.now.playback.at) out.old.items out.new.items) }
{
    put_processors(tracer, alloc, names, &found.steps, out)?;
    put_tasks(tracer, alloc, names, out)?;
    put_owners(alloc, &tracer.playback.board, out)?;
    put_deadlock(tracer, out)?;
    put_findings(alloc, names, &found.accounts, &tracer.playback.board, out)?;
    Ok(())
}

/// Puts a line at the end for each mutex that a task has.
fn put_owners(alloc: Global, board: &Board, out: &mut Vec<u8>) -> Result<(), NoMemory>
    ensures { OnOk result (out.new.items ≡ out.old.items ++ owners_text board.now) }
{
    for mutex in 1..256u16 {
        put_owner(alloc, mutex, board.mutex_owner(mutex), out)?;
    }
    Ok(())
}

/// Puts at the end which task has a mutex, if one has it.
fn put_owner(
    alloc: Global,
    mutex: u16,
    owner: Option<TaskId>,
    out: &mut Vec<u8>,
) -> Result<(), NoMemory>
    ensures { OnOk result (out.new.items ≡ out.old.items ++ owner_text mutex owner) }
{
    let Some(task) = owner else {
        return Ok(());
    };
    put_named(alloc, out, "mutex", u64::from(mutex))?;
    put_named(alloc, out, ": task", u64::from(task))?;
    put(out, " has it\n")
}

/// Puts a line at the end, where the board is deadlocked.
fn put_deadlock(tracer: &Tracer, out: &mut Vec<u8>) -> Result<(), NoMemory>
    ensures { IfOk result
        (λ _. IsBehind (IsDeadlock tracer.now.playback.board) out.old.items out.new.items) }
{
    if !is_deadlocked(&tracer.playback.board)? {
        return Ok(());
    }
    put(
        out,
        "deadlock: no task is ready, and no tick and no pending interrupt releases one that waits\n",
    )
}

/// Puts a line at the end: how many events there were, the tick, and where the board went off.
pub fn put_end(tracer: &Tracer, alloc: Global, out: &mut Vec<u8>) -> Result<(), NoMemory>
    ensures ends { IfOk result (λ _. EndsWith (codes "\n") out.new.items) }
    ensures end { (boot : BoardOf) (events : ListOf EventOf) → IsPlayed boot events tracer.now.playback
        → IsDated boot events tracer.now.playback.at tracer.now.notes
        → IfOk result (λ _. IsBehind (IsEnd boot events tracer.now.playback.at) out.old.items out.new.items) }
{
    put_end_line(tracer, alloc, out)?;
    Ok(())
}

/// Puts a line at the end: how many events there were, the tick, and where the board went off, as it is known.
fn put_end_line(tracer: &Tracer, alloc: Global, out: &mut Vec<u8>) -> Result<(), NoMemory>
    ensures line { OnOk result (out.new.items ≡ out.old.items
        ++ end_text tracer.now.playback.at tracer.now.playback.board.kernel.time.count tracer.now.notes.off) }
    ensures ends { IfOk result (λ _. EndsWith (codes "\n") out.new.items) }
{
    put_named(alloc, out, "after event", tracer.playback.at)?;
    put(out, ", ")?;
    put_named(alloc, out, "tick", tracer.playback.board.now())?;
    put_off(alloc, out, tracer.notes.off)?;
    put(out, "\n")
}

/// Puts the processors at the end: what each does, its last step, and its last exception.
fn put_processors(
    tracer: &Tracer,
    alloc: Global,
    names: Names,
    steps: &[Option<u64>; 9],
    out: &mut Vec<u8>,
) -> Result<(), NoMemory>
    ensures { IfOk result (λ _. IsBehind (AreTexts
        (IsKnownProcessor names.entry steps.now tracer.now.notes) (range_with_len 1 8)) out.old.items out.new.items) }
{
    for cpu in 1..9u8 {
        put_processor(tracer, alloc, names, steps, out, cpu)?;
    }
    Ok(())
}

/// Puts a processor at the end, where there is one of that number: what it does, its last step, and its last
/// exception.
fn put_processor(
    tracer: &Tracer,
    alloc: Global,
    names: Names,
    steps: &[Option<u64>; 9],
    out: &mut Vec<u8>,
    cpu: u8,
) -> Result<(), NoMemory>
    requires { cpu < 9 }
    ensures { IfOk result (λ _. IsBehind
        (IsKnownProcessor names.entry steps.now tracer.now.notes cpu) out.old.items out.new.items) }
{
    let Some(standing) = tracer.notes.standings.at(cpu) else {
        return Ok(());
    };
    put_lines(
        tracer,
        alloc,
        names,
        out,
        cpu,
        standing,
        steps[cpu as usize],
    )?;
    Ok(())
}

/// Puts the lines of a processor at the end: what it does, its last step, and its last exception.
fn put_lines(
    tracer: &Tracer,
    alloc: Global,
    names: Names,
    out: &mut Vec<u8>,
    cpu: u8,
    standing: Standing,
    step: Option<u64>,
) -> Result<(), NoMemory>
    ensures { OnOk result (out.new.items ≡ out.old.items ++ processor_text names.entry cpu (Some standing) step
        (slice_index_or tracer.now.notes.faults.items cpu None)) }
{
    put_standing(alloc, out, cpu, Some(standing))?;
    put_step(alloc, out, step)?;
    put(out, "\n")?;
    put_last(tracer, alloc, names, out, cpu)
}

/// Puts the last exception of a processor at the end, where it had one.
fn put_last(
    tracer: &Tracer,
    alloc: Global,
    names: Names,
    out: &mut Vec<u8>,
    cpu: u8,
) -> Result<(), NoMemory>
    ensures { OnOk result (out.new.items ≡ out.old.items ++ last_text names.entry
        (slice_index_or tracer.now.notes.faults.items cpu None)) }
{
    if (cpu as usize) >= tracer.notes.faults.len() {
        return Ok(());
    }
    match &tracer.notes.faults[cpu as usize] {
        Some(fault) => put_fault(alloc, names, out, fault),
        None => Ok(()),
    }
}

/// Puts the tasks at the end, a line for each.
fn put_tasks(
    tracer: &Tracer,
    alloc: Global,
    names: Names,
    out: &mut Vec<u8>,
) -> Result<(), NoMemory>
    ensures { IfOk result (λ _. IsBehind
        (AreTexts (IsTaskLine names.entry) tracer.now.notes.tasks.items) out.old.items out.new.items) }
{
    let tasks = tracer.notes.tasks.as_slice();
    for i in 0..tasks.len() {
        put_task(tracer, alloc, names, out, tasks[i])?;
    }
    Ok(())
}

/// Puts a task's line at the end: its state and since when, what it waits for, and where it is.
fn put_task(
    tracer: &Tracer,
    alloc: Global,
    names: Names,
    out: &mut Vec<u8>,
    task: TaskSeen,
) -> Result<(), NoMemory>
    ensures { IfOk result (λ _. IsBehind (IsTaskLine names.entry task) out.old.items out.new.items) }
{
    let wait = wait_of(alloc, task)?;
    put_task_line(
        alloc,
        names,
        out,
        task,
        place_of(tracer, task),
        wait.as_slice(),
    )
}

/// Where a task is: where it waits or ended, else where it goes on.
fn place_of(tracer: &Tracer, task: TaskSeen) -> u32 {
    match task.state {
        TaskState::Ready | TaskState::Suspended => match tracer.playback.board.task(task.id) {
            Some(view) => view.context.pc(),
            None => task.place,
        },
        _ => task.place,
    }
}

/// Puts at the end whether the board is on, or which event has turned it off.
fn put_off(alloc: Global, out: &mut Vec<u8>, off: Option<u64>) -> Result<(), NoMemory>
    ensures { OnOk result (out.new.items ≡ out.old.items ++ off_text off) }
{
    match off {
        Some(position) => put_named(alloc, out, ": off since event", position),
        None => put(out, ": on"),
    }
}

/// Puts at the end which event was a processor's last step.
fn put_step(alloc: Global, out: &mut Vec<u8>, step: Option<u64>) -> Result<(), NoMemory>
    ensures { OnOk result (out.new.items ≡ out.old.items ++ step_text step) }
{
    match step {
        Some(position) => put_named(alloc, out, ", last step at event", position),
        None => put(out, ", no step"),
    }
}

/// Puts at the end since when a task is in its state.
fn put_since(alloc: Global, out: &mut Vec<u8>, since: Option<u64>) -> Result<(), NoMemory>
    ensures { OnOk result (out.new.items ≡ out.old.items ++ since_text since) }
{
    match since {
        Some(position) => put_named(alloc, out, " since event", position),
        None => put(out, " since the start"),
    }
}

/// Puts a task's line at the end, with where it is, and what is said of its wait.
fn put_task_line(
    alloc: Global,
    names: Names,
    out: &mut Vec<u8>,
    task: TaskSeen,
    place: u32,
    wait: &[u8],
) -> Result<(), NoMemory>
    ensures { OnOk result (out.new.items ≡ out.old.items
        ++ task_text names.entry task.id task.state task.since place wait.now) }
{
    put_named(alloc, out, "task", u64::from(task.id))?;
    put(out, " ")?;
    put(out, state_name(task.state))?;
    put_since(alloc, out, task.since)?;
    put(out, ", at ")?;
    names.put_code(alloc, place, out)?;
    out.extend_from_slice(wait)?;
    put(out, "\n")
}

/// What is said of a task's wait: its call, and what it waits for. Nothing where it doesn't wait.
fn wait_of(alloc: Global, task: TaskSeen) -> Result<Vec<u8>, NoMemory>
    ensures { IfOk result (λ wait. IsWait task.waiting task.due wait.items) }
{
    let mut wait = Vec::new(alloc);
    if let Some(reason) = task.waiting {
        put(&mut wait, ", ")?;
        task.call.put(alloc, &mut wait)?;
        put(&mut wait, " ")?;
        put_wait(alloc, &mut wait, reason, task.due)?;
    }
    Ok(wait)
}

/// Puts the line of an exception at the end.
fn put_fault(
    alloc: Global,
    names: Names,
    out: &mut Vec<u8>,
    fault: &LastFault,
) -> Result<(), NoMemory>
    ensures { OnOk result (out.new.items ≡ out.old.items ++ fault_text names.entry fault.now) }
{
    put_fault_front(alloc, out, fault)?;
    put_fault_behind(alloc, names, out, fault)
}

/// Puts at the end at which event an exception was raised, and of whom.
fn put_fault_front(alloc: Global, out: &mut Vec<u8>, fault: &LastFault) -> Result<(), NoMemory>
    ensures { OnOk result (out.new.items ≡ out.old.items ++ fault_front fault.now) }
{
    put(out, "  last exception at event ")?;
    put_number(alloc, out, fault.position)?;
    put(out, ", of ")?;
    put_who(alloc, out, fault.who)
}

/// Puts at the end where an exception was raised, and what it was.
fn put_fault_behind(
    alloc: Global,
    names: Names,
    out: &mut Vec<u8>,
    fault: &LastFault,
) -> Result<(), NoMemory>
    ensures { OnOk result (out.new.items ≡ out.old.items ++ fault_behind names.entry fault.now) }
{
    put(out, " at ")?;
    names.put_code(alloc, fault.place, out)?;
    put(out, ": ")?;
    out.extend_from_slice(fault.what.as_slice())?;
    put(out, "\n")
}
