//! What is known of tasks, and what an event changed of them, in words.

ghost use Rattle.std.specs.Prelude.{
  ◌≡◌,
  ◌⊎◌,
  ◌++◌,
  ◌<◌,
  ℕ,
  [],
  All,
  Decides,
  IfOk,
  None,
  OnOk,
  codes,
  is_some,
  length,
  map,
  slice_index_or,
  true,
};
ghost use Rattle.std.specs.Option.{option_map};
ghost use Rattle.std.specs.List.{cons_option};
ghost use Rattle.brd_board.specs.Board.{task_of};
ghost use Rattle.brd_seen.specs.declared.tasks.TaskSeen.{TaskSeen as TaskOf};
ghost use Rattle.brd_seen.specs.Conditions.{Same, Other, FollowsTask};
ghost use Rattle.brd_seen.specs.Seen.{seen_of, view_of, IsSeen, all_seen};
ghost use Rattle.brd_names.specs.Standings.{tasks_of};

use crate::answer::Answered;
use crate::service::SaidCall;
use brd_base::NoMemory;
use brd_board::{Board, TaskId, TaskState, WaitReason};
use brd_happening::{AskedCall, Release};
use brd_names::{put, put_comma, put_named, put_number, put_wait, state_name};
use std::alloc::Global;

/// A task as it stood after an event.
#[derive(Clone, Copy)]
pub struct TaskSeen {
    /// Its number.
    pub id: TaskId,
    /// Its state.
    pub state: TaskState,
    /// What it waits for.
    pub waiting: Option<WaitReason>,
    /// The tick at which its wait ends.
    pub due: Option<u64>,
    /// Its priority.
    pub priority: u8,
    /// The processor that it is assigned to.
    pub cpu: u8,
    /// How many starts are queued.
    pub activations: u8,
    /// How many wake-ups are queued.
    pub wakeups: u8,
    /// What its registers ask for: the call, while it waits.
    pub call: SaidCall,
    /// Where it goes on.
    pub pc: u32,
    /// The position whose event brought it into its state; `None` where it is in it from the boot on.
    pub since: Option<u64>,
    /// Where that event found it.
    pub place: u32,
}

/// A task as it stands, where there is one of that number.
pub fn task_seen(board: &Board, id: TaskId) -> Option<TaskSeen>
    ensures { result ≡ option_map (seen_of id) (task_of board.now id) }
{
    let view = board.task(id)?;
    Some(TaskSeen {
        id,
        state: view.state,
        waiting: view.waiting,
        due: view.due,
        priority: view.priority,
        cpu: view.cpu,
        activations: view.activations,
        wakeups: view.wakeups,
        call: SaidCall {
            asked: AskedCall::of(&view.context),
        },
        pc: view.context.pc(),
        since: None,
        place: view.context.pc(),
    })
}

/// All tasks of a board, by ascending number.
pub fn tasks_seen(alloc: Global, board: &Board) -> Result<Vec<TaskSeen>, NoMemory>
    ensures { IfOk result (λ tasks. tasks.items ≡ all_seen board.now) }
{
    let mut tasks = Vec::new(alloc);
    for id in 1..256u16 {
        put_if(&mut tasks, task_seen(board, id))?;
    }
    Ok(tasks)
}

/// Puts a task at the end, where there is one.
fn put_if(tasks: &mut Vec<TaskSeen>, task: Option<TaskSeen>) -> Result<(), NoMemory>
    ensures { OnOk result (tasks.new.items ≡ tasks.old.items ++ cons_option task []) }
{
    if let Some(task) = task {
        tasks.push(task)?;
    }
    Ok(())
}

/// Keeps how each task stands after an event, and since when.
pub fn follow_tasks(tasks: &mut Vec<TaskSeen>, board: &Board, cause: Cause)
    ensures those { map (λ it. it.id) tasks.new.items ≡ map (λ it. it.id) tasks.old.items }
    ensures each { map (λ it. it.id) tasks.old.items ≡ tasks_of board.now → All (IsSeen board.now) tasks.new.items }
    ensures length { length tasks.new.items ≡ length tasks.old.items }
    ensures follows { (i : ℕ) (d : TaskOf) → i < length tasks.old.items
        → FollowsTask cause.position (slice_index_or tasks.old.items i d) (slice_index_or tasks.new.items i d) }
{
    for i in 0..tasks.len() {
        tasks[i] = tasks[i].followed(board, cause);
    }
}

/// What an event was that may have changed tasks.
#[derive(Clone, Copy)]
pub struct Cause {
    /// Its position.
    pub position: u64,
    /// The task that executed an instruction, where one did.
    pub caller: Option<TaskId>,
    /// The address of that instruction.
    pub address: u32,
    /// Whether it may end a task that starts again then: `ext_tsk` and `ter_tsk`.
    pub restarts: bool,
    /// Whether it is a tick.
    pub ticks: bool,
}

impl TaskSeen {
    /// The task as it stands on a board after another event, with since when it has been in its state.
    fn followed(self, board: &Board, cause: Cause) -> TaskSeen
        ensures id { result.id ≡ self.id }
        ensures seen { is_some (task_of board.now self.id) ≡ true → IsSeen board.now result }
        ensures follows { FollowsTask cause.position self result }
    {
        match task_seen(board, self.id) {
            Some(now) => self.after(now, cause),
            None => self,
        }
    }

    /// The task as it stands after another event, with since when it has been in its state.
    pub fn after(self, now: TaskSeen, cause: Cause) -> TaskSeen
        ensures id { result.id ≡ now.id }
        ensures view { view_of result ≡ view_of now }
        ensures since { Same self now result.since ⊎ Other cause.position self now result.since }
    {
        // A task that is suspended or resumed while it waits is still where it waits.
        let place = if self.waiting == now.waiting
            && (self.state == now.state || now.waiting.is_some())
        {
            self.place
        } else if cause.caller == Some(self.id) {
            cause.address
        } else {
            now.pc
        };
        let since = self.since_with(now, cause.position);
        TaskSeen {
            since,
            place,
            ..now
        }
    }

    /// Since when a task has been in its state after the event of a position, after which it stands so.
    fn since_with(self, now: TaskSeen, position: u64) -> Option<u64>
        ensures { Same self now result ⊎ Other position self now result }
    {
        if self.stands_as(now) {
            return self.since;
        }
        Some(position)
    }

    /// Whether a task is in the same state, and waits for the same.
    fn stands_as(self, now: TaskSeen) -> bool
        ensures { Decides result ((now.state ≡ self.state) × (now.waiting ≡ self.waiting)) }
    {
        self.state == now.state && self.waiting == now.waiting
    }

    /// Puts at the end what an event changed of the task, which it has released or not.
    pub fn put_change(
        self,
        alloc: Global,
        out: &mut Vec<u8>,
        now: TaskSeen,
        cause: Cause,
        release: Option<Release>,
    ) -> Result<(), NoMemory> {
        if cause.restarts && now.activations < self.activations {
            self.put_fact(alloc, out, " starts again")?;
        } else if self.state != now.state {
            self.put_state(alloc, out, now, cause, release)?;
        }
        if self.priority != now.priority {
            self.put_fact(alloc, out, " has priority ")?;
            put_number(alloc, out, u64::from(now.priority))?;
        }
        if self.cpu != now.cpu {
            self.put_fact(alloc, out, " is of cpu ")?;
            put_number(alloc, out, u64::from(now.cpu))?;
        }
        if self.activations < now.activations {
            self.put_fact(alloc, out, " has a start queued")?;
        }
        if self.wakeups < now.wakeups {
            self.put_fact(alloc, out, " has a wake-up queued")?;
        }
        Ok(())
    }

    /// Puts at the end that the task is in another state: what it waits for, or how its wait ended and the new state.
    fn put_state(
        self,
        alloc: Global,
        out: &mut Vec<u8>,
        now: TaskSeen,
        cause: Cause,
        release: Option<Release>,
    ) -> Result<(), NoMemory> {
        if let Some(release) = release {
            self.put_fact(alloc, out, ": ")?;
            let answered = Answered::of(&release);
            answered.call.put(alloc, out)?;
            answered.put_answer(alloc, out)?;
        }
        match now.waiting {
            Some(reason) if cause.caller == Some(self.id) => {
                put_comma(out)?;
                put_wait(alloc, out, reason, now.due)
            }
            _ => {
                self.put_fact(alloc, out, " ")?;
                put(out, state_name(now.state))
            }
        }
    }

    /// Puts at the end a fact about the task.
    fn put_fact(self, alloc: Global, out: &mut Vec<u8>, fact: &str) -> Result<(), NoMemory> {
        put_comma(out)?;
        put_named(alloc, out, "task", u64::from(self.id))?;
        put(out, fact)
    }
}
