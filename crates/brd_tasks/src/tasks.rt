//! The tasks of a board.

ghost use Rattle.std.specs.Prelude.{◌≡◌, Decides, ◌<◌, Some, IsSome, IfSome, IfOk, All, length, find, ◌==◌, []};
ghost use Rattle.brd_tasks.specs.Status.{blocked, suspended, resumed};
ghost use Rattle.brd_tasks.specs.Tasks.{
  task_at,
  context_at,
  made,
  placed,
  patched,
  with_context,
  starts,
  activated,
  ended,
  through,
  released_with,
  changed,
  with_priority,
  lifted_to,
  on_processor,
  noted,
  with_wakeup,
  without_activation,
  turned,
  are_there,
  top_of,
  view_of,
};
ghost use Rattle.brd_tasks.specs.Ready.{IsProcessor, IsRequest, IsSetup, IsTask, IsRow, IsConsistent};
ghost use Rattle.std.specs.Borrow.{sem};
ghost use Rattle.brd_tasks.specs.Lending.{LendsContext};

use crate::lists::ReadyLists;
use crate::making::{contexts_of, rows_of};
use crate::reply::answer;
use crate::status::{Status, TaskId, WaitReason};
use crate::task::{Request, Task, TaskSetup, TaskView};
use brd_base::{NoMemory, Same, copy_with_room, same_slices};
use brd_exec::Context;
use std::alloc::Global;
use std::marker::Model;

/// The tasks by their numbers, their contexts, and which are ready on each processor. Only `new` takes memory.
pub struct Tasks {
    rows: Vec<Option<Task>>,
    contexts: Vec<Context>,
    ready: ReadyLists,
}

impl Model for Tasks {
    ghost use Rattle.brd_tasks.specs.Tasks.{TaskTable};
    ghost use Rattle.brd_tasks.specs.Ready.{IsConsistent};

    ghost Value = { TaskTable };

    ghost view = { λ t. record { rows = t.rows.items; contexts = t.contexts.items; ready = t.ready } };

    ghost invariant = { λ t.
        IsConsistent (record { rows = t.rows.items; contexts = t.contexts.items; ready = t.ready }) };
}

/// Written out, so that a function that lets one go is proved with a call, and not with the end of each part.
impl Drop for Tasks {
    fn drop(self) {
        let Tasks {
            rows: _,
            contexts: _,
            ready: _,
        } = self;
    }
}

impl Tasks {
    /// The tasks of these setups, none of them started. Of setups with one ID the first counts.
    pub fn new(alloc: Global, setups: &[TaskSetup]) -> Result<Tasks, NoMemory>
        requires { All IsSetup setups.now }
        ensures { IfOk result (λ tasks. tasks ≡ made setups.now) }
    {
        Ok(Tasks {
            rows: rows_of(alloc, setups)?,
            contexts: contexts_of(alloc, setups)?,
            ready: ReadyLists::new(alloc)?,
        })
    }

    /// Equal tasks.
    pub fn try_copy(&self) -> Result<Tasks, NoMemory>
        ensures { IfOk result (λ copy. copy ≡ self.now) }
    {
        Ok(Tasks {
            rows: copy_with_room(&self.rows, 0)?,
            contexts: copy_with_room(&self.contexts, 0)?,
            ready: self.ready.clone()?,
        })
    }

    /// Whether both are equal.
    pub fn same(&self, other: &Tasks) -> bool
        ensures { Decides result (self.now ≡ other.now) }
    {
        same_slices(self.rows.as_slice(), other.rows.as_slice())
            && same_slices(self.contexts.as_slice(), other.contexts.as_slice())
            && self.ready.same(&other.ready)
    }

    /// The task of a number, where there is one.
    pub fn task(&self, id: TaskId) -> Option<Task>
        ensures is { result ≡ task_at self.now id }
        ensures well { IsRow result }
    {
        if (id as usize) < self.rows.len() {
            return self.rows[id as usize];
        }
        None
    }

    /// What is always true of tasks, for the proofs of those that hold them.
    pub fn are_consistent(&self)
        ensures { IsConsistent self.now }
    {
        let _ = &self.rows;
    }

    /// The task of a number as it stands. `due` is None: when a wait ends is kept elsewhere.
    pub fn view(&self, id: TaskId) -> Option<TaskView>
        ensures { result ≡ view_of self.now id }
    {
        let task = self.task(id)?;
        Some(TaskView {
            state: task.status.state(),
            priority: task.priority,
            cpu: task.cpu,
            waiting: task.status.waiting(),
            due: None,
            activations: if task.activation.is_some() { 1 } else { 0 },
            wakeups: if task.wakeup { 1 } else { 0 },
            context: self.contexts[id as usize],
        })
    }

    /// The ready task of a processor that runs next.
    pub fn top(&self, cpu: u8) -> Option<TaskId>
        ensures is { result ≡ top_of self.now cpu }
        ensures small { IfSome result (λ id. id < 256) }
        ensures there { IfSome result (λ id. IsSome (task_at self.now id)) }
    {
        let ready = &self.ready;
        if cpu > 8 {
            return None;
        }
        Some(ready.first(cpu)? as u16)
    }

    /// Starts a dormant task by a request. Any other keeps the request until it ends, in the place of one that it kept
    /// before.
    pub fn activate(&mut self, id: TaskId, request: Request)
        requires { IsRequest request }
        ensures is { self.new ≡ activated self.old id request }
        ensures there { are_there self.new ≡ are_there self.old }
    {
        let Some(task) = self.task(id) else { return };
        if task.status.is_dormant() {
            self.start(id, request.processor(task), task);
            return;
        }
        self.patch(
            id,
            Task {
                activation: Some(request),
                ..task
            },
        );
    }

    /// Ends a task. It starts again where a request was queued, else it is dormant, and keeps its context, priority and
    /// processor.
    pub fn end(&mut self, id: TaskId)
        ensures is { self.new ≡ ended self.old id }
        ensures there { are_there self.new ≡ are_there self.old }
    {
        let Some(task) = self.task(id) else { return };
        let Some(request) = task.activation else {
            self.place(
                id,
                Task {
                    status: Status::Dormant,
                    wakeup: false,
                    ..task
                },
            );
            return;
        };
        self.start(id, request.processor(task), task);
    }

    /// A ready task begins to wait.
    pub fn block(&mut self, id: TaskId, reason: WaitReason)
        ensures is { self.new ≡ through (blocked reason) self.old id }
        ensures there { are_there self.new ≡ are_there self.old }
    {
        let Some(task) = self.task(id) else { return };
        let Some(status) = task.status.blocked(reason) else {
            return
        };
        self.place(id, Task { status, ..task });
    }

    /// Ends the wait of a task, and answers its service call: $v0 takes the answer, $v1 the second result, if there is
    /// one.
    pub fn release(&mut self, id: TaskId, code: u32, second: Option<u32>)
        ensures is { self.new ≡ released_with self.old id code second }
        ensures there { are_there self.new ≡ are_there self.old }
    {
        let Some(task) = self.task(id) else { return };
        let Some(status) = task.status.released() else {
            return
        };
        self.place(id, Task { status, ..task });
        answer(&mut self.contexts[id as usize], code, second);
    }

    /// Suspends a ready or waiting task.
    pub fn suspend(&mut self, id: TaskId)
        ensures is { self.new ≡ through suspended self.old id }
        ensures there { are_there self.new ≡ are_there self.old }
    {
        let Some(task) = self.task(id) else { return };
        let Some(status) = task.status.suspended() else {
            return
        };
        self.place(id, Task { status, ..task });
    }

    /// Resumes a suspended task.
    pub fn resume(&mut self, id: TaskId)
        ensures is { self.new ≡ through resumed self.old id }
        ensures there { are_there self.new ≡ are_there self.old }
    {
        let Some(task) = self.task(id) else { return };
        let Some(status) = task.status.resumed() else {
            return
        };
        self.place(id, Task { status, ..task });
    }

    /// Gives a task another priority. One that is ready comes after its equals, also where it has that priority
    /// already.
    pub fn set_priority(&mut self, id: TaskId, priority: u8)
        ensures is { self.new ≡ changed (with_priority priority) self.old id }
        ensures there { are_there self.new ≡ are_there self.old }
    {
        let Some(task) = self.task(id) else { return };
        let base = priority;
        self.place(
            id,
            Task {
                priority,
                base,
                ..task
            },
        );
    }

    /// Gives a task another priority, and leaves its own as it is. One that is ready comes after its equals, also where
    /// it has that priority already.
    pub fn lift(&mut self, id: TaskId, priority: u8)
        ensures is { self.new ≡ changed (lifted_to priority) self.old id }
        ensures there { are_there self.new ≡ are_there self.old }
    {
        let Some(task) = self.task(id) else { return };
        self.place(id, Task { priority, ..task });
    }

    /// Assigns a task to another processor. One that is ready comes after its equals there.
    pub fn migrate(&mut self, id: TaskId, cpu: u8)
        requires { IsProcessor cpu }
        ensures is { self.new ≡ changed (on_processor cpu) self.old id }
        ensures there { are_there self.new ≡ are_there self.old }
    {
        let Some(task) = self.task(id) else { return };
        self.place(id, Task { cpu, ..task });
    }

    /// Queues a wake-up of a task, or takes it back. A dormant task has none.
    pub fn set_wakeup(&mut self, id: TaskId, queued: bool)
        ensures is { self.new ≡ noted (with_wakeup queued) self.old id }
        ensures there { are_there self.new ≡ are_there self.old }
    {
        let Some(task) = self.task(id) else { return };
        let wakeup = queued && !task.status.is_dormant();
        self.patch(id, Task { wakeup, ..task });
    }

    /// Takes the queued request of a task back.
    pub fn clear_activation(&mut self, id: TaskId)
        ensures is { self.new ≡ noted without_activation self.old id }
        ensures there { are_there self.new ≡ are_there self.old }
    {
        let Some(task) = self.task(id) else { return };
        self.patch(
            id,
            Task {
                activation: None,
                ..task
            },
        );
    }

    /// Puts the first ready task of a priority on a processor after its equals.
    pub fn rotate(&mut self, cpu: u8, priority: u8)
        requires { IsProcessor cpu }
        ensures { self.new ≡ turned self.old cpu priority }
    {
        self.ready.rotate(cpu, priority);
    }

    /// Gives a task that is there another context.
    pub fn put_context(&mut self, id: TaskId, context: Context)
        requires there { IsSome (task_at self.old id) }
        ensures { self.new ≡ with_context self.old id context }
    {
        self.contexts[id as usize] = context;
    }

    /// The context of a task that is there.
    pub fn context(&self, id: TaskId) -> &Context
        requires there { IsSome (task_at self.now id) }
        ensures { result.now ≡ context_at self.now id }
    {
        &self.contexts[id as usize]
    }

    /// The context of a task that is there, to be changed where it lies.
    pub fn context_mut(&mut self, id: TaskId) -> &mut Context
        requires there { IsSome (task_at self.old id) }
        ensures* writes_back { sem 𝓛 (LendsContext self.entry id result) }
        ensures value { result.now ≡ context_at self.old id }
    {
        &mut self.contexts[id as usize]
    }

    /// Starts a task on a processor.
    fn start(&mut self, id: TaskId, cpu: u8, task: Task)
        requires known { IsSome (task_at self.old id) }
        requires processor { IsProcessor cpu }
        ensures is { self.new ≡ starts self.old id cpu task }
        ensures there { are_there self.new ≡ are_there self.old }
    {
        self.place(id, task.started(cpu));
        self.contexts[id as usize] = task.setup.opening();
    }

    /// Writes a task, and puts it after its equals where it is ready.
    #[tactic(auto, using(crate::proofs::ThereLemmas::there_set))]
    fn place(&mut self, id: TaskId, task: Task)
        requires known { IsSome (task_at self.old id) }
        requires well { IsTask task }
        ensures is { self.new ≡ placed self.old id task }
        ensures there { are_there self.new ≡ are_there self.old }
    {
        let old = self.task(id);
        self.ready.leave(id, old);
        self.rows[id as usize] = Some(task);
        self.ready.enter(id, task);
    }

    /// Writes a task that stays where it is.
    #[tactic(auto, using(crate::proofs::ThereLemmas::there_set))]
    fn patch(&mut self, id: TaskId, task: Task)
        requires known { IsSome (task_at self.old id) }
        requires same { IfSome (task_at self.old id)
            (λ old. (task.status ≡ old.status) × (task.cpu ≡ old.cpu) × (task.priority ≡ old.priority)) }
        requires well { IsTask task }
        ensures is { self.new ≡ patched self.old id task }
        ensures there { are_there self.new ≡ are_there self.old }
    {
        self.rows[id as usize] = Some(task);
    }
}
