//! The ready lists.

ghost use Rattle.std.specs.Prelude.{◌≡◌, ◌<◌, ℕ, true, false, Some, IfSome, IfOk, length, replicate, slice_index_or};
ghost use Rattle.std.specs.Prelude.{slice_set, []};
ghost use Rattle.brd_queue.specs.Queue.{has, priority_in, behind_equals, without, rotated};
ghost use Rattle.brd_tasks.specs.Status.{is_ready};
ghost use Rattle.brd_tasks.specs.Tasks.{left, entered, first_id};
ghost use Rattle.brd_tasks.specs.ReadyRings.{entry, number_of};

use crate::marks::{clear_mark, first_mark, no_marks, set_mark};
use crate::status::TaskId;
use crate::task::Task;
use brd_base::{NoMemory, Same, copy_with_room};
use brd_rings::Rings;
use std::alloc::{AllocError, Global};
use std::marker::Model;

/// The ready tasks of each processor in the order in which they run: for each processor and priority a ring of tasks,
/// the earliest first, and for each processor a mask of the priorities that have one. Only `new` takes memory, and no
/// call takes longer where more tasks are ready.
#[derive(Drop)]
pub struct ReadyLists {
    rings: Rings,
    mask: Vec<u64>,
}

impl Model for ReadyLists {
    ghost use Rattle.std.specs.Prelude.{List};
    ghost use Rattle.brd_queue.specs.Queue.{Plain};
    ghost use Rattle.brd_tasks.specs.ReadyRings.{lists_of, IsMarked};

    ghost Value = { List (List Plain) };

    ghost view = { λ t. lists_of t.rings };

    ghost invariant = { λ t. IsMarked t.rings t.mask.items };
}

impl Same for ReadyLists {
    fn same(&self, other: &Self) -> bool {
        self.rings.same(&other.rings)
    }
}

impl Clone for ReadyLists {
    ghost is_clone = { λ lists copy. copy ≡ lists };

    fn clone(&self) -> Result<Self, AllocError> {
        Ok(ReadyLists {
            rings: self.rings.clone()?,
            mask: copy_with_room(&self.mask, 0)?,
        })
    }
}

impl ReadyLists {
    /// Ready lists in which nobody is.
    pub fn new(alloc: Global) -> Result<ReadyLists, NoMemory>
        ensures { IfOk result (λ lists. lists ≡ replicate 9 []) }
    {
        Ok(ReadyLists {
            rings: Rings::new(alloc, 9 * 256)?,
            mask: no_marks(alloc)?,
        })
    }

    /// The first task of a processor.
    pub fn first(&self, cpu: u8) -> Option<u8>
        requires { cpu < 9 }
        ensures { result ≡ first_id (slice_index_or self.now cpu []) }
    {
        let priority = first_mark(self.mask.as_slice(), cpu)?;
        self.rings.head(number(cpu, priority))
    }

    /// Takes a task that was ready out of its ready list.
    pub fn leave(&mut self, id: TaskId, task: Option<Task>)
        requires small { id < 256 }
        requires listed { IfSome task (λ it. it.cpu < 9) }
        requires there { IfSome task
            (λ it. is_ready it.status ≡ true → priority_in id (slice_index_or self.old it.cpu []) ≡ Some it.priority) }
        ensures { self.new ≡ left id task self.old }
    {
        let Some(task) = task else { return };
        if task.status.is_ready() {
            self.take_out(task.cpu, task.priority, id as u8);
        }
    }

    /// Puts a task that is ready after its equals.
    pub fn enter(&mut self, id: TaskId, task: Task)
        requires small { id < 256 }
        requires listed { task.cpu < 9 }
        requires new { (cpu : ℕ) → has id (slice_index_or self.old cpu []) ≡ false }
        ensures { self.new ≡ entered id task self.old }
    {
        if task.status.is_ready() {
            self.put_behind(task.cpu, task.priority, id as u8);
        }
    }

    /// Puts the first task of a priority on a processor after its equals.
    pub fn rotate(&mut self, cpu: u8, priority: u8)
        requires { cpu < 9 }
        ensures is { self.new ≡ slice_set self.old cpu (rotated priority (slice_index_or self.old cpu [])) }
        ensures stay { (id : ℕ) →
            priority_in id (rotated priority (slice_index_or self.old cpu []))
            ≡ priority_in id (slice_index_or self.old cpu []) }
    {
        // For the proof alone: what is always true of rings.
        self.rings.are_apart();
        self.rings.rotate(number(cpu, priority));
    }

    /// Puts a task at the end of the ring of its priority.
    fn put_behind(&mut self, cpu: u8, priority: u8, id: u8)
        requires listed { cpu < 9 }
        requires new { (other : ℕ) → has id (slice_index_or self.old other []) ≡ false }
        ensures { self.new
            ≡ slice_set self.old cpu (behind_equals (entry priority id) (slice_index_or self.old cpu [])) }
    {
        self.rings.enter(number(cpu, priority), id);
        set_mark(&mut self.mask, cpu, priority);
    }

    /// Takes a task out of the ring of its priority.
    fn take_out(&mut self, cpu: u8, priority: u8, id: u8)
        requires listed { cpu < 9 }
        requires there { priority_in id (slice_index_or self.old cpu []) ≡ Some priority }
        ensures { self.new ≡ slice_set self.old cpu (without id (slice_index_or self.old cpu [])) }
    {
        // For the proof alone: what is always true of rings.
        self.rings.are_apart();
        let ring = number(cpu, priority);
        self.rings.leave(ring, id);
        if self.rings.head(ring).is_none() {
            clear_mark(&mut self.mask, cpu, priority);
        }
    }
}

/// The number of the ring of a priority on a processor.
fn number(cpu: u8, priority: u8) -> usize
    ensures { result ≡ number_of cpu priority }
{
    cpu as usize * 256 + priority as usize
}
