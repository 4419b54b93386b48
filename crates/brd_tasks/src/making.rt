//! The tasks as they are at the making.

ghost use Rattle.std.specs.Prelude.{◌≡◌, ◌≤◌, ◌↔◌, ◌==◌, All, IfOk, IsTrue, find};
ghost use Rattle.brd_tasks.specs.Ready.{IsSetup};
ghost use Rattle.brd_tasks.specs.Tasks.{first_row, first_context, first_rows, first_contexts, ids_of};

use crate::status::TaskId;
use crate::task::{Task, TaskSetup};
use brd_base::NoMemory;
use brd_exec::Context;
use std::alloc::Global;

/// Whether each of these is a task's setup: with a number from 1 to 255 and a processor from 1 to 8.
pub fn are_setups(setups: &[TaskSetup]) -> bool
    ensures { IsTrue result ↔ All IsSetup setups.now }
{
    setups.iter().all(is_setup)
}

/// Whether this is a task's setup.
fn is_setup(setup: &TaskSetup) -> bool
    ensures { IsTrue result ↔ IsSetup setup.now }
{
    setup.id >= 1 && setup.id <= 255 && setup.cpu >= 1 && setup.cpu <= 8
}

/// The row of each ID.
#[tactic(auto, using(crate::proofs::MadeLemmas::rows_more, crate::proofs::MadeLemmas::no_rows))]
pub fn rows_of(alloc: Global, setups: &[TaskSetup]) -> Result<Vec<Option<Task>>, NoMemory>
    ensures { IfOk result (λ rows. rows.items ≡ first_rows setups.now 256) }
{
    let mut rows = Vec::new(alloc);
    for id in 0..256u16 {
        rows.push(row_of(setups, id))?;
    }
    Ok(rows)
}

/// The context of each ID up to the highest.
#[tactic(auto, using(crate::proofs::MadeLemmas::contexts_more, crate::proofs::MadeLemmas::no_contexts))]
pub fn contexts_of(alloc: Global, setups: &[TaskSetup]) -> Result<Vec<Context>, NoMemory>
    ensures { IfOk result (λ contexts. contexts.items ≡ first_contexts setups.now (ids_of setups.now)) }
{
    let mut contexts = Vec::new(alloc);
    for id in 0..ids_of(setups) {
        contexts.push(context_of(setups, id as u16))?;
    }
    Ok(contexts)
}

/// How many IDs there are up to the highest of these, with 0.
fn ids_of(setups: &[TaskSetup]) -> u32
    ensures is { result ≡ ids_of setups.now }
    ensures few { result ≤ 65536 }
{
    let mut count = 0u32;
    for setup in setups {
        count = count.max(u32::from(setup.id) + 1);
    }
    count
}

/// The task of an ID before its first start.
fn row_of(setups: &[TaskSetup], id: TaskId) -> Option<Task>
    ensures { result ≡ first_row setups.now id }
{
    let setup = setup_of(setups, id)?;
    Some(setup.unstarted())
}

/// The context of the task of an ID before its first start; any one where there is no such task.
#[tactic(auto, unfolding(crate::specs::Tasks::no_context))]
fn context_of(setups: &[TaskSetup], id: TaskId) -> Context
    ensures { result ≡ first_context setups.now id }
{
    let Some(setup) = setup_of(setups, id) else {
        return Context::opening(0, 0, 0);
    };
    setup.opening()
}

/// The first setup of an ID.
fn setup_of(setups: &[TaskSetup], id: TaskId) -> Option<TaskSetup>
    ensures { result ≡ find (λ setup. setup.id == id) setups.now }
{
    for setup in setups {
        if setup.id == id {
            return Some(*setup);
        }
    }
    None
}
