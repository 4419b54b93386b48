//! Tasks that wait, and those of them whose wait has ended.

ghost use Rattle.std.specs.Prelude.{◌≡◌, ◌++◌, [], IfOk, OnOk};
ghost use Rattle.std.specs.List.{cons_option, filter_map};
ghost use Rattle.brd_happening.specs.Release.{
  asked_of,
  waiter_in,
  waiters_of,
  has_ended,
  is_released,
  release_in,
};

use brd_base::{List, NoMemory};
use brd_board::{Board, TaskId, TaskState, TaskView};
use brd_exec::Context;
use brd_isa::Register;
use std::alloc::Global;

/// A service call as the registers ask for it. `service` of brd_sysgate names it.
#[derive(Clone, Copy)]
pub struct AskedCall {
    /// Its number, in $v0.
    pub number: u32,
    /// Its arguments, in $a0 to $a3.
    pub arguments: [u32; 4],
}

/// A task that waits.
#[derive(Clone, Copy)]
pub struct Waiter {
    /// Which.
    pub task: TaskId,
    /// The call in which it waits.
    pub asked: AskedCall,
    /// How many starts of it are queued.
    pub activations: u8,
}

/// A task whose wait has ended, with the answer to the call in which it waited.
#[derive(Clone, Copy)]
pub struct Release {
    /// Which.
    pub task: TaskId,
    /// The call.
    pub asked: AskedCall,
    /// $v0, the answer.
    pub code: u32,
    /// $v1, which is the second result where the call has one and the answer is E_OK.
    pub second: u32,
}

impl AskedCall {
    /// What a context asks for that executes a SYSCALL.
    pub fn of(context: &Context) -> AskedCall
        ensures { result ≡ asked_of context.now }
    {
        AskedCall {
            number: context.read(Register::low(2)),
            arguments: [
                context.read(Register::low(4)),
                context.read(Register::low(5)),
                context.read(Register::low(6)),
                context.read(Register::low(7)),
            ],
        }
    }
}

/// The tasks that wait, by ascending number.
pub(crate) fn waiters_of(alloc: Global, board: &Board) -> Result<List<Waiter>, NoMemory>
    ensures { IfOk result (λ waiters. waiters ≡ waiters_of board.now) }
{
    let mut waiters = List::new(alloc);
    for id in 1..256u16 {
        put_if(&mut waiters, waiter_in(board, id))?;
    }
    Ok(waiters)
}

/// Puts a task that waits at the end, if it is one.
fn put_if(waiters: &mut List<Waiter>, waiter: Option<Waiter>) -> Result<(), NoMemory>
    ensures { OnOk result (waiters.new ≡ waiters.old ++ cons_option waiter []) }
{
    match waiter {
        Some(waiter) => waiters.push(waiter),
        None => Ok(()),
    }
}

/// The task of a number, if it waits.
fn waiter_in(board: &Board, id: TaskId) -> Option<Waiter>
    ensures { result ≡ waiter_in board.now id }
{
    let view = board.task(id)?;
    if view.waiting.is_none() {
        return None;
    }
    Some(Waiter {
        task: id,
        asked: AskedCall::of(&view.context),
        activations: view.activations,
    })
}

/// Those of the tasks that waited whose wait has ended.
pub(crate) fn released(
    alloc: Global,
    waiters: &[Waiter],
    after: &Board,
) -> Result<List<Release>, NoMemory>
    ensures { IfOk result (λ released. released ≡ filter_map (release_in after.now) waiters.now) }
{
    let mut released = List::new(alloc);
    for waiter in waiters {
        if let Some(release) = release_in(after, *waiter) {
            released.push(release)?;
        }
    }
    Ok(released)
}

/// The end of a task's wait, if it has ended and its call is answered.
fn release_in(after: &Board, waiter: Waiter) -> Option<Release>
    ensures { result ≡ release_in after.now waiter }
{
    let view = after.task(waiter.task)?;
    if !is_released(waiter, &view) {
        return None;
    }
    Some(Release {
        task: waiter.task,
        asked: waiter.asked,
        code: view.context.read(Register::low(2)),
        second: view.context.read(Register::low(3)),
    })
}

/// Whether a task that waited waits no more, and has neither ended nor started again.
fn is_released(waiter: Waiter, view: &TaskView) -> bool
    ensures { result ≡ is_released waiter view.now }
{
    view.waiting.is_none() && !has_ended(view.state) && view.activations == waiter.activations
}

/// Whether a task is dormant.
fn has_ended(state: TaskState) -> bool
    ensures { result ≡ has_ended state }
{
    matches!(state, TaskState::Dormant)
}
