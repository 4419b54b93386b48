//! A service call: what is asked for, and what becomes of it.

ghost use Rattle.std.specs.Prelude.{◌≡◌};
ghost use Rattle.brd_happening.specs.Call.{
  ends_task,
  ends_handler,
  never_returns,
  goes_on,
  given,
  answer_at_once,
  answer_seen,
  answer_in_task,
  answer_in_handler,
  answer_of,
  call_of,
};

use crate::found::Found;
use crate::release::AskedCall;
use brd_board::{Board, Standing, TaskView, WaitReason};
use brd_exec::Context;
use brd_isa::Register;
use brd_kernel::Call;
use brd_sysgate::service;

/// What becomes of a service call in the event that makes it.
#[derive(Clone, Copy)]
pub enum Answer {
    /// It is answered.
    Given {
        /// $v0, the answer.
        code: u32,
        /// $v1, which is the second result where the call has one and the answer is E_OK.
        second: u32,
    },
    /// Its caller waits.
    Waits {
        /// What for.
        reason: WaitReason,
        /// The tick that ends the wait, if one does.
        due: Option<u64>,
    },
    /// It is to be made again, by its caller's next instruction: it asks for a spin lock that is held.
    Again,
    /// It doesn't return: it ends its caller, or the handler, or turns the board off.
    Never,
}

/// A service call that was made.
#[derive(Clone, Copy)]
pub struct CallMade {
    /// What was asked for.
    pub asked: AskedCall,
    /// What became of it.
    pub answer: Answer,
}

impl CallMade {
    /// The call of the SYSCALL that was found, by the board after it.
    pub(crate) fn new(found: &Found, after: &Board) -> CallMade
        ensures { result ≡ call_of found.now after.now }
    {
        let asked = AskedCall::of(&found.context);
        let answer = if never_returns(found.who, asked) {
            Answer::Never
        } else {
            answer_of(found, after)
        };
        CallMade { asked, answer }
    }
}

/// Whether a call doesn't return to who makes it.
fn never_returns(who: Standing, asked: AskedCall) -> bool
    ensures { result ≡ never_returns who asked }
{
    let Some(service) = service(asked.number, asked.arguments) else {
        return false;
    };
    match who {
        Standing::Task(_) => ends_task(service.asked.call),
        Standing::Handler(_) => ends_handler(service.asked.call),
        Standing::Idle | Standing::Stopped => false,
    }
}

/// Whether a call ends the task that makes it, or the board with it.
fn ends_task(call: Call) -> bool
    ensures { result ≡ ends_task call }
{
    matches!(call, Call::ExtTsk | Call::ExtKer)
}

/// Whether a call ends the handler that makes it.
fn ends_handler(call: Call) -> bool
    ensures { result ≡ ends_handler call }
{
    matches!(call, Call::RetInt)
}

/// What becomes of a call that returns, or may.
fn answer_of(found: &Found, after: &Board) -> Answer
    ensures { result ≡ answer_of found.now after.now found.now.who }
{
    match found.who {
        Standing::Task(id) => answer_in_task(&found.context, after.task(id)),
        _ => answer_in_handler(&found.context, after.registers(found.cpu)),
    }
}

/// What becomes of a task's call.
fn answer_in_task(before: &Context, view: Option<TaskView>) -> Answer
    ensures { result ≡ answer_in_task before.now view }
{
    match view {
        Some(view) => answer_seen(before, &view),
        None => Answer::Never,
    }
}

/// What becomes of a task's call.
fn answer_seen(before: &Context, view: &TaskView) -> Answer
    ensures { result ≡ answer_seen before.now view.now view.now.waiting }
{
    match view.waiting {
        Some(reason) => Answer::Waits {
            reason,
            due: view.due,
        },
        None => answer_at_once(before, &view.context),
    }
}

/// What becomes of a handler's call, which never waits.
fn answer_in_handler(before: &Context, context: Option<Context>) -> Answer
    ensures { result ≡ answer_in_handler before.now context }
{
    match context {
        Some(context) => answer_at_once(before, &context),
        None => Answer::Never,
    }
}

/// What becomes of a call whose caller doesn't wait.
fn answer_at_once(before: &Context, after: &Context) -> Answer
    ensures { result ≡ answer_at_once before.now after.now }
{
    if goes_on(before, after) {
        return given(after);
    }
    Answer::Again
}

/// Whether a caller's next instruction is another one than its SYSCALL.
fn goes_on(before: &Context, after: &Context) -> bool
    ensures { result ≡ goes_on before.now after.now }
{
    before.pc() != after.pc() || before.npc() != after.npc()
}

/// The answer in a context.
fn given(context: &Context) -> Answer
    ensures { result ≡ given context.now }
{
    Answer::Given {
        code: context.read(Register::low(2)),
        second: context.read(Register::low(3)),
    }
}
