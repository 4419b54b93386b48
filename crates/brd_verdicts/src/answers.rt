//! The service calls that are answered in an event.

ghost use Rattle.std.specs.Prelude.{◌≡◌, ◌++◌, map, slice_set, IfOk, OnOk};
ghost use Rattle.brd_verdicts.specs.Answers.{
  answers_in,
  begun_after,
  call_in,
  given_by,
  is_error,
  late_answer,
  own_answer,
  task_by,
  waits_from,
};

use brd_base::{List, NoMemory};
use brd_board::{Standing, TaskId};
use brd_happening::{Answer, AskedCall, Happening, Release, What};
use brd_kernel::Call;
use brd_sysgate::service;
use std::alloc::Global;

/// A service call that was answered.
#[derive(Clone, Copy)]
pub struct Answered {
    /// The task that made it; `None` where a handler did.
    pub task: Option<TaskId>,
    /// The call.
    pub call: AskedCall,
    /// The answer, in $v0.
    pub code: u32,
    /// Where it was made.
    pub place: u32,
}

/// The call that is asked for, where one has its number.
pub(crate) fn call_in(asked: AskedCall) -> Option<Call>
    ensures { result ≡ call_in asked }
{
    match service(asked.number, asked.arguments) {
        Some(service) => Some(service.asked.call),
        None => None,
    }
}

/// Whether a call was refused, or ended without what was waited for.
pub(crate) fn is_error(code: u32) -> bool
    ensures { result ≡ is_error code }
{
    0x8000_0000 <= code
}

/// The task that executes.
fn task_by(who: Option<Standing>) -> Option<TaskId>
    ensures { result ≡ task_by who }
{
    match who {
        Some(Standing::Task(id)) => Some(id),
        _ => None,
    }
}

/// The answers of an event: to the call that it makes, if it is answered at once, and then to those of the tasks whose
/// waits it ends. The waits of tasks began at these places.
pub(crate) fn answers_in(
    alloc: Global,
    begun: &[u32],
    told: &Happening,
) -> Result<List<Answered>, NoMemory>
    ensures { IfOk result (λ answers. answers ≡ answers_in begun.now told.now) }
{
    let mut answers = List::new(alloc);
    if let Some(answer) = own_answer(told, told.what) {
        answers.push(answer)?;
    }
    put_late(&mut answers, begun, told.released.as_slice())?;
    Ok(answers)
}

/// Puts the answers of tasks at the end whose waits have ended.
fn put_late(
    answers: &mut List<Answered>,
    begun: &[u32],
    released: &[Release],
) -> Result<(), NoMemory>
    ensures { OnOk result (answers.new ≡ answers.old ++ map (late_answer begun.now) released.now) }
{
    for release in released {
        answers.push(late_answer(begun, *release))?;
    }
    Ok(())
}

/// The answer to the call that an event makes, if it is answered at once.
fn own_answer(told: &Happening, what: What) -> Option<Answered>
    ensures { result ≡ own_answer told.now what }
{
    match what {
        What::Call(made) => given_by(told, made.asked, made.answer),
        _ => None,
    }
}

/// The answer to a call, if it is answered at once.
fn given_by(told: &Happening, call: AskedCall, answer: Answer) -> Option<Answered>
    ensures { result ≡ given_by told.now call answer }
{
    match answer {
        Answer::Given { code, second: _ } => Some(Answered {
            task: task_by(told.who),
            call,
            code,
            place: told.place.unwrap_or(0),
        }),
        Answer::Waits { .. } | Answer::Again | Answer::Never => None,
    }
}

/// The answer of a task whose wait has ended.
fn late_answer(begun: &[u32], release: Release) -> Answered
    ensures { result ≡ late_answer begun.now release }
{
    let task = usize::from(release.task);
    Answered {
        task: Some(release.task),
        call: release.asked,
        code: release.code,
        place: begun.get(task).copied().unwrap_or(0),
    }
}

/// Keeps where a task's wait begins, if it does in an event.
pub(crate) fn keep_begun(begun: &mut [u32; 256], told: &Happening, what: What)
    ensures { begun.new ≡ begun_after told.now what begun.old }
{
    if let What::Call(made) = what {
        keep_wait(
            begun,
            task_by(told.who),
            told.place.unwrap_or(0),
            made.answer,
        );
    }
}

/// Keeps where a task's wait begins, if its call waits.
fn keep_wait(begun: &mut [u32; 256], task: Option<TaskId>, place: u32, answer: Answer)
    ensures { begun.new ≡ waits_from task place answer begun.old }
{
    if let (Some(task), Answer::Waits { .. }) = (task, answer) {
        put_place(begun, usize::from(task), place);
    }
}

/// Puts a place at an index, where there is that.
fn put_place(begun: &mut [u32; 256], at: usize, place: u32)
    ensures { begun.new ≡ slice_set begun.old at place }
{
    if at < 256 {
        begun[at] = place;
    }
}
