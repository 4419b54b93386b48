use super::configs::{START, setup};
use brd_base::NoMemory;
use brd_exec::Context;
use brd_isa::Register;
use brd_tasks::*;
use std::alloc::{AllocError, Global};
use std::test::Fail;

/// The tasks of these setups.
fn tasks_of(alloc: Global, setups: &[TaskSetup]) -> Result<Tasks, NoMemory> {
    if !are_setups(setups) {
        return Err(NoMemory);
    }
    Tasks::new(alloc, setups)
}

/// Three tasks on processor 1, of which 1 and 2 have priority 5 and 3 has priority 2, and a fourth on processor 2.
fn four(alloc: Global) -> Result<Tasks, NoMemory> {
    tasks_of(
        alloc,
        &[
            setup(1, 1, 5),
            setup(2, 1, 5),
            setup(3, 1, 2),
            setup(4, 2, 5),
        ],
    )
}

/// Whether a task is in this state, with this priority, on this processor, and with n activations and m wake-ups
/// queued.
fn is_so(tasks: &Tasks, id: u16, state: TaskState, numbers: (u8, u8, u8, u8)) -> bool {
    let (priority, cpu, activations, wakeups) = numbers;
    match tasks.view(id) {
        Some(view) => {
            view.state == state
                && view.priority == priority
                && view.cpu == cpu
                && view.activations == activations
                && view.wakeups == wakeups
        }
        None => false,
    }
}

/// Whether these words are in $v0, $v1 and $a0 of a task, and it is about to begin.
fn has_words(tasks: &Tasks, id: u16, v0: u32, v1: u32, a0: u32) -> bool {
    match tasks.view(id) {
        Some(view) => {
            view.context.read(Register::low(2)) == v0
                && view.context.read(Register::low(3)) == v1
                && view.context.read(Register::low(4)) == a0
                && view.context.pc() == START
        }
        None => false,
    }
}

/// What a test does with the tasks of `four`.
#[derive(Clone, Copy)]
enum Scene {
    Unstarted,
    ReadyLists,
    StartsAgain,
    Waits,
    Dormant,
}

/// Whether tasks do in a scene what they should.
fn do_it(tasks: &mut Tasks, scene: Scene) -> bool {
    match scene {
        Scene::Unstarted => are_new(tasks),
        Scene::ReadyLists => run_by_priority(tasks) && run_in_turn(tasks),
        Scene::StartsAgain => starts_on_3(tasks) && starts_where_it_is(tasks),
        Scene::Waits => sleeps_suspended(tasks) && waits_resumed(tasks),
        Scene::Dormant => stays_dormant(tasks),
    }
}

/// Whether the tasks of `four` do what they should.
fn goes_well(alloc: Global, scene: Scene) -> bool {
    match four(alloc) {
        Ok(mut tasks) => do_it(&mut tasks, scene),
        Err(_) => false,
    }
}

/// Whether a second task of this number and processor may stand beside task 7.
fn may_be(id: u16, cpu: u8) -> bool {
    are_setups(&[setup(7, 1, 1), setup(id, cpu, 1)])
}

#[test]
fn setups(rt: HostRuntime) {
    assert!(rt;
        may_be(1, 1)
            && may_be(255, 8)
            && !may_be(0, 1)
            && !may_be(256, 1)
            && !may_be(1, 0)
            && !may_be(1, 9)
    );
}

/// Who runs on processors 0 to 9.
fn tops(tasks: &Tasks) -> [u16; 10] {
    let mut all = [0; 10];
    for cpu in 0..10u8 {
        if let Some(id) = tasks.top(cpu) {
            all[cpu as usize] = id;
        }
    }
    all
}

/// Whether a task runs on a processor.
fn runs(tasks: &Tasks, cpu: u8, id: u16) -> bool {
    tasks.top(cpu) == Some(id)
}

/// Whether there is no task of these numbers.
fn are_absent(tasks: &Tasks) -> bool {
    for id in [0, 5, 255, 256, 65_535] {
        if tasks.view(id).is_some() {
            return false;
        }
    }
    true
}

/// Whether tasks are those of `four`, none of which has been started.
fn are_new(tasks: &Tasks) -> bool {
    is_so(tasks, 3, TaskState::Dormant, (2, 1, 0, 0))
        && has_words(tasks, 4, 0, 0, 4)
        && tops(tasks) == [0; 10]
        && are_absent(tasks)
}

/// Before its first start a task shows what it starts with; nobody is ready, and there is no other task.
#[test]
fn unstarted(rt: HostRuntime) {
    assert!(rt; goes_well(rt.alloc(), Scene::Unstarted));
}

/// Tasks become ready, and get other priorities. Whether the right ones run.
fn run_by_priority(tasks: &mut Tasks) -> bool {
    tasks.activate(2, Request::Assigned);
    tasks.activate(1, Request::Assigned);
    tasks.activate(4, Request::Assigned);
    if tops(tasks) != [0, 2, 4, 0, 0, 0, 0, 0, 0, 0] {
        return false;
    }
    tasks.activate(3, Request::Assigned);
    let ran_3 = runs(tasks, 1, 3);
    tasks.set_priority(3, 5);
    ran_3 && runs(tasks, 1, 2)
}

/// Ready tasks of one priority are turned, put last and moved. Whether the right ones run.
fn run_in_turn(tasks: &mut Tasks) -> bool {
    tasks.rotate(1, 5);
    let ran_1 = runs(tasks, 1, 1);
    tasks.set_priority(1, 5);
    let ran_3 = runs(tasks, 1, 3);
    tasks.migrate(3, 8);
    ran_1
        && ran_3
        && tops(tasks) == [0, 2, 4, 0, 0, 0, 0, 0, 3, 0]
        && is_so(tasks, 3, TaskState::Ready, (5, 8, 0, 0))
}

/// Ready tasks run by priority, and among equals by who was ready first.
#[test]
fn ready_lists(rt: HostRuntime) {
    assert!(rt; goes_well(rt.alloc(), Scene::ReadyLists));
}

/// Task 1 ends with a request for processor 3 queued, and another priority, context and wake-up.
fn starts_on_3(tasks: &mut Tasks) -> bool {
    tasks.activate(1, Request::Assigned);
    tasks.activate(1, Request::On(3));
    tasks.set_priority(1, 9);
    tasks.set_wakeup(1, true);
    if tasks.task(1).is_none() {
        return false;
    }
    tasks.put_context(1, Context::opening(0x8000_2000, 77, 0));
    let was_so = is_so(tasks, 1, TaskState::Ready, (9, 1, 1, 1));
    tasks.end(1);
    was_so && is_so(tasks, 1, TaskState::Ready, (5, 3, 0, 0)) && has_words(tasks, 1, 0, 0, 1)
}

/// Task 1 ends with a request queued, and is on another processor then; and ends once more after a request that was
/// taken back.
fn starts_where_it_is(tasks: &mut Tasks) -> bool {
    tasks.activate(1, Request::Assigned);
    tasks.migrate(1, 7);
    tasks.end(1);
    let was_so = is_so(tasks, 1, TaskState::Ready, (5, 7, 0, 0));
    tasks.activate(1, Request::Assigned);
    tasks.clear_activation(1);
    tasks.set_priority(1, 4);
    tasks.end(1);
    was_so && is_so(tasks, 1, TaskState::Dormant, (4, 7, 0, 0)) && tops(tasks) == [0; 10]
}

/// A queued request is met at the end, with the first priority and context, on the processor that it names or that is
/// assigned then.
#[test]
fn starts_again(rt: HostRuntime) {
    assert!(rt; goes_well(rt.alloc(), Scene::StartsAgain));
}

/// Whether a task waits for this.
fn waits_for(tasks: &Tasks, id: u16, reason: WaitReason) -> bool {
    match tasks.view(id) {
        Some(view) => view.waiting == Some(reason),
        None => false,
    }
}

/// Task 1 sleeps, is suspended and is released, once with an answer and once without effect.
fn sleeps_suspended(tasks: &mut Tasks) -> bool {
    tasks.activate(1, Request::Assigned);
    tasks.block(1, WaitReason::Sleep);
    let slept = waits_for(tasks, 1, WaitReason::Sleep);
    tasks.suspend(1);
    let waited = is_so(tasks, 1, TaskState::WaitingSuspended, (5, 1, 0, 0));
    tasks.release(1, 0xffff_ffcf, None);
    let was_suspended = is_so(tasks, 1, TaskState::Suspended, (5, 1, 0, 0));
    let was_answered = has_words(tasks, 1, 0xffff_ffcf, 0, 1);
    tasks.release(1, 5, Some(6));
    slept && waited && was_suspended && was_answered && has_words(tasks, 1, 0xffff_ffcf, 0, 1)
}

/// Task 1 is resumed, waits, is suspended and resumed while it does, and is released.
fn waits_resumed(tasks: &mut Tasks) -> bool {
    tasks.resume(1);
    let ran = runs(tasks, 1, 1);
    tasks.block(1, WaitReason::On(WaitKind::Flag, 9));
    tasks.suspend(1);
    tasks.resume(1);
    let waited = is_so(tasks, 1, TaskState::Waiting, (5, 1, 0, 0));
    tasks.release(1, 0, Some(6));
    ran && waited && has_words(tasks, 1, 0, 6, 1) && runs(tasks, 1, 1)
}

/// Waiting and being suspended come and go by themselves; a release answers the call.
#[test]
fn waits(rt: HostRuntime) {
    assert!(rt; goes_well(rt.alloc(), Scene::Waits));
}

/// Whether task 1 is dormant still after calls that don't touch a dormant task.
fn stays_dormant(tasks: &mut Tasks) -> bool {
    tasks.set_wakeup(1, true);
    tasks.block(1, WaitReason::Sleep);
    tasks.suspend(1);
    tasks.resume(1);
    tasks.release(1, 1, None);
    tasks.end(1);
    is_so(tasks, 1, TaskState::Dormant, (5, 1, 0, 0)) && has_words(tasks, 1, 0, 0, 1)
}

/// Nothing is queued for a dormant task.
#[test]
fn dormant(rt: HostRuntime) {
    assert!(rt; goes_well(rt.alloc(), Scene::Dormant));
}

/// The setups of 255 tasks of processor 8.
fn all_setups(alloc: Global) -> Result<Vec<TaskSetup>, AllocError> {
    let mut setups = Vec::new(alloc);
    for id in 1..256u16 {
        setups.push(setup(id, 8, 16))?;
    }
    Ok(setups)
}

/// Whether 255 ready tasks run in turn, each once, and then the first again.
fn all_run(tasks: &mut Tasks) -> bool {
    for id in 1..256u16 {
        if !runs(tasks, 8, id) {
            return false;
        }
        tasks.rotate(8, 16);
    }
    runs(tasks, 8, 1)
}

/// Makes 255 tasks ready.
fn activate_all(tasks: &mut Tasks) {
    for id in 1..256u16 {
        tasks.activate(id, Request::Assigned);
    }
}

/// 255 tasks of one processor, each of which goes after the others in turn.
#[test]
fn every_number(rt: HostRuntime) -> Result<(), Fail> {
    let setups = all_setups(rt.alloc())?;
    let mut tasks = tasks_of(rt.alloc(), &setups)?;
    activate_all(&mut tasks);
    assert!(rt; all_run(&mut tasks));
    Ok(())
}
