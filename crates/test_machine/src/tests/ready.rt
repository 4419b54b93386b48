//! Ready lists of many tasks, and each change at each place of a list.

use super::configs::setup;
use brd_base::NoMemory;
use brd_tasks::{Request, TaskSetup, Tasks, WaitReason, are_setups};
use std::alloc::{AllocError, Global};
use std::test::Fail;

/// The tasks of these setups, started in the order of their numbers.
fn started(alloc: Global, setups: &[TaskSetup]) -> Result<Tasks, NoMemory> {
    if !are_setups(setups) {
        return Err(NoMemory);
    }
    let mut tasks = Tasks::new(alloc, setups)?;
    for setup in setups {
        tasks.activate(setup.id, Request::Assigned);
    }
    Ok(tasks)
}

/// 255 tasks over n processors and 16 priorities in turn.
fn spread(alloc: Global, processors: u16) -> Result<Vec<TaskSetup>, AllocError> {
    let mut setups = Vec::new(alloc);
    for id in 1..256u16 {
        let cpu = id % processors.max(1) + 1;
        let priority = id / processors.max(1) % 16 + 1;
        setups.push(setup(id, (cpu % 256) as u8, (priority % 256) as u8))?;
    }
    Ok(setups)
}

/// Whether these tasks are the first ones of a processor, in this order; they wait then.
fn run_in_order(tasks: &mut Tasks, cpu: u8, order: &[u16]) -> bool {
    for id in order {
        if tasks.top(cpu) != Some(*id) {
            return false;
        }
        tasks.block(*id, WaitReason::Sleep);
    }
    true
}

/// The numbers of tasks that leave this remainder, by ascending number.
fn numbers(alloc: Global, divisor: u16, remainder: u16) -> Result<Vec<u16>, AllocError> {
    let mut all = Vec::new(alloc);
    for id in 1..256u16 {
        if id % divisor.max(1) == remainder {
            all.push(id)?;
        }
    }
    Ok(all)
}

/// Whether the tasks of `spread` run by priority on a processor, and those of a priority in the order of their numbers.
fn run_by_priority(
    alloc: Global,
    tasks: &mut Tasks,
    processors: u16,
    cpu: u8,
) -> Result<bool, AllocError> {
    for priority in 0..16u16 {
        let remainder = priority
            .wrapping_mul(processors)
            .wrapping_add(cpu as u16)
            .wrapping_sub(1);
        let order = numbers(alloc, processors.wrapping_mul(16), remainder)?;
        if !run_in_order(tasks, cpu, order.as_slice()) {
            return Ok(false);
        }
    }
    Ok(tasks.top(cpu).is_none())
}

/// 255 tasks of all priorities on one processor.
#[test]
fn on_one_processor(rt: HostRuntime) -> Result<(), Fail> {
    let setups = spread(rt.alloc(), 1)?;
    let mut tasks = started(rt.alloc(), setups.as_slice())?;
    assert!(rt; run_by_priority(rt.alloc(), &mut tasks, 1, 1)?);
    Ok(())
}

/// Whether the tasks of `spread` over eight processors run by priority on each of them.
fn run_on_eight(alloc: Global, tasks: &mut Tasks) -> Result<bool, AllocError> {
    for cpu in 1..9u8 {
        if !run_by_priority(alloc, tasks, 8, cpu)? {
            return Ok(false);
        }
    }
    Ok(true)
}

/// 255 tasks of all priorities on eight processors.
#[test]
fn on_eight_processors(rt: HostRuntime) -> Result<(), Fail> {
    let setups = spread(rt.alloc(), 8)?;
    let mut tasks = started(rt.alloc(), setups.as_slice())?;
    assert!(rt; run_on_eight(rt.alloc(), &mut tasks)?);
    Ok(())
}

/// 255 tasks, the last of which has the highest priority, each another one.
fn each_another(alloc: Global) -> Result<Vec<TaskSetup>, AllocError> {
    let mut setups = Vec::new(alloc);
    for number in 0..255u16 {
        let id = 255 - number;
        setups.push(setup(id, 8, (id % 256) as u8))?;
    }
    Ok(setups)
}

/// As many priorities as there are numbers in a byte: a configuration gives tasks 16, and ready lists know them all.
#[test]
fn of_every_priority(rt: HostRuntime) -> Result<(), Fail> {
    let setups = each_another(rt.alloc())?;
    let mut tasks = started(rt.alloc(), setups.as_slice())?;
    let order = numbers(rt.alloc(), 1, 0)?;
    assert!(rt; run_in_order(&mut tasks, 8, order.as_slice()) && tasks.top(8).is_none());
    Ok(())
}

/// What happens to a ready task.
#[derive(Clone, Copy)]
enum Deed {
    Waits,
    WaitsAndIsReleased,
    IsSuspended,
    Ends,
    Gets(u8),
    Migrates,
    Turns(u8),
}

/// Does it on processor 1.
fn happens(tasks: &mut Tasks, deed: Deed, id: u16) {
    match deed {
        Deed::Waits => tasks.block(id, WaitReason::Sleep),
        Deed::WaitsAndIsReleased => {
            tasks.block(id, WaitReason::Sleep);
            tasks.release(id, 0, None);
        }
        Deed::IsSuspended => tasks.suspend(id),
        Deed::Ends => tasks.end(id),
        Deed::Gets(priority) => tasks.set_priority(id, priority),
        Deed::Migrates => tasks.migrate(id, 2),
        Deed::Turns(priority) => tasks.rotate(1, priority),
    }
}

/// Tasks 1 to 5 have priority 9, task 6 has 8 and task 7 has 10, and all are on processor 1. What happens to which of
/// them, and who runs there then, in this order: the first of its equals, one between them, the last, the only one.
const DEEDS: &[(Deed, u16, &[u16])] = &[
    (Deed::Waits, 1, &[6, 2, 3, 4, 5, 7]),
    (Deed::Waits, 3, &[6, 1, 2, 4, 5, 7]),
    (Deed::Waits, 5, &[6, 1, 2, 3, 4, 7]),
    (Deed::Waits, 6, &[1, 2, 3, 4, 5, 7]),
    (Deed::WaitsAndIsReleased, 1, &[6, 2, 3, 4, 5, 1, 7]),
    (Deed::WaitsAndIsReleased, 3, &[6, 1, 2, 4, 5, 3, 7]),
    (Deed::WaitsAndIsReleased, 5, &[6, 1, 2, 3, 4, 5, 7]),
    (Deed::WaitsAndIsReleased, 6, &[6, 1, 2, 3, 4, 5, 7]),
    (Deed::IsSuspended, 1, &[6, 2, 3, 4, 5, 7]),
    (Deed::IsSuspended, 4, &[6, 1, 2, 3, 5, 7]),
    (Deed::IsSuspended, 5, &[6, 1, 2, 3, 4, 7]),
    (Deed::IsSuspended, 7, &[6, 1, 2, 3, 4, 5]),
    (Deed::Ends, 1, &[6, 2, 3, 4, 5, 7]),
    (Deed::Ends, 2, &[6, 1, 3, 4, 5, 7]),
    (Deed::Ends, 5, &[6, 1, 2, 3, 4, 7]),
    (Deed::Ends, 6, &[1, 2, 3, 4, 5, 7]),
    (Deed::Gets(9), 1, &[6, 2, 3, 4, 5, 1, 7]),
    (Deed::Gets(9), 3, &[6, 1, 2, 4, 5, 3, 7]),
    (Deed::Gets(9), 5, &[6, 1, 2, 3, 4, 5, 7]),
    (Deed::Gets(9), 6, &[1, 2, 3, 4, 5, 6, 7]),
    (Deed::Gets(8), 1, &[6, 1, 2, 3, 4, 5, 7]),
    (Deed::Gets(8), 3, &[6, 3, 1, 2, 4, 5, 7]),
    (Deed::Gets(8), 5, &[6, 5, 1, 2, 3, 4, 7]),
    (Deed::Gets(8), 6, &[6, 1, 2, 3, 4, 5, 7]),
    (Deed::Gets(16), 1, &[6, 2, 3, 4, 5, 7, 1]),
    (Deed::Gets(16), 3, &[6, 1, 2, 4, 5, 7, 3]),
    (Deed::Gets(16), 5, &[6, 1, 2, 3, 4, 7, 5]),
    (Deed::Gets(16), 6, &[1, 2, 3, 4, 5, 7, 6]),
    (Deed::Migrates, 1, &[6, 2, 3, 4, 5, 7]),
    (Deed::Migrates, 3, &[6, 1, 2, 4, 5, 7]),
    (Deed::Migrates, 5, &[6, 1, 2, 3, 4, 7]),
    (Deed::Migrates, 6, &[1, 2, 3, 4, 5, 7]),
    (Deed::Turns(9), 0, &[6, 2, 3, 4, 5, 1, 7]),
    (Deed::Turns(8), 0, &[6, 1, 2, 3, 4, 5, 7]),
    (Deed::Turns(1), 0, &[6, 1, 2, 3, 4, 5, 7]),
    (Deed::Turns(16), 0, &[6, 1, 2, 3, 4, 5, 7]),
];

/// In which order they run at first.
const SEVEN: &[u16] = &[6, 1, 2, 3, 4, 5, 7];

/// Seven tasks of processor 1, as `DEEDS` has them.
fn seven(alloc: Global) -> Result<Tasks, NoMemory> {
    started(
        alloc,
        &[
            setup(1, 1, 9),
            setup(2, 1, 9),
            setup(3, 1, 9),
            setup(4, 1, 9),
            setup(5, 1, 9),
            setup(6, 1, 8),
            setup(7, 1, 10),
        ],
    )
}

/// Whether the tasks run in this order once it has happened, and nobody else, and who migrated runs on processor 2.
/// Another order is seen by a comparison.
fn goes_so(alloc: Global, deed: Deed, id: u16, order: &[u16]) -> Result<bool, NoMemory> {
    let before = seven(alloc)?;
    let mut tasks = before.try_copy()?;
    let was_same = tasks.same(&before);
    happens(&mut tasks, deed, id);
    let migrated = match deed {
        Deed::Migrates => Some(id),
        _ => None,
    };
    let runs_there = tasks.top(2) == migrated;
    let is_same = tasks.same(&before);
    let stays = order == SEVEN;
    Ok(
        was_same
            && runs_there
            && (stays || !is_same)
            && run_in_order(&mut tasks, 1, order)
            && tasks.top(1).is_none(),
    )
}

/// The first row of `DEEDS` that isn't as it says.
fn wrong_deed(alloc: Global) -> Result<Option<usize>, NoMemory> {
    for i in 0..DEEDS.len() {
        let (deed, id, order) = DEEDS[i];
        if !goes_so(alloc, deed, id, order)? {
            return Ok(Some(i));
        }
    }
    Ok(None)
}

/// Each change of a ready list, of the first of its equals, of one between them, of the last and of the only one.
#[test]
fn each_place(rt: HostRuntime) -> Result<(), Fail> {
    assert!(rt; wrong_deed(rt.alloc())?.is_none());
    Ok(())
}
