use super::configs::{flag, mailbox, pool, queue, semaphore, setup};
use brd_base::NoMemory;
use brd_config::{FlagConfig, MutexConfig, Protocol, QueueConfig, SemaphoreConfig, SpinLockConfig};
use brd_kernel::{
    Call, Handler, Kernel, LineSetup, Marks, Reply, Sensed, Spin, Standing, TaskState,
};
use brd_tasks::are_setups;
use std::alloc::Global;

/// A kernel of two processors with these objects, with spin locks 1 and 255, with mutexes 1 and 2 (TA_INHERIT) and 3
/// (TA_CEILING, 4), with memory pools 1 (two blocks) and 2 (TA_TPRI, one block), with mailboxes 1 and 2 (TA_TPRI,
/// TA_MPRI, of three priorities), of which these tasks have been started.
/// Tasks 1 and 2 are of processor 1 and of priorities 2 and 3, tasks 3 and 4 of processor 2 and of priorities 5 and 9.
fn of_four(
    alloc: Global,
    semaphores: &[SemaphoreConfig],
    flags: &[FlagConfig],
    queues: &[QueueConfig],
    started: &[u16],
) -> Result<Kernel, NoMemory> {
    let setups = [
        setup(1, 1, 2),
        setup(2, 1, 3),
        setup(3, 2, 5),
        setup(4, 2, 9),
    ];
    if !are_setups(&setups) {
        return Err(NoMemory);
    }
    let locks = [SpinLockConfig { id: 1 }, SpinLockConfig { id: 255 }];
    let mutexes = [
        mutex(1, Protocol::Inherit, 0),
        mutex(2, Protocol::Inherit, 0),
        mutex(3, Protocol::Ceiling, 4),
    ];
    let mut kernel = Kernel::new(
        alloc,
        true,
        2,
        &setups,
        &[],
        semaphores,
        flags,
        queues,
        &locks,
        &mutexes,
        &[pool(1, 0, 2, FIRST), pool(2, 1, 1, ALONE)],
        &[mailbox(1, 0, 1), mailbox(2, 3, 3)],
    )?;
    for id in started {
        kernel.start(*id);
    }
    let _ = kernel.dispatch();
    Ok(kernel)
}

/// A mutex.
fn mutex(id: u16, protocol: Protocol, ceiling: u8) -> MutexConfig {
    MutexConfig {
        id,
        protocol,
        ceiling,
    }
}

/// The blocks of memory pool 1, and that of memory pool 2.
const FIRST: u32 = 0x8000_8000;

const SECOND: u32 = 0x8000_8008;

const ALONE: u32 = 0x8000_9000;

/// A kernel of which tasks 2 and 4 run.
fn of_mutexes(alloc: Global) -> Result<Kernel, NoMemory> {
    of_four(alloc, &[], &[], &[], &[2, 4])
}

/// A kernel without objects. Tasks 1 and 2 are ready on processor 1, and task 3 on processor 2; task 4 is dormant.
/// Tasks 1 and 3 run.
fn two(alloc: Global) -> Result<Kernel, NoMemory> {
    of_four(alloc, &[], &[], &[], &[2, 1, 3])
}

/// A kernel of four ready tasks, of which 1 and 3 run. Semaphore 1 is full, semaphore 2 (TA_TPRI) is empty, flag 1 has
/// bit 0 and lets one task wait, flag 2 (TA_WMUL, TA_CLR) has no bits, queue 1 stores nothing, and queue 2 (TA_TPRI) is
/// empty.
fn with_objects(alloc: Global) -> Result<Kernel, NoMemory> {
    let semaphores = [semaphore(1, 0, 1, 1), semaphore(2, 1, 0, 1)];
    let flags = [flag(1, 0, 1), flag(2, 6, 0)];
    let queues = [queue(1, 0, 0), queue(2, 1, 2)];
    of_four(alloc, &semaphores, &flags, &queues, &[1, 2, 3, 4])
}

const OK: Reply = Reply::Answer(0, None);

const PAR: Reply = Reply::Answer(0xffff_ffef, None);

const ID: Reply = Reply::Answer(0xffff_ffee, None);

const ILUSE: Reply = Reply::Answer(0xffff_ffe4, None);

const OBJ: Reply = Reply::Answer(0xffff_ffd7, None);

const NOEXS: Reply = Reply::Answer(0xffff_ffd6, None);

const QOVR: Reply = Reply::Answer(0xffff_ffd5, None);

const TMOUT: Reply = Reply::Answer(0xffff_ffce, None);

/// TMO_FEVR and TMO_POL, and what is no timeout.
const FOREVER: u32 = 0xffff_ffff;

const POLL: u32 = 0;

const BAD: u32 = 0xffff_fffe;

/// A call from a processor, what it answers, and which processors' running tasks change by the dispatch after it.
type Served = (u8, Call, Reply, u8);

/// Whether a call from a processor, with a dispatch after it, is answered so and lets these running tasks change.
fn serves(kernel: &mut Kernel, cpu: u8, call: Call, reply: Reply, changed: u8) -> bool {
    let told = kernel.serve(cpu, call);
    kernel.dispatch() == changed && told == reply
}

/// The first of these calls, one after the other, that isn't served so.
fn first_other(kernel: &mut Kernel, rows: &[Served]) -> Option<usize> {
    for (n, (cpu, call, reply, changed)) in rows.iter().enumerate() {
        if !serves(kernel, *cpu, *call, *reply, *changed) {
            return Some(n);
        }
    }
    None
}

/// The same for calls from processor 1 that let no running task change.
fn first_other_of_one(kernel: &mut Kernel, rows: &[(Call, Reply)]) -> Option<usize> {
    for (n, (call, reply)) in rows.iter().enumerate() {
        if !serves(kernel, 1, *call, *reply, 0) {
            return Some(n);
        }
    }
    None
}

/// Whether a kernel is one of `two` to which nothing has happened.
fn is_new(kernel: &Kernel) -> bool {
    kernel.standing(0).is_none()
        && kernel.standing(1) == Some(Standing::Task(1))
        && kernel.standing(2) == Some(Standing::Task(3))
        && kernel.standing(3).is_none()
        && kernel.standing(255).is_none()
        && kernel.now() == 0
        && !kernel.is_off()
        && is_dormant(kernel, 4)
}

/// Whether a task is dormant, with no request queued.
fn is_dormant(kernel: &Kernel, id: u16) -> bool {
    match kernel.task(id) {
        Some(task) => task.state == TaskState::Dormant && task.activations == 0,
        None => false,
    }
}

/// What a test does with a kernel.
#[derive(Clone, Copy)]
enum Scene {
    Making,
    Refusals,
    OfProcessors,
    Held(Call, Call),
    SpinLocks,
    HandlersLocks,
    OneProcessor,
    EightProcessors,
    OfObjects,
    Objects,
    Calls,
    Mutexes,
    Pools,
    Mailboxes,
    Faults,
    NoLines,
}

/// The kernel of a scene.
fn made(alloc: Global, scene: Scene) -> Result<Kernel, NoMemory> {
    match scene {
        Scene::OneProcessor => with_lines(alloc, false),
        Scene::EightProcessors => with_lines(alloc, true),
        Scene::HandlersLocks => with_handlers(alloc),
        Scene::OfObjects | Scene::Objects => with_objects(alloc),
        Scene::Mutexes | Scene::Pools | Scene::Mailboxes => of_mutexes(alloc),
        _ => two(alloc),
    }
}

/// Whether a scene's kernel does what it should. (Only this function owns a kernel.)
fn goes_well(alloc: Global, scene: Scene) -> bool {
    match made(alloc, scene) {
        Ok(mut kernel) => does(&mut kernel, scene),
        Err(_) => false,
    }
}

/// Whether a kernel does in a scene what it should.
fn does(kernel: &mut Kernel, scene: Scene) -> bool {
    match scene {
        Scene::Making => is_new(kernel),
        Scene::Refusals => first_other_of_one(kernel, REFUSALS).is_none(),
        Scene::OfProcessors => refuses_of_processors(kernel),
        Scene::Held(mark, unmark) => holds(kernel, mark, unmark),
        Scene::SpinLocks => locks(kernel),
        Scene::HandlersLocks => lock_in_handlers(kernel),
        Scene::OneProcessor => !kernel.raise(32) && handles_all(kernel),
        Scene::EightProcessors => handle_their_own(kernel),
        Scene::OfObjects => refuses_of_objects(kernel),
        Scene::Objects => first_other(kernel, CALLS_OF_OBJECTS).is_none(),
        Scene::Calls => serves_calls(kernel),
        Scene::Mutexes => lifts(kernel),
        Scene::Pools => first_other(kernel, CALLS_OF_POOLS).is_none(),
        Scene::Mailboxes => hands_messages_on(kernel),
        Scene::Faults => end_by_faults(kernel),
        Scene::NoLines => has_no_lines(kernel),
    }
}

#[test]
fn making(rt: HostRuntime) {
    assert!(rt; goes_well(rt.alloc(), Scene::Making));
}

const REFUSALS: &[(Call, Reply)] = &[
    (Call::ActTsk(256), ID),
    (Call::ActTsk(9), NOEXS),
    (Call::CanAct(0xffff_ffff), ID),
    (Call::CanAct(5), NOEXS),
    (Call::TerTsk(0), ID),
    (Call::TerTsk(7), NOEXS),
    (Call::TerTsk(1), ILUSE),
    (Call::TerTsk(4), OBJ),
    (Call::ChgPri(256, 17), ID),
    (Call::ChgPri(9, 17), PAR),
    (Call::ChgPri(9, 16), NOEXS),
    (Call::ChgPri(4, 16), OBJ),
    (Call::GetPri(300), ID),
    (Call::GetPri(9), NOEXS),
    (Call::GetPri(4), OBJ),
    (Call::WupTsk(300), ID),
    (Call::WupTsk(9), NOEXS),
    (Call::WupTsk(4), OBJ),
    (Call::CanWup(300), ID),
    (Call::CanWup(9), NOEXS),
    (Call::CanWup(4), OBJ),
    (Call::RelWai(0), ID),
    (Call::RelWai(9), NOEXS),
    (Call::RelWai(1), OBJ),
    (Call::RelWai(4), OBJ),
    (Call::SusTsk(300), ID),
    (Call::SusTsk(9), NOEXS),
    (Call::SusTsk(4), OBJ),
    (Call::RefTsk(300, 9), ID),
    (Call::RefTsk(9, 9), PAR),
    (Call::RefTsk(9, 8), NOEXS),
    (Call::RsmTsk(0), ID),
    (Call::RsmTsk(9), NOEXS),
    (Call::RsmTsk(1), OBJ),
    (Call::RsmTsk(4), OBJ),
];

/// Each refusal of each call, from task 1 on processor 1; of two reasons the earlier one in the order is answered.
#[test]
fn refusals(rt: HostRuntime) {
    assert!(rt; goes_well(rt.alloc(), Scene::Refusals));
}

const REFUSALS_OF_PROCESSORS: &[(Call, Reply)] = &[
    (Call::MactTsk(256, 9), ID),
    (Call::MactTsk(9, 0), PAR),
    (Call::MactTsk(9, 3), PAR),
    (Call::MactTsk(2, 0x101), PAR),
    (Call::MactTsk(9, 2), NOEXS),
    (Call::MactTsk(2, 1), QOVR),
    (Call::ImactTsk(0, 1), ID),
    (Call::ImactTsk(9, 3), PAR),
    (Call::ImactTsk(2, 1), QOVR),
    (Call::IactTsk(0), ID),
    (Call::IactTsk(9), NOEXS),
    (Call::IactTsk(2), QOVR),
    (Call::IwupTsk(0), ID),
    (Call::IwupTsk(4), OBJ),
    (Call::MigTsk(256, 3), ID),
    (Call::MigTsk(9, 3), PAR),
    (Call::MigTsk(2, 0x102), PAR),
    (Call::MigTsk(9, 1), NOEXS),
    (Call::MigTsk(4, 1), OBJ),
    (Call::MigTsk(0, 1), OBJ),
    (Call::MigTsk(2, 1), OBJ),
    (Call::RotRdq(17), PAR),
    (Call::RotRdq(0x100), PAR),
    (Call::IrotRdq(0), PAR),
    (Call::IrotRdq(17), PAR),
    (Call::IrotRdq(0x101), PAR),
    (Call::MgetTid(0), PAR),
    (Call::MgetTid(3), PAR),
    (Call::MgetTid(0x101), PAR),
    (Call::MrotRdq(17, 1), PAR),
    (Call::MrotRdq(1, 3), PAR),
    (Call::MrotRdq(1, 0x101), PAR),
];

/// Task 2 has a request queued. Whether the calls are refused then.
fn refuses_of_processors(kernel: &mut Kernel) -> bool {
    serves(kernel, 1, Call::MactTsk(2, 2), OK, 0)
        && first_other_of_one(kernel, REFUSALS_OF_PROCESSORS).is_none()
}

/// Each refusal of each call that names a processor or turns a list, from processor 1; of two reasons the earlier one
/// in the order is answered. Task 2 has a request queued.
#[test]
fn refusals_of_processors(rt: HostRuntime) {
    assert!(rt; goes_well(rt.alloc(), Scene::OfProcessors));
}

/// What processor 2 may do with tasks 1 and 2 while 1 is held.
const HELD: &[Served] = &[
    (2, Call::TerTsk(1), OBJ, 0),
    (2, Call::SusTsk(1), OBJ, 0),
    (2, Call::MigTsk(1, 2), OBJ, 0),
    (2, Call::ChgPri(1, 16), OK, 0),
    (2, Call::SusTsk(2), OK, 0),
    (2, Call::MigTsk(2, 2), OK, 0),
];

/// Whether a call, made twice by processor 1, holds task 1 there until another call.
fn holds(kernel: &mut Kernel, mark: Call, unmark: Call) -> bool {
    serves(kernel, 1, mark, OK, 0)
        && serves(kernel, 1, mark, OK, 0)
        && first_other(kernel, HELD).is_none()
        && serves(kernel, 1, unmark, OK, 0)
        && serves(kernel, 2, Call::SusTsk(1), OK, 1)
}

/// Each mark of processor 1 holds task 1 there: processor 2 neither ends nor suspends nor moves it, but does so with
/// task 2, which is ready there and doesn't run.
#[test]
fn held(rt: HostRuntime) {
    assert!(rt;
        goes_well(rt.alloc(), Scene::Held(Call::DisDsp, Call::EnaDsp))
            && goes_well(rt.alloc(), Scene::Held(Call::LocCpu, Call::UnlCpu))
    );
}

/// Calls for spin locks. Who ends while its processor holds one leaves it free.
const SPIN_LOCKS: &[Served] = &[
    (1, Call::LocSpn(0), ID, 0),
    (1, Call::TrySpn(256), ID, 0),
    (1, Call::UnlSpn(0x101), ID, 0),
    (1, Call::LocSpn(2), NOEXS, 0),
    (1, Call::TrySpn(254), NOEXS, 0),
    (1, Call::UnlSpn(2), NOEXS, 0),
    (1, Call::UnlSpn(1), ILUSE, 0),
    (1, Call::LocSpn(1), OK, 0),
    (2, Call::LocSpn(1), Reply::Again, 0),
    (2, Call::TrySpn(1), OBJ, 0),
    (2, Call::UnlSpn(1), ILUSE, 0),
    (2, Call::TrySpn(255), OK, 0),
    (2, Call::TerTsk(1), OBJ, 0),
    (1, Call::UnlSpn(255), ILUSE, 0),
    (1, Call::UnlSpn(1), OK, 0),
    (2, Call::UnlSpn(255), OK, 0),
    (2, Call::LocSpn(1), OK, 0),
    (1, Call::LocSpn(1), Reply::Again, 0),
    (2, Call::ExtTsk, Reply::Silent, 2),
    (1, Call::LocSpn(1), OK, 0),
    (1, Call::ExtKer, Reply::Silent, 0),
];

/// Whether calls for spin locks are served so, and who holds which lock then.
fn locks(kernel: &mut Kernel) -> bool {
    first_other(kernel, SPIN_LOCKS).is_none()
        && kernel.spin(0).is_none()
        && kernel.spin(1) == Some(Spin::Held(1))
        && kernel.spin(2).is_none()
        && kernel.spin(255) == Some(Spin::Free)
        && kernel.marks(1)
            == Some(Marks {
                locked: true,
                disabled: false,
                spin: Some(1),
            })
        && kernel.comes_again(Call::LocSpn(1))
        && !kernel.comes_again(Call::LocSpn(255))
        && !kernel.comes_again(Call::LocSpn(257))
        && !kernel.comes_again(Call::TrySpn(1))
}

#[test]
fn spin_locks(rt: HostRuntime) {
    assert!(rt; goes_well(rt.alloc(), Scene::SpinLocks));
}

/// Calls of a handler of processor 1 and of one of processor 2. A handler that ends while its processor holds a spin
/// lock leaves it free.
const LOCKS_OF_HANDLERS: &[Served] = &[
    (1, Call::LocCpu, OK, 0),
    (1, Call::LocCpu, OK, 0),
    (1, Call::UnlCpu, OK, 0),
    (1, Call::LocSpn(1), OK, 0),
    (2, Call::LocSpn(1), Reply::Again, 0),
    (2, Call::TrySpn(1), OBJ, 0),
    (2, Call::UnlSpn(1), ILUSE, 0),
    (1, Call::UnlSpn(1), OK, 0),
    (2, Call::TrySpn(1), OK, 0),
    (2, Call::RetInt, Reply::Silent, 0),
    (1, Call::LocSpn(1), OK, 0),
];

/// Whether a processor is neither CPU-locked nor holds a spin lock.
fn is_unmarked(kernel: &Kernel, cpu: u8) -> bool {
    kernel.marks(cpu)
        == Some(Marks {
            locked: false,
            disabled: false,
            spin: None,
        })
}

/// Whether handlers lock their processors and take a spin lock so, whose end and whose exception free it.
fn lock_in_handlers(kernel: &mut Kernel) -> bool {
    if !kernel.raise(1)
        || !kernel.raise(2)
        || kernel.accept(1) != Some(1)
        || kernel.accept(2) != Some(2)
    {
        return false;
    }
    first_other(kernel, LOCKS_OF_HANDLERS).is_none()
        && is_unmarked(kernel, 2)
        && kernel.spin(1) == Some(Spin::Held(1))
        && ends_by_fault(kernel)
}

/// Whether an exception in the handler of processor 1 stops it, with its spin lock free.
fn ends_by_fault(kernel: &mut Kernel) -> bool {
    kernel.end_by_fault(1);
    kernel.standing(1) == Some(Standing::Stopped)
        && is_unmarked(kernel, 1)
        && kernel.spin(1) == Some(Spin::Free)
}

/// Handlers that CPU-lock their processors, and take a spin lock.
#[test]
fn locks_of_handlers(rt: HostRuntime) {
    assert!(rt; goes_well(rt.alloc(), Scene::HandlersLocks));
}

const CALLS_OF_MUTEXES: &[Served] = &[
    // Task 4 has mutex 1, and task 2 mutex 2, for which task 1 waits: task 2 has its priority.
    (2, Call::TlocMtx(1, FOREVER), OK, 0),
    (1, Call::TlocMtx(2, FOREVER), OK, 0),
    (1, Call::ActTsk(1), OK, 1),
    (1, Call::TlocMtx(256, BAD), ID, 0),
    (1, Call::TlocMtx(9, BAD), PAR, 0),
    (1, Call::TlocMtx(9, FOREVER), NOEXS, 0),
    (1, Call::TlocMtx(2, POLL), TMOUT, 0),
    (1, Call::TlocMtx(2, FOREVER), Reply::Silent, 1),
    (1, Call::GetPri(0), Reply::Answer(0, Some(2)), 0),
    (2, Call::GetPri(0), Reply::Answer(0, Some(9)), 0),
    // Task 2 waits for mutex 1: task 4 has the priority of task 1 too, over processors.
    (1, Call::TlocMtx(1, FOREVER), Reply::Silent, 1),
    (2, Call::GetPri(0), Reply::Answer(0, Some(2)), 0),
    (2, Call::RefTsk(0, 2), Reply::Answer(0, Some(9)), 0),
    (2, Call::RefTsk(2, 3), Reply::Answer(0, Some(128)), 0),
    (2, Call::RefTsk(2, 4), Reply::Answer(0, Some(1)), 0),
    (2, Call::RefMtx(1, 0), Reply::Answer(0, Some(4)), 0),
    (2, Call::RefMtx(1, 1), Reply::Answer(0, Some(2)), 0),
    (2, Call::RefMtx(9, 2), PAR, 0),
    (2, Call::RefMtx(9, 1), NOEXS, 0),
    (2, Call::ActTsk(3), OK, 0),
    (2, Call::UnlMtx(2), ILUSE, 0),
    (2, Call::UnlMtx(9), NOEXS, 0),
    // Task 4 gives it to task 2 and comes down, so that task 3 runs.
    (2, Call::UnlMtx(1), OK, 3),
    (1, Call::GetPri(0), Reply::Answer(0, Some(2)), 0),
    // Task 3 ends task 2, which gives both back: task 1 has mutex 2.
    (2, Call::TerTsk(2), OK, 1),
    (1, Call::RefMtx(1, 0), Reply::Answer(0, Some(0)), 0),
    (1, Call::RefMtx(2, 0), Reply::Answer(0, Some(1)), 0),
    (1, Call::TlocMtx(2, FOREVER), ILUSE, 0),
    (1, Call::UnlMtx(2), OK, 0),
    (1, Call::UnlMtx(2), ILUSE, 0),
    // The ceiling: task 1 is above it, task 3 comes up to it.
    (1, Call::TlocMtx(3, FOREVER), ILUSE, 0),
    (2, Call::TlocMtx(3, POLL), OK, 0),
    (2, Call::GetPri(0), Reply::Answer(0, Some(4)), 0),
    (2, Call::ChgPri(0, 3), ILUSE, 0),
    (2, Call::ChgPri(0, 6), OK, 0),
    (2, Call::GetPri(0), Reply::Answer(0, Some(4)), 0),
    (2, Call::UnlMtx(3), OK, 0),
    (2, Call::GetPri(0), Reply::Answer(0, Some(6)), 0),
    // A wait that ends by time.
    (2, Call::TlocMtx(1, FOREVER), OK, 0),
    (1, Call::TlocMtx(1, 0), TMOUT, 0),
    (1, Call::TlocMtx(1, 1), Reply::Silent, 1),
    (2, Call::GetPri(0), Reply::Answer(0, Some(2)), 0),
];

/// Whether tasks have the priorities that they inherit, until what they have is given back or nobody waits for it.
fn lifts(kernel: &mut Kernel) -> bool {
    first_other(kernel, CALLS_OF_MUTEXES).is_none()
        && kernel.tick()
        && kernel.tick()
        && kernel.dispatch() == 1
        && serves(kernel, 2, Call::GetPri(0), Reply::Answer(0, Some(6)), 0)
        && serves(kernel, 2, Call::ExtTsk, Reply::Silent, 2)
        && serves(kernel, 1, Call::TlocMtx(1, POLL), OK, 0)
}

/// Calls on mutexes: who has one, and which priorities tasks have by that.
#[test]
fn mutexes(rt: HostRuntime) {
    assert!(rt; goes_well(rt.alloc(), Scene::Mutexes));
}

const CALLS_OF_POOLS: &[Served] = &[
    // The block with the lowest address comes first, and who finds none waits.
    (1, Call::TgetMpf(1, POLL), Reply::Answer(0, Some(FIRST)), 0),
    (
        2,
        Call::TgetMpf(1, FOREVER),
        Reply::Answer(0, Some(SECOND)),
        0,
    ),
    (1, Call::TgetMpf(256, BAD), ID, 0),
    (1, Call::TgetMpf(9, BAD), PAR, 0),
    (1, Call::TgetMpf(9, FOREVER), NOEXS, 0),
    (1, Call::TgetMpf(1, POLL), TMOUT, 0),
    (1, Call::TgetMpf(1, FOREVER), Reply::Silent, 1),
    (2, Call::RefTsk(2, 3), Reply::Answer(0, Some(0x2000)), 0),
    (2, Call::RefTsk(2, 4), Reply::Answer(0, Some(1)), 0),
    (2, Call::RefMpf(1, 0), Reply::Answer(0, Some(2)), 0),
    (2, Call::RefMpf(1, 1), Reply::Answer(0, Some(0)), 0),
    (2, Call::RefMpf(9, 2), PAR, 0),
    (2, Call::RefMpf(9, 1), NOEXS, 0),
    // No block begins there, or it isn't out; what comes back is the waiter's.
    (2, Call::RelMpf(1, FIRST + 4), PAR, 0),
    (2, Call::RelMpf(2, ALONE), PAR, 0),
    (2, Call::RelMpf(2, FIRST), PAR, 0),
    (2, Call::RelMpf(9, FIRST), NOEXS, 0),
    (2, Call::RelMpf(256, FIRST), ID, 0),
    (2, Call::RelMpf(1, FIRST), OK, 1),
    (1, Call::RefMpf(1, 1), Reply::Answer(0, Some(0)), 0),
    (1, Call::RelMpf(1, SECOND), OK, 0),
    (1, Call::RelMpf(1, SECOND), PAR, 0),
    (1, Call::RefMpf(1, 0), Reply::Answer(0, Some(0)), 0),
    (1, Call::RefMpf(1, 1), Reply::Answer(0, Some(1)), 0),
    (1, Call::TgetMpf(1, POLL), Reply::Answer(0, Some(SECOND)), 0),
    // By priority, task 3 waits in front of task 4.
    (1, Call::TgetMpf(2, POLL), Reply::Answer(0, Some(ALONE)), 0),
    (2, Call::TgetMpf(2, FOREVER), Reply::Silent, 2),
    (1, Call::ActTsk(3), OK, 2),
    (2, Call::TgetMpf(2, FOREVER), Reply::Silent, 2),
    (1, Call::RefMpf(2, 0), Reply::Answer(0, Some(3)), 0),
    (1, Call::RelMpf(2, ALONE), OK, 2),
    (1, Call::RefMpf(2, 0), Reply::Answer(0, Some(4)), 0),
];

/// Calls on memory pools: which block is handed out, and who has one that comes back.
#[test]
fn pools(rt: HostRuntime) {
    assert!(rt; goes_well(rt.alloc(), Scene::Pools));
}

const CALLS_OF_MAILBOXES: &[Served] = &[
    (1, Call::TrcvMbx(256, BAD), ID, 0),
    (1, Call::TrcvMbx(9, BAD), PAR, 0),
    (1, Call::TrcvMbx(9, FOREVER), NOEXS, 0),
    (1, Call::TrcvMbx(1, POLL), TMOUT, 0),
    // By arrival, of any priority.
    (1, Call::SndMbx(1, 10, 99), OK, 0),
    (1, Call::SndMbx(1, 20, 0), OK, 0),
    (2, Call::RefMbx(1, 0), Reply::Answer(0, Some(0)), 0),
    (2, Call::RefMbx(1, 1), Reply::Answer(0, Some(10)), 0),
    (2, Call::TrcvMbx(1, POLL), Reply::Answer(0, Some(10)), 0),
    (2, Call::TrcvMbx(1, FOREVER), Reply::Answer(0, Some(20)), 0),
    // By priority, after those of the same one.
    (1, Call::SndMbx(0, 10, 0), ID, 0),
    (1, Call::SndMbx(2, 10, 0), PAR, 0),
    (1, Call::SndMbx(2, 10, 4), PAR, 0),
    (1, Call::SndMbx(2, 10, 257), PAR, 0),
    (1, Call::SndMbx(9, 10, 0), NOEXS, 0),
    (1, Call::SndMbx(2, 10, 2), OK, 0),
    (1, Call::SndMbx(2, 20, 3), OK, 0),
    (1, Call::SndMbx(2, 30, 2), OK, 0),
    (1, Call::SndMbx(2, 40, 1), OK, 0),
    (2, Call::TrcvMbx(2, POLL), Reply::Answer(0, Some(40)), 0),
    (2, Call::TrcvMbx(2, POLL), Reply::Answer(0, Some(10)), 0),
    (2, Call::TrcvMbx(2, POLL), Reply::Answer(0, Some(30)), 0),
    (2, Call::TrcvMbx(2, POLL), Reply::Answer(0, Some(20)), 0),
    // Task 4 waits for one, and is given it.
    (2, Call::TrcvMbx(2, FOREVER), Reply::Silent, 2),
    (1, Call::RefTsk(4, 3), Reply::Answer(0, Some(64)), 0),
    (1, Call::RefTsk(4, 4), Reply::Answer(0, Some(2)), 0),
    (1, Call::RefMbx(2, 0), Reply::Answer(0, Some(4)), 0),
    (1, Call::RefMbx(9, 2), PAR, 0),
    (1, Call::RefMbx(9, 1), NOEXS, 0),
    (1, Call::SndMbx(2, 50, 3), OK, 2),
    (1, Call::RefMbx(2, 0), Reply::Answer(0, Some(0)), 0),
    (1, Call::RefMbx(2, 1), Reply::Answer(0, Some(0)), 0),
];

/// Whether messages are handed on, until there is no room for one more.
fn hands_messages_on(kernel: &mut Kernel) -> bool {
    if first_other(kernel, CALLS_OF_MAILBOXES).is_some() {
        return false;
    }
    for n in 0..256u32 {
        if !serves(kernel, 1, Call::SndMbx(1, n, 1), OK, 0) {
            return false;
        }
    }
    serves(kernel, 1, Call::SndMbx(1, 256, 1), QOVR, 0)
        && serves(
            kernel,
            2,
            Call::TrcvMbx(1, POLL),
            Reply::Answer(0, Some(0)),
            0,
        )
        && serves(kernel, 1, Call::SndMbx(1, 256, 1), OK, 0)
}

/// Calls on mailboxes: in which order messages are received, and who has one that is waited for.
#[test]
fn mailboxes(rt: HostRuntime) {
    assert!(rt; goes_well(rt.alloc(), Scene::Mailboxes));
}

/// A kernel of eight processors, each idle, whose 32 lines all have handlers: on processor 1, or on each processor in
/// turn.
fn with_lines(alloc: Global, in_turn: bool) -> Result<Kernel, NoMemory> {
    let handler = Handler {
        cpu: 1,
        address: 0x8000_0100,
        argument: 0,
    };
    let quiet = LineSetup {
        line: 0,
        handler,
        course: None,
    };
    let mut lines = [quiet; 32];
    for n in 0..32usize {
        lines[n].line = n as u8;
        if in_turn {
            lines[n].handler.cpu = 1 + n as u8 % 8;
        }
    }
    Kernel::new(
        alloc,
        false,
        8,
        &[],
        &lines,
        &[],
        &[],
        &[],
        &[],
        &[],
        &[],
        &[],
    )
}

/// A kernel of two processors with the profile, with spin lock 1, and with the handlers of line 1, of processor 1, and
/// of line 2, of processor 2.
fn with_handlers(alloc: Global) -> Result<Kernel, NoMemory> {
    let lines = [line_of(1, 1), line_of(2, 2)];
    Kernel::new(
        alloc,
        true,
        2,
        &[],
        &lines,
        &[],
        &[],
        &[],
        &[SpinLockConfig { id: 1 }],
        &[],
        &[],
        &[],
    )
}

/// The line of a handler of a processor.
fn line_of(line: u8, cpu: u8) -> LineSetup {
    LineSetup {
        line,
        handler: Handler {
            cpu,
            address: 0x8000_0000,
            argument: u32::from(line),
        },
        course: None,
    }
}

/// Whether a processor accepts the interrupt of a line, and no other until its handler has ended.
fn handles(kernel: &mut Kernel, cpu: u8, line: u8) -> bool {
    kernel.accept(cpu) == Some(line)
        && kernel.accept(cpu).is_none()
        && kernel.standing(cpu) == Some(Standing::Handler(line))
        && kernel.serve(cpu, Call::RetInt) == Reply::Silent
}

/// Whether 32 lines, raised from the highest down, are accepted by processor 1 alone, from the lowest up.
fn handles_all(kernel: &mut Kernel) -> bool {
    for line in 0..32u8 {
        if !kernel.raise(31 - line) {
            return false;
        }
    }
    for line in 0..32u8 {
        if kernel.deliverable(2).is_some() || !handles(kernel, 1, line) {
            return false;
        }
    }
    kernel.accept(1).is_none() && kernel.standing(1) == Some(Standing::Idle)
}

/// All 32 lines are pending on one processor: it accepts them from the lowest up, each once the handler before has
/// ended.
#[test]
fn lines_of_one_processor(rt: HostRuntime) {
    assert!(rt; goes_well(rt.alloc(), Scene::OneProcessor));
}

/// Whether 32 lines are accepted by eight processors, four by each, the lowest first.
fn handle_their_own(kernel: &mut Kernel) -> bool {
    for line in 0..32u8 {
        if !kernel.raise(line) {
            return false;
        }
    }
    for line in 0..32u8 {
        if !handles(kernel, 1 + line % 8, line) {
            return false;
        }
    }
    has_none_deliverable(kernel)
}

/// Whether no interrupt is delivered to processors 0 to 9.
fn has_none_deliverable(kernel: &Kernel) -> bool {
    for cpu in 0..10u8 {
        if kernel.deliverable(cpu).is_some() {
            return false;
        }
    }
    true
}

/// The lines of eight processors: each accepts its own alone, the lowest first.
#[test]
fn lines_of_eight_processors(rt: HostRuntime) {
    assert!(rt; goes_well(rt.alloc(), Scene::EightProcessors));
}

const REFUSALS_OF_OBJECTS: &[(Call, Reply)] = &[
    (Call::TslpTsk(BAD), PAR),
    (Call::TslpTsk(0x8000_0000), PAR),
    (Call::TslpTsk(POLL), TMOUT),
    (Call::DlyTsk(0x8000_0000), PAR),
    (Call::DlyTsk(FOREVER), PAR),
    (Call::SigSem(0), ID),
    (Call::SigSem(256), ID),
    (Call::SigSem(3), NOEXS),
    (Call::SigSem(1), QOVR),
    (Call::TwaiSem(256, BAD), ID),
    (Call::TwaiSem(3, BAD), PAR),
    (Call::TwaiSem(1, BAD), PAR),
    (Call::TwaiSem(3, POLL), NOEXS),
    (Call::TwaiSem(2, POLL), TMOUT),
    (Call::SetFlg(0, 1), ID),
    (Call::SetFlg(3, 1), NOEXS),
    (Call::ClrFlg(256, 1), ID),
    (Call::ClrFlg(3, 1), NOEXS),
    (Call::TwaiFlg(0, 0, 2, BAD), ID),
    (Call::TwaiFlg(3, 0, 0, POLL), PAR),
    (Call::TwaiFlg(3, 1, 2, POLL), PAR),
    (Call::TwaiFlg(3, 1, 0, BAD), PAR),
    (Call::TwaiFlg(3, 1, 0, POLL), NOEXS),
    (Call::TwaiFlg(1, 0, 0, POLL), PAR),
    (Call::TwaiFlg(1, 1, 0, POLL), ILUSE),
    (Call::TwaiFlg(1, 4, 1, FOREVER), ILUSE),
    (Call::TwaiFlg(2, 1, 1, POLL), TMOUT),
    (Call::TsndDtq(256, 7, BAD), ID),
    (Call::TsndDtq(3, 7, BAD), PAR),
    (Call::TsndDtq(2, 7, BAD), PAR),
    (Call::TsndDtq(3, 7, POLL), NOEXS),
    (Call::TsndDtq(1, 7, POLL), TMOUT),
    (Call::FsndDtq(0, 7), ID),
    (Call::FsndDtq(3, 7), NOEXS),
    (Call::FsndDtq(1, 7), ILUSE),
    (Call::TrcvDtq(256, BAD), ID),
    (Call::TrcvDtq(3, BAD), PAR),
    (Call::TrcvDtq(2, BAD), PAR),
    (Call::TrcvDtq(3, POLL), NOEXS),
    (Call::TrcvDtq(2, POLL), TMOUT),
    (Call::RefSem(0, 2), ID),
    (Call::RefSem(3, 2), PAR),
    (Call::RefSem(3, 1), NOEXS),
    (Call::RefFlg(256, 2), ID),
    (Call::RefFlg(3, 2), PAR),
    (Call::RefFlg(3, 1), NOEXS),
    (Call::RefDtq(0, 3), ID),
    (Call::RefDtq(3, 3), PAR),
    (Call::RefDtq(3, 2), NOEXS),
];

/// Task 3 waits for a bit of flag 1. Whether the calls are refused then.
fn refuses_of_objects(kernel: &mut Kernel) -> bool {
    serves(kernel, 2, Call::TwaiFlg(1, 2, 0, FOREVER), Reply::Silent, 2)
        && first_other_of_one(kernel, REFUSALS_OF_OBJECTS).is_none()
}

/// Each refusal of each call that names an object or a time; of two reasons the earlier one in the order is answered,
/// also where the call could be done at once. Task 3 waits for a bit of flag 1.
#[test]
fn refusals_of_objects(rt: HostRuntime) {
    assert!(rt; goes_well(rt.alloc(), Scene::OfObjects));
}

const CALLS_OF_OBJECTS: &[Served] = &[
    // Task 1 takes the one, and waits for the next; task 3 returns it.
    (1, Call::TwaiSem(1, FOREVER), OK, 0),
    (1, Call::TwaiSem(1, 5), Reply::Silent, 1),
    (2, Call::RefSem(1, 0), Reply::Answer(0, Some(1)), 0),
    (2, Call::RefSem(1, 1), Reply::Answer(0, Some(0)), 0),
    (2, Call::RefTsk(1, 0), Reply::Answer(0, Some(4)), 0),
    (2, Call::RefTsk(1, 3), Reply::Answer(0, Some(4)), 0),
    (2, Call::RefTsk(1, 4), Reply::Answer(0, Some(1)), 0),
    (2, Call::RefTsk(1, 5), Reply::Answer(0, Some(5)), 0),
    (2, Call::SigSem(1), OK, 1),
    (2, Call::SigSem(1), OK, 0),
    // Flag 2 clears itself; flag 1 keeps its pattern.
    (1, Call::TwaiFlg(2, 6, 0, FOREVER), Reply::Silent, 1),
    (2, Call::SetFlg(2, 2), OK, 0),
    (2, Call::RefFlg(2, 0), Reply::Answer(0, Some(1)), 0),
    (2, Call::RefFlg(2, 1), Reply::Answer(0, Some(2)), 0),
    (2, Call::RefTsk(1, 5), Reply::Answer(0, Some(FOREVER)), 0),
    (2, Call::SetFlg(2, 4), OK, 1),
    (2, Call::TwaiFlg(2, 6, 1, POLL), TMOUT, 0),
    (
        2,
        Call::TwaiFlg(1, 1, 0, POLL),
        Reply::Answer(0, Some(1)),
        0,
    ),
    (2, Call::ClrFlg(1, 0xffff_fffe), OK, 0),
    (2, Call::TwaiFlg(1, 1, 0, POLL), TMOUT, 0),
    // Queue 1 hands over; queue 2 stores two data, and the third in the place of the first.
    (1, Call::TrcvDtq(1, FOREVER), Reply::Silent, 1),
    (2, Call::FsndDtq(1, 7), ILUSE, 0),
    (2, Call::TsndDtq(1, 7, POLL), OK, 1),
    (1, Call::TsndDtq(2, 10, POLL), OK, 0),
    (1, Call::TsndDtq(2, 11, POLL), OK, 0),
    (1, Call::FsndDtq(2, 12), OK, 0),
    (1, Call::TsndDtq(2, 13, FOREVER), Reply::Silent, 1),
    (2, Call::RefDtq(2, 0), Reply::Answer(0, Some(1)), 0),
    (2, Call::RefDtq(2, 1), Reply::Answer(0, Some(0)), 0),
    (2, Call::RefDtq(2, 2), Reply::Answer(0, Some(2)), 0),
    (2, Call::TrcvDtq(2, POLL), Reply::Answer(0, Some(11)), 1),
    (2, Call::TrcvDtq(2, POLL), Reply::Answer(0, Some(12)), 0),
    (2, Call::TrcvDtq(2, POLL), Reply::Answer(0, Some(13)), 0),
    (2, Call::TrcvDtq(2, POLL), TMOUT, 0),
];

/// Calls of objects one after the other, each from a processor, with what they answer, and which processors' running
/// tasks change.
#[test]
fn calls_of_objects(rt: HostRuntime) {
    assert!(rt; goes_well(rt.alloc(), Scene::Objects));
}

const CALLS: &[Served] = &[
    (1, Call::GetTid, Reply::Answer(0, Some(1)), 0),
    (2, Call::GetPid, Reply::Answer(0, Some(2)), 0),
    (2, Call::GetPri(0), Reply::Answer(0, Some(5)), 0),
    (1, Call::GetTim, Reply::Answer(0, Some(0)), 0),
    (1, Call::SetTim(FOREVER), OK, 0),
    (2, Call::GetTim, Reply::Answer(0, Some(FOREVER)), 0),
    (1, Call::Sns(Sensed::Context), OK, 0),
    (1, Call::Sns(Sensed::Pending), OK, 0),
    (1, Call::MgetTid(2), Reply::Answer(0, Some(3)), 0),
    (2, Call::MrotRdq(2, 1), OK, 0),
    (1, Call::RefTsk(0, 0), Reply::Answer(0, Some(1)), 0),
    (1, Call::RefTsk(3, 0), Reply::Answer(0, Some(1)), 0),
    (1, Call::RefTsk(2, 0), Reply::Answer(0, Some(2)), 0),
    (1, Call::RefTsk(2, 1), Reply::Answer(0, Some(3)), 0),
    (1, Call::RefTsk(4, 0), Reply::Answer(0, Some(16)), 0),
    // Task 4 starts, and comes first by a higher priority.
    (1, Call::ActTsk(4), OK, 0),
    (1, Call::ActTsk(4), OK, 0),
    (1, Call::ActTsk(4), QOVR, 0),
    (1, Call::ChgPri(4, 1), OK, 2),
    (2, Call::GetTid, Reply::Answer(0, Some(4)), 0),
    (1, Call::CanAct(4), Reply::Answer(1, None), 0),
    (1, Call::CanAct(4), Reply::Answer(0, None), 0),
    (1, Call::ActTsk(4), OK, 0),
    // It ends, and starts again with its first priority.
    (2, Call::ExtTsk, Reply::Silent, 2),
    (1, Call::GetPri(4), Reply::Answer(0, Some(9)), 0),
    // Task 1 takes a wake-up that was queued, then sleeps.
    (2, Call::WupTsk(1), OK, 0),
    (2, Call::WupTsk(1), QOVR, 0),
    (1, Call::TslpTsk(0xffff_ffff), OK, 0),
    (1, Call::TslpTsk(0xffff_ffff), Reply::Silent, 1),
    (1, Call::GetTid, Reply::Answer(0, Some(2)), 0),
    (1, Call::SusTsk(1), OK, 0),
    (1, Call::SusTsk(1), QOVR, 0),
    (2, Call::WupTsk(1), OK, 0),
    (2, Call::RsmTsk(1), OK, 1),
    (1, Call::TslpTsk(0xffff_ffff), Reply::Silent, 1),
    (2, Call::RelWai(1), OK, 1),
    (2, Call::WupTsk(0), OK, 0),
    (2, Call::CanWup(0), Reply::Answer(1, None), 0),
    (2, Call::CanWup(3), Reply::Answer(0, None), 0),
    (2, Call::TerTsk(1), OK, 1),
    (1, Call::PutChr(0x1_0048), OK, 0),
    (1, Call::ExtKer, Reply::Silent, 0),
];

/// Whether the calls are served, and leave a board that is off and has an H on its console.
fn serves_calls(kernel: &mut Kernel) -> bool {
    first_other(kernel, CALLS).is_none() && kernel.console() == b"H".as_slice() && kernel.is_off()
}

/// Calls one after the other, each from a processor, with what they answer, and which processors' running tasks change.
#[test]
fn calls(rt: HostRuntime) {
    assert!(rt; goes_well(rt.alloc(), Scene::Calls));
}

/// Whether exceptions of processor 1 end task 1, whatever is queued for it, and then task 2.
fn end_by_faults(kernel: &mut Kernel) -> bool {
    let _ = kernel.serve(2, Call::ActTsk(1));
    kernel.end_by_fault(1);
    if kernel.dispatch() != 1
        || kernel.standing(1) != Some(Standing::Task(2))
        || !is_dormant(kernel, 1)
    {
        return false;
    }
    kernel.end_by_fault(1);
    kernel.dispatch() == 1 && kernel.standing(1) == Some(Standing::Idle)
}

/// An exception ends the running task, whatever is queued for it.
#[test]
fn faults(rt: HostRuntime) {
    assert!(rt; goes_well(rt.alloc(), Scene::Faults));
}

/// Whether a kernel without handlers raises no line and delivers nothing, and time passes.
fn has_no_lines(kernel: &mut Kernel) -> bool {
    !kernel.raise(0)
        && !kernel.raise(31)
        && !kernel.raise(32)
        && !kernel.raise(255)
        && kernel.deliverable(1).is_none()
        && kernel.accept(1).is_none()
        && kernel.tick()
        && kernel.now() == 1
}

/// A line without a handler isn't raised, and nothing is delivered.
#[test]
fn lines(rt: HostRuntime) {
    assert!(rt; goes_well(rt.alloc(), Scene::NoLines));
}
