use brd_base::NoMemory;
use brd_isa::Register;
use brd_kernel::{Call, Handler, Kernel, LineSetup, Reply, Standing};
use brd_timers::{Course, Cycle};
use std::alloc::Global;

/// A time handler of a line, on a processor. Its argument is 1000 and its line.
fn time_handler(line: u8, cpu: u8, course: Course) -> LineSetup {
    LineSetup {
        line,
        handler: Handler {
            cpu,
            address: 0x8000_0100,
            argument: 1_000 + line as u32,
        },
        course: Some(course),
    }
}

/// The times of a cyclic handler: with TA_STA or not, with TA_PHS or not.
fn cycle(period: u32, phase: u32, starts: bool, keeps: bool) -> Course {
    Course::Cyclic(Cycle {
        period,
        phase,
        starts,
        keeps,
    })
}

/// A kernel of two processors with the profile, without tasks. Cyclic handler 1 (TA_STA) has line 32, cyclic handler 3
/// line 36, alarm handler 1 line 33, all on processor 1; cyclic handler 2 (TA_STA, TA_PHS) has line 34 and alarm
/// handler 64 line 159, both on processor 2.
fn with_time_handlers(alloc: Global) -> Result<Kernel, NoMemory> {
    let lines = [
        time_handler(32, 1, cycle(3, 1, true, false)),
        time_handler(34, 2, cycle(4, 0, true, true)),
        time_handler(36, 1, cycle(2, 7, false, false)),
        time_handler(33, 1, Course::Alarm),
        time_handler(159, 2, Course::Alarm),
    ];
    Kernel::new(
        alloc,
        true,
        2,
        &[],
        &lines,
        &[],
        &[],
        &[],
        &[],
        &[],
        &[],
        &[],
    )
}

/// What happens to a kernel, and what comes of it.
#[derive(Clone, Copy)]
enum Move {
    /// So many ticks pass.
    Ticks(u32),
    /// A processor accepts the interrupt of this line, and its handler finds 1000 and the line in $a0.
    Accepts(u8, u8),
    /// A processor accepts no interrupt.
    AcceptsNone(u8),
    /// The handler on a processor ends.
    Ends(u8),
    /// A call from processor 1 is answered so.
    Serves(Call, Reply),
    /// A call from processor 1 is answered E_OK with this second result.
    Tells(Call, u32),
    /// A line can't be raised from outside.
    RaisesNot(u8),
    /// The time handler at a place is due at this tick next.
    IsDue(u8, Option<u64>),
}

/// Whether so many ticks pass.
fn passes(kernel: &mut Kernel, count: u32) -> bool {
    for _ in 0..count {
        if !kernel.tick() {
            return false;
        }
    }
    true
}

/// What who executes on a processor has in $a0.
fn argument_on(kernel: &Kernel, cpu: u8) -> Option<u32> {
    match kernel.context(cpu) {
        Some(context) => Some(context.read(Register::low(4))),
        None => None,
    }
}

/// Whether a kernel does so.
fn moves(kernel: &mut Kernel, what: Move) -> bool {
    match what {
        Move::Ticks(count) => passes(kernel, count),
        Move::Accepts(cpu, line) => {
            kernel.accept(cpu) == Some(line)
                && kernel.standing(cpu) == Some(Standing::Handler(line))
                && argument_on(kernel, cpu) == Some(1_000 + line as u32)
        }
        Move::AcceptsNone(cpu) => kernel.accept(cpu).is_none(),
        Move::Ends(cpu) => kernel.serve(cpu, Call::RetInt) == Reply::Silent,
        Move::Serves(call, reply) => kernel.serve(1, call) == reply,
        Move::Tells(call, word) => kernel.serve(1, call) == Reply::Answer(0, Some(word)),
        Move::RaisesNot(line) => !kernel.raise(line),
        Move::IsDue(place, tick) => kernel.timer_due(place) == tick,
    }
}

/// The first of these moves, one after the other, that a kernel doesn't make.
fn first_other(kernel: &mut Kernel, wanted: &[Move]) -> Option<usize> {
    for (n, what) in wanted.iter().enumerate() {
        if !moves(kernel, *what) {
            return Some(n);
        }
    }
    None
}

/// Whether a kernel with time handlers makes these moves. (Only this function owns a kernel.)
fn makes(alloc: Global, wanted: &[Move]) -> bool {
    match with_time_handlers(alloc) {
        Ok(mut kernel) => first_other(&mut kernel, wanted).is_none(),
        Err(_) => false,
    }
}

const OK: Reply = Reply::Answer(0, None);

const PAR: Reply = Reply::Answer(0xffff_ffef, None);

const ID: Reply = Reply::Answer(0xffff_ffee, None);

const NOEXS: Reply = Reply::Answer(0xffff_ffd6, None);

const CYCLIC: &[Move] = &[
    // Cyclic handler 1 is due at 2, 5, 8 and so on, cyclic handler 2 at 1, 5, 9 and so on; both work from boot on.
    Move::IsDue(0, Some(2)),
    Move::IsDue(2, Some(1)),
    Move::IsDue(4, None),
    Move::IsDue(127, None),
    Move::RaisesNot(32),
    Move::Ticks(1),
    Move::AcceptsNone(1),
    Move::Accepts(2, 34),
    Move::Ends(2),
    Move::Ticks(1),
    Move::Accepts(1, 32),
    Move::Ends(1),
    Move::Ticks(2),
    Move::AcceptsNone(1),
    Move::AcceptsNone(2),
    Move::Ticks(1),
    Move::Accepts(1, 32),
    Move::Accepts(2, 34),
    Move::Ends(2),
    // The handler runs at 8 and at 11, so that the next two times come to one run, and to no third one.
    Move::Ticks(6),
    Move::AcceptsNone(1),
    Move::IsDue(0, Some(14)),
    Move::Ends(1),
    Move::Accepts(1, 32),
    Move::Ends(1),
    Move::AcceptsNone(1),
    Move::Accepts(2, 34),
    Move::Ends(2),
    // It is stopped and started: a period from now. With TA_PHS the times are those that are counted from boot.
    Move::Tells(Call::RefCyc(1, 0), 1),
    Move::Tells(Call::RefCyc(1, 1), 2),
    Move::Serves(Call::StpCyc(1), OK),
    Move::Tells(Call::RefCyc(1, 0), 0),
    Move::Tells(Call::RefCyc(1, 1), 0),
    Move::Serves(Call::StaCyc(1), OK),
    Move::IsDue(0, Some(15)),
    Move::Serves(Call::StpCyc(2), OK),
    Move::Serves(Call::StpCyc(2), OK),
    Move::Serves(Call::StaCyc(2), OK),
    Move::IsDue(2, Some(13)),
    // What is pending stays so if its handler is stopped.
    Move::Ticks(4),
    Move::Serves(Call::StpCyc(1), OK),
    Move::Accepts(1, 32),
    Move::Ends(1),
    Move::Ticks(10),
    Move::AcceptsNone(1),
];

/// Cyclic handlers on two processors: with TA_STA, with TA_PHS, one that is pending still at its next time, stopped and
/// started.
#[test]
fn cyclic_handlers(rt: HostRuntime) {
    assert!(rt; makes(rt.alloc(), CYCLIC));
}

const ALARMS: &[Move] = &[
    Move::Serves(Call::StpCyc(1), OK),
    Move::Serves(Call::StpCyc(2), OK),
    // One after two whole ticks, one after none: at the next tick.
    Move::Serves(Call::StaAlm(1, 2), OK),
    Move::Serves(Call::StaAlm(64, 0), OK),
    Move::IsDue(1, Some(3)),
    Move::IsDue(127, Some(1)),
    Move::Tells(Call::RefAlm(1, 0), 1),
    Move::Tells(Call::RefAlm(1, 1), 2),
    Move::Ticks(1),
    Move::AcceptsNone(1),
    Move::Accepts(2, 159),
    Move::Ends(2),
    Move::Tells(Call::RefAlm(64, 0), 0),
    // The time that is asked for last counts, and each comes once.
    Move::Serves(Call::StaAlm(1, 3), OK),
    Move::Ticks(3),
    Move::AcceptsNone(1),
    Move::Ticks(1),
    Move::Accepts(1, 33),
    Move::Ends(1),
    Move::IsDue(1, None),
    Move::Ticks(9),
    Move::AcceptsNone(1),
    Move::Serves(Call::StaAlm(1, 0), OK),
    Move::Serves(Call::StpAlm(1), OK),
    Move::Serves(Call::StpAlm(1), OK),
    Move::Ticks(9),
    Move::AcceptsNone(1),
    Move::AcceptsNone(2),
    // Both handlers of processor 1 are due at once: the one of the lower line comes first.
    Move::Serves(Call::StaAlm(1, 2), OK),
    Move::Serves(Call::StaCyc(3), OK),
    Move::Ticks(3),
    Move::Accepts(1, 33),
    Move::AcceptsNone(1),
    Move::Ends(1),
    Move::Accepts(1, 36),
    Move::Ends(1),
];

/// Alarm handlers: started, started again, stopped, and due at the same tick as a cyclic handler.
#[test]
fn alarm_handlers(rt: HostRuntime) {
    assert!(rt; makes(rt.alloc(), ALARMS));
}

const REFUSALS: &[Move] = &[
    Move::Serves(Call::StaCyc(0), ID),
    Move::Serves(Call::StaCyc(256), ID),
    Move::Serves(Call::StaCyc(4), NOEXS),
    Move::Serves(Call::StaCyc(65), NOEXS),
    Move::Serves(Call::StaCyc(255), NOEXS),
    Move::Serves(Call::StpCyc(0), ID),
    Move::Serves(Call::StpCyc(4), NOEXS),
    Move::Serves(Call::StaAlm(0, 0x8000_0000), ID),
    Move::Serves(Call::StaAlm(2, 0x8000_0000), PAR),
    Move::Serves(Call::StaAlm(1, 0xffff_ffff), PAR),
    Move::Serves(Call::StaAlm(1, 0x7fff_ffff), OK),
    Move::Serves(Call::StaAlm(2, 5), NOEXS),
    Move::Serves(Call::StpAlm(256), ID),
    Move::Serves(Call::StpAlm(65), NOEXS),
    Move::Serves(Call::RefCyc(256, 2), ID),
    Move::Serves(Call::RefCyc(4, 2), PAR),
    Move::Serves(Call::RefCyc(4, 1), NOEXS),
    Move::Serves(Call::RefAlm(0, 2), ID),
    Move::Serves(Call::RefAlm(2, 2), PAR),
    Move::Serves(Call::RefAlm(2, 1), NOEXS),
];

/// Each refusal of each call; of two reasons the earlier one in the order is answered.
#[test]
fn refusals(rt: HostRuntime) {
    assert!(rt; makes(rt.alloc(), REFUSALS));
}
