//! How fast the board runs: `bench_board EVENTS` does n events of two small loops on a board of words, of the
//! first of them on a booted board of two processors and four tasks, on one processor and on both in turn, of a loop
//! that touches only registers, step by step and by leases, of tasks that call the kernel, of ticks, and of long ready
//! lists; it prints millions of events a second, beside a bare loop of about the same work. With a number after EVENTS
//! it does that work alone, counted from 0. Without EVENTS it does 16,000 events of each and prints how often the loops
//! were gone through.
#![tactic(auto)]

use brd_board::{Board, BootFault, Decoded, Event, Lease, Report};
use brd_config::parse;
use brd_isa::Register;
use brd_mem::Image;
use std::alloc::{AllocError, Global};
use std::time::Instant;

/// A loop of seven instructions over one word of memory: it loads, adds, stores, counts, and branches with a slot.
const PLAIN: [u32; 11] = [
    0x3c04_8000, // lui $a0, 0x8000
    0x3484_0100, // ori $a0, $a0, 0x100
    0x8c88_0000, // lw $t0, 0($a0)
    0x2508_0003, // addiu $t0, $t0, 3
    0xac88_0000, // sw $t0, 0($a0)
    0x2529_0001, // addiu $t1, $t1, 1
    0x0128_5021, // addu $t2, $t1, $t0
    0x1540_fffa, // bne $t2, $0, -6: to the lw
    0x0149_5825, // or $t3, $t2, $t1, in the slot
    0x1000_fff8, // beq $0, $0, -8: to the lw
    0x0000_0000, // sll $0, $0, 0
];

/// A loop of eight instructions: an unaligned load, a product, a count, and a branch-likely with a slot.
const WIDE: [u32; 10] = [
    0x3c04_8000, // lui $a0, 0x8000
    0x3484_0100, // ori $a0, $a0, 0x100
    0x8888_0001, // lwl $t0, 1($a0)
    0x9888_0004, // lwr $t0, 4($a0)
    0x0128_0018, // mult $t1, $t0
    0x0000_5012, // mflo $t2
    0x2529_0001, // addiu $t1, $t1, 1
    0xa889_0006, // swl $t1, 6($a0)
    0x5520_fff9, // bnel $t1, $0, -7: to the lwl
    0x0149_5826, // xor $t3, $t2, $t1, in the slot
];

/// A loop of six instructions that touch only registers.
const LOCAL: [u32; 8] = [
    0x2529_0001, // addiu $t1, $t1, 1
    0x0128_5021, // addu $t2, $t1, $t0
    0x0149_5826, // xor $t3, $t2, $t1
    0x0149_602b, // sltu $t4, $t2, $t1
    0x1520_fffb, // bne $t1, $0, -5: to the addiu
    0x0149_5825, // or $t3, $t2, $t1, in the slot
    0x1000_fff9, // beq $0, $0, -7: to the addiu
    0x0000_0000, // sll $0, $0, 0
];

/// Task 1 starts task 2, which comes first and ends itself.
const CALLS: [u32; 7] = [
    0x2404_0002, // addiu $a0, $0, 2
    0x2402_0001, // addiu $v0, $0, 1: act_tsk
    0x0000_000c, // syscall
    0x1000_fffc, // beq $0, $0, -4: to the first word
    0x2529_0001, // addiu $t1, $t1, 1, in the slot
    0x2402_0003, // addiu $v0, $0, 3: ext_tsk
    0x0000_000c, // syscall
];

/// Task 1 returns one to a semaphore; task 2, which comes first, waits for it over and over.
const SEMAPHORE: [u32; 10] = [
    0x2404_0001, // addiu $a0, $0, 1
    0x2402_0018, // addiu $v0, $0, 24: sig_sem
    0x0000_000c, // syscall
    0x1000_fffd, // beq $0, $0, -3: to the addiu of $v0
    0x2529_0001, // addiu $t1, $t1, 1, in the slot
    0x2404_0001, // addiu $a0, $0, 1
    0x2402_0019, // addiu $v0, $0, 25: wai_sem
    0x0000_000c, // syscall
    0x1000_fffd, // beq $0, $0, -3: to the addiu of $v0
    0x2529_0001, // addiu $t1, $t1, 1, in the slot
];

/// Task 255 sets bit 1 of an event flag; the others wait for the bit that their argument says, over and over.
const FLAG: [u32; 12] = [
    0x2404_0001, // addiu $a0, $0, 1
    0x2405_0002, // addiu $a1, $0, 2
    0x2402_001c, // addiu $v0, $0, 28: set_flg
    0x0000_000c, // syscall
    0x1000_fffd, // beq $0, $0, -3: to the addiu of $v0
    0x2529_0001, // addiu $t1, $t1, 1, in the slot
    0x0080_2821, // addu $a1, $a0, $0
    0x2404_0001, // addiu $a0, $0, 1
    0x2402_001e, // addiu $v0, $0, 30: wai_flg
    0x0000_000c, // syscall
    0x1000_fffd, // beq $0, $0, -3: to the addiu of $v0
    0x2529_0001, // addiu $t1, $t1, 1, in the slot
];

/// Each task waits for as many ticks as it can.
const DELAY: [u32; 4] = [
    0x3c04_7fff, // lui $a0, 0x7fff
    0x3484_ffff, // ori $a0, $a0, 0xffff
    0x2402_0017, // addiu $v0, $0, 23: dly_tsk
    0x0000_000c, // syscall
];

/// Each task starts itself again, which is queued, and ends.
const ENDS: [u32; 5] = [
    0x2404_0000, // addiu $a0, $0, 0: the caller
    0x2402_0001, // addiu $v0, $0, 1: act_tsk
    0x0000_000c, // syscall
    0x2402_0003, // addiu $v0, $0, 3: ext_tsk
    0x0000_000c, // syscall
];

/// Each task puts itself after its equals, over and over.
const TURNS: [u32; 5] = [
    0x2404_0000, // addiu $a0, $0, 0: the caller's priority
    0x2402_000a, // addiu $v0, $0, 10: rot_rdq
    0x0000_000c, // syscall
    0x1000_fffd, // beq $0, $0, -3: to the addiu of $v0
    0x2529_0001, // addiu $t1, $t1, 1, in the slot
];

/// A task gives task 1 priorities 3 and 2, over and over.
const CHANGES: [u32; 9] = [
    0x2404_0001, // addiu $a0, $0, 1
    0x2405_0003, // addiu $a1, $0, 3
    0x2402_0005, // addiu $v0, $0, 5: chg_pri
    0x0000_000c, // syscall
    0x2405_0002, // addiu $a1, $0, 2
    0x2402_0005, // addiu $v0, $0, 5: chg_pri
    0x0000_000c, // syscall
    0x1000_fff9, // beq $0, $0, -7: to the addiu of $a1
    0x2529_0001, // addiu $t1, $t1, 1, in the slot
];

/// Two processors with two tasks each, of which one is started, and as much RAM as there can be.
const TASKS: &str = "BOARD(2, 0x1000000);
CRE_TSK(1, {TA_ACT, 0, 0x80000000, 2, 4096, NULL});
CRE_TSK(2, {0, 0, 0x80000014, 1, 4096, NULL});
CLASS(TCL_2) {
    CRE_TSK(3, {TA_ACT, 0, 0x80000000, 2, 4096, NULL});
    CRE_TSK(4, {0, 0, 0x80000014, 1, 4096, NULL});
}
";

/// One processor with a semaphore and two tasks.
const PAIR: &str = "BOARD(1, 0x10000);
CRE_SEM(1, {TA_TFIFO, 0, 1});
CRE_TSK(1, {TA_ACT, 0, 0x80000000, 2, 4096, NULL});
CRE_TSK(2, {TA_ACT, 0, 0x80000014, 1, 4096, NULL});
";

/// One processor with an event flag. Tasks come after it.
const CROWD: &str = "BOARD(1, 0x10000);
CRE_FLG(1, {TA_WMUL | TA_CLR, 0});
";

/// Eight processors, each of which runs a task.
const EIGHT: &str = "BOARD(8, 0x10000);
CRE_TSK(1, {TA_ACT, 0, 0x80000000, 1, 256, NULL});
CLASS(TCL_2) { CRE_TSK(2, {TA_ACT, 0, 0x80000000, 1, 256, NULL}); }
CLASS(TCL_3) { CRE_TSK(3, {TA_ACT, 0, 0x80000000, 1, 256, NULL}); }
CLASS(TCL_4) { CRE_TSK(4, {TA_ACT, 0, 0x80000000, 1, 256, NULL}); }
CLASS(TCL_5) { CRE_TSK(5, {TA_ACT, 0, 0x80000000, 1, 256, NULL}); }
CLASS(TCL_6) { CRE_TSK(6, {TA_ACT, 0, 0x80000000, 1, 256, NULL}); }
CLASS(TCL_7) { CRE_TSK(7, {TA_ACT, 0, 0x80000000, 1, 256, NULL}); }
CLASS(TCL_8) { CRE_TSK(8, {TA_ACT, 0, 0x80000000, 1, 256, NULL}); }
";

/// The board on which a work is done.
#[derive(Clone, Copy)]
enum Setting {
    /// It is made of the words alone.
    Words,
    /// It has this configuration.
    Text(&'static str),
    /// It has 255 tasks, all of which wait for time.
    Delayed,
    /// It has 255 tasks, of which all but one wait for a flag; the last to come is the one that is released.
    Flagged,
    /// It has 255 ready tasks of one priority.
    Ready,
    /// It has 255 ready tasks, of which the last runs before the others, which have one priority.
    Led,
}

/// What is done, over and over.
#[derive(Clone, Copy)]
enum Deed {
    /// n processors do their steps in turn.
    Steps(u8),
    /// Processor 1 does its steps 64 at a time, each time by a lease that is lent, run and committed.
    Leases,
    /// A tick passes, after n steps of processor 1.
    Ticks(u64),
}

/// What is done on which board.
#[derive(Clone, Copy)]
struct Work {
    name: &'static str,
    words: &'static [u32],
    setting: Setting,
    deed: Deed,
}

const WORKS: [Work; 14] = [
    Work {
        name: "plain loop",
        words: &PLAIN,
        setting: Setting::Words,
        deed: Deed::Steps(1),
    },
    Work {
        name: "wide loop",
        words: &WIDE,
        setting: Setting::Words,
        deed: Deed::Steps(1),
    },
    Work {
        name: "plain loop, booted",
        words: &PLAIN,
        setting: Setting::Text(TASKS),
        deed: Deed::Steps(1),
    },
    Work {
        name: "plain loop, on two processors in turn",
        words: &PLAIN,
        setting: Setting::Text(TASKS),
        deed: Deed::Steps(2),
    },
    Work {
        name: "local loop, on one processor of two",
        words: &LOCAL,
        setting: Setting::Text(TASKS),
        deed: Deed::Steps(1),
    },
    Work {
        name: "local loop, on one processor of two, by leases",
        words: &LOCAL,
        setting: Setting::Text(TASKS),
        deed: Deed::Leases,
    },
    Work {
        name: "act_tsk and ext_tsk",
        words: &CALLS,
        setting: Setting::Text(TASKS),
        deed: Deed::Steps(1),
    },
    Work {
        name: "sig_sem and wai_sem of two tasks",
        words: &SEMAPHORE,
        setting: Setting::Text(PAIR),
        deed: Deed::Steps(1),
    },
    Work {
        name: "set_flg over 254 waiters, of which the last is satisfied",
        words: &FLAG,
        setting: Setting::Flagged,
        deed: Deed::Steps(1),
    },
    Work {
        name: "tick with 255 timeouts, of which none is due",
        words: &DELAY,
        setting: Setting::Delayed,
        deed: Deed::Ticks(1_020),
    },
    Work {
        name: "tick on eight processors, each of which runs a task",
        words: &PLAIN,
        setting: Setting::Text(EIGHT),
        deed: Deed::Ticks(0),
    },
    Work {
        name: "act_tsk of itself and ext_tsk, of 255 ready tasks of one priority",
        words: &ENDS,
        setting: Setting::Ready,
        deed: Deed::Steps(1),
    },
    Work {
        name: "rot_rdq over 255 ready tasks of one priority",
        words: &TURNS,
        setting: Setting::Ready,
        deed: Deed::Steps(1),
    },
    Work {
        name: "chg_pri to and fro, of one of 255 ready tasks",
        words: &CHANGES,
        setting: Setting::Led,
        deed: Deed::Steps(1),
    },
];

fn main(rt: HostRuntime) -> anyhow::Result<()> {
    let mut arguments = std::env::args(&rt)?;
    let _ = arguments.next();
    let Some(events) = arguments.next() else {
        return count_all(&rt);
    };
    let events = events.as_str().parse::<u64>()?;
    match arguments.next() {
        Some(number) => measure_one(&rt, number.as_str().parse::<usize>()?, events),
        None => measure_all(&rt, events),
    }
}

/// Does 16,000 events of each work, and prints how often its loop was gone through.
fn count_all(rt: &HostRuntime) -> anyhow::Result<()> {
    for work in WORKS {
        count_turns(rt, work)?;
    }
    Ok(())
}

/// Does n events of each work, and of none, and prints how fast.
fn measure_all(rt: &HostRuntime, events: u64) -> anyhow::Result<()> {
    for work in WORKS {
        measure(rt, work, events)?;
    }
    measure_bare(rt, events)
}

/// Does n events of the work of a number, counted from 0, alone.
fn measure_one(rt: &HostRuntime, number: usize, events: u64) -> anyhow::Result<()> {
    match WORKS.get(number) {
        Some(work) => measure(rt, *work, events),
        None => anyhow::bail!("no work has this number: {number}"),
    }
}

/// The board on which a work is done.
fn board_of(rt: &HostRuntime, work: Work) -> anyhow::Result<Board> {
    let alloc = rt.alloc();
    let made = match work.setting {
        Setting::Words => Board::from_words(alloc, work.words),
        Setting::Text(text) => booted(alloc, work.words, text)?,
        Setting::Delayed => crowded(alloc, work.words, 0x8000_0000, 3)?,
        Setting::Flagged => crowded(alloc, work.words, 0x8000_0018, 3)?,
        Setting::Ready => crowded(alloc, work.words, 0x8000_0000, 2)?,
        Setting::Led => crowded(alloc, work.words, 0x8000_0000, 1)?,
    };
    match made {
        Ok(board) => Ok(board),
        Err(fault) => anyhow::bail!("{fault}"),
    }
}

/// The board of words and a configuration.
fn booted(alloc: Global, words: &[u32], text: &str) -> anyhow::Result<Result<Board, BootFault>> {
    let image = Image::from_words(alloc, words)?;
    let config = parse(alloc, text.as_bytes())?;
    Ok(Board::boot(alloc, &image, &config))
}

/// The board of words and 255 tasks: the first 254 start at `others`, the last at the first word with this priority.
fn crowded(
    alloc: Global,
    words: &[u32],
    others: u32,
    priority: u8,
) -> anyhow::Result<Result<Board, BootFault>> {
    let text = crowd(alloc, others, priority)?;
    booted(alloc, words, text.as_str())
}

/// A configuration with 255 tasks: the first 254 start at `others` with priority 2, with 2 as the argument of the last
/// of them and 1 of the rest; task 255 starts at the first word with this priority.
fn crowd(alloc: Global, others: u32, priority: u8) -> Result<String, AllocError> {
    let mut text = String::from_str(alloc, CROWD)?;
    for id in 1..255u16 {
        let bits = if id == 254 { 2 } else { 1 };
        write!(
            text,
            "CRE_TSK({id}, {{TA_ACT, {bits}, {others}, 2, 16, NULL}});\n"
        )?;
    }
    write!(
        text,
        "CRE_TSK(255, {{TA_ACT, 0, 0x80000000, {priority}, 16, NULL}});\n"
    )?;
    Ok(text)
}

/// Does 16,000 events of a work, and prints how often its loop was gone through.
fn count_turns(rt: &HostRuntime, work: Work) -> anyhow::Result<()> {
    let mut board = board_of(rt, work)?;
    count_turns_on(rt, &mut board, work)
}

/// Does this on the board of the work.
fn count_turns_on(rt: &HostRuntime, board: &mut Board, work: Work) -> anyhow::Result<()> {
    prepare(board, work.deed);
    let name = work.name;
    let ran = run(board, work.deed, 16_000);
    let (count, now) = (count_of(board), board.now());
    println!(rt; "{name}: {ran} of 16000 events ran an instruction, {count} turns, {now} ticks")?;
    Ok(())
}

/// Does n events of a work, and prints how fast.
fn measure(rt: &HostRuntime, work: Work, events: u64) -> anyhow::Result<()> {
    let mut board = board_of(rt, work)?;
    measure_on(rt, &mut board, work, events)
}

/// Does this on the board of the work.
fn measure_on(rt: &HostRuntime, board: &mut Board, work: Work, events: u64) -> anyhow::Result<()> {
    prepare(board, work.deed);
    let start = Instant::now(rt)?;
    let _ = run(board, work.deed, events);
    let time = start.elapsed(rt)?.as_millis();
    report(rt, work.name, events, time)
}

/// Does the work of as many operations without a board, and prints how fast.
fn measure_bare(rt: &HostRuntime, events: u64) -> anyhow::Result<()> {
    let start = Instant::now(rt)?;
    let last = bare_loop(events / 7);
    let time = start.elapsed(rt)?.as_millis();
    report(
        rt,
        "bare loop, seven operations a turn",
        events / 7 * 7,
        time,
    )?;
    println!(rt; "(its last value is {last})")?;
    Ok(())
}

/// Does the steps that come before ticks.
fn prepare(board: &mut Board, deed: Deed) {
    if let Deed::Ticks(steps) = deed {
        let _ = run_steps(board, 1, steps);
    }
}

/// Does n events, and counts those that ran an instruction.
fn run(board: &mut Board, deed: Deed, events: u64) -> u64 {
    match deed {
        Deed::Steps(processors) => run_steps(board, processors, events),
        Deed::Leases => run_leases(board, events / 64),
        Deed::Ticks(_) => run_ticks(board, events),
    }
}

/// Does n steps, of the processors in turn, and counts those that ran an instruction. It is the only place that
/// does steps, so that a step is done in line.
#[inline(never)]
fn run_steps(board: &mut Board, processors: u8, events: u64) -> u64 {
    let mut ran = 0u64;
    let mut cpu = 1u8;
    for _ in 0..events {
        if let Report::Ran(_) = board.event(Event::Step(cpu)) {
            ran = ran.wrapping_add(1);
        }
        cpu = if cpu < processors { cpu + 1 } else { 1 };
    }
    ran
}

/// Does the steps of n leases of processor 1, and counts them.
#[inline(never)]
fn run_leases(board: &mut Board, leases: u64) -> u64 {
    let mut decoded = Decoded::new();
    let mut lease = Lease::blank(1);
    let mut ran = 0u64;
    for _ in 0..leases {
        ran = ran.wrapping_add(u64::from(run_lease(board, &mut lease, &mut decoded)));
    }
    ran
}

/// Lends processor 1, does 64 instructions by the lease, if there are as many, and carries them over. Answers how many
/// were done.
fn run_lease(board: &mut Board, lease: &mut Lease, decoded: &mut Decoded) -> u32 {
    if !board.lend_into(1, lease) {
        return 0;
    }
    lease.run_by(decoded, 64);
    if board.is_stale(lease) {
        return 0;
    }
    board.carry_over(lease);
    lease.len()
}

/// Does n ticks. None of them runs an instruction.
#[inline(never)]
fn run_ticks(board: &mut Board, events: u64) -> u64 {
    for _ in 0..events {
        let _ = board.event(Event::Tick);
    }
    0
}

/// How often processor 1 went through the loop.
fn count_of(board: &Board) -> u32 {
    match board.registers(1) {
        Some(context) => context.read(Register::low(9)),
        None => 0,
    }
}

/// About the plain loop's work as a loop of this program. Each turn's place in memory depends on the turn before, so
/// that no turns are done at once.
fn bare_loop(turns: u64) -> u32 {
    let mut memory = [0u32; 64];
    let mut count = 0u32;
    let mut last = 0u32;
    for _ in 0..turns {
        let at = (last % 64) as usize;
        memory[at] = memory[at].wrapping_add(3);
        count = count.wrapping_add(1);
        last = count.wrapping_add(memory[at]) | count;
    }
    last
}

/// Prints millions of operations a second.
fn report(rt: &impl Print, name: &str, operations: u64, milliseconds: u128) -> anyhow::Result<()> {
    let time = u64::try_from(milliseconds).unwrap_or(u64::MAX).max(1);
    let rate = operations / time / 1000;
    println!(rt; "{name}: {rate} million a second ({operations} in {time} ms)")?;
    Ok(())
}
