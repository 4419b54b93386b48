//! How fast many steps of a processor are done at once: `bench_repeat STEPS` does n steps of small loops on a board of
//! one processor, and n steps of a loop on two processors in turns of some length, and prints millions of steps a
//! second. With a number after STEPS it does that work alone, counted from 0. Without STEPS it does 70,000 steps of
//! each and prints how often its loop was gone through. It is apart from bench_board, since a program that does steps
//! in two places does them more slowly in both.
#![tactic(auto)]

use brd_board::{Board, Event};
use brd_config::parse;
use brd_isa::Register;
use brd_mem::Image;
use std::time::Instant;

/// Three instructions: a count and a branch with an empty slot.
const SHORT: [u32; 5] = [
    0x2529_0001, // addiu $t1, $t1, 1
    0x1520_fffe, // bne $t1, $0, -2: to the addiu
    0x0000_0000, // nop, in the slot
    0x1000_fffc, // beq $0, $0, -4: to the addiu
    0x0000_0000, // nop, in the slot
];

/// Eight instructions: a word of memory is loaded, changed and stored.
const MEMORY: [u32; 12] = [
    0x3c04_8000, // lui $a0, 0x8000
    0x3484_0100, // ori $a0, $a0, 0x100
    0x8c88_0000, // lw $t0, 0($a0)
    0x2508_0003, // addiu $t0, $t0, 3
    0xac88_0000, // sw $t0, 0($a0)
    0x0109_5026, // xor $t2, $t0, $t1
    0x0149_5821, // addu $t3, $t2, $t1
    0x2529_0001, // addiu $t1, $t1, 1
    0x1520_fff9, // bne $t1, $0, -7: to the lw
    0x0000_0000, // nop, in the slot
    0x1000_fff7, // beq $0, $0, -9: to the lw
    0x0000_0000, // nop, in the slot
];

/// Seven instructions over one word of memory, with a slot that isn't empty.
const PLAIN: [u32; 11] = [
    0x3c04_8000, // lui $a0, 0x8000
    0x3484_0100, // ori $a0, $a0, 0x100
    0x8c88_0000, // lw $t0, 0($a0)
    0x2508_0003, // addiu $t0, $t0, 3
    0xac88_0000, // sw $t0, 0($a0)
    0x2529_0001, // addiu $t1, $t1, 1
    0x0128_5021, // addu $t2, $t1, $t0
    0x1540_fffa, // bne $t2, $0, -6: to the lw
    0x0149_5825, // or $t3, $t2, $t1, in the slot
    0x1000_fff8, // beq $0, $0, -8: to the lw
    0x0000_0000, // nop, in the slot
];

/// Eight instructions: an unaligned load, a product, a count, and a branch-likely with a slot.
const WIDE: [u32; 12] = [
    0x3c04_8000, // lui $a0, 0x8000
    0x3484_0100, // ori $a0, $a0, 0x100
    0x8888_0001, // lwl $t0, 1($a0)
    0x9888_0004, // lwr $t0, 4($a0)
    0x0128_0018, // mult $t1, $t0
    0x0000_5012, // mflo $t2
    0x2529_0001, // addiu $t1, $t1, 1
    0xa889_0006, // swl $t1, 6($a0)
    0x5520_fff9, // bnel $t1, $0, -7: to the lwl
    0x0149_5826, // xor $t3, $t2, $t1, in the slot
    0x1000_fff7, // beq $0, $0, -9: to the lwl
    0x0000_0000, // nop, in the slot
];

/// Four instructions with a store in the slot.
const SLOTS: [u32; 8] = [
    0x3c04_8000, // lui $a0, 0x8000
    0x3484_0100, // ori $a0, $a0, 0x100
    0x2529_0001, // addiu $t1, $t1, 1
    0x0128_5021, // addu $t2, $t1, $t0
    0x1520_fffd, // bne $t1, $0, -3: to the addiu
    0xac8a_0000, // sw $t2, 0($a0), in the slot
    0x1000_fffb, // beq $0, $0, -5: to the addiu
    0x0000_0000, // nop, in the slot
];

/// Five instructions that rewrite one of themselves: the count is by 1 and by 2 in turn.
const REWRITES: [u32; 11] = [
    0x3c04_8000, // lui $a0, 0x8000
    0x3c08_2529, // lui $t0, 0x2529
    0x3508_0001, // ori $t0, $t0, 1: addiu $t1, $t1, 1
    0x340a_0003, // ori $t2, $0, 3
    0x010a_4026, // xor $t0, $t0, $t2
    0xac88_0018, // sw $t0, 24($a0)
    0x2529_0001, // addiu $t1, $t1, 1, and 2
    0x1520_fffc, // bne $t1, $0, -4: to the xor
    0x0000_0000, // nop, in the slot
    0x1000_fffa, // beq $0, $0, -6: to the xor
    0x0000_0000, // nop, in the slot
];

/// One processor.
const ONE: &str = "BOARD(1, 0x10000);
CRE_TSK(1, {TA_ACT, 0, 0x80000000, 2, 256, NULL});
";

/// Two processors, each of which runs a task.
const TWO: &str = "BOARD(2, 0x10000);
CRE_TSK(1, {TA_ACT, 0, 0x80000000, 2, 256, NULL});
CLASS(TCL_2) {
    CRE_TSK(2, {TA_ACT, 0, 0x80000000, 2, 256, NULL});
}
";

/// A loop, how many processors do it, and how many steps each does before it is the next one's turn.
#[derive(Clone, Copy)]
struct Work {
    name: &'static str,
    words: &'static [u32],
    processors: u8,
    turn: u32,
}

/// How many steps are done at once where no other processor comes between.
const WHOLE: u32 = 1_000_000;

/// The work of a processor alone.
const fn alone(name: &'static str, words: &'static [u32]) -> Work {
    Work {
        name,
        words,
        processors: 1,
        turn: WHOLE,
    }
}

/// The work of two processors in turns.
const fn in_turns(name: &'static str, turn: u32) -> Work {
    Work {
        name,
        words: &PLAIN,
        processors: 2,
        turn,
    }
}

fn works() -> [Work; 10] {
    [
        alone("short loop", &SHORT),
        alone("memory loop", &MEMORY),
        alone("plain loop", &PLAIN),
        alone("wide loop", &WIDE),
        alone("loop with a store in the slot", &SLOTS),
        alone("loop that rewrites itself", &REWRITES),
        in_turns("plain loop, two processors, turns of 1", 1),
        in_turns("plain loop, two processors, turns of 2", 2),
        in_turns("plain loop, two processors, turns of 8", 8),
        in_turns("plain loop, two processors, turns of 64", 64),
    ]
}

fn main(rt: HostRuntime) -> anyhow::Result<()> {
    let mut arguments = std::env::args(&rt)?;
    let _ = arguments.next();
    let Some(steps) = arguments.next() else {
        for work in works() {
            count_turns(&rt, work)?;
        }
        return Ok(());
    };
    let steps = steps.as_str().parse::<u64>()?;
    let Some(number) = arguments.next() else {
        for work in works() {
            measure(&rt, work, steps)?;
        }
        return Ok(());
    };
    match works().get(number.as_str().parse::<usize>()?) {
        Some(work) => measure(&rt, *work, steps),
        None => anyhow::bail!("no work has this number"),
    }
}

/// The board on which a work is done.
fn board_of(rt: &HostRuntime, work: Work) -> anyhow::Result<Board> {
    let alloc = rt.alloc();
    let image = Image::from_words(alloc, work.words)?;
    let text = if work.processors == 1 { ONE } else { TWO };
    let config = parse(alloc, text.as_bytes())?;
    match Board::boot(alloc, &image, &config) {
        Ok(board) => Ok(board),
        Err(fault) => anyhow::bail!("{fault}"),
    }
}

/// Does 70,000 steps of a work, and prints how often its loop was gone through.
fn count_turns(rt: &HostRuntime, work: Work) -> anyhow::Result<()> {
    let mut board = board_of(rt, work)?;
    run(&mut board, work, 70_000);
    let name = work.name;
    let count = count_of(&board);
    println!(rt; "{name}: {count} after 70000 steps")?;
    Ok(())
}

/// Does n steps of a work, and prints how fast.
fn measure(rt: &HostRuntime, work: Work, steps: u64) -> anyhow::Result<()> {
    let mut board = board_of(rt, work)?;
    let start = Instant::now(rt)?;
    run(&mut board, work, steps);
    let time = start.elapsed(rt)?.as_millis();
    let time = u64::try_from(time).unwrap_or(u64::MAX).max(1);
    let (name, rate) = (work.name, steps / time / 1000);
    println!(rt; "{name}: {rate} million a second ({steps} in {time} ms)")?;
    Ok(())
}

/// Does n steps, of the processors in turns; the last turn may be shorter.
fn run(board: &mut Board, work: Work, steps: u64) {
    let turn = work.turn.max(1);
    let mut cpu = 1;
    for _ in 0..steps / u64::from(turn) {
        board.repeat(Event::Step(cpu), turn);
        cpu = if cpu < work.processors { cpu + 1 } else { 1 };
    }
    board.repeat(Event::Step(cpu), (steps % u64::from(turn)) as u32);
}

/// What processor 1 counts in $t1.
fn count_of(board: &Board) -> u32 {
    match board.registers(1) {
        Some(context) => context.read(Register::low(9)),
        None => 0,
    }
}
