mod booted;
mod changed;
mod faults;
mod files;
mod large;
mod order;
mod runs;

use brd_board::{Board, Event, Report, Standing, TaskState, TaskView};
use brd_image::{BuildFault, build, load};
use brd_isa::Register;
use std::alloc::Global;

/// A task that begins at `_start`, on a board of one processor and 64 KiB.
const ONE_TASK: &str = "BOARD(1, 0x10000); CRE_TSK(1, {TA_ACT, 0, _start, 1, 256, NULL});";

/// Writes `H` by service 40, and turns the board off by service 41.
const ONE_LETTER: &str = "_start: addiu $v0, $0, 40
        addiu $a0, $0, 72
        syscall
        addiu $v0, $0, 41
        syscall
";

/// 40 steps of processor 1.
const STEPS: &[Event; 40] = &[Event::Step(1); 40];

/// What a board shows: whether it is off, where task 1 goes on, the registers that aren't 0, and the console.
struct Shown {
    is_off: bool,
    pc: u32,
    words: &'static [(u32, u32)],
    console: &'static [u8],
}

/// Whether a source and a configuration make a board that reports this in as many steps of processor 1, and shows this
/// then.
fn tells(alloc: Global, source: &str, config: &str, reports: &[Report], shown: &Shown) -> bool {
    match build(alloc, source.as_bytes(), config.as_bytes()) {
        Ok(mut board) => steps_report(&mut board, reports) && shows(&board, shown),
        Err(_) => false,
    }
}

/// Whether a board reports this in as many steps of processor 1.
fn steps_report(board: &mut Board, reports: &[Report]) -> bool {
    for report in reports {
        if board.event(Event::Step(1)) != *report {
            return false;
        }
    }
    true
}

/// Whether a board shows this, and task 1 runs on processor 1.
fn shows(board: &Board, shown: &Shown) -> bool {
    board.is_off() == shown.is_off
        && board.standing(1) == Some(Standing::Task(1))
        && board.console() == shown.console
        && shows_task(board, shown)
}

/// Whether task 1 of a board stands as it is shown.
fn shows_task(board: &Board, shown: &Shown) -> bool {
    match board.task(1) {
        Some(task) => stands_so(&task, shown),
        None => false,
    }
}

/// Whether a task is ready on processor 1 with priority 1, goes on where it is shown, and has the words that are shown.
fn stands_so(task: &TaskView, shown: &Shown) -> bool {
    task.state == TaskState::Ready
        && task.priority == 1
        && task.cpu == 1
        && task.context.pc() == shown.pc
        && has_words(task, shown.words)
}

/// Whether the registers $1 to $31 of a task hold these words, and all others 0.
fn has_words(task: &TaskView, words: &[(u32, u32)]) -> bool {
    for number in 1..32u32 {
        if task.context.read(Register::low(number)) != word_of(words, number) {
            return false;
        }
    }
    true
}

/// The word of a register among these, or 0.
fn word_of(words: &[(u32, u32)], number: u32) -> u32 {
    for (place, word) in words {
        if *place == number {
            return *word;
        }
    }
    0
}

/// The fault of a build, if there is one.
fn fault_of(alloc: Global, source: &[u8], config: &[u8]) -> Option<BuildFault> {
    match build(alloc, source, config) {
        Ok(_) => None,
        Err(fault) => Some(fault),
    }
}

/// The fault of loading a file, if there is one.
fn load_fault(alloc: Global, elf: &[u8], config: &[u8]) -> Option<BuildFault> {
    match load(alloc, elf, config) {
        Ok(_) => None,
        Err(fault) => Some(fault),
    }
}

/// Whether a fault was found that is this one.
fn is_fault(found: Option<BuildFault>, wanted: BuildFault) -> bool {
    match found {
        Some(fault) => fault == wanted,
        None => false,
    }
}

/// Whether a build has this fault.
fn has_fault(alloc: Global, source: &[u8], config: &[u8], wanted: BuildFault) -> bool {
    is_fault(fault_of(alloc, source, config), wanted)
}

/// Whether loading a file has this fault.
fn has_load_fault(alloc: Global, elf: &[u8], config: &[u8], wanted: BuildFault) -> bool {
    is_fault(load_fault(alloc, elf, config), wanted)
}
