use brd_board::{Board, BootFault, Event, Report, Standing, TaskState};
use brd_exec::ExceptionCode;
use brd_isa::Register;
use std::alloc::Global;
use std::test::Fail;

// Each function that owns a board is short and leads to few ends, and those that look at one borrow it
// (docs/dev/DECISIONS.md, "Forms of code that the kit refuses"). The scenes of crates/rows_board say what events do.

/// What a test does with a board of words.
#[derive(Clone, Copy)]
enum Scene {
    Ends(u8, u8),
    Events,
    Steps,
    Console,
    Copies,
}

/// Whether a board does in a scene what it should.
fn does(board: &mut Board, scene: Scene) -> bool {
    match scene {
        Scene::Ends(first, last) => has_ends(board, first, last),
        Scene::Events => reports_events(board),
        Scene::Steps => plays_steps(board),
        Scene::Console => is_full_at_last(board),
        Scene::Copies => all_change(board),
    }
}

/// Whether the board of these words does what it should. (Only this function and one below own a board.)
fn goes_well(alloc: Global, words: &[u32], scene: Scene) -> bool {
    match Board::from_words(alloc, words) {
        Ok(mut board) => does(&mut board, scene),
        Err(_) => false,
    }
}

/// Whether a board begins and ends with these bytes.
fn has_ends(board: &Board, first: u8, last: u8) -> bool {
    board.memory(0x8000_0000) == Some(first) && board.memory(0x8000_ffff) == Some(last)
}

/// Whether there is no board of these words, since they don't fit.
fn is_outside(alloc: Global, words: &[u32]) -> bool {
    match Board::from_words(alloc, words) {
        Ok(_) => false,
        Err(fault) => matches!(fault, BootFault::Outside),
    }
}

/// How many words a board is made of, and the first and the last byte of its RAM.
const ENDS: &[(usize, u8, u8)] = &[(0, 0, 0), (1, 0x3c, 0), (16_384, 0x3c, 0x34)];

/// The first row of `ENDS` that isn't so for the first of these words, and too few words.
fn first_other_ends(alloc: Global, words: &[u32]) -> Option<usize> {
    for (count, first, last) in ENDS {
        match words.get(..*count) {
            Some(front) if goes_well(alloc, front, Scene::Ends(*first, *last)) => {}
            _ => return Some(*count),
        }
    }
    None
}

/// Whether n of these words are too many for a board.
fn are_too_many(alloc: Global, words: &[u32], count: usize) -> bool {
    match words.get(..count) {
        Some(front) => is_outside(alloc, front),
        None => false,
    }
}

#[test]
fn words_that_fit(rt: HostRuntime) -> Result<(), Fail> {
    let alloc = rt.alloc();
    let words = vec![in alloc; 0x3c01_1234; 20_000]?;
    assert!(rt;
        first_other_ends(alloc, &words).is_none()
            && are_too_many(alloc, &words, 16_385)
            && are_too_many(alloc, &words, 20_000)
    );
    Ok(())
}

/// The first of these events that reports something else.
fn first_other(board: &mut Board, wanted: &[(Event, Report)]) -> Option<usize> {
    for (n, (event, report)) in wanted.iter().enumerate() {
        if board.event(*event) != *report {
            return Some(n);
        }
    }
    None
}

/// Whether task 1 is dormant, with 7 in $8.
fn shows_the_end(board: &Board) -> bool {
    match board.task(1) {
        Some(task) => {
            task.state == TaskState::Dormant && task.context.read(Register::low(8)) == 7
        }
        None => false,
    }
}

/// Whether the last exception of processor 1 was a reserved instruction at 0x8000000c.
fn shows_the_fault(board: &Board) -> bool {
    match board.last_fault(1) {
        Some(fault) => { fault.code == ExceptionCode::RI && fault.epc == 0x8000_000c && !fault.bd }
        None => false,
    }
}

/// Whether processor 1 is idle and the board isn't off, at tick 3.
fn is_idle(board: &Board) -> bool {
    board.now() == 3
        && !board.is_off()
        && board.standing(1) == Some(Standing::Idle)
        && board.registers(1).is_none()
}

/// Whether a board has neither a processor 2 nor the tasks 0 and 2.
fn has_one_of_each(board: &Board) -> bool {
    board.standing(2).is_none()
        && board.last_fault(2).is_none()
        && board.link(2).is_none()
        && board.task(0).is_none()
        && board.task(2).is_none()
}

const EVENTS: &[(Event, Report)] = &[
    (Event::Step(0), Report::NoSuch),
    (Event::Step(2), Report::NoSuch),
    (Event::Raise(0), Report::NoSuch),
    (Event::Raise(32), Report::NoSuch),
    (Event::Step(1), Report::Ran(0x8000_0000)),
    (Event::Tick, Report::Ticked),
    (Event::Step(1), Report::Ran(0x8000_0004)),
    (Event::Tick, Report::Ticked),
    (Event::Step(1), Report::Called(0x8000_0008)),
    (Event::Step(1), Report::Faulted(0x8000_000c)),
    (Event::Step(1), Report::Idle),
    (Event::Tick, Report::Ticked),
];

/// Whether a board reports `EVENTS`, and shows then that its task has ended.
fn reports_events(board: &mut Board) -> bool {
    first_other(board, EVENTS).is_none()
        && shows_the_end(board)
        && shows_the_fault(board)
        && is_idle(board)
        && has_one_of_each(board)
}

/// A branch with its slot, a SYSCALL, then a word that stands for nothing, which ends the only task.
#[test]
fn what_events_report(rt: HostRuntime) {
    let words = [0x1000_0001, 0x2408_0007, 0x0000_000c, 0xffff_ffff];
    assert!(rt; goes_well(rt.alloc(), &words, Scene::Events));
}

/// A step, a tick, and three more steps.
const STEPS: &[Event] = &[
    Event::Step(1),
    Event::Tick,
    Event::Step(1),
    Event::Step(1),
    Event::Step(1),
];

/// Whether processor 1 goes on here, with these words in $8 and $9.
fn goes_on(board: &Board, pc: u32, eight: u32, nine: u32) -> bool {
    match board.registers(1) {
        Some(context) => {
            context.pc() == pc
                && context.read(Register::low(8)) == eight
                && context.read(Register::low(9)) == nine
        }
        None => false,
    }
}

/// Whether a board does `STEPS`, by which processor 1 has gone once round a loop of three words.
fn plays_steps(board: &mut Board) -> bool {
    board.play(STEPS);
    goes_on(board, 0x8000_0004, 2, 2) && board.now() == 1
}

#[test]
fn lists_of_events(rt: HostRuntime) {
    let words = [0x2508_0001, 0x1000_fffe, 0x2529_0002];
    assert!(rt; goes_well(rt.alloc(), &words, Scene::Steps));
}

/// Whether the console is full after 65,536 put_chr, the last of them of 0xff, and the next one is refused.
fn is_full_at_last(board: &mut Board) -> bool {
    board.repeat(Event::Step(1), 4 * 65_536 + 2);
    let console = board.console();
    console.len() == 65_536 && console.last() == Some(&0xff) && is_answered(board, 0xffff_ffd5)
}

/// Whether this is in $2 of processor 1.
fn is_answered(board: &Board, answer: u32) -> bool {
    match board.registers(1) {
        Some(context) => context.read(Register::low(2)) == answer,
        None => false,
    }
}

/// The console takes 65,536 bytes; the byte after them is refused and isn't written.
#[test]
fn full_console(rt: HostRuntime) {
    let words = [
        0x2402_0028, // addiu $v0, $0, 40
        0x0000_000c, // syscall
        0x1000_fffd, // beq $0, $0, -3: to the first word
        0x2484_0001, // addiu $a0, $a0, 1
    ];
    assert!(rt; goes_well(rt.alloc(), &words, Scene::Console));
}

/// Whether two boards are the same, are so after an event of the first alone just where that changes nothing, and are
/// so again where the second has done it too.
fn part_and_meet(board: &mut Board, copy: &mut Board, event: Event, changes: bool) -> bool {
    let was_same = board.same(copy);
    let _ = board.event(event);
    let is_same = board.same(copy);
    let _ = copy.event(event);
    was_same && is_same != changes && board.same(copy)
}

/// Whether a board can be copied, and parts from its copy by an event where that changes something.
fn follows_its_copy(board: &mut Board, event: Event, changes: bool) -> bool {
    match board.try_copy() {
        Ok(mut copy) => part_and_meet(board, &mut copy, event, changes),
        Err(_) => false,
    }
}

/// Whether each of seven steps of processor 1 and a tick change a board, and a step of processor 2 doesn't.
fn all_change(board: &mut Board) -> bool {
    for _ in 0..7u8 {
        if !follows_its_copy(board, Event::Step(1), true) {
            return false;
        }
    }
    follows_its_copy(board, Event::Tick, true) && follows_its_copy(board, Event::Step(2), false)
}

/// Copies through a program that writes a character, stores a byte, loads linked and goes wrong, with a tick between:
/// each of these changes something else of the board.
#[test]
fn copies(rt: HostRuntime) {
    let words = [
        0x2402_0028,
        0x2404_0048,
        0x0000_000c,
        0x3c08_8000,
        0xa102_0100,
        0xc109_0100,
        0x0000_000d,
    ];
    assert!(rt; goes_well(rt.alloc(), &words, Scene::Copies));
}
