//! The command `race` over readers and writers that fail, and the order of its faults.

use super::fakes::{Busy, Bytewise, Taking};
use super::inputs::{endless, failing, reads_of};
use super::run::{CONFIG, REPORT, image, little_image};
use super::{UNWRITTEN, is_fault};
use brd_asm::assemble;
use brd_command::{Blanks, Quiet, race};
use brd_inputs::CommandFault;
use brd_threads::RaceFault;
use std::alloc::Global;
use std::marker::Brand;
use std::sync::Wait;
use std::test::Fail;
use std::thread::Threads;
use test_help::none_wrong;

/// The journal of three steps on one processor.
const JOURNAL: &[u8] = b"board-journal 2 big\nS 1 3\n";

/// A script in which nothing happens.
const SCRIPT: &[u8] = b"";

/// Where the journal and the report go.
#[derive(Drop)]
struct Outputs {
    journal: Taking,
    report: Taking,
}

impl Outputs {
    fn new(alloc: Global) -> Self {
        Outputs {
            journal: Taking::new(alloc),
            report: Taking::new(alloc),
        }
    }

    /// Whether nothing was written.
    fn are_empty(&self) -> bool {
        self.journal.writes == 0 && self.report.writes == 0
    }
}

/// A race of three steps a processor. The input at this place fails at the read of this number; none fails where that
/// is 0.
fn race_failing<R: Threads + Wait + Sync>(
    rt: &R,
    alloc: Global,
    inputs: [&[u8]; 3],
    place: usize,
    fails_at: usize,
    outputs: &mut Outputs,
) -> Result<(), CommandFault> {
    let mut inputs = failing(inputs, place, fails_at);
    race::<Brand, Bytewise<'_>, Taking, Taking, Quiet, R>(
        rt,
        alloc,
        &mut inputs,
        3,
        &mut outputs.journal,
        &mut outputs.report,
        &mut Quiet,
        Blanks::new(),
    )
}

/// The fault of an input that can't be read, by its place.
const UNREAD: [&str; 3] = [
    "can't read the object file: the reader's own words",
    "can't read the configuration: the reader's own words",
    "can't read the script: the reader's own words",
];

/// Whether the read of this number of an input fails with this fault, and nothing is written.
fn ends_by_a_read<R: Threads + Wait + Sync>(
    rt: &R,
    alloc: Global,
    inputs: [&[u8]; 3],
    place: usize,
    number: usize,
    text: &str,
) -> bool {
    let mut outputs = Outputs::new(alloc);
    let ended = race_failing(rt, alloc, inputs, place, number, &mut outputs);
    is_fault(alloc, &ended, text, 4) && outputs.are_empty()
}

/// The first input, by its place, and read of it that fails in another way.
fn first_wrong_input<R: Threads + Wait + Sync>(
    rt: &R,
    alloc: Global,
    image: &[u8],
) -> Option<(usize, usize)> {
    let inputs = [image, CONFIG, b"T 1\n".as_slice()];
    for (place, text) in UNREAD.iter().enumerate() {
        let mut reads = 1..=inputs[place].len().saturating_add(1);
        if let Some(number) = reads.find(|number| !ends_by_a_read(
            rt, alloc, inputs, place, *number, *text,
        )) {
            return Some((place, number));
        }
    }
    None
}

/// An input of n bytes takes n + 1 reads, the last of which finds the end. Where one fails, its input is named, and
/// nothing is written.
#[test]
fn each_read_of_race_fails(rt: HostRuntime) -> Result<(), Fail> {
    let image = image(rt.alloc())?;
    none_wrong(first_wrong_input(&rt, rt.alloc(), image.as_slice()))
}

/// Whether `race` gives up an input, by its place, after 268,435,456 reads, and names it.
fn gives_up<R: Threads + Wait + Sync>(
    rt: &R,
    alloc: Global,
    image: &[u8],
    place: usize,
    text: &str,
) -> bool {
    let mut inputs = endless([image, CONFIG, SCRIPT], place);
    let mut outputs = Outputs::new(alloc);
    let ended = race::<Brand, Busy<'_>, Taking, Taking, Quiet, R>(
        rt,
        alloc,
        &mut inputs,
        3,
        &mut outputs.journal,
        &mut outputs.report,
        &mut Quiet,
        Blanks::new(),
    );
    let reads = reads_of(&inputs, place);
    is_fault(alloc, &ended, text, 4) && outputs.are_empty() && reads == 268_435_456
}

#[test]
fn reads_of_the_object_file_end(rt: HostRuntime) -> Result<(), Fail> {
    let image = image(rt.alloc())?;
    let text = "the object file didn't end within 268,435,456 reads";
    assert!(rt; gives_up(&rt, rt.alloc(), image.as_slice(), 0, text));
    Ok(())
}

#[test]
fn reads_of_the_configuration_end(rt: HostRuntime) -> Result<(), Fail> {
    let image = image(rt.alloc())?;
    let text = "the configuration didn't end within 268,435,456 reads";
    assert!(rt; gives_up(&rt, rt.alloc(), image.as_slice(), 1, text));
    Ok(())
}

#[test]
fn reads_of_the_script_end(rt: HostRuntime) -> Result<(), Fail> {
    let image = image(rt.alloc())?;
    let text = "the script didn't end within 268,435,456 reads";
    assert!(rt; gives_up(&rt, rt.alloc(), image.as_slice(), 2, text));
    Ok(())
}

/// Whether the write after n bytes of the journal fails, and is the last one.
fn ends_in_the_journal<R: Threads + Wait + Sync>(
    rt: &R,
    alloc: Global,
    image: &[u8],
    taken: usize,
) -> bool {
    let mut outputs = Outputs::new(alloc);
    outputs.journal.fails_at = taken.saturating_add(1);
    let ended = race_failing(rt, alloc, [image, CONFIG, SCRIPT], 0, 0, &mut outputs);
    is_fault(alloc, &ended, UNWRITTEN, 4)
        && outputs.journal.has_failed_after(JOURNAL, taken)
        && outputs.report.writes == 0
}

/// Whether the write after n bytes of the report fails, and is the last one; the journal is whole.
fn ends_in_the_report<R: Threads + Wait + Sync>(
    rt: &R,
    alloc: Global,
    image: &[u8],
    taken: usize,
) -> bool {
    let mut outputs = Outputs::new(alloc);
    outputs.report.fails_at = taken.saturating_add(1);
    let ended = race_failing(rt, alloc, [image, CONFIG, SCRIPT], 0, 0, &mut outputs);
    is_fault(alloc, &ended, UNWRITTEN, 4)
        && outputs.report.has_failed_after(REPORT, taken)
        && outputs.journal.has_flushed(JOURNAL)
}

/// Whether the journal and the report are written a byte a write, and flushed.
fn writes_both<R: Threads + Wait + Sync>(rt: &R, alloc: Global, image: &[u8]) -> bool {
    let mut outputs = Outputs::new(alloc);
    let ended = race_failing(rt, alloc, [image, CONFIG, SCRIPT], 0, 0, &mut outputs);
    ended.is_ok() && outputs.journal.has_flushed(JOURNAL) && outputs.report.has_flushed(REPORT)
}

/// After how many bytes the first write of the journal fails in another way.
fn first_wrong_in_the_journal<R: Threads + Wait + Sync>(
    rt: &R,
    alloc: Global,
    image: &[u8],
) -> Option<usize> {
    (0..=JOURNAL.len()).find(|taken| !ends_in_the_journal(rt, alloc, image, *taken))
}

/// After how many bytes the first write of the report fails in another way.
fn first_wrong_in_the_report<R: Threads + Wait + Sync>(
    rt: &R,
    alloc: Global,
    image: &[u8],
) -> Option<usize> {
    (0..=REPORT.len()).find(|taken| !ends_in_the_report(rt, alloc, image, *taken))
}

/// The journal is written before the report; each takes a write for each byte, and a flush.
#[test]
fn each_write_of_race_fails(rt: HostRuntime) -> Result<(), Fail> {
    let image = image(rt.alloc())?;
    none_wrong(first_wrong_in_the_journal(&rt, rt.alloc(), image.as_slice()))?;
    none_wrong(first_wrong_in_the_report(&rt, rt.alloc(), image.as_slice()))?;
    assert!(rt; writes_both(&rt, rt.alloc(), image.as_slice()));
    Ok(())
}

/// The journal of a race on a little-endian board.
const LITTLE_JOURNAL: &[u8] = b"board-journal 2 little\nS 1 3\n";

/// The journal has the board's byte order.
#[test]
fn journal_of_a_little_endian_race(rt: HostRuntime) -> Result<(), Fail> {
    let image = little_image(rt.alloc())?;
    let mut outputs = Outputs::new(rt.alloc());
    let inputs = [image.as_slice(), CONFIG, SCRIPT];
    let ended = race_failing(&rt, rt.alloc(), inputs, 0, 0, &mut outputs);
    assert!(rt; ended.is_ok() && outputs.journal.has_flushed(LITTLE_JOURNAL));
    assert!(rt; outputs.report.has_flushed(REPORT));
    Ok(())
}

/// Whether inputs have this fault, and nothing is written.
fn are_refused<R: Threads + Wait + Sync>(
    rt: &R,
    alloc: Global,
    inputs: [&[u8]; 3],
    text: &str,
) -> bool {
    let mut outputs = Outputs::new(alloc);
    let ended = race_failing(rt, alloc, inputs, 0, 0, &mut outputs);
    is_fault(alloc, &ended, text, 1) && outputs.are_empty()
}

/// A configuration and a script for the object file of the board, and the fault.
const FAULTS: &[(&[u8], &[u8], &str)] = &[
    (
        b"BOARD(9, 0x10000);",
        b"x",
        "the configuration: line 1: a board has 1 to 8 processors, found 9",
    ),
    (
        b"BOARD(1, 0x10000); CRE_TSK(1, {0, 0, x, 1, 256, NULL});",
        b"x",
        "the boot: task 1 (line 1) starts at x, which is no symbol of the object file (see nm)",
    ),
    (
        CONFIG,
        b"T 1\nS 1 3\n",
        "the script: line 2, column 1: no steps in a script: each processor takes its own",
    ),
];

/// The first of `FAULTS` that is another one.
fn first_wrong_fault<R: Threads + Wait + Sync>(
    rt: &R,
    alloc: Global,
    image: &[u8],
) -> Option<usize> {
    FAULTS.iter().position(|(config, script, text)| !are_refused(
        rt,
        alloc,
        [image, *config, *script],
        *text,
    ))
}

/// Of several faults that of the object file comes first, then those of the configuration, the boot and the script.
#[test]
fn faults_of_race(rt: HostRuntime) -> Result<(), Fail> {
    let elf = "the object file: no ELF file: it doesn't begin with the bytes 7F 45 4C 46";
    assert!(rt; are_refused(&rt, rt.alloc(), [b"\x7fEL", b"", b"x"], elf));
    let image = image(rt.alloc())?;
    none_wrong(first_wrong_fault(&rt, rt.alloc(), image.as_slice()))
}

/// Whether a race's own fault ends the command with this text and status.
fn ends_with(alloc: Global, fault: RaceFault, text: &str, status: u8) -> bool {
    is_fault(alloc, &Err(CommandFault::of_race(fault)), text, status)
}

/// A race's own faults, which no race of these tests comes to.
#[test]
fn own_faults_of_race(rt: HostRuntime) {
    let full = "the race: the events need more runs than the journal's limit";
    assert!(rt; ends_with(rt.alloc(), RaceFault::JournalFull, full, 1));
    let broken = "the race: the threads left another board than theirs, or something undone";
    assert!(rt; ends_with(rt.alloc(), RaceFault::Broken, broken, 1));
    assert!(rt; ends_with(rt.alloc(), RaceFault::NoMemory, "out of memory", 3));
}

/// Two processors count to 20 in one word: each waits until it is its turn, by the word's lowest bit, and the board
/// goes off at 20. A processor that is alone at work waits until its quota is used up.
const TURNS: &[u8] = b"
even:   b wait
        addiu $s1, $0, 0
odd:    addiu $s1, $0, 1
wait:   lui $s0, 0x8000
        addiu $s2, $0, 20
look:   lw $t0, 0x1000($s0)
        nop
        beq $t0, $s2, done
        andi $t1, $t0, 1
        bne $t1, $s1, look
        nop
        addiu $t0, $t0, 1
        b look
        sw $t0, 0x1000($s0)
done:   addiu $v0, $0, 41       # ext_ker
        syscall
";

const TWO: &[u8] = b"BOARD(2, 0x10000);
CRE_TSK(1, {TA_ACT, 0, even, 1, 256, NULL});
CLASS(TCL_2) { CRE_TSK(2, {TA_ACT, 0, odd, 1, 256, NULL}); }
";

/// How many races it may take until one shows that both are at work.
const RACES: u32 = 20;

/// Whether in one of the races the processors have taken 20 turns.
fn takes_turns<R: Threads + Wait + Sync>(rt: &R, alloc: Global, image: &[u8]) -> bool {
    for _ in 0..RACES {
        let mut inputs = failing([image, TWO, SCRIPT], 0, 0);
        let mut outputs = Outputs::new(alloc);
        let ended = race::<Brand, Bytewise<'_>, Taking, Taking, Quiet, R>(
            rt,
            alloc,
            &mut inputs,
            1_000_000,
            &mut outputs.journal,
            &mut outputs.report,
            &mut Quiet,
            Blanks::new(),
        );
        if ended.is_err() {
            return false;
        }
        if outputs.report.has(b"\noff 1\n") {
            return true;
        }
    }
    false
}

/// The workers of the command are at work at the same time: else none of its processors would see what the other does.
#[test]
fn processors_take_turns(rt: HostRuntime) -> Result<(), Fail> {
    let image = brd_elf::write(rt.alloc(), &assemble(rt.alloc(), TURNS)?)?;
    assert!(rt; takes_turns(&rt, rt.alloc(), image.as_slice()));
    Ok(())
}
