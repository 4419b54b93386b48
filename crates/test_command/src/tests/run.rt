//! The command `run` over readers and writers that fail, and the order of its faults.

use super::fakes::Taking;
use super::inputs::{endless, failing, reads_of};
use super::{UNWRITTEN, is_fault};
use brd_asm::assemble;
use brd_command::{Quiet, run};
use brd_inputs::CommandFault;
use std::alloc::Global;
use std::test::Fail;
use test_help::none_wrong;

const SOURCE: &[u8] = b"_start: addiu $v0, $0, 40\naddiu $a0, $0, 72\nsyscall\n";

/// `SOURCE` on a little-endian board.
const LITTLE_SOURCE: &[u8] =
    b".byteorder little\n_start: addiu $v0, $0, 40\naddiu $a0, $0, 72\nsyscall\n";

pub const CONFIG: &[u8] = b"BOARD(1, 0x10000); CRE_TSK(1, {TA_ACT, 0, _start, 1, 256, NULL});";

pub const JOURNAL: &[u8] = b"board-journal 2 big\nS 1 3\n";

pub const REPORT: &[u8] =
    b"events 3\ntick 0\noff 0\ncpu 1 task 1 pc 8000000c\ntask 1 ready pri 1 cpu 1\nconsole 1\nH\n";

/// The object file of `SOURCE`.
pub fn image(alloc: Global) -> Result<Vec<u8>, Fail> {
    let image = assemble(alloc, SOURCE)?;
    Ok(brd_elf::write(alloc, &image)?)
}

/// The object file of `LITTLE_SOURCE`.
pub fn little_image(alloc: Global) -> Result<Vec<u8>, Fail> {
    let image = assemble(alloc, LITTLE_SOURCE)?;
    Ok(brd_elf::write(alloc, &image)?)
}

/// Runs with inputs of which the one of this place fails at a read, where that isn't 0.
fn run_failing(
    alloc: Global,
    inputs: [&[u8]; 3],
    place: usize,
    fails_at: usize,
    writer: &mut Taking,
) -> Result<(), CommandFault> {
    let mut inputs = failing(inputs, place, fails_at);
    run(alloc, &mut inputs, writer, &mut Quiet)
}

/// The fault of an input that can't be read, by its place.
pub const UNREAD: [&str; 3] = [
    "can't read the object file: the reader's own words",
    "can't read the configuration: the reader's own words",
    "can't read the journal: the reader's own words",
];

/// Whether the read of this number of an input fails with this fault, and nothing is written.
fn ends_by_a_read(
    alloc: Global,
    inputs: [&[u8]; 3],
    place: usize,
    number: usize,
    text: &str,
) -> bool {
    let mut writer = Taking::new(alloc);
    let ended = run_failing(alloc, inputs, place, number, &mut writer);
    is_fault(alloc, &ended, text, 4) && writer.writes == 0
}

/// The first input, by its place, and read of it that fails in another way.
fn first_wrong_input(alloc: Global, image: &[u8]) -> Option<(usize, usize)> {
    let inputs = [image, CONFIG, JOURNAL];
    for (place, text) in UNREAD.iter().enumerate() {
        let mut reads = 1..=inputs[place].len().saturating_add(1);
        if let Some(number) = reads.find(|number| !ends_by_a_read(
            alloc, inputs, place, *number, *text,
        )) {
            return Some((place, number));
        }
    }
    None
}

/// An input of n bytes takes n + 1 reads, the last of which finds the end. Where one fails, its input is named, and
/// nothing is written.
#[test]
fn each_read_of_run_fails(rt: HostRuntime) -> Result<(), Fail> {
    let image = image(rt.alloc())?;
    none_wrong(first_wrong_input(rt.alloc(), image.as_slice()))
}

/// Whether `run` gives up an input, by its place, after 268,435,456 reads, and names it.
fn gives_up(alloc: Global, inputs: [&[u8]; 3], place: usize, text: &str) -> bool {
    let mut inputs = endless(inputs, place);
    let mut writer = Taking::new(alloc);
    let ended = run(alloc, &mut inputs, &mut writer, &mut Quiet);
    let reads = reads_of(&inputs, place);
    is_fault(alloc, &ended, text, 4) && writer.writes == 0 && reads == 268_435_456
}

#[test]
fn reads_of_the_object_file_end(rt: HostRuntime) -> Result<(), Fail> {
    let image = image(rt.alloc())?;
    let text = "the object file didn't end within 268,435,456 reads";
    assert!(rt; gives_up(rt.alloc(), [image.as_slice(), CONFIG, JOURNAL], 0, text));
    Ok(())
}

#[test]
fn reads_of_the_configuration_end(rt: HostRuntime) -> Result<(), Fail> {
    let image = image(rt.alloc())?;
    let text = "the configuration didn't end within 268,435,456 reads";
    assert!(rt; gives_up(rt.alloc(), [image.as_slice(), CONFIG, JOURNAL], 1, text));
    Ok(())
}

#[test]
fn reads_of_the_journal_end(rt: HostRuntime) -> Result<(), Fail> {
    let image = image(rt.alloc())?;
    let text = "the journal didn't end within 268,435,456 reads";
    assert!(rt; gives_up(rt.alloc(), [image.as_slice(), CONFIG, JOURNAL], 2, text));
    Ok(())
}

/// Whether the write after n bytes of the report fails, and is the last one.
fn ends_by_a_write(alloc: Global, image: &[u8], taken: usize) -> bool {
    let mut writer = Taking::new(alloc);
    writer.fails_at = taken.saturating_add(1);
    let ended = run_failing(alloc, [image, CONFIG, JOURNAL], 0, 0, &mut writer);
    is_fault(alloc, &ended, UNWRITTEN, 4) && writer.has_failed_after(REPORT, taken)
}

/// Whether the report is written a byte a write, and flushed.
fn writes_the_report(alloc: Global, image: &[u8]) -> bool {
    let mut writer = Taking::new(alloc);
    let ended = run_failing(alloc, [image, CONFIG, JOURNAL], 0, 0, &mut writer);
    ended.is_ok() && writer.has_flushed(REPORT)
}

/// After how many bytes the first write fails in another way, or one more than all where too few or too many are
/// written.
fn first_wrong_write(alloc: Global, image: &[u8]) -> Option<usize> {
    for taken in 0..=REPORT.len() {
        if !ends_by_a_write(alloc, image, taken) {
            return Some(taken);
        }
    }
    (!writes_the_report(alloc, image)).then_some(REPORT.len().saturating_add(1))
}

/// A report of n bytes takes n writes and a flush.
#[test]
fn each_write_of_run_fails(rt: HostRuntime) -> Result<(), Fail> {
    let image = image(rt.alloc())?;
    none_wrong(first_wrong_write(rt.alloc(), image.as_slice()))
}

/// Whether inputs have this fault, and nothing is written.
fn are_refused(alloc: Global, inputs: [&[u8]; 3], text: &str) -> bool {
    let mut writer = Taking::new(alloc);
    let ended = run_failing(alloc, inputs, 0, 0, &mut writer);
    is_fault(alloc, &ended, text, 1) && writer.writes == 0
}

const OBJECT_FILE_FAULT: &str =
    "the object file: no ELF file: it doesn't begin with the bytes 7F 45 4C 46";

/// A configuration and a journal for the object file of `SOURCE`, and the fault.
const FAULTS: &[(&[u8], &[u8], &str)] = &[
    (
        b"BOARD(9, 0x10000);",
        b"",
        "the configuration: line 1: a board has 1 to 8 processors, found 9",
    ),
    (
        b"BOARD(1, 0x10000); CRE_TSK(1, {0, 0, x, 1, 256, NULL});",
        b"",
        "the boot: task 1 (line 1) starts at x, which is no symbol of the object file (see nm)",
    ),
    (
        CONFIG,
        b"board-journal 2 big\nS 1 3\nS 1 03\n",
        "the journal: line 3, column 5: 03 has leading zeros: leave them out",
    ),
    (
        b"BOARD",
        b"",
        "the configuration: line 1: a ( is missing behind BOARD: the form is BOARD(processors, ram);",
    ),
    (
        CONFIG,
        b"board-journal",
        "the journal: line 1, column 1: the first line is `board-journal 2 big` or `board-journal 2 little`, found board-journal",
    ),
];

/// The first of `FAULTS` that is another one.
fn first_wrong_fault(alloc: Global, image: &[u8]) -> Option<usize> {
    for (row, (config, journal, text)) in FAULTS.iter().enumerate() {
        if !are_refused(alloc, [image, *config, *journal], *text) {
            return Some(row);
        }
    }
    None
}

/// Of several faults that of the object file comes first, then those of the configuration, the boot and the journal.
#[test]
fn faults_of_run(rt: HostRuntime) -> Result<(), Fail> {
    assert!(rt; are_refused(rt.alloc(), [b"\x7fEL", b"", b""], OBJECT_FILE_FAULT));
    let image = image(rt.alloc())?;
    none_wrong(first_wrong_fault(rt.alloc(), image.as_slice()))
}

/// The fault of a journal for the other boards than those of a big-endian object file, and of a little-endian one.
pub const OTHER_ORDERS: [&str; 2] = [
    "the journal: it is for little-endian boards, and the object file is big-endian",
    "the journal: it is for big-endian boards, as all with the first line `board-journal 1` are, and the object file is little-endian",
];

/// A journal, and which of the object files it is for: the big-endian one, or the little-endian one.
const ORDERS: &[(&[u8], usize)] = &[
    (b"board-journal 1\nS 1 3\n", 0),
    (b"board-journal 2 big\nS 1 3\n", 0),
    (b"board-journal 2 little\nS 1 3\n", 1),
];

/// Journals without events, likewise.
const EMPTY_ORDERS: &[(&[u8], usize)] = &[
    (b"board-journal 1\n", 0),
    (b"board-journal 2 big\n", 0),
    (b"board-journal 2 little\n", 1),
];

/// Whether the report of three steps is written.
fn reports(alloc: Global, inputs: [&[u8]; 3]) -> bool {
    let mut writer = Taking::new(alloc);
    run_failing(alloc, inputs, 0, 0, &mut writer).is_ok() && writer.has_flushed(REPORT)
}

/// The first journal that isn't refused with the object file of the other order, or that isn't run with its own.
fn first_wrong_order(alloc: Global, images: [&[u8]; 2]) -> Option<usize> {
    for (row, (journal, own)) in ORDERS.iter().enumerate() {
        let other = 1 - *own;
        if !reports(alloc, [images[*own], CONFIG, *journal])
            || !are_refused(
                alloc,
                [images[other], CONFIG, *journal],
                OTHER_ORDERS[other],
            )
        {
            return Some(row);
        }
    }
    None
}

/// The first journal without events that isn't refused with the object file of the other order.
fn first_taken(alloc: Global, images: [&[u8]; 2]) -> Option<usize> {
    for (row, (journal, own)) in EMPTY_ORDERS.iter().enumerate() {
        let other = 1 - *own;
        if !are_refused(
            alloc,
            [images[other], CONFIG, *journal],
            OTHER_ORDERS[other],
        ) {
            return Some(row);
        }
    }
    None
}

/// A journal runs with an object file of its byte order alone; one of version 1 is big-endian.
#[test]
fn journals_of_both_orders(rt: HostRuntime) -> Result<(), Fail> {
    let big = image(rt.alloc())?;
    let little = little_image(rt.alloc())?;
    let images = [big.as_slice(), little.as_slice()];
    assert!(rt; first_taken(rt.alloc(), images).is_none());
    none_wrong(first_wrong_order(rt.alloc(), images))
}

/// A file in the place of another: the place, the file, which is the object file of `SOURCE` where it isn't said, and
/// what the fault says of its kind.
type Misplaced = (usize, Option<&'static [u8]>, &'static str);

const MISPLACED: &[Misplaced] = &[
    (0, Some(CONFIG), "; it looks like a configuration"),
    (0, Some(JOURNAL), "; it looks like a journal"),
    (
        0,
        Some(SOURCE),
        "; it looks like assembler source, which \"board asm\" makes an object file of",
    ),
    (0, Some(b"\x7fEL"), ""),
    (0, Some(b""), "; it is empty"),
    (1, None, "; it looks like an object file"),
    (1, Some(JOURNAL), "; it looks like a journal"),
    (1, Some(b""), "; it is empty"),
    (2, None, "; it looks like an object file"),
    (2, Some(CONFIG), "; it looks like a configuration"),
    (2, Some(b""), "; it is empty"),
];

/// The fault of a file in this place that hasn't its form.
fn fault_in(place: usize) -> &'static str {
    match place {
        0 => OBJECT_FILE_FAULT,
        1 => {
            "the configuration: line 1: found what no statement has here, expected one in the form of its kind"
        }
        _ => {
            "the journal: line 1: expected `board-journal 2 big` or `board-journal 2 little` first, then lines `S CPU COUNT`, `T COUNT` and `R LINE COUNT`"
        }
    }
}

/// Whether a file in this place has its fault, with this after it.
fn is_misplaced<'a>(
    alloc: Global,
    image: &'a [u8],
    place: usize,
    file: &'a [u8],
    hint: &str,
) -> bool {
    let image = if place == 0 { file } else { image };
    let config = if place == 1 { file } else { CONFIG };
    let journal = if place == 2 { file } else { JOURNAL };
    match format!(in alloc; "{}{hint}", fault_in(place)) {
        Ok(text) => are_refused(alloc, [image, config, journal], text.as_str()),
        Err(_) => false,
    }
}

/// The first of `MISPLACED` that has another fault.
fn first_wrong_place(alloc: Global, image: &[u8]) -> Option<usize> {
    MISPLACED.iter().position(|(place, file, hint)| !is_misplaced(
        alloc,
        image,
        *place,
        file.unwrap_or(image),
        *hint,
    ))
}

/// A file in the place of another: its fault says of which kind it looks, where that is another than it should be of,
/// or that it is empty.
#[test]
fn files_in_each_others_places(rt: HostRuntime) -> Result<(), Fail> {
    let image = image(rt.alloc())?;
    none_wrong(first_wrong_place(rt.alloc(), image.as_slice()))
}
