//! The command `debug` over readers and writers that fail, and the lines that it reads.

use super::fakes::{Busy, Bytewise, Taking};
use super::inputs::failing;
use super::run::{CONFIG, JOURNAL, OTHER_ORDERS, UNREAD, image, little_image};
use super::{UNWRITTEN, is_fault};
use brd_command::{Quiet, debug};
use brd_inputs::{CommandFault, Inputs};
use std::alloc::Global;
use std::io::Read;
use std::test::Fail;
use test_help::none_wrong;

const COMMANDS: &[u8] = b"goto 2\nback\nregs 1";

const ANSWERS: &[u8] = b"at 2\nnone\npc 80000008\n$2 00000028\n$4 00000048\n$29 80010000\n";

/// Debugs the firmware of `run`'s tests by these commands.
fn debug_by<R: Read>(
    alloc: Global,
    image: &[u8],
    commands: &mut R,
    writer: &mut Taking,
) -> Result<(), CommandFault> {
    let mut inputs = Inputs {
        image,
        config: CONFIG,
        last: JOURNAL,
    };
    debug(alloc, &mut inputs, commands, writer, &mut Quiet)
}

/// Debugs with files of which the one of this place fails at a read.
fn debug_failing(
    alloc: Global,
    inputs: [&[u8]; 3],
    place: usize,
    fails_at: usize,
    commands: &mut Bytewise<'_>,
    writer: &mut Taking,
) -> Result<(), CommandFault> {
    let mut inputs = failing(inputs, place, fails_at);
    debug(alloc, &mut inputs, commands, writer, &mut Quiet)
}

/// Whether the read of this number of a file fails with this fault, and no command is read, nor anything written.
fn ends_by_a_file(
    alloc: Global,
    inputs: [&[u8]; 3],
    place: usize,
    number: usize,
    text: &str,
) -> bool {
    let mut commands = Bytewise::new(COMMANDS);
    let mut writer = Taking::new(alloc);
    let ended = debug_failing(alloc, inputs, place, number, &mut commands, &mut writer);
    is_fault(alloc, &ended, text, 4) && commands.reads == 0 && writer.writes == 0
}

/// The first file, by its place, and read of it that fails in another way.
fn first_wrong_file(alloc: Global, image: &[u8]) -> Option<(usize, usize)> {
    let inputs = [image, CONFIG, JOURNAL];
    for (place, text) in UNREAD.iter().enumerate() {
        let mut reads = 1..=inputs[place].len().saturating_add(1);
        if let Some(number) = reads.find(|number| !ends_by_a_file(
            alloc, inputs, place, *number, *text,
        )) {
            return Some((place, number));
        }
    }
    None
}

/// A file of n bytes takes n + 1 reads, the last of which finds the end. Where one fails, its file is named.
#[test]
fn each_read_of_a_file_fails(rt: HostRuntime) -> Result<(), Fail> {
    let image = image(rt.alloc())?;
    none_wrong(first_wrong_file(rt.alloc(), image.as_slice()))
}

/// Whether commands are answered where reads and writes are interrupted.
fn goes_on(alloc: Global, image: &[u8]) -> bool {
    let mut commands = Bytewise::new(COMMANDS);
    commands.interrupts = true;
    let mut writer = Taking::new(alloc);
    writer.interrupts = true;
    let ended = debug_by(alloc, image, &mut commands, &mut writer);
    ended.is_ok() && writer.taken.as_slice() == ANSWERS
}

#[test]
fn reads_and_writes_are_interrupted(rt: HostRuntime) -> Result<(), Fail> {
    let image = image(rt.alloc())?;
    assert!(rt; goes_on(rt.alloc(), image.as_slice()));
    Ok(())
}

/// Whether `debug` gives up after 268,435,456 reads of commands, those of lines that it has answered too.
fn gives_up(alloc: Global, image: &[u8]) -> bool {
    let mut commands = Busy::new(b"goto 2\nback\n", false);
    let mut writer = Taking::new(alloc);
    let ended = debug_by(alloc, image, &mut commands, &mut writer);
    let text = "standard input didn't end within 268,435,456 reads";
    is_fault(alloc, &ended, text, 4)
        && commands.reads == 268_435_456
        && writer.taken.as_slice() == b"at 2\nnone\n".as_slice()
}

/// Commands that never end a line are given up.
#[test]
fn reads_end(rt: HostRuntime) -> Result<(), Fail> {
    let image = image(rt.alloc())?;
    assert!(rt; gives_up(rt.alloc(), image.as_slice()));
    Ok(())
}

/// What is answered before the read of this number of `COMMANDS`.
fn answers_before(number: usize) -> &'static [u8] {
    match number {
        0..8 => b"",
        8..13 => b"at 2\n",
        _ => b"at 2\nnone\n",
    }
}

/// Whether the read of this number fails, and the answers to the lines before have been written.
fn ends_by_a_read(alloc: Global, image: &[u8], number: usize) -> bool {
    let mut commands = Bytewise::new(COMMANDS);
    commands.fails_at = number;
    let mut writer = Taking::new(alloc);
    let ended = debug_by(alloc, image, &mut commands, &mut writer);
    let text = "can't read standard input: the reader's own words";
    is_fault(alloc, &ended, text, 4) && writer.taken.as_slice() == answers_before(number)
}

/// The first read that fails in another way.
fn first_wrong_read(alloc: Global, image: &[u8]) -> Option<usize> {
    (1..=COMMANDS.len().saturating_add(1)).find(|number| !ends_by_a_read(alloc, image, *number))
}

/// n bytes of commands take n + 1 reads, the last of which finds the end. Where one fails, the answers to the lines
/// before have been written.
#[test]
fn each_read_of_commands_fails(rt: HostRuntime) -> Result<(), Fail> {
    let image = image(rt.alloc())?;
    none_wrong(first_wrong_read(rt.alloc(), image.as_slice()))
}

/// Commands, and by how many reads they are read.
const READS: &[(&[u8], usize)] = &[
    (COMMANDS, COMMANDS.len() + 1),
    (b"goto 2\n", 8),
    (b"goto 2", 7),
    (b"", 1),
    (b"\n", 2),
    (b"quit\n", 5),
    (b"quit", 5),
    (b"goto 1\nquit\ngoto 2\n", 12),
];

/// Whether commands are read by n reads.
fn are_read_by(alloc: Global, image: &[u8], commands: &[u8], number: usize) -> bool {
    let mut commands = Bytewise::new(commands);
    let mut writer = Taking::new(alloc);
    let ended = debug_by(alloc, image, &mut commands, &mut writer);
    ended.is_ok() && commands.reads == number
}

/// The first of `READS` that takes more or fewer.
fn first_wrong_reads(alloc: Global, image: &[u8]) -> Option<usize> {
    READS.iter().position(|(commands, number)| !are_read_by(alloc, image, *commands, *number))
}

/// The end of the commands is found by one read, also after a last line without a newline. After `quit` none is done.
#[test]
fn the_end_of_commands_is_read_once(rt: HostRuntime) -> Result<(), Fail> {
    let image = image(rt.alloc())?;
    none_wrong(first_wrong_reads(rt.alloc(), image.as_slice()))
}

/// Whether the write of this number fails, and a front of the answers has been written.
fn ends_by_a_write(alloc: Global, image: &[u8], number: usize) -> bool {
    let mut commands = Bytewise::new(COMMANDS);
    let mut writer = Taking::new(alloc);
    writer.fails_at = number;
    let ended = debug_by(alloc, image, &mut commands, &mut writer);
    is_fault(alloc, &ended, UNWRITTEN, 4) && ANSWERS.starts_with(writer.taken.as_slice())
}

/// The first write that fails in another way: of the answers, and three flushes.
fn first_wrong_write(alloc: Global, image: &[u8]) -> Option<usize> {
    (1..=ANSWERS.len().saturating_add(3)).find(|number| !ends_by_a_write(alloc, image, *number))
}

/// Each answer is written and flushed. Where a write fails, a front of the answers has been written.
#[test]
fn each_write_of_answers_fails(rt: HostRuntime) -> Result<(), Fail> {
    let image = image(rt.alloc())?;
    none_wrong(first_wrong_write(rt.alloc(), image.as_slice()))
}

/// Lines, and their answers.
const LINES: &[(&[u8], &[u8])] = &[
    (COMMANDS, ANSWERS),
    (b"", b""),
    (b"\n", b"unknown\n"),
    (b"quit", b""),
    (b"quit\ngoto 1\n", b""),
    (b"quit \nquit", b"unknown\n"),
    (b"goto 3\ngoto 4\ngoto 0", b"at 3\npast 3\nat 0\n"),
    (b"goto 18446744073709551615\n", b"past 3\n"),
    (b"goto 18446744073709551616\n", b"unknown\n"),
    (
        b"goto 01\ngoto  1\n goto 1\ngoto\n",
        b"unknown\nunknown\nunknown\nunknown\n",
    ),
    (b"regs 0\nregs 9\nregs 255\n", b"none\nnone\nnone\n"),
    (
        b"regs 256\nregs 01\nregs\r\n",
        b"unknown\nunknown\nunknown\n",
    ),
    (
        b"mem 7fffffff\nmem 80000003\nmem 8000FFFF\n",
        b"outside\n28\n00\n",
    ),
    (b"mem 0000000\nmem 000000000\n", b"unknown\nunknown\n"),
    (
        b"break 80000008\nnext\nnext\nback\n",
        b"ok\nat 2\nnone\nnone\n",
    ),
    (b"watch 80000000\nnext\n", b"ok\nnone\n"),
];

/// Whether commands are answered so.
fn are_answered(alloc: Global, image: &[u8], commands: &[u8], answers: &[u8]) -> bool {
    let mut commands = Bytewise::new(commands);
    let mut writer = Taking::new(alloc);
    let ended = debug_by(alloc, image, &mut commands, &mut writer);
    ended.is_ok() && writer.taken.as_slice() == answers
}

/// The first of `LINES` that are answered otherwise.
fn first_wrong_answer(alloc: Global, image: &[u8]) -> Option<usize> {
    LINES.iter().position(|(commands, answers)| !are_answered(alloc, image, *commands, *answers))
}

/// What lines answer that say something, nearly something, and nothing.
#[test]
fn lines_of_debug(rt: HostRuntime) -> Result<(), Fail> {
    let image = image(rt.alloc())?;
    none_wrong(first_wrong_answer(rt.alloc(), image.as_slice()))
}

/// Whether an object file and a journal are refused with this fault, and nothing is written.
fn are_refused(alloc: Global, image: &[u8], journal: &[u8], text: &str) -> bool {
    let mut commands = Bytewise::new(COMMANDS);
    let mut writer = Taking::new(alloc);
    let inputs = [image, CONFIG, journal];
    let ended = debug_failing(alloc, inputs, 0, 0, &mut commands, &mut writer);
    is_fault(alloc, &ended, text, 1) && writer.writes == 0
}

/// Whether commands are answered over a little-endian object file and its journal: a word lies the other way round.
fn answers_little(alloc: Global, image: &[u8]) -> bool {
    let mut commands = Bytewise::new(b"mem 80000000\nmem 80000003\ngoto 1\nregs 1\n");
    let mut writer = Taking::new(alloc);
    let inputs = [image, CONFIG, b"board-journal 2 little\nS 1 3\n".as_slice()];
    let ended = debug_failing(alloc, inputs, 0, 0, &mut commands, &mut writer);
    let answers = b"28\n24\nat 1\npc 80000004\n$2 00000028\n$29 80010000\n".as_slice();
    ended.is_ok() && writer.taken.as_slice() == answers
}

/// A journal of the other byte order than the object file's is refused; one of its own isn't.
#[test]
fn debuggers_of_both_orders(rt: HostRuntime) -> Result<(), Fail> {
    let [of_big, of_little] = OTHER_ORDERS;
    let big = image(rt.alloc())?;
    assert!(rt;
        are_refused(
            rt.alloc(),
            big.as_slice(),
            b"board-journal 2 little\n",
            of_big
        )
    );
    let little = little_image(rt.alloc())?;
    assert!(rt;
        are_refused(
            rt.alloc(),
            little.as_slice(),
            b"board-journal 1\n",
            of_little
        )
    );
    assert!(rt; are_refused(rt.alloc(), little.as_slice(), JOURNAL, of_little));
    assert!(rt; answers_little(rt.alloc(), little.as_slice()));
    Ok(())
}
