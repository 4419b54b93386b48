//! Commands over readers and writers that go a byte at a time, and fail where they are told to. Where rows or numbers
//! are gone through, a function answers the first that isn't right, and a test fails by `none_wrong`, which says it.

mod debug;
mod fakes;
mod files;
mod gdb;
mod inputs;
mod race;
mod run;

use brd_command::{Quiet, asm, words};
use brd_inputs::CommandFault;
use brd_mem::{Image, is_plain};
use fakes::{Busy, Bytewise, Taking};
use std::alloc::{AllocError, Global};
use std::io::{ErrorKind, Read, Write};
use std::test::Fail;
use test_help::{none_wrong, reads};

const INPUT: &[u8] = b"24080005\n01084821\n";

const OUTPUT: &[u8] = b"pc 80000008\n$8 00000005\n$9 0000000a\n$29 80010000\n";

/// A source with each kind of content, and two segments.
const SOURCE: &[u8] =
    b"_start: lui $t0, %hi(d)\nlw $t1, %lo(d)($t0)\nnop\n.org 0x80000100\nd: .word 7\n";

/// The fault of a write that fails.
const UNWRITTEN: &str = "can't write the output: the writer's own words";

/// Which command is tested.
#[derive(Clone, Copy, Debug)]
enum Tested {
    Words,
    Asm,
}

impl Tested {
    fn run<R: Read, W: Write>(
        self,
        alloc: Global,
        reader: &mut R,
        writer: &mut W,
    ) -> Result<(), CommandFault> {
        match self {
            Tested::Words => words(alloc, reader, writer, 2),
            Tested::Asm => asm(alloc, reader, writer, &mut Quiet),
        }
    }

    fn input(self) -> &'static [u8] {
        match self {
            Tested::Words => INPUT,
            Tested::Asm => SOURCE,
        }
    }

    /// The fault of a read that fails.
    fn unread(self) -> &'static str {
        match self {
            Tested::Words => "can't read standard input: the reader's own words",
            Tested::Asm => "can't read the source: the reader's own words",
        }
    }

    /// The fault of reads that don't end.
    fn endless(self) -> &'static str {
        match self {
            Tested::Words => "standard input didn't end within 268,435,456 reads",
            Tested::Asm => "the source didn't end within 268,435,456 reads",
        }
    }

    /// What it writes for its input.
    fn output(self, alloc: Global) -> Option<Vec<u8>> {
        let mut reader = self.input();
        let mut writer = Vec::new(alloc);
        match self.run(alloc, &mut reader, &mut writer) {
            Ok(()) => Some(writer),
            Err(_) => None,
        }
    }
}

/// Whether a command ended with this fault: this text and this status.
fn is_fault(alloc: Global, ended: &Result<(), CommandFault>, text: &str, status: u8) -> bool {
    match ended {
        Ok(()) => false,
        Err(fault) => fault.status() == status && reads(alloc, fault, text),
    }
}

/// Whether a command writes this for what it reads.
fn writes<R: Read>(alloc: Global, tested: Tested, reader: &mut R, output: &[u8]) -> bool {
    let mut writer = Vec::new(alloc);
    tested.run(alloc, reader, &mut writer).is_ok() && writer.as_slice() == output
}

/// Whether a command ends with this fault by what it reads, and writes nothing.
fn is_refused<R: Read>(
    alloc: Global,
    tested: Tested,
    reader: &mut R,
    text: &str,
    status: u8,
) -> bool {
    let mut writer = Taking::new(alloc);
    let ended = tested.run(alloc, reader, &mut writer);
    is_fault(alloc, &ended, text, status) && writer.writes == 0
}

#[test]
fn bytes_in_and_out(rt: HostRuntime) {
    let mut reader = INPUT;
    assert!(rt; writes(rt.alloc(), Tested::Words, &mut reader, OUTPUT));
}

/// What is looked at of a command and its output.
#[derive(Clone, Copy)]
enum Scene {
    Reads,
    Interrupted,
    Writes,
}

/// What is wrong with a command in a scene: a number of reads or bytes.
fn wrong_in(alloc: Global, tested: Tested, scene: Scene, output: &[u8]) -> Option<usize> {
    match scene {
        Scene::Reads => first_wrong_read(alloc, tested, output),
        Scene::Interrupted => (!goes_on(alloc, tested, output)).then_some(0),
        Scene::Writes => first_wrong_write(alloc, tested, output),
    }
}

/// The same of a command whose output isn't at hand yet.
fn wrong_of(alloc: Global, tested: Tested, scene: Scene) -> Option<usize> {
    match tested.output(alloc) {
        Some(output) => wrong_in(alloc, tested, scene, output.as_slice()),
        None => Some(0),
    }
}

/// The first command with which something is wrong in a scene, and what.
fn first_wrong(alloc: Global, scene: Scene) -> Option<(Tested, usize)> {
    for tested in [Tested::Words, Tested::Asm] {
        if let Some(number) = wrong_of(alloc, tested, scene) {
            return Some((tested, number));
        }
    }
    None
}

/// Whether the read of this number fails, and is the last one.
fn ends_by_a_read(alloc: Global, tested: Tested, number: usize) -> bool {
    let mut reader = Bytewise::new(tested.input());
    reader.fails_at = number;
    is_refused(alloc, tested, &mut reader, tested.unread(), 4) && reader.reads == number
}

/// Whether a command reads n times, and then writes its output.
fn reads_so_often(alloc: Global, tested: Tested, number: usize, output: &[u8]) -> bool {
    let mut reader = Bytewise::new(tested.input());
    writes(alloc, tested, &mut reader, output) && reader.reads == number
}

/// The first read that fails in another way, or 0 where there are too few or too many.
fn first_wrong_read(alloc: Global, tested: Tested, output: &[u8]) -> Option<usize> {
    let last = tested.input().len().saturating_add(1);
    for number in 1..=last {
        if !ends_by_a_read(alloc, tested, number) {
            return Some(number);
        }
    }
    (!reads_so_often(alloc, tested, last, output)).then_some(0)
}

/// An input of n bytes takes n + 1 reads, the last of which finds the end.
#[test]
fn each_read_fails(rt: HostRuntime) -> Result<(), Fail> {
    none_wrong(first_wrong(rt.alloc(), Scene::Reads))
}

/// Whether a command goes on where reads and writes are interrupted.
fn goes_on(alloc: Global, tested: Tested, output: &[u8]) -> bool {
    let mut reader = Bytewise::new(tested.input());
    reader.interrupts = true;
    let mut writer = Taking::new(alloc);
    writer.interrupts = true;
    tested.run(alloc, &mut reader, &mut writer).is_ok() && writer.taken.as_slice() == output
}

#[test]
fn reads_and_writes_are_interrupted(rt: HostRuntime) -> Result<(), Fail> {
    none_wrong(first_wrong(rt.alloc(), Scene::Interrupted))
}

/// An error of memory, of a read: the program ran out of it.
#[test]
fn a_read_runs_out_of_memory(rt: HostRuntime) {
    let mut reader = Bytewise::new(INPUT);
    reader.fails_at = 3;
    reader.kind = ErrorKind::OutOfMemory;
    assert!(rt; is_refused(rt.alloc(), Tested::Words, &mut reader, "out of memory", 3));
}

/// Puts 300,000 empty lines and the input at the end.
fn put_many_lines(input: &mut Vec<u8>) -> Result<(), AllocError> {
    input.resize(300_000, b'\n')?;
    input.extend_from_slice(INPUT)
}

/// Whether an input is read by 300,019 reads, as the one of two words is.
fn takes_many_reads(alloc: Global, input: &[u8]) -> bool {
    let mut reader = Bytewise::new(input);
    writes(alloc, Tested::Words, &mut reader, OUTPUT) && reader.reads == 300_019
}

/// A byte a read is slow, and no reason to give up.
#[test]
fn many_reads(rt: HostRuntime) {
    let mut input = Vec::new(rt.alloc());
    let is_put = put_many_lines(&mut input).is_ok();
    assert!(rt; is_put && takes_many_reads(rt.alloc(), input.as_slice()));
}

/// Whether a command gives up after 268,435,456 reads without a byte.
fn gives_up(alloc: Global, tested: Tested) -> bool {
    let mut reader = Busy::new(b"", false);
    is_refused(alloc, tested, &mut reader, tested.endless(), 4) && reader.reads == 268_435_456
}

/// A reader that never gives a byte is given up.
#[test]
fn reads_end(rt: HostRuntime) {
    assert!(rt; gives_up(rt.alloc(), Tested::Words) && gives_up(rt.alloc(), Tested::Asm));
}

/// Whether a command ended since a write failed, with an error of this kind.
fn is_unwritten(alloc: Global, ended: &Result<(), CommandFault>, kind: ErrorKind) -> bool {
    match ended {
        Err(CommandFault::Write(error)) => {
            error.kind() == kind && is_fault(alloc, ended, UNWRITTEN, 4)
        }
        _ => false,
    }
}

/// Whether the write after n bytes fails, and is the last one.
fn ends_by_a_write(
    alloc: Global,
    tested: Tested,
    output: &[u8],
    taken: usize,
    kind: ErrorKind,
) -> bool {
    let mut reader = tested.input();
    let mut writer = Taking::new(alloc);
    writer.fails_at = taken.saturating_add(1);
    writer.kind = kind;
    let ended = tested.run(alloc, &mut reader, &mut writer);
    is_unwritten(alloc, &ended, kind) && writer.has_failed_after(output, taken)
}

/// Whether a command writes its output a byte a write, and flushes it.
fn writes_bytes(alloc: Global, tested: Tested, output: &[u8]) -> bool {
    let mut reader = tested.input();
    let mut writer = Taking::new(alloc);
    tested.run(alloc, &mut reader, &mut writer).is_ok() && writer.has_flushed(output)
}

/// After how many bytes the first write fails in another way, or one more than all where too few or too many are
/// written.
fn first_wrong_write(alloc: Global, tested: Tested, output: &[u8]) -> Option<usize> {
    let all = output.len();
    for taken in 0..=all {
        if !ends_by_a_write(alloc, tested, output, taken, ErrorKind::BrokenPipe)
            || !ends_by_a_write(alloc, tested, output, taken, ErrorKind::StorageFull)
        {
            return Some(taken);
        }
    }
    (!writes_bytes(alloc, tested, output)).then_some(all.saturating_add(1))
}

/// An output of n bytes takes n writes; then the writer is flushed. After one that fails there is none.
#[test]
fn each_write_fails(rt: HostRuntime) -> Result<(), Fail> {
    none_wrong(first_wrong(rt.alloc(), Scene::Writes))
}

/// Whether a command ends by a write that takes nothing.
fn ends_by_an_empty_write(alloc: Global) -> bool {
    let mut reader = INPUT;
    let mut writer = Taking::new(alloc);
    writer.is_full = true;
    let ended = words(alloc, &mut reader, &mut writer, 2);
    is_fault(alloc, &ended, "can't write the output: write zero", 4) && writer.writes == 1
}

#[test]
fn a_writer_takes_nothing(rt: HostRuntime) {
    assert!(rt; ends_by_an_empty_write(rt.alloc()));
}

/// Whether words are refused with this fault.
fn are_refused(alloc: Global, words: &[u8], text: &str) -> bool {
    let mut reader = words;
    is_refused(alloc, Tested::Words, &mut reader, text, 1)
}

#[test]
fn a_word_of_seven_digits(rt: HostRuntime) {
    let text = "standard input: line 2: a word must have eight hexadecimal digits";
    assert!(rt; are_refused(rt.alloc(), b"24080005\n2408000\n", text));
}

/// Puts 16,385 words at the end, one more than there can be.
fn put_too_many(words: &mut Vec<u8>) -> Result<(), AllocError> {
    for _ in 0..16_385 {
        words.extend_from_slice(b"00000000\n")?;
    }
    Ok(())
}

#[test]
fn too_many_words(rt: HostRuntime) {
    let mut words = Vec::new(rt.alloc());
    let is_put = put_too_many(&mut words).is_ok();
    let text = "standard input: there are more than 16,384 words";
    assert!(rt; is_put && are_refused(rt.alloc(), words.as_slice(), text));
}

/// A source, and what is said of its fault.
type Faulty = (&'static str, &'static str);

/// Whether this is said of a source.
fn is_faulty(alloc: Global, source: &str, text: &str) -> bool {
    let mut reader = source.as_bytes();
    is_refused(alloc, Tested::Asm, &mut reader, text, 1)
}

/// The first of these sources of which something else is said.
fn first_wrong_source(alloc: Global, rows: &[Faulty]) -> Option<usize> {
    for (row, (source, text)) in rows.iter().enumerate() {
        if !is_faulty(alloc, *source, *text) {
            return Some(row);
        }
    }
    None
}

const FAULTS: &[Faulty] = &[
    (
        "nop\nnop 1",
        "the source: line 2, column 5: nop takes no operands, found 1",
    ),
    (
        "a: nop\na: nop",
        "the source: line 2, column 1: a is defined already, on line 1",
    ),
    (
        "nop\n.word b",
        "the source: line 2, column 7: b has no value: no line defines it",
    ),
    (
        "nop\n.byte 256",
        "the source: line 2, column 7: a value of .byte is -128 to 255, found 256",
    ),
    (
        ".byte 1\nnop",
        "the source: line 2, column 1: nop stands at 0x80000001, which is no multiple of 4: put .align 2 before it",
    ),
    (
        "nop\na: .org 0x80000000\nnop",
        "the source: line 3, column 1: nop stands at 0x80000000, which line 1 fills already",
    ),
];

/// Each fault of a source.
#[test]
fn faults_of_a_source(rt: HostRuntime) -> Result<(), Fail> {
    none_wrong(first_wrong_source(rt.alloc(), FAULTS))
}

const SHOWN_LINES: &[Faulty] = &[
    (
        "nop 1",
        "the source: line 1, column 5: nop takes no operands, found 1",
    ),
    (
        "nop 1 # what nop's operand is",
        "the source: line 1, column 5: nop takes no operands, found 1",
    ),
    (
        "nop\n\tnop 1\r\nnop 2",
        "the source: line 2, column 6: nop takes no operands, found 1",
    ),
    (
        "#\n\n.byte \u{e4}\n",
        "the source: line 3, column 7: the byte 195 isn't printable ASCII: it can stand in comments only",
    ),
    (
        ".org 0x80000000, 12345678901234567890123456789012345678901234567",
        "the source: line 1, column 6: .org takes address, found 2 operands",
    ),
    (
        ".org 0x80000000, 1234567890123456789012345678901234567890123",
        "the source: line 1, column 6: .org takes address, found 2 operands",
    ),
];

/// What a fault shows of its line.
#[test]
fn a_fault_shows_its_line(rt: HostRuntime) -> Result<(), Fail> {
    none_wrong(first_wrong_source(rt.alloc(), SHOWN_LINES))
}

/// Puts a source of 65,535 words at the end, each apart from the others.
fn put_islands(source: &mut String) -> Result<(), AllocError> {
    source.push_str(".equ ram, 0x80000000\n")?;
    for n in 0..65_535u32 {
        let at = n.wrapping_mul(8);
        write!(source, ".org ram+{at}\n.word {n}\n")?;
    }
    Ok(())
}

/// Whether a source is refused since its image is too large.
fn is_too_large(alloc: Global, source: &str) -> bool {
    let mut reader = source.as_bytes();
    let text = "the source: its image has more segments or bytes than an object file can hold";
    is_refused(alloc, Tested::Asm, &mut reader, text, 1)
}

/// An object file counts its segments in 16 bits, of which the greatest is a mark.
#[test]
fn an_image_is_too_large(rt: HostRuntime) {
    let mut source = String::new(rt.alloc());
    let is_put = put_islands(&mut source).is_ok();
    assert!(rt; is_put && is_too_large(rt.alloc(), source.as_str()));
}

/// Whether an image is plain, and this is its file.
fn is_written_as(alloc: Global, image: &Image, file: &[u8]) -> bool {
    if !is_plain(image) {
        return false;
    }
    match brd_elf::write(alloc, image) {
        Ok(written) => written.as_slice() == file,
        Err(_) => false,
    }
}

/// Whether a file is read as an image of two segments and two symbols, of which it is the file.
fn is_read_again(alloc: Global, file: &[u8]) -> bool {
    match brd_elf::read(alloc, file) {
        Ok(image) => {
            image.entry == 0x8000_0000
                && image.segments.len() == 2
                && image.symbols.len() == 2
                && is_written_as(alloc, &image, file)
        }
        Err(_) => false,
    }
}

/// Whether the object file that `asm` writes is read so.
fn is_output_read_again(alloc: Global) -> bool {
    match Tested::Asm.output(alloc) {
        Some(file) => is_read_again(alloc, file.as_slice()),
        None => false,
    }
}

/// A source's object file is read as the image that it was written of: writing that gives the same bytes.
#[test]
fn an_object_file_is_read_again(rt: HostRuntime) {
    assert!(rt; is_output_read_again(rt.alloc()));
}
