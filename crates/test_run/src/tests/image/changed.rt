//! Inputs of `build` and `load` that are cut off, and with each byte changed: there is the board that what was read of
//! them makes, or their fault: one of the input that was changed, or of the boot.

use super::files::file_of;
use super::{ONE_LETTER, ONE_TASK};
use brd_asm::assemble;
use brd_board::Board;
use brd_config::parse;
use brd_elf::{read, write};
use brd_image::{BuildFault, build, load};
use std::alloc::Global;
use std::test::Fail;
use test_help::{none_wrong, put_byte};

/// Which input is changed.
#[derive(Clone, Copy)]
enum Changed {
    Source,
    Configuration,
    File,
}

/// The board where an input is this one, or the fault.
fn found(alloc: Global, changed: Changed, input: &[u8]) -> Result<Board, BuildFault> {
    match changed {
        Changed::Source => build(alloc, input, ONE_TASK.as_bytes()),
        Changed::Configuration => build(alloc, ONE_LETTER.as_bytes(), input),
        Changed::File => load(alloc, input, ONE_TASK.as_bytes()),
    }
}

/// The board that is booted of what was read of the inputs, or the fault of reading them or of the boot.
fn wanted(alloc: Global, changed: Changed, input: &[u8]) -> Result<Board, BuildFault> {
    match changed {
        Changed::Source => of_source(alloc, input, ONE_TASK.as_bytes()),
        Changed::Configuration => of_source(alloc, ONE_LETTER.as_bytes(), input),
        Changed::File => of_file(alloc, input, ONE_TASK.as_bytes()),
    }
}

/// That of a source.
fn of_source(alloc: Global, source: &[u8], config: &[u8]) -> Result<Board, BuildFault> {
    let image = assemble(alloc, source)?;
    let file = write(alloc, &image)?;
    of_file(alloc, &file, config)
}

/// That of an object file.
fn of_file(alloc: Global, file: &[u8], config: &[u8]) -> Result<Board, BuildFault> {
    let image = read(alloc, file)?;
    let config = parse(alloc, config)?;
    Ok(Board::boot(alloc, &image, &config)?)
}

/// Whether a change of this input can lead to this fault.
fn can_have(changed: Changed, fault: BuildFault) -> bool {
    match (changed, fault) {
        (_, BuildFault::Boot(_)) => true,
        (Changed::Source, BuildFault::Asm(_)) => true,
        (Changed::Configuration, BuildFault::Config(_)) => true,
        (Changed::File, BuildFault::Elf(_)) => true,
        _ => false,
    }
}

/// Whether an input has the board that is wanted, and that board has this byte at this address if there is one; or
/// the fault that is wanted, which it can have.
fn is_right(alloc: Global, changed: Changed, input: &[u8], byte: Option<(u32, u8)>) -> bool {
    match (found(alloc, changed, input), wanted(alloc, changed, input)) {
        (Ok(board), Ok(other)) => board.same(&other) && has_byte(&board, byte),
        (Err(fault), Err(other)) => fault == other && can_have(changed, fault) && byte.is_none(),
        _ => false,
    }
}

/// Whether a board has this byte at this address, if there is one.
fn has_byte(board: &Board, byte: Option<(u32, u8)>) -> bool {
    match byte {
        Some((address, byte)) => board.memory(address) == Some(byte),
        None => true,
    }
}

/// Where the bytes of the words of `ONE_LETTER` lie in its file: after the header and one program header.
const WORDS: usize = 84;

/// How many bytes these are.
const WORDS_LEN: usize = 20;

/// The address to which the byte in this place of an input is loaded, if it is one of those words.
fn address_of(changed: Changed, place: usize) -> Option<u32> {
    match changed {
        Changed::File if WORDS <= place && place < WORDS + WORDS_LEN => {
            Some(0x8000_0000 + (place - WORDS) as u32)
        }
        _ => None,
    }
}

/// The length of the first front of an input that is answered wrongly.
fn first_wrong_front(alloc: Global, changed: Changed, input: &[u8]) -> Option<usize> {
    for len in 0..=input.len() {
        if !is_right(alloc, changed, &input[..len], None) {
            return Some(len);
        }
    }
    None
}

/// The bytes that each byte of a text is changed to, and those for a file.
const TEXT_BYTES: &[u8] = &[0, b'\n', b'0', b'}', 0x7F, 0xFF];

const FILE_BYTES: &[u8] = &[0, 1, 0xFF];

/// The bytes that each byte of an input is changed to.
fn bytes_for(changed: Changed) -> &'static [u8] {
    match changed {
        Changed::File => FILE_BYTES,
        _ => TEXT_BYTES,
    }
}

/// Whether an input is answered rightly with each such byte in a place; one that is loaded has to be on the board. The
/// last one stays there.
fn is_right_at(alloc: Global, changed: Changed, input: &mut [u8], place: usize) -> bool {
    for byte in bytes_for(changed) {
        put_byte(input, place, *byte);
        let loaded = match address_of(changed, place) {
            Some(address) => Some((address, *byte)),
            None => None,
        };
        if !is_right(alloc, changed, input, loaded) {
            return false;
        }
    }
    true
}

/// The first place of an input, of which `copy` is one, where a byte is answered wrongly.
fn first_wrong_place(
    alloc: Global,
    changed: Changed,
    input: &[u8],
    copy: &mut [u8],
) -> Option<usize> {
    for (place, byte) in input.iter().enumerate() {
        if !is_right_at(alloc, changed, copy, place) {
            return Some(place);
        }
        put_byte(copy, place, *byte);
    }
    None
}

/// That no front and no change of an input is answered wrongly.
fn all_are_right(alloc: Global, changed: Changed, input: &[u8]) -> Result<(), Fail> {
    none_wrong(first_wrong_front(alloc, changed, input))?;
    let mut copy = Vec::from_slice(alloc, input)?;
    none_wrong(first_wrong_place(alloc, changed, input, copy.as_mut_slice()))
}

#[test]
fn sources(rt: HostRuntime) -> Result<(), Fail> {
    all_are_right(rt.alloc(), Changed::Source, ONE_LETTER.as_bytes())
}

#[test]
fn configurations(rt: HostRuntime) -> Result<(), Fail> {
    all_are_right(rt.alloc(), Changed::Configuration, ONE_TASK.as_bytes())
}

#[test]
fn object_files(rt: HostRuntime) -> Result<(), Fail> {
    let file = file_of(rt.alloc(), ONE_LETTER)?;
    all_are_right(rt.alloc(), Changed::File, file.as_slice())
}
