//! What is told of a board that is built, and of one that is loaded.

use anyhow::{Result, bail};
use brd_asm::assemble;
use brd_board::{Board, Event, Report};
use brd_image::{build, load};
use std::alloc::{AllocError, Global};

/// The letter of a report.
fn letter_of(report: Report) -> char {
    match report {
        Report::Ran(_) => 'r',
        Report::Called(_) => 'c',
        Report::Off => 'o',
        _ => '-',
    }
}

/// Does 100 steps of processor 1, and tells their reports and the console.
fn stepped(alloc: Global, board: &mut Board) -> Result<String, AllocError> {
    let mut text = String::new(alloc);
    for _ in 0..100u8 {
        let report = board.event(Event::Step(1));
        text.push(letter_of(report))?;
    }
    text.push(' ')?;
    for byte in board.console() {
        match *byte {
            b'\n' => text.push_str("\\n")?,
            byte => text.push(char::from(byte))?,
        }
    }
    Ok(text)
}

/// What is told of the board that is built of a source and a configuration.
pub fn built_answer(alloc: Global, source: &[u8], config: &[u8]) -> Result<String> {
    match build(alloc, source, config) {
        Ok(mut board) => Ok(stepped(alloc, &mut board)?),
        Err(fault) => bail!("{fault}"),
    }
}

/// The object file of a source.
fn file_of(alloc: Global, source: &[u8]) -> Result<Vec<u8>> {
    let image = assemble(alloc, source)?;
    Ok(brd_elf::write(alloc, &image)?)
}

/// What is told of a copy of a board.
fn told_of_copy(alloc: Global, board: &Board) -> Result<String> {
    let mut copy = board.try_copy()?;
    Ok(stepped(alloc, &mut copy)?)
}

/// What is told of a copy of the board that is loaded from the object file of a source, and of a configuration.
pub fn loaded_answer(alloc: Global, source: &[u8], config: &[u8]) -> Result<String> {
    let file = file_of(alloc, source)?;
    match load(alloc, &file, config) {
        Ok(board) => told_of_copy(alloc, &board),
        Err(fault) => bail!("{fault}"),
    }
}
