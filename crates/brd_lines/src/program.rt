//! The program of a unit of a line table, which makes its rows.

use crate::cursor::Cursor;
use crate::flaw::Flaw;
use crate::gathered::{Gathered, Row};
use crate::unit::Unit;
use std::alloc::Global;

/// The registers of the machine that runs a program, and the row before.
#[derive(Clone, Copy)]
struct State {
    row: Row,
    /// The last row of the sequence.
    last: Option<Row>,
}

impl State {
    /// As a sequence begins.
    fn new() -> State {
        State {
            row: Row {
                address: 0,
                file: 1,
                line: 1,
            },
            last: None,
        }
    }

    /// Moves the address on, modulo 2^32.
    fn advance(&mut self, unit: &Unit, count: u64) {
        let by = count.wrapping_mul(u64::from(unit.least));
        self.row.address = self.row.address.wrapping_add((by & 0xffff_ffff) as u32);
    }

    /// Moves the line on, modulo 2^32.
    fn advance_line(&mut self, by: u64) {
        self.row.line = self.row.line.wrapping_add((by & 0xffff_ffff) as u32);
    }

    /// Adds what the row before stands for, which ends at the address. Of two rows at an address the later one holds.
    fn close(&self, alloc: Global, unit: &mut Unit, out: &mut Gathered) -> Result<(), Flaw> {
        let Some(last) = self.last else {
            return Ok(());
        };
        if last.address > self.row.address {
            return Err(Flaw::Damaged);
        }
        if last.address == self.row.address {
            return Ok(());
        }
        out.add(alloc, unit, last, self.row.address)
    }
}

/// Runs the program of a unit. Each of its opcodes has at least one byte.
pub(crate) fn run(alloc: Global, unit: &mut Unit, out: &mut Gathered) -> Result<(), Flaw> {
    let mut program = unit.program;
    let mut state = State::new();
    for _ in 0..unit.program.rest.len() {
        if program.is_empty() {
            break;
        }
        let opcode = program.byte()?;
        if opcode >= unit.opcode_base {
            special(unit, &mut state, opcode);
            append(alloc, unit, &mut state, out)?;
        } else if opcode == 0 {
            extended(alloc, unit, &mut program, &mut state, out)?;
        } else if opcode == 1 {
            append(alloc, unit, &mut state, out)?;
        } else {
            standard(unit, &mut program, &mut state, opcode)?;
        }
    }
    Ok(())
}

/// Adds a row.
fn append(
    alloc: Global,
    unit: &mut Unit,
    state: &mut State,
    out: &mut Gathered,
) -> Result<(), Flaw> {
    state.close(alloc, unit, out)?;
    state.last = Some(state.row);
    Ok(())
}

/// Moves address and line on by a special opcode.
fn special(unit: &Unit, state: &mut State, opcode: u8) {
    let number = opcode.saturating_sub(unit.opcode_base);
    let range = unit.line_range.max(1);
    state.advance(unit, u64::from(number / range));
    let base = u64::from(unit.line_base);
    let base = if base >= 0x80 {
        base | 0xffff_ff00
    } else {
        base
    };
    state.advance_line(base.wrapping_add(u64::from(number % range)));
}

/// Does a standard opcode that adds no row.
fn standard(unit: &Unit, program: &mut Cursor, state: &mut State, opcode: u8) -> Result<(), Flaw> {
    match opcode {
        2 => {
            let count = program.unsigned()?;
            state.advance(unit, count);
        }
        3 => {
            let by = program.signed()?;
            state.advance_line(by);
        }
        4 => state.row.file = program.unsigned()?,
        8 => {
            let number = u8::MAX - unit.opcode_base;
            state.advance(unit, u64::from(number / unit.line_range.max(1)));
        }
        9 => {
            let by = program.half()?;
            state.row.address = state.row.address.wrapping_add(u32::from(by));
        }
        _ => pass(unit, program, opcode)?,
    }
    Ok(())
}

/// Passes over the operands of a standard opcode.
fn pass(unit: &Unit, program: &mut Cursor, opcode: u8) -> Result<(), Flaw> {
    let Some(count) = unit.operands.get((opcode as usize).saturating_sub(1)) else {
        return Err(Flaw::Damaged);
    };
    for _ in 0..*count {
        program.unsigned()?;
    }
    Ok(())
}

/// Does an extended opcode: DW_LNE_end_sequence, set_address, define_file. Others say nothing of lines.
fn extended<'a>(
    alloc: Global,
    unit: &mut Unit<'a>,
    program: &mut Cursor<'a>,
    state: &mut State,
    out: &mut Gathered,
) -> Result<(), Flaw> {
    let len = program.unsigned()?;
    if len > program.rest.len() as u64 {
        return Err(Flaw::Damaged);
    }
    let mut inner = Cursor {
        rest: program.take(len as usize)?,
        order: program.order,
    };
    match inner.byte()? {
        1 => {
            state.close(alloc, unit, out)?;
            *state = State::new();
        }
        2 => state.row.address = inner.word()?,
        3 => {
            let name = inner.string()?;
            unit.add_old_file(name, &mut inner)?;
        }
        _ => {}
    }
    Ok(())
}
