//! The lines of a trace.

ghost use Rattle.std.specs.Prelude.{◌≡◌, ◌++◌, ◌≤◌, OnOk, IfOk};
ghost use Rattle.brd_names.specs.Lines.{cpu_text, who_text, where_text, left, right, heading_text, line_text};
ghost use Rattle.std.specs.Fmt.{decimal};

use crate::names::Names;
use crate::text::{put_blanks, put_called, put_named, put_number};
use brd_base::NoMemory;
use brd_board::Standing;
use std::alloc::Global;

/// How wide the column of the position is.
const POSITION: usize = 10;

/// How wide the column of the processor is.
const PROCESSOR: usize = 4;

/// How wide the column of who executes is.
const EXECUTOR: usize = 11;

/// How wide the column of where is.
const PLACE: usize = 20;

/// The names of the columns.
pub const HEAD: &str = "     event cpu who        where               what\n";

/// What stands before the text of a line: of an event, or of several in a row that do the same.
#[derive(Clone, Copy)]
pub struct Heading {
    /// The position of the event, or of the first one.
    pub position: u64,
    /// The processor whose step it is.
    pub cpu: Option<u8>,
    /// Who executes there.
    pub who: Option<Standing>,
    /// Where.
    pub place: Option<u32>,
}

impl Heading {
    /// Puts a line at the end.
    pub fn put_line(
        &self,
        alloc: Global,
        names: Names,
        what: &[u8],
        out: &mut Vec<u8>,
    ) -> Result<(), NoMemory>
        ensures { OnOk result
            (out.new.items ≡ out.old.items ++ line_text names.entry.symbols.now self.now what.now) }
    {
        self.put(alloc, names, out)?;
        out.extend_from_slice(what)?;
        out.push(b'\n')?;
        Ok(())
    }

    /// Puts what stands before a line's text at the end.
    pub fn put(&self, alloc: Global, names: Names, out: &mut Vec<u8>) -> Result<(), NoMemory>
        ensures { OnOk result (out.new.items ≡ out.old.items ++ heading_text names.entry.symbols.now self.now) }
    {
        let position = position_cell(alloc, self.position)?;
        put_right(out, position.as_slice(), POSITION)?;
        out.push(b' ')?;
        let cpu = cpu_cell(alloc, self.cpu)?;
        put_left(out, cpu.as_slice(), PROCESSOR)?;
        let who = who_cell(alloc, self.who)?;
        put_left(out, who.as_slice(), EXECUTOR)?;
        let place = place_cell(alloc, names, self.place)?;
        put_left(out, place.as_slice(), PLACE)
    }
}

/// A position.
fn position_cell(alloc: Global, position: u64) -> Result<Vec<u8>, NoMemory>
    ensures { IfOk result (λ cell. cell.items ≡ decimal position) }
{
    let mut cell = Vec::new(alloc);
    put_number(alloc, &mut cell, position)?;
    Ok(cell)
}

/// A processor, if it is a step of one.
fn cpu_cell(alloc: Global, cpu: Option<u8>) -> Result<Vec<u8>, NoMemory>
    ensures { IfOk result (λ cell. cell.items ≡ cpu_text cpu) }
{
    let mut cell = Vec::new(alloc);
    if let Some(cpu) = cpu {
        put_number(alloc, &mut cell, u64::from(cpu))?;
    }
    Ok(cell)
}

/// Who executes.
fn who_cell(alloc: Global, who: Option<Standing>) -> Result<Vec<u8>, NoMemory>
    ensures { IfOk result (λ cell. cell.items ≡ who_text who) }
{
    let mut cell = Vec::new(alloc);
    put_who(alloc, &mut cell, who)?;
    Ok(cell)
}

/// Where.
fn place_cell(alloc: Global, names: Names, place: Option<u32>) -> Result<Vec<u8>, NoMemory>
    ensures { IfOk result (λ cell. cell.items ≡ where_text names.entry.symbols.now place) }
{
    let mut cell = Vec::new(alloc);
    if let Some(place) = place {
        names.put_place(&mut cell, place)?;
    }
    Ok(cell)
}

/// Puts a cell at the end, with blanks before it up to a width.
fn put_right(out: &mut Vec<u8>, cell: &[u8], width: usize) -> Result<(), NoMemory>
    requires { width ≤ 20 }
    ensures { OnOk result (out.new.items ≡ out.old.items ++ right width cell.now) }
{
    put_blanks(out, width.saturating_sub(cell.len()))?;
    out.extend_from_slice(cell)?;
    Ok(())
}

/// Puts a cell at the end, with a blank after it and more up to a width.
fn put_left(out: &mut Vec<u8>, cell: &[u8], width: usize) -> Result<(), NoMemory>
    requires { width ≤ 20 }
    ensures { OnOk result (out.new.items ≡ out.old.items ++ left width cell.now) }
{
    out.extend_from_slice(cell)?;
    out.push(b' ')?;
    put_blanks(out, width.saturating_sub(1).saturating_sub(cell.len()))
}

/// Puts at the end who executes.
pub fn put_who(alloc: Global, out: &mut Vec<u8>, who: Option<Standing>) -> Result<(), NoMemory>
    ensures { OnOk result (out.new.items ≡ out.old.items ++ who_text who) }
{
    match who {
        Some(Standing::Task(id)) => put_named(alloc, out, "task", u64::from(id)),
        Some(Standing::Handler(line)) => put_called(alloc, out, "handler", u16::from(line)),
        _ => Ok(()),
    }
}
