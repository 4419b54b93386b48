//! The bytes of the pieces, one after the other in the order of the source.

ghost use Rattle.std.specs.Prelude.{◌≡◌, ◌++◌, map, replicate, OnOk};
ghost use Rattle.brd_source.specs.View as source;
ghost use Rattle.brd_asm.specs.Faults.{Gives, Meets};
ghost use Rattle.brd_asm.specs.Values.{within};
ghost use Rattle.brd_asm.specs.Meaning.{least_of, greatest_of, values_of, data_of, bytes_of, content_meaning, meanings};
ghost use Rattle.brd_asm.specs.Output.{Adds, IsOutput};
ghost use Rattle.brd_asm.specs.View as seen;

use crate::fault::AsmFault;
use crate::instruction::instruction_of;
use crate::names::Names;
use crate::piece::{Content, Piece};
use crate::value::{known, modulo, value_of, within};
use brd_base::{List, NoMemory};
use brd_isa::encode;
use brd_source::{Expression, Width};
use brd_word::{Order, bytes_of, half_bytes_of};
use std::alloc::Global;

/// The bytes of all pieces, in an order.
pub fn output_of(
    alloc: Global,
    order: Order,
    names: &Names,
    pieces: &[Piece],
) -> Result<Vec<u8>, AsmFault>
    ensures { Meets (λ output contents. IsOutput order contents output.items) result
        (meanings order names.now (map seen.piece pieces.now)) }
{
    let mut output = Vec::new(alloc);
    for piece in pieces {
        put(alloc, order, &mut output, names, piece)?;
    }
    Ok(output)
}

/// Puts the bytes of a piece after those of others.
#[tactic(auto, unfolding(crate::specs::Meaning::content_meaning))]
fn put(
    alloc: Global,
    order: Order,
    output: &mut Vec<u8>,
    names: &Names,
    piece: &Piece,
) -> Result<(), AsmFault>
    ensures { Meets (λ _ meaning. Adds order meaning output.old.items output.new.items) result
        (content_meaning order piece.now.line piece.now.place names.now (seen.content piece.now.content)) }
{
    match &piece.content {
        Content::Code(instruction) => {
            let insn = instruction_of(piece.line, piece.place, names, instruction)?;
            put_bytes(output, &bytes_of(encode(insn), order))?;
            Ok(())
        }
        Content::Values(width, values) => {
            let numbers = values_of(alloc, piece.line, names, values.as_slice())?;
            let bytes = data_of(alloc, order, piece.line, *width, numbers.as_slice())?;
            put_bytes(output, bytes.as_slice())?;
            Ok(())
        }
        Content::Bytes(bytes) => {
            put_bytes(output, bytes.as_slice())?;
            Ok(())
        }
        Content::Zeros(n) => {
            put_zeros(output, *n)?;
            Ok(())
        }
    }
}

/// Puts bytes after others.
fn put_bytes(output: &mut Vec<u8>, bytes: &[u8]) -> Result<(), NoMemory>
    ensures { OnOk result (output.new.items ≡ output.old.items ++ bytes.now) }
{
    output.extend_from_slice(bytes)?;
    Ok(())
}

/// Puts bytes of zero after others.
fn put_zeros(output: &mut Vec<u8>, n: u32) -> Result<(), NoMemory>
    ensures { OnOk result (output.new.items ≡ output.old.items ++ replicate n 0) }
{
    output.resize(output.len() + n as usize, 0)?;
    Ok(())
}

/// The values of expressions on a line.
fn values_of(
    alloc: Global,
    line: usize,
    names: &Names,
    expressions: &[Expression],
) -> Result<List<i128>, AsmFault>
    ensures { Gives (λ values. values) result (values_of line names.now (map source.expression_value expressions.now)) }
{
    let mut values = List::new(alloc);
    for expression in expressions {
        values.push(known(line, value_of(names, *expression))?)?;
    }
    Ok(values)
}

/// The bytes of values of a width.
#[tactic(auto, using(crate::proofs::OutputLemmas::behind_more))]
fn data_of(
    alloc: Global,
    order: Order,
    line: usize,
    width: Width,
    values: &[i128],
) -> Result<List<u8>, AsmFault>
    ensures { Gives (λ bytes. bytes) result (data_of order line width values.now) }
{
    let mut data = List::new(alloc);
    for value in values {
        let value = ranged(line, width, *value)?;
        put_value(&mut data, order, width, value)?;
    }
    Ok(data)
}

/// Puts the bytes of a value after others.
fn put_value(output: &mut List<u8>, order: Order, width: Width, value: i64) -> Result<(), NoMemory>
    ensures { OnOk result (output.new ≡ output.old ++ bytes_of order width value) }
{
    let value = value as i128;
    match width {
        Width::Byte => output.push(modulo(value, 0x100) as u8)?,
        Width::Half => {
            let half = modulo(value, 0x1_0000) as u16;
            output.append(&half_bytes_of(half, order))?;
        }
        Width::Word => {
            let word = modulo(value, 0x1_0000_0000) as u32;
            output.append(&bytes_of(word, order))?;
        }
    }
    Ok(())
}

/// A value that fits a width.
fn ranged(line: usize, width: Width, value: i128) -> Result<i64, AsmFault>
    ensures { Gives (λ v. v) result (within line (least_of width) (greatest_of width) value) }
{
    within(line, least_of(width), greatest_of(width), value)
}

/// The least value of a width.
pub fn least_of(width: Width) -> i64
    ensures { result ≡ least_of width }
{
    match width {
        Width::Byte => -128,
        Width::Half => -32_768,
        Width::Word => -2_147_483_648,
    }
}

/// The greatest value of a width.
pub fn greatest_of(width: Width) -> i64
    ensures { result ≡ greatest_of width }
{
    match width {
        Width::Byte => 255,
        Width::Half => 65_535,
        Width::Word => 4_294_967_295,
    }
}
