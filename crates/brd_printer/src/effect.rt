//! What an instruction was, and what it did.

ghost use Rattle.std.specs.Prelude.{◌≡◌, ◌++◌, ◌+◌, ◌≤◌, OnOk, IfOk};
ghost use Rattle.brd_listing.specs.Listing.{IsBehind};
ghost use Rattle.brd_printer.specs.Effects as effects;
ghost use Rattle.brd_printer.specs.Links.{text_of};

use crate::links::Links;
use brd_base::NoMemory;
use brd_happening::{Access, AccessKind, Change, Instruction, Jump, Written};
use brd_isa::{AccessSize, Flow, Insn, shape_of};
use brd_listing::{write_instruction, write_register};
use brd_names::{Names, put, put_word};
use brd_text::hex_digits;
use brd_word::Order;
use std::alloc::Global;

/// How an instruction is told of.
#[derive(Clone, Copy)]
pub struct Form<'a> {
    /// What names addresses.
    pub names: Names<'a>,
    /// In which order the bytes of words lie.
    pub order: Order,
    /// Whether it is told what a store has written over.
    pub old: bool,
}

/// Puts at the end an instruction that was done, what it did, and whose links it ended.
pub fn put_done(
    alloc: Global,
    form: Form,
    address: u32,
    it: &Instruction,
    links: Links,
    out: &mut Vec<u8>,
) -> Result<(), NoMemory>
    ensures { IfOk result (λ _. IsBehind (effects.IsToldOf form.entry address it.now (text_of links.entry))
        out.old.items out.new.items) }
{
    write_instruction(&it.insn, address, out)?;
    put_effect(form, it, out)?;
    links.put_ended(alloc, out)?;
    form.names.put_source(alloc, "; ", address, out)
}

/// Puts at the end what an instruction did.
fn put_effect(form: Form, it: &Instruction, out: &mut Vec<u8>) -> Result<(), NoMemory>
    ensures { OnOk result (out.new.items ≡ out.old.items ++ effects.effect_text form.entry it.now) }
{
    put_register(out, it.register)?;
    put_word_written(out, "hi", it.hi)?;
    put_word_written(out, "lo", it.lo)?;
    put_access(form, part_of(it.access), it.access, out)?;
    put_jump(form.names, is_branch(&it.insn), it.jump, out)?;
    put_slot(it.in_slot, out)
}

/// Puts at the end that an instruction stands in a delay slot, where it does.
fn put_slot(in_slot: bool, out: &mut Vec<u8>) -> Result<(), NoMemory>
    ensures { OnOk result (out.new.items ≡ out.old.items ++ effects.slot_text in_slot) }
{
    if in_slot {
        return put(out, "; in the delay slot");
    }
    Ok(())
}

/// Puts at the end a register that was written, where its word is another one than before.
fn put_register(out: &mut Vec<u8>, register: Option<Written>) -> Result<(), NoMemory>
    ensures { OnOk result (out.new.items ≡ out.old.items ++ effects.register_written register) }
{
    let Some(it) = register else {
        return Ok(());
    };
    if it.word.old == it.word.new {
        return Ok(());
    }
    put(out, "; ")?;
    write_register(it.register, out)?;
    put(out, " = ")?;
    put_word(out, it.word.new)
}

/// Puts at the end a word that was written, after its name, where it is another one than before.
fn put_word_written(out: &mut Vec<u8>, name: &str, word: Option<Change>) -> Result<(), NoMemory>
    ensures { OnOk result (out.new.items ≡ out.old.items ++ effects.word_written name.now word) }
{
    let Some(it) = word else {
        return Ok(());
    };
    if it.old == it.new {
        return Ok(());
    }
    put(out, "; ")?;
    put(out, name)?;
    put(out, " = ")?;
    put_word(out, it.new)
}

/// What is shown of memory beside a load or a store.
#[derive(Clone, Copy)]
pub enum Part {
    /// The byte.
    Byte,
    /// The halfword.
    Halfword,
    /// The aligned word.
    Word,
}

/// Puts at the end what of memory an instruction loaded or stored, and whether an SC has stored.
fn put_access(
    form: Form,
    part: Part,
    access: Option<Access>,
    out: &mut Vec<u8>,
) -> Result<(), NoMemory>
    ensures { OnOk result (out.new.items ≡ out.old.items ++ effects.access_text form.entry part access) }
{
    let Some(it) = access else {
        return Ok(());
    };
    put_cell(form.names, form.order, part, it.address, it.word, out)?;
    if form.old && it.kind.has_stored() {
        put_old(form.order, part, it.address, it.word, out)?;
    }
    put_outcome(it.kind, out)
}

/// Puts at the end the part of memory in which an address lies, as it was before the event.
fn put_old(
    order: Order,
    part: Part,
    address: u32,
    word: Option<Change>,
    out: &mut Vec<u8>,
) -> Result<(), NoMemory>
    ensures { OnOk result (out.new.items ≡ out.old.items ++ effects.old_text order part address word) }
{
    let Some(word) = word else {
        return Ok(());
    };
    put(out, ", was ")?;
    put_digits(order, part, address, word.old, out)
}

/// Puts at the end the part of memory in which an address lies, as it is after the event: its address, and its digits.
fn put_cell(
    names: Names,
    order: Order,
    part: Part,
    address: u32,
    word: Option<Change>,
    out: &mut Vec<u8>,
) -> Result<(), NoMemory>
    ensures { OnOk result
        (out.new.items ≡ out.old.items ++ effects.cell_text names.entry order part address word) }
{
    let Some(word) = word else {
        return Ok(());
    };
    put(out, "; ")?;
    names.put_datum(out, start_of(part, address))?;
    put(out, ": ")?;
    put_digits(order, part, address, word.new, out)
}

/// Puts at the end the digits of the part in which an address lies, of the aligned word around it.
fn put_digits(
    order: Order,
    part: Part,
    address: u32,
    word: u32,
    out: &mut Vec<u8>,
) -> Result<(), NoMemory>
    ensures { OnOk result (out.new.items ≡ out.old.items ++ effects.part_digits order part address word) }
{
    let digits = hex_digits(word);
    let first = first_digit(order, part, address);
    let len = digits_of(part);
    out.extend_from_slice(&digits[first..first + len])?;
    Ok(())
}

/// Puts at the end whether an SC has stored.
fn put_outcome(kind: AccessKind, out: &mut Vec<u8>) -> Result<(), NoMemory>
    ensures { OnOk result (out.new.items ≡ out.old.items ++ effects.outcome_text kind) }
{
    match kind {
        AccessKind::StoresIfLinked(true) => put(out, "; stored"),
        AccessKind::StoresIfLinked(false) => put(out, "; not stored"),
        AccessKind::Loads | AccessKind::Stores => Ok(()),
    }
}

/// Which part is shown beside a load or a store: of a load what it loads, else the aligned word.
fn part_of(access: Option<Access>) -> Part
    ensures { result ≡ effects.part_of access }
{
    match access {
        Some(access) => part_by(access.kind, access.size),
        None => Part::Word,
    }
}

/// The same of an access of this kind.
fn part_by(kind: AccessKind, size: AccessSize) -> Part
    ensures { result ≡ effects.part_by kind size }
{
    match (kind, size) {
        (AccessKind::Loads, AccessSize::Byte) => Part::Byte,
        (AccessKind::Loads, AccessSize::Halfword) => Part::Halfword,
        _ => Part::Word,
    }
}

/// Where a part begins that an address lies in.
fn start_of(part: Part, address: u32) -> u32
    ensures { result ≡ effects.start_of part address }
{
    match part {
        Part::Byte => address,
        Part::Halfword => address - address % 2,
        Part::Word => address - address % 4,
    }
}

/// The first digit of a part among those of the aligned word.
fn first_digit(order: Order, part: Part, address: u32) -> usize
    ensures is { result ≡ effects.first_digit order part address }
    ensures room { result + effects.digits_of part ≤ 8 }
{
    let place = (address % 4) as usize;
    match (order, part) {
        (Order::Big, Part::Byte) => 2 * place,
        (Order::Big, Part::Halfword) => 4 * (place / 2),
        (Order::Little, Part::Byte) => 2 * (3 - place),
        (Order::Little, Part::Halfword) => 4 * (1 - place / 2),
        (_, Part::Word) => 0,
    }
}

/// How many digits a part has.
fn digits_of(part: Part) -> usize
    ensures { result ≡ effects.digits_of part }
{
    match part {
        Part::Byte => 2,
        Part::Halfword => 4,
        Part::Word => 8,
    }
}

/// Whether an instruction is a branch, which is taken or not.
fn is_branch(insn: &Insn) -> bool
    ensures { result ≡ effects.is_branch insn.now }
{
    matches!(shape_of(insn).flow, Flow::Branch | Flow::BranchAndLink)
}

/// Puts at the end where a branch or a jump leads, or that a branch isn't taken.
fn put_jump(
    names: Names,
    branches: bool,
    jump: Option<Jump>,
    out: &mut Vec<u8>,
) -> Result<(), NoMemory>
    ensures { OnOk result
        (out.new.items ≡ out.old.items ++ effects.jump_text names.entry.symbols.now branches jump) }
{
    let Some(it) = jump else {
        return Ok(());
    };
    if !it.taken {
        return put(out, "; not taken");
    }
    put(out, jump_start(branches))?;
    names.put_place(out, it.target)
}

/// What stands before the target of a jump.
fn jump_start(branches: bool) -> &'static str
    ensures { result.now ≡ effects.jump_start branches }
{
    if branches { "; taken, to " } else { "; to " }
}
