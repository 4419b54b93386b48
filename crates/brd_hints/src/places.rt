//! Names and places of a source: what is twice, what has no value, and where lines stand, as the assembler lays it out.

use crate::finding::Finding;
use crate::instead::line_for;
use crate::operations::{half_of, range_of};
use crate::scan::{before_comma, behind, behind_commas, count, first, run, skip_blanks, token};
use crate::statements::{Parts, behind_label};
use brd_asm::{Content, Effect, Layout, effect_of, greatest_of, least_of, own_name};
use brd_base::{BASE, TOP};
use brd_source::{Statement, parse_line, register_of};
use brd_text::{is_name, is_run_byte, number, split_line};
use std::alloc::Global;

/// How many names of a line are looked at.
const MOST_NAMES: usize = 16;

/// A line of a source in which a fault is.
#[derive(Clone, Copy)]
pub(crate) struct Site<'a> {
    pub alloc: Global,
    /// The source.
    pub text: &'a [u8],
    /// The line's number, counted from 1.
    pub number: usize,
    /// Its parts.
    pub parts: Parts<'a>,
}

impl<'a> Site<'a> {
    /// What the lines before this one place and name. `None` where memory runs out.
    fn layout(&self) -> Option<Layout<'a>> {
        let mut layout = Layout::new(self.alloc, self.text);
        let mut rest = self.text;
        for line in 1..self.number {
            let (bytes, behind) = split_line(rest);
            let Ok(()) = layout.place(self.alloc, line, bytes) else {
                return None;
            };
            let Some(after) = behind else {
                return None;
            };
            rest = after;
        }
        Some(layout)
    }

    /// What the line says. `None` where it has no form, or memory runs out.
    fn said(&self) -> Option<Statement<'a>> {
        match parse_line(self.alloc, self.parts.code) {
            Ok(line) => Some(line.statement),
            Err(_) => None,
        }
    }

    /// What the line puts at its place behind this layout, if that is bytes.
    fn filling(&self, layout: &Layout) -> Option<Content<'a>> {
        let statement = self.said()?;
        match effect_of(self.number, layout.place, &layout.names, statement) {
            Ok(Effect::Fills(content)) => Some(content),
            _ => None,
        }
    }

    /// The first line of the text that defines a name, counted from 1.
    fn line_defining(&self, name: &[u8]) -> Option<usize> {
        let mut rest = self.text;
        for number in 1..usize::MAX {
            let (line, after) = split_line(rest);
            if defines(self.alloc, line, name) {
                return Some(number);
            }
            rest = after?;
        }
        None
    }
}

/// Whether a line defines a name, as a label or by its statement.
fn defines(alloc: Global, bytes: &[u8], name: &[u8]) -> bool {
    let Ok(line) = parse_line(alloc, bytes) else {
        return false;
    };
    for label in line.labels.as_slice() {
        if *label == name {
            return true;
        }
    }
    match own_name(&line.statement) {
        Some(own) => own == name,
        None => false,
    }
}

/// The name of a line that is defined already.
pub(crate) fn twice<'a>(site: &Site<'a>) -> Option<Finding<'a>> {
    let parts = &site.parts;
    let mut rest = skip_blanks(parts.code);
    for _ in 0..MOST_NAMES {
        let Some(after) = behind_label(rest) else {
            let statement = site.said()?;
            let name = own_name(&statement)?;
            let line = site.line_defining(name)?;
            return again(parts.operands, name, site.number, line);
        };
        let (label, _) = run(rest);
        let line = site.line_defining(label)?;
        if line < site.number {
            return again(rest, label, site.number, line);
        }
        rest = after;
    }
    None
}

/// A name of a line of this number that is defined already, on another line or on the same.
fn again<'a>(rest: &[u8], name: &'a [u8], number: usize, line: usize) -> Option<Finding<'a>> {
    let template = if line < number {
        b"~ is defined already, on line ?".as_slice()
    } else {
        b"~ is defined twice on this line".as_slice()
    };
    Some(Finding::at(rest, template, name).with_number(line as u64))
}

/// The name of a line that no line defines, or no earlier one where it has to be earlier.
pub(crate) fn unknown<'a>(site: &Site<'a>) -> Option<Finding<'a>> {
    let parts = &site.parts;
    let layout = site.layout()?;
    let statement = site.said()?;
    let mut rest = parts.operands;
    if let Some(name) = own_name(&statement) {
        rest = behind(rest, name.len());
    }
    let is_early = effect_of(site.number, layout.place, &layout.names, statement).is_err();
    for _ in 0..MOST_NAMES {
        rest = next_name(rest);
        let (name, after) = run(rest);
        if name.is_empty() {
            return None;
        }
        let Some(line) = site.line_defining(name) else {
            return Some(Finding::at(rest, b"~ has no value: no line defines it", name));
        };
        if is_early && line >= site.number {
            let template = b"~ is defined on line ?, and ^ takes names of earlier lines only";
            return Some(
                Finding::at(rest, template, name)
                    .with_other(parts.word)
                    .with_number(line as u64),
            );
        }
        rest = after;
    }
    None
}

/// From the next name on, after registers, numbers and marks.
fn next_name(text: &[u8]) -> &[u8] {
    let mut rest = text;
    for _ in 0..text.len() {
        let (word, after) = run(rest);
        if word.is_empty() {
            let mark = first(rest);
            rest = behind(rest, 1);
            if mark == b'%' {
                let (_, behind_word) = run(rest);
                rest = behind_word;
            }
        } else if is_name(word) && register_of(word).is_none() {
            return rest;
        } else {
            rest = after;
        }
    }
    &[]
}

/// What is out of range in a line: the address at which it stands, or a value.
pub(crate) fn ranged<'a>(site: &Site<'a>) -> Option<Finding<'a>> {
    let parts = &site.parts;
    let layout = site.layout()?;
    if let Some(content) = site.filling(&layout) {
        let size = content.size();
        let is_inside = layout.place >= BASE && layout.place as u128 + size <= TOP as u128;
        if size > 0 && !is_inside {
            let template = b"~ stands at @: what is filled lies within 0x80000000 to 0x80ffffff";
            let address = if layout.place < BASE {
                layout.place
            } else {
                layout.place.max(TOP)
            };
            return Some(Finding::at(parts.statement, template, parts.word).with_address(
                address as u64,
            ));
        }
    }
    let rest = value_in(site)?;
    let value = without_base(before_comma(rest));
    let template = half_of(parts.operation?, value).or(range_of(parts.operation?))?;
    let found = Finding::at(rest, template, parts.word).with_other(value);
    if let Some(line) = line_for(parts.word, parts.operands) {
        let template = b"the offset of ~ is -32768 to 32767, found ^: write |";
        return Some(Finding { template, ..found }.with_line(line, parts.word, parts.operands));
    }
    Some(match number(value) {
        Some(word) => found.with_address(word as u64 / 0x1_0000),
        None => found,
    })
}

/// The operand of a statement whose value is out of range: the first number that its width can't hold, else the last
/// operand.
fn value_in<'a>(site: &Site<'a>) -> Option<&'a [u8]> {
    let parts = &site.parts;
    let mut place = count(parts.operands, b',');
    if let Some(Statement::Data(width, values)) = site.said() {
        for (i, value) in values.as_slice().iter().enumerate() {
            let is_held = least_of(width) <= value.number && value.number <= greatest_of(width);
            if value.name.is_none() && !is_held {
                place = i;
                break;
            }
        }
    }
    behind_commas(parts.operands, place)
}

/// An operand without the base after its offset.
fn without_base(operand: &[u8]) -> &[u8] {
    let value = token(operand);
    if first(operand) != b'-' && is_run_byte(first(value)) {
        let (_, after) = run(operand);
        if first(after) == b'(' {
            return value;
        }
    }
    operand
}

/// What isn't aligned in a line: its place, or its target.
pub(crate) fn misaligned<'a>(site: &Site<'a>) -> Option<Finding<'a>> {
    let parts = &site.parts;
    let layout = site.layout()?;
    let of = site.filling(&layout)?.alignment();
    if of > 0 && layout.place % of != 0 {
        let template = if of == 2 {
            b"~ stands at @, which is no multiple of 2: put .align 1 before it".as_slice()
        } else {
            b"~ stands at @, which is no multiple of 4: put .align 2 before it".as_slice()
        };
        return Some(Finding::at(parts.statement, template, parts.word).with_address(
            layout.place as u64,
        ));
    }
    let rest = behind_commas(parts.operands, count(parts.operands, b','))?;
    let template = b"the target ^ of ~ is no multiple of 4: put .align 2 before its label";
    Some(Finding::at(rest, template, parts.word).with_other(before_comma(rest)))
}

/// What is filled already, and by which line.
pub(crate) fn overlapping<'a>(site: &Site<'a>) -> Option<Finding<'a>> {
    let parts = &site.parts;
    let layout = site.layout()?;
    let size = site.filling(&layout)?.size();
    let start = layout.place as u128;
    for piece in layout.pieces.as_slice() {
        let other = piece.place as u128;
        if other < start + size && start < other + piece.content.size() {
            return Some(
                Finding::at(
                    parts.statement,
                    b"~ stands at @, which line ? fills already",
                    parts.word,
                )
                .with_address(layout.place as u64)
                .with_number(piece.line as u64),
            );
        }
    }
    None
}
