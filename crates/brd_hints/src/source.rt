//! Diagnoses of assembler source.

use crate::finding::{BYTE_ORDER_MARK, Finding, MARKED, told};
use crate::hint::FaultHint;
use crate::instead::line_for;
use crate::names::advice;
use crate::operands::{operand_fault, values_fault};
use crate::operations::{
    INSTRUCTIONS, NO_DIRECTIVE, OTHER_DIRECTIVES, Shape, near_directive, near_instruction, shape_of,
};
use crate::places::{Site, misaligned, overlapping, ranged, twice, unknown};
use crate::scan::{behind, cut, first, run, skip_blanks, token};
use crate::statements::{Parts, parts_of};
use brd_asm::AsmFault;
use brd_source::{
    Directive, Operation, SourceToken, after_blanks, byte_for, escapes, first_token,
    operation_named, order_named,
};
use brd_text::{is_name, line_at};
use std::alloc::Global;

/// The diagnosis of a source's fault.
pub fn source_hint(alloc: Global, text: &[u8], fault: AsmFault) -> FaultHint {
    let Some(number) = line_in(fault) else {
        return FaultHint::none();
    };
    let line = line_at(text, number);
    let site = Site {
        alloc,
        text,
        number,
        parts: parts_of(line),
    };
    let found = match fault {
        AsmFault::NoMemory => None,
        AsmFault::Syntax { .. } => form_fault(line, &site.parts),
        AsmFault::Twice { .. } => twice(&site),
        AsmFault::UnknownName { .. } => unknown(&site),
        AsmFault::Range { .. } => ranged(&site),
        AsmFault::Misaligned { .. } => misaligned(&site),
        AsmFault::Overlap { .. } => overlapping(&site),
    };
    told(
        b"the source",
        Some(number),
        Some(site.parts.code.len()),
        found,
    )
}

/// The line in which a fault is, counted from 1.
pub(crate) fn line_in(fault: AsmFault) -> Option<usize> {
    match fault {
        AsmFault::NoMemory => None,
        AsmFault::Syntax { line }
        | AsmFault::UnknownName { line }
        | AsmFault::Twice { line }
        | AsmFault::Range { line }
        | AsmFault::Misaligned { line }
        | AsmFault::Overlap { line } => Some(line),
    }
}

/// Whether nothing is wrong with the labels of a line.
pub(crate) fn has_right_labels<'a>(line: &'a [u8], parts: &Parts<'a>) -> bool {
    let (labels, _) = cut(line, parts.code.len().saturating_sub(parts.statement.len()));
    byte_fault(labels).is_none() && label_fault(line, parts).is_none()
}

/// What keeps a line from having a form.
fn form_fault<'a>(line: &'a [u8], parts: &Parts<'a>) -> Option<Finding<'a>> {
    if line.starts_with(BYTE_ORDER_MARK) {
        return Some(Finding::at(parts.code, MARKED, &[]));
    }
    if is_string(parts.operation) && first(parts.operands) == b'\'' {
        let template = b"a string stands between double quotes, as \"text\"";
        return Some(Finding::at(parts.operands, template, &[]));
    }
    if let Some(found) = byte_fault(parts.code) {
        return Some(found);
    }
    if let Some(found) = label_fault(line, parts) {
        return Some(found);
    }
    if parts.word.is_empty() {
        return Some(Finding::at(
            parts.statement,
            b"~ stands where an instruction or a directive is wanted",
            token(parts.statement),
        ));
    }
    if first(parts.word) == b'.' {
        directive_fault(parts)
    } else {
        instruction_fault(parts)
    }
}

/// A byte of the code that has no place there, or a string that isn't closed.
fn byte_fault(code: &[u8]) -> Option<Finding<'_>> {
    let mut rest = code;
    for _ in 0..code.len() {
        let (token, after) = first_token(rest)?;
        let from = after_blanks(rest);
        let found = match token {
            SourceToken::Mark(b'\'') if constant_at(from).is_some() => constant_at(from),
            SourceToken::Mark(byte) => {
                mark_advice(byte, first(behind(from, 1))).map(|template| {
                    Finding::at(from, template, &[]).with_number(byte as u64)
                })
            }
            SourceToken::Quoted(text) => string_fault(text, behind(from, 1)),
            SourceToken::Wrong => Some(Finding::at(
                from,
                b"the string isn't closed: a \" is missing at its end",
                &[],
            )),
            SourceToken::Run(_) | SourceToken::Percent(_) => None,
        };
        if found.is_some() {
            return found;
        }
        rest = after;
    }
    None
}

/// What is said of a character constant that stands at the front.
fn constant_at(from: &[u8]) -> Option<Finding<'_>> {
    let (text, number) = match from {
        [b'\'', b'\\', b'n', b'\'', ..] => (cut(from, 4).0, 10u64),
        [b'\'', b'\\', b't', b'\'', ..] => (cut(from, 4).0, 9),
        [b'\'', b'\\', b'0', b'\'', ..] => (cut(from, 4).0, 0),
        [b'\'', byte, b'\'', ..] => (cut(from, 3).0, *byte as u64),
        _ => return None,
    };
    let template = b"no character constants: for ~ write ?";
    Some(Finding::at(from, template, text).with_number(number))
}

/// A byte of a string that has no place there; the text goes on behind the string.
fn string_fault<'a>(string: &[u8], text: &[u8]) -> Option<Finding<'a>> {
    let mut is_escaped = false;
    for (i, byte) in string.iter().enumerate() {
        if escapes(is_escaped, *byte) {
            is_escaped = true;
            continue;
        }
        if byte_for(is_escaped, *byte).is_none() {
            let template = if *byte > 127 {
                b"the byte ? isn't printable ASCII: it can stand in comments only".as_slice()
            } else {
                b"no such escape: a string has \\n \\t \\0 \\\\ and \\\"".as_slice()
            };
            return Some(Finding::at(behind(text, i), template, &[]).with_number(*byte as u64));
        }
        is_escaped = false;
    }
    None
}

/// Whether a string is wanted behind an operation.
fn is_string(operation: Option<Operation>) -> bool {
    matches!(
        operation,
        Some(Operation::Directive(Directive::Ascii | Directive::Asciiz))
    )
}

/// What is said of a byte that has no place in a line outside of strings, and of the next one.
fn mark_advice(byte: u8, next: u8) -> Option<&'static [u8]> {
    let advice = match byte {
        128.. => b"the byte ? isn't printable ASCII: it can stand in comments only".as_slice(),
        127 | 0..=31 => {
            b"the byte ? isn't printable ASCII: it can stand in comments and strings only".as_slice()
        }
        b';' => {
            b"; separates nothing: one statement a line, and comments begin with # or //".as_slice()
        }
        b'\'' => b"no character constants: write the number, as 65 for an A".as_slice(),
        b'*' => b"no products, and no comments of this kind: they begin with # or //".as_slice(),
        b'/' if next == b'*' => {
            b"no comments over lines: each begins with # or //, and ends with its line".as_slice()
        }
        b'/' => b"no quotients: comments begin with # or //".as_slice(),
        b'=' => b"a name gets a value by .equ name, value".as_slice(),
        b'[' => b"no brackets: an address is written offset(base), as 0($t0)".as_slice(),
        b'<' | b'>' | b'&' | b'|' | b'!' => b"no operators but one + or - behind a name".as_slice(),
        b'{' | b'}' => b"no braces: one statement a line".as_slice(),
        b'\\' => b"no macros, and no lines that go on: write the line out".as_slice(),
        _ => return None,
    };
    Some(advice)
}

/// A label that is no name.
fn label_fault<'a>(line: &'a [u8], parts: &Parts<'a>) -> Option<Finding<'a>> {
    let labels = parts.code.len().saturating_sub(parts.statement.len());
    let (front, _) = cut(line, labels);
    let mut rest = skip_blanks(front);
    for _ in 0..labels {
        let (label, after) = run(rest);
        if label.is_empty() {
            return None;
        }
        if !is_name(label) {
            let whole = behind(line, front.len().saturating_sub(rest.len()));
            let whole = cut(whole, parts.code.len()).0;
            return Some(Finding::at(
                whole,
                b"no label ~: a name begins with a letter, _ or ., so numeric labels need one, as loop1:",
                label,
            )
            .shortened(line.len().saturating_sub(parts.code.len())));
        }
        rest = skip_blanks(behind(skip_blanks(after), 1));
    }
    None
}

/// What is wrong with a statement that begins with a dot.
fn directive_fault<'a>(parts: &Parts<'a>) -> Option<Finding<'a>> {
    if let Some(operation) = parts.operation {
        let (shape, told) = shape_of(operation);
        return given_fault(parts, shape, told);
    }
    if let Some(text) = advice(OTHER_DIRECTIVES, parts.word) {
        return Some(Finding::at(parts.statement, b"unknown directive ~ (^)", parts.word).with_other(
            text,
        ));
    }
    if let Some(near) = near_directive(parts.word) {
        let template = b"unknown directive ~ (the nearest is ^)";
        return Some(Finding::at(parts.statement, template, parts.word).with_other(near));
    }
    Some(Finding::at(parts.statement, NO_DIRECTIVE, parts.word))
}

/// What is wrong with what stands after a directive, which has this shape and is told so.
fn given_fault<'a>(parts: &Parts<'a>, shape: Shape, told: &'static [u8]) -> Option<Finding<'a>> {
    if parts.operands.is_empty() {
        return Some(Finding::at(parts.operands, b"~ takes ^, found nothing", parts.word).with_other(
            told,
        ));
    }
    let template = match shape {
        Shape::Operands(kinds) => return operand_fault(parts, kinds, told),
        Shape::Values => return values_fault(parts.operands),
        Shape::Order if is_order(parts.operands) => {
            let template = b"~ stands once, before all labels, instructions and other directives";
            return Some(Finding::at(parts.statement, template, parts.word));
        }
        Shape::Word | Shape::Order => b"~ takes one word: ^".as_slice(),
        Shape::Text if first(parts.operands) == b'"' => {
            b"~ takes one string, and nothing behind it".as_slice()
        }
        Shape::Text => b"~ takes a string between quotes".as_slice(),
    };
    Some(Finding::at(parts.operands, template, parts.word).with_other(told))
}

/// Whether a byte order stands here alone.
fn is_order(operands: &[u8]) -> bool {
    let (word, after) = run(operands);
    order_named(word).is_some() && skip_blanks(after).is_empty()
}

/// What is wrong with a statement that begins with no dot.
fn instruction_fault<'a>(parts: &Parts<'a>) -> Option<Finding<'a>> {
    if let Some(operation) = parts.operation {
        let (shape, told) = shape_of(operation);
        return match shape {
            Shape::Operands(kinds) => operand_fault(parts, kinds, told),
            _ => None,
        };
    }
    let unknown = Finding::at(parts.statement, b"unknown instruction ~ (^)", parts.word);
    if let Some(line) = line_for(parts.word, parts.operands) {
        let template = b"unknown instruction ~ (write |)";
        return Some(Finding {
            template,
            ..unknown
        }
        .with_line(line, parts.word, parts.operands));
    }
    if let Some(text) = advice(INSTRUCTIONS, parts.word) {
        return Some(unknown.with_other(text));
    }
    let (next, _) = run(parts.operands);
    if is_name(parts.word) && operation_named(next).is_some() {
        return Some(unknown.with_other(b"a label has a colon behind it"));
    }
    if let Some(near) = near_instruction(parts.word) {
        let template = b"unknown instruction ~ (the nearest is ^)";
        return Some(Finding::at(parts.statement, template, parts.word).with_other(near));
    }
    Some(unknown.with_other(b"board has those of MIPS32 Release 1, and nop move b beqz bnez bal"))
}
