//! Diagnoses of journals and scripts.

use crate::finding::{BYTE_ORDER_MARK, Finding, MARKED, told};
use crate::hint::FaultHint;
use crate::names::has_name;
use crate::scan::{behind, first};
use brd_journal::{Journal, JournalFault, MOST_RUNS, order_of_line, run_of_line, split_field};
use brd_text::{is_digit, plain_decimal, split_line};
use brd_word::Order;
use std::alloc::Global;

/// The diagnosis of a journal's fault.
pub fn journal_hint(alloc: Global, text: &[u8], fault: JournalFault) -> FaultHint {
    let number = match fault {
        JournalFault::Syntax { line } => line,
        JournalFault::Full => return full_hint(alloc, text),
        JournalFault::NoMemory => return FaultHint::none(),
    };
    let (line, is_ended) = line_of(text, number);
    let found = if number == 1 {
        first_line_fault(line, is_ended)
    } else {
        line_fault(line, is_ended, true)
    };
    told(b"the journal", Some(number), Some(line.len()), found)
}

/// The diagnosis of a line of a script, counted from 1, that has no form or with which there are too many events.
pub fn script_hint(text: &[u8], number: usize) -> FaultHint {
    let (line, is_ended) = line_of(text, number);
    let found = match line_fault(line, is_ended, false) {
        Some(found) => Some(found),
        None => Some(Finding::at(
            line,
            b"a script has at most 1000000 events, and this line makes more",
            &[],
        )),
    };
    told(b"the script", Some(number), Some(line.len()), found)
}

/// The line of this number, and whether a newline ends it.
fn line_of(text: &[u8], number: usize) -> (&[u8], bool) {
    let mut rest = text;
    for _ in 1..number {
        let (_, after) = split_line(rest);
        rest = after.unwrap_or(&[]);
    }
    let (line, after) = split_line(rest);
    (line, after.is_some())
}

/// What is wrong with the first line of a journal.
fn first_line_fault(line: &[u8], is_ended: bool) -> Option<Finding<'_>> {
    if line.starts_with(BYTE_ORDER_MARK) {
        return Some(Finding::at(line, MARKED, &[]));
    }
    if let Some(found) = byte_fault(line) {
        return Some(found);
    }
    if order_of_line(line).is_some() {
        return ending_fault(line, is_ended);
    }
    let template = match first(line) {
        b'S' | b'T' | b'R' => {
            b"the first line is `board-journal 2 big` or `board-journal 2 little`, before all lines as ~".as_slice()
        }
        _ =>
            b"the first line is `board-journal 2 big` or `board-journal 2 little`, found ~".as_slice(),
    };
    Some(Finding::at(line, template, line))
}

/// A line without a newline.
fn ending_fault(line: &[u8], is_ended: bool) -> Option<Finding<'_>> {
    if is_ended {
        return None;
    }
    Some(Finding::at(
        behind(line, line.len()),
        b"the last line has no newline at its end, so the text may be cut off",
        &[],
    ))
}

/// A byte that has no place in a line.
fn byte_fault(line: &[u8]) -> Option<Finding<'_>> {
    for (i, byte) in line.iter().enumerate() {
        let template = match *byte {
            b'\r' =>
                b"a carriage return: lines end with a newline alone (tr -d '\\r' takes them out)".as_slice(),
            b'\t' => b"a tab: one space stands between two fields".as_slice(),
            b'#' | b'/' | b';' => b"no comments: leave this out".as_slice(),
            _ => continue,
        };
        return Some(Finding::at(behind(line, i), template, &[]));
    }
    None
}

/// What is wrong with a line after the first one of a journal, or with a line of a script.
fn line_fault(line: &[u8], is_ended: bool, is_journal: bool) -> Option<Finding<'_>> {
    if let Some(found) = byte_fault(line) {
        return Some(found);
    }
    if line.is_empty() {
        return Some(Finding::at(line, b"an empty line: leave it out", &[]));
    }
    if let Some(found) = space_fault(line) {
        return Some(found);
    }
    let (letter, rest) = split_field(line);
    let form = match letter {
        b"S" if is_journal => b"S CPU COUNT".as_slice(),
        b"S" => {
            return Some(Finding::at(
                line,
                b"no steps in a script: each processor takes its own",
                &[],
            ));
        }
        b"T" => b"T COUNT".as_slice(),
        b"R" => b"R LINE COUNT".as_slice(),
        _ => return Some(letter_fault(line, letter, is_journal)),
    };
    if let Some(found) = fields_fault(form, rest) {
        return Some(found);
    }
    ending_fault(line, is_ended)
}

/// A line that begins with none of the letters.
fn letter_fault<'a>(line: &'a [u8], letter: &'a [u8], is_journal: bool) -> Finding<'a> {
    let template = if order_of_line(line).is_some() {
        b"~ is the first line alone: journals are joined without it".as_slice()
    } else if has_name(b"s t r", letter) {
        b"~ is written in upper case".as_slice()
    } else if is_journal {
        b"a line is `S CPU COUNT`, `T COUNT` or `R LINE COUNT`, found ~".as_slice()
    } else {
        b"a line is `T COUNT` or `R LINE COUNT`, found ~".as_slice()
    };
    let word = if order_of_line(line).is_some() {
        line
    } else {
        letter
    };
    Finding::at(line, template, word)
}

/// Spaces that have no place in a line.
fn space_fault(line: &[u8]) -> Option<Finding<'_>> {
    let mut after_space = true;
    for (i, byte) in line.iter().enumerate() {
        let is_space = *byte == b' ';
        let rest = behind(line, i);
        if is_space && i == 0 {
            return Some(Finding::at(rest, b"a space before the line's letter", &[]));
        }
        if is_space && rest.len() == 1 {
            return Some(Finding::at(rest, b"a space at the line's end", &[]));
        }
        if is_space && after_space {
            return Some(Finding::at(rest, b"a second space: one stands between two fields", &[]));
        }
        after_space = is_space;
    }
    None
}

/// What is wrong with the fields after the letter of a line of this form.
fn fields_fault<'a>(form: &'a [u8], rest: &'a [u8]) -> Option<Finding<'a>> {
    let (_, mut names) = split_field(form);
    let mut left = rest;
    for _ in 0..2 {
        if names.is_empty() {
            break;
        }
        let (name, more) = split_field(names);
        let (number, behind_number) = split_field(left);
        if let Some(template) = number_fault(name, number) {
            let word = if number.is_empty() { name } else { number };
            return Some(Finding::at(left, template, word).with_other(if number.is_empty() {
                form
            } else {
                name
            }));
        }
        names = more;
        left = behind_number;
    }
    if left.is_empty() {
        return None;
    }
    Some(Finding::at(left, b"~ is too much: the form is ^", left).with_other(form))
}

/// What is wrong with a field that is a number.
fn number_fault(name: &[u8], number: &[u8]) -> Option<&'static [u8]> {
    let is_count = first(name) == b'C' && name.len() > 3;
    let most = if is_count { u32::MAX as u64 } else { 255 };
    if number.is_empty() {
        return Some(b"~ is missing: the form is ^");
    }
    if first(number) == b'-' || first(number) == b'+' {
        return Some(b"~ has a sign: ^ is a decimal number without one");
    }
    if number.starts_with(b"0x".as_slice()) {
        return Some(b"~ is hexadecimal: ^ is a decimal number");
    }
    if !are_digits(number) {
        return Some(b"~ is no number: ^ is a decimal number");
    }
    if is_count && number == b"0".as_slice() {
        return Some(b"a count of ~: leave the line out, or count from 1");
    }
    if plain_decimal(number, most).is_some() {
        return None;
    }
    if first(number) == b'0' {
        return Some(b"~ has leading zeros: leave them out");
    }
    if is_count {
        Some(b"~ is too much: ^ is 1 to 4294967295 (write two lines)")
    } else {
        Some(b"~ is too much: ^ is 0 to 255")
    }
}

/// Whether all bytes are decimal digits.
fn are_digits(text: &[u8]) -> bool {
    for byte in text {
        if !is_digit(*byte) {
            return false;
        }
    }
    true
}

/// The diagnosis of a journal that needs more runs than one has: the line that needs one more.
fn full_hint(alloc: Global, text: &[u8]) -> FaultHint {
    let mut journal = Journal::new(alloc, MOST_RUNS, Order::Big);
    let (_, mut rest) = split_line(text);
    for line in 2..usize::MAX {
        let Some(left) = rest else {
            return FaultHint::none();
        };
        let (bytes, after) = split_line(left);
        let Some(run) = run_of_line(bytes) else {
            return FaultHint::none();
        };
        match journal.push_run(run.event, run.count) {
            Ok(()) => rest = after,
            Err(JournalFault::Full) => {
                let template = b"with this line there are more than ? runs, which is the limit";
                let found = Finding::at(bytes, template, &[]).with_number(MOST_RUNS as u64);
                return told(b"the journal", Some(line), None, Some(found));
            }
            Err(_) => return FaultHint::none(),
        }
    }
    FaultHint::none()
}
