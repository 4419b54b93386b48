//! Texts that are cut off, and texts with a byte changed.

use brd_asm::{AsmFault, assemble};
use brd_config::{ConfigFault, parse};
use brd_mem::is_plain;
use std::alloc::Global;
use test_help::{has_line, put_byte};

/// What a text is read as.
#[derive(Clone, Copy)]
pub enum Language {
    Source,
    Configuration,
}

/// How a text is answered.
#[derive(Clone, Copy)]
pub enum Answer {
    /// It is a configuration, or a source whose lines have their forms, be it with a plain image or another fault.
    Fine,
    /// It has a fault on one of its lines: none of the forms, or any fault of a configuration.
    Faulty,
    /// There is no memory, or the image isn't plain, or the fault is on a line that there isn't.
    Wrong,
}

/// This answer where the text has a line of this number.
fn on_line(text: &[u8], line: usize, answer: Answer) -> Answer {
    if has_line(text, line) {
        answer
    } else {
        Answer::Wrong
    }
}

/// How a fault answers a source. Only `Syntax` says that a line has none of the forms.
fn of_source_fault(text: &[u8], fault: AsmFault) -> Answer {
    match fault {
        AsmFault::NoMemory => Answer::Wrong,
        AsmFault::Syntax { line } => on_line(text, line, Answer::Faulty),
        AsmFault::Twice { line } | AsmFault::UnknownName { line } => {
            on_line(text, line, Answer::Fine)
        }
        AsmFault::Range { line } | AsmFault::Misaligned { line } | AsmFault::Overlap { line } => {
            on_line(text, line, Answer::Fine)
        }
    }
}

/// How a source is answered.
fn of_source(alloc: Global, text: &[u8]) -> Answer {
    match assemble(alloc, text) {
        Ok(image) => {
            if is_plain(&image) {
                Answer::Fine
            } else {
                Answer::Wrong
            }
        }
        Err(fault) => of_source_fault(text, fault),
    }
}

/// How a fault answers a configuration.
fn of_configuration_fault(text: &[u8], fault: ConfigFault) -> Answer {
    match fault {
        ConfigFault::NoMemory => Answer::Wrong,
        ConfigFault::Syntax { line }
        | ConfigFault::Duplicate { line }
        | ConfigFault::BadId { line }
        | ConfigFault::BadAttribute { line }
        | ConfigFault::BadPriority { line }
        | ConfigFault::BadCount { line }
        | ConfigFault::BadProcessor { line } => on_line(text, line, Answer::Faulty),
    }
}

/// How a configuration is answered.
fn of_configuration(alloc: Global, text: &[u8]) -> Answer {
    match parse(alloc, text) {
        Ok(_) => Answer::Fine,
        Err(fault) => of_configuration_fault(text, fault),
    }
}

/// How a text is answered.
pub fn answer_of(alloc: Global, language: Language, text: &[u8]) -> Answer {
    match language {
        Language::Source => of_source(alloc, text),
        Language::Configuration => of_configuration(alloc, text),
    }
}

/// How many fronts of a text are fine, or the length of the first that is answered wrongly. The whole text is none of
/// its fronts.
pub fn fronts(alloc: Global, language: Language, text: &[u8]) -> Result<usize, usize> {
    let mut fine = 0usize;
    for end in 0..text.len() {
        match answer_of(alloc, language, &text[..end]) {
            Answer::Fine => fine = fine.saturating_add(1),
            Answer::Faulty => {}
            Answer::Wrong => return Err(end),
        }
    }
    Ok(fine)
}

/// With how many of these bytes in a place a text is fine, if it is answered wrongly with none. The last one stays in
/// the place.
fn fine_at(
    alloc: Global,
    language: Language,
    text: &mut [u8],
    place: usize,
    bytes: &[u8],
) -> Option<usize> {
    let mut fine = 0usize;
    for byte in bytes {
        put_byte(text, place, *byte);
        match answer_of(alloc, language, text) {
            Answer::Fine => fine = fine.saturating_add(1),
            Answer::Faulty => {}
            Answer::Wrong => return None,
        }
    }
    Some(fine)
}

/// The same as `changes`. `copy` holds the same text.
fn changes_of(
    alloc: Global,
    language: Language,
    text: &[u8],
    copy: &mut [u8],
    bytes: &[u8],
) -> Result<usize, usize> {
    let mut fine = 0usize;
    for (place, byte) in text.iter().enumerate() {
        match fine_at(alloc, language, copy, place, bytes) {
            Some(more) => fine = fine.saturating_add(more),
            None => return Err(place),
        }
        put_byte(copy, place, *byte);
    }
    Ok(fine)
}

/// How many changes of a byte of a text to one of these leave it fine, or the first place where one is answered
/// wrongly. Without memory for a copy that is 0.
pub fn changes(
    alloc: Global,
    language: Language,
    text: &[u8],
    bytes: &[u8],
) -> Result<usize, usize> {
    match Vec::from_slice(alloc, text) {
        Ok(mut copy) => changes_of(alloc, language, text, copy.as_mut_slice(), bytes),
        Err(_) => Err(0),
    }
}
