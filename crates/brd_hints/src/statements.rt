//! The parts of a line of assembler source: labels, the word that says what it is, operands.

use crate::scan::{behind, code_of, first, run, skip_blanks};
use brd_source::{Operation, operation_named};

/// The parts of a line.
#[derive(Clone, Copy)]
pub(crate) struct Parts<'a> {
    /// The line without its comment.
    pub code: &'a [u8],
    /// From the word on that begins the statement.
    pub statement: &'a [u8],
    /// That word.
    pub word: &'a [u8],
    /// What the word says, if it says anything.
    pub operation: Option<Operation>,
    /// What is after it, without the blanks at the front.
    pub operands: &'a [u8],
}

/// The parts of a line.
pub(crate) fn parts_of(line: &[u8]) -> Parts<'_> {
    let code = code_of(line);
    let statement = behind_labels(code);
    let (word, after) = run(statement);
    Parts {
        code,
        statement,
        word,
        operation: operation_named(word),
        operands: skip_blanks(after),
    }
}

/// The text after the labels at its front.
fn behind_labels(code: &[u8]) -> &[u8] {
    let mut rest = skip_blanks(code);
    for _ in 0..code.len() {
        match behind_label(rest) {
            Some(after) => rest = after,
            None => return rest,
        }
    }
    rest
}

/// The text after the label at its front, if there is one.
pub(crate) fn behind_label(text: &[u8]) -> Option<&[u8]> {
    let (word, after) = run(text);
    let after = skip_blanks(after);
    if word.is_empty() || first(after) != b':' {
        return None;
    }
    Some(skip_blanks(behind(after, 1)))
}
