//! Pieces of a line.

use brd_source::first_token;
use brd_text::{is_blank, run_len};

/// The first n bytes, and what is after them.
pub(crate) fn cut(text: &[u8], at: usize) -> (&[u8], &[u8]) {
    if at > text.len() {
        return (text, &[]);
    }
    text.split_at(at)
}

/// What is after the first n bytes.
pub(crate) fn behind(text: &[u8], at: usize) -> &[u8] {
    let (_, rest) = cut(text, at);
    rest
}

/// The text after the blanks at its front.
pub(crate) fn skip_blanks(text: &[u8]) -> &[u8] {
    for (i, byte) in text.iter().enumerate() {
        if !is_blank(*byte) {
            return behind(text, i);
        }
    }
    behind(text, text.len())
}

/// The text without the blanks at its end.
pub(crate) fn trim_end(text: &[u8]) -> &[u8] {
    let mut end = 0usize;
    for (i, byte) in text.iter().enumerate() {
        if !is_blank(*byte) {
            end = i.saturating_add(1);
        }
    }
    let (front, _) = cut(text, end);
    front
}

/// The run at the front, and what is after it.
pub(crate) fn run(text: &[u8]) -> (&[u8], &[u8]) {
    cut(text, run_len(text))
}

/// The run at the front, or the byte that stands there where there is none; at the end nothing.
pub(crate) fn token(text: &[u8]) -> &[u8] {
    let len = run_len(text);
    let (front, _) = cut(text, len.max(1));
    front
}

/// The first byte, or 0 where there is none.
pub(crate) fn first(text: &[u8]) -> u8 {
    text.first().copied().unwrap_or(0)
}

/// The place of a byte.
pub(crate) fn place_of(text: &[u8], wanted: u8) -> Option<usize> {
    text.iter().position(|byte| *byte == wanted)
}

/// How often a byte stands in the text.
pub(crate) fn count(text: &[u8], wanted: u8) -> usize {
    text.iter().filter(|byte| **byte == wanted).count()
}

/// What is after n commas, without the blanks at its front. `None` where there are fewer.
pub(crate) fn behind_commas(text: &[u8], commas: usize) -> Option<&[u8]> {
    if commas == 0 {
        return Some(skip_blanks(text));
    }
    let mut left = commas;
    for (i, byte) in text.iter().enumerate() {
        if *byte == b',' {
            left = left.saturating_sub(1);
            if left == 0 {
                return Some(skip_blanks(behind(text, i.saturating_add(1))));
            }
        }
    }
    None
}

/// What stands before the first comma, without the blanks at its end.
pub(crate) fn before_comma(text: &[u8]) -> &[u8] {
    match place_of(text, b',') {
        Some(place) => {
            let (front, _) = cut(text, place);
            trim_end(front)
        }
        None => trim_end(text),
    }
}

/// The code of a line of assembler source: what stands before its comment.
pub(crate) fn code_of(line: &[u8]) -> &[u8] {
    let mut rest = line;
    for _ in 0..line.len() {
        let Some((_, after)) = first_token(rest) else {
            break;
        };
        rest = after;
    }
    let (code, _) = cut(line, line.len().saturating_sub(skip_blanks(rest).len()));
    code
}
