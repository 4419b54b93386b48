//! The parts of the scanner: the gap before a token, and the token at the front of a text.

ghost use Rattle.std.specs.Prelude.{◌≡◌, ℕ, ◌+◌, ◌<◌, ◌≤◌, ◌^◌, length, true};
ghost use Rattle.brd_text.specs.Tokens.{tokens_in, seen};
ghost use Rattle.brd_text.specs.Tokens.Place.{Between, InLine, InBlock};
ghost use Rattle.brd_text.specs.Gaps.{tokens_behind, room_of, left_of, begins_token, IsAtToken, Begins};

use crate::byte::{is_blank, is_run_byte};
use crate::front::{behind, run_len};
use crate::line::line_after;
use crate::token::Token;

/// Where a gap between tokens ends.
pub(crate) enum Gap<'a> {
    /// The bytes after it, and their line.
    Closed(&'a [u8], usize),
    /// The text ends on this line, in a comment.
    Open(usize),
}

/// The end of the line: a newline and what follows it, or nothing.
fn line_end(rest: &[u8]) -> &[u8]
    ensures same { (line : ℕ) → tokens_in InLine line rest.now ≡ tokens_in Between line result.now }
    ensures room { length result.now ≤ length rest.now }
{
    let mut left = rest;
    while let Some((byte, after)) = left.split_first() {
        if *byte == b'\n' {
            return left;
        }
        left = after;
    }
    left
}

/// What is after bytes of a comment that neither end it nor their line.
fn behind_comment_bytes(rest: &[u8]) -> &[u8]
    ensures same { (line : ℕ) → tokens_in InBlock line rest.now ≡ tokens_in InBlock line result.now }
    ensures room { length result.now ≤ length rest.now }
{
    let mut left = rest;
    while let Some((byte, after)) = left.split_first() {
        if *byte == b'*' || *byte == b'\n' {
            return left;
        }
        left = after;
    }
    left
}

/// What is after a comment that ends with `*/`.
fn after_block(rest: &[u8], line: usize) -> Gap<'_>
    requires { line + length rest.now < 2 ^ 64 }
    ensures same { tokens_in InBlock line rest.now ≡ tokens_behind result }
    ensures room { room_of result ≤ line + length rest.now }
    ensures shorter { length (left_of result) ≤ length rest.now }
{
    let mut left = rest;
    let mut at = line;
    while let [byte, after @ ..] = left {
        if *byte == b'*'
            && let Some(end) = behind(b'/', after)
        {
            return Gap::Closed(end, at);
        }
        at = line_after(at, *byte);
        left = behind_comment_bytes(after);
    }
    Gap::Open(at)
}

/// What is after blanks, newlines and comments.
pub(crate) fn after_gap(rest: &[u8], line: usize) -> Gap<'_>
    requires { line + length rest.now < 2 ^ 64 }
    ensures same { tokens_in Between line rest.now ≡ tokens_behind result }
    ensures room { room_of result ≤ line + length rest.now }
    ensures token { IsAtToken result }
{
    let mut left = rest;
    let mut at = line;
    while let Some((byte, after)) = left.split_first() {
        if is_blank(*byte) {
            at = line_after(at, *byte);
            left = after;
            continue;
        }
        if *byte != b'/' {
            return Gap::Closed(left, at);
        }
        if let Some(comment) = behind(b'/', after) {
            left = line_end(comment);
            continue;
        }
        let Some(comment) = behind(b'*', after) else {
            return Gap::Closed(left, at);
        };
        match after_block(comment, at) {
            Gap::Open(end) => return Gap::Open(end),
            Gap::Closed(end, end_line) => {
                left = end;
                at = end_line;
            }
        }
    }
    Gap::Closed(left, at)
}

/// The token at the front, and what is after it.
pub(crate) fn token_at(text: &[u8]) -> (Token<'_>, &[u8])
    requires { begins_token text.now ≡ true }
    ensures token { Begins text.now (seen result.0) result.1.now }
    ensures room { length result.1.now ≤ length text.now }
{
    let Some((byte, after)) = text.split_first() else {
        return (Token::End, text);
    };
    if is_run_byte(*byte) {
        let (run, behind) = text.split_at(run_len(text));
        return (Token::Run(run), behind);
    }
    (Token::Mark(*byte), after)
}
