//! The bytes of a line to tokens.

ghost use Rattle.std.specs.Prelude.{◌≡◌, ◌<◌, ◌≤◌, ◌++◌, length, false, true, map, option_map, Some, IfSome};
ghost use Rattle.brd_source.specs.Faults.{Gives};
ghost use Rattle.brd_source.specs.Fronts.{begins_token, fronted};
ghost use Rattle.brd_source.specs.Tokens as tokens;
ghost use Rattle.brd_source.specs.Tokens.{tokens_in, seen};
ghost use Rattle.brd_source.specs.Tokens.Place.{Between, InString};

use crate::fault::LineFault;
use crate::token::SourceToken;
use brd_text::{behind, is_run_byte, is_space, run_len};
use smallvec::SmallVec;

/// Whether a comment begins at a byte, with these after it.
fn opens_comment(byte: u8, after: &[u8]) -> bool
    ensures { result ≡ tokens.opens_comment byte after.now }
{
    byte == b'#' || (byte == b'/' && behind(b'/', after).is_some())
}

/// Whether a byte of a string ends it.
fn ends_string(is_escaped: bool, byte: u8) -> bool
    ensures { result ≡ tokens.ends_string is_escaped byte }
{
    !is_escaped && byte == b'"'
}

/// Whether a byte of a string is a backslash before another byte of it.
pub fn escapes(is_escaped: bool, byte: u8) -> bool
    ensures { result ≡ tokens.escapes is_escaped byte }
{
    !is_escaped && byte == b'\\'
}

/// What is after blanks, nothing where a comment stands there.
pub fn after_blanks(line: &[u8]) -> &[u8]
    ensures same { tokens_in Between line.now ≡ tokens_in Between result.now }
    ensures token { begins_token result.now ≡ true }
    ensures shorter { length result.now ≤ length line.now }
{
    let mut left = line;
    while let Some((byte, after)) = left.split_first() {
        if is_space(*byte) {
            left = after;
            continue;
        }
        if opens_comment(*byte, after) {
            return &[];
        }
        return left;
    }
    left
}

/// How many bytes stand before the quote that ends a string.
fn string_len(rest: &[u8]) -> Option<usize>
    ensures len { result ≡ tokens.string_len false rest.now }
    ensures inside { IfSome result (λ n. n < length rest.now) }
{
    let mut is_escaped = false;
    for (i, byte) in rest.iter().enumerate() {
        if ends_string(is_escaped, *byte) {
            return Some(i);
        }
        is_escaped = escapes(is_escaped, *byte);
    }
    None
}

/// The string after a quote, and what is after it.
fn string_at(rest: &[u8]) -> (SourceToken<'_>, &[u8])
    ensures token { tokens.quoted (tokens.string_len false rest.now) rest.now ≡ seen result.0 }
    ensures rest { tokens_in InString rest.now ≡ tokens_in Between result.1.now }
    ensures shorter { length result.1.now ≤ length rest.now }
{
    let Some(len) = string_len(rest) else {
        return (SourceToken::Wrong, &[]);
    };
    let (text, _) = rest.split_at(len);
    let (_, behind) = rest.split_at(len + 1);
    (SourceToken::Quoted(text), behind)
}

/// The token at the front, and what is after it.
fn token_at(line: &[u8]) -> Option<(SourceToken<'_>, &[u8])>
    requires { begins_token line.now ≡ true }
    ensures front { tokens_in Between line.now ≡ fronted (option_map (λ front. (seen front.0, front.1.now)) result) }
    ensures shorter { IfSome result (λ front. length front.1.now < length line.now) }
{
    let Some((byte, after)) = line.split_first() else {
        return None;
    };
    if is_run_byte(*byte) {
        let (run, behind) = line.split_at(run_len(line));
        return Some((SourceToken::Run(run), behind));
    }
    if *byte == b'%' {
        let (run, behind) = after.split_at(run_len(after));
        return Some((SourceToken::Percent(run), behind));
    }
    if *byte == b'"' {
        return Some(string_at(after));
    }
    Some((SourceToken::Mark(*byte), after))
}

/// The token that a line has at its front, after blanks, and what is after it. `None` where there is none.
pub fn first_token(line: &[u8]) -> Option<(SourceToken<'_>, &[u8])>
    ensures front { tokens_in Between line.now ≡ fronted (option_map (λ front. (seen front.0, front.1.now)) result) }
    ensures shorter { IfSome result (λ front. length front.1.now < length line.now) }
{
    token_at(after_blanks(line))
}

/// Puts the tokens of a line after those that are there. The list has room for sixteen without asking for memory.
pub(crate) fn scan<'a>(
    line: &'a [u8],
    found: &mut SmallVec<SourceToken<'a>, 16>,
) -> Result<(), LineFault>
    ensures { Gives (λ _. map seen found.new.items) result
        (Some (map seen found.old.items ++ tokens.tokens_of line.now)) }
{
    let mut rest = line;
    'tokens: while let Some((token, behind)) = first_token(rest) {
        let Ok(()) = found.push(token) else {
            return Err(LineFault::NoMemory);
        };
        rest = behind;
    }
    Ok(())
}
