//! Strings: the bytes between two quotes to the bytes that they stand for.

ghost use Rattle.std.specs.Prelude.{◌≡◌, map};
ghost use Rattle.brd_source.specs.Faults.{Gives};
ghost use Rattle.brd_source.specs.Statements.{text_from};
ghost use Rattle.brd_source.specs.Texts as texts;
ghost use Rattle.brd_source.specs.Tokens.{seen};

use crate::fault::LineFault;
use crate::scanner::escapes;
use crate::token::SourceToken;
use brd_base::List;
use std::alloc::Global;

/// What a byte after a backslash stands for.
#[tactic(auto, unfolding(crate::specs::Texts::escape_of))]
fn escape_of(byte: u8) -> Option<u8>
    ensures { result ≡ texts.escape_of byte }
{
    match byte {
        b'n' => Some(b'\n'),
        b't' => Some(b'\t'),
        b'0' => Some(0),
        b'\\' => Some(b'\\'),
        b'"' => Some(b'"'),
        _ => None,
    }
}

/// What another byte of a string stands for.
#[tactic(auto, unfolding(crate::specs::Texts::plain_of))]
fn plain_of(byte: u8) -> Option<u8>
    ensures { result ≡ texts.plain_of byte }
{
    (byte < 128 && byte != b'\n').then_some(byte)
}

/// What a byte of a string stands for.
pub fn byte_for(is_escaped: bool, byte: u8) -> Option<u8>
    ensures { result ≡ texts.byte_for is_escaped byte }
{
    if is_escaped {
        return escape_of(byte);
    }
    plain_of(byte)
}

/// What the bytes between two quotes stand for.
#[tactic(auto, unfolding(crate::specs::Texts::text_of))]
fn text_of(alloc: Global, bytes: &[u8]) -> Result<List<u8>, LineFault>
    ensures { Gives (λ text. text) result (texts.text_of bytes.now) }
{
    let mut text = List::new(alloc);
    let mut is_escaped = false;
    for byte in bytes {
        if escapes(is_escaped, *byte) {
            is_escaped = true;
            continue;
        }
        let Some(byte) = byte_for(is_escaped, *byte) else {
            return Err(LineFault::Syntax);
        };
        text.push(byte)?;
        is_escaped = false;
    }
    if is_escaped {
        return Err(LineFault::Syntax);
    }
    Ok(text)
}

/// A string.
#[tactic(auto, unfolding(crate::specs::Statements::text_from))]
pub(crate) fn text(alloc: Global, tokens: &[SourceToken]) -> Result<List<u8>, LineFault>
    ensures { Gives (λ text. text) result (text_from (map seen tokens.now)) }
{
    match tokens {
        [SourceToken::Quoted(bytes)] => text_of(alloc, bytes),
        _ => Err(LineFault::Syntax),
    }
}
