//! The text that `words` reads.

ghost use Rattle.std.specs.Prelude.{◌≡◌, ◌-◌, ◌≤◌, length, MatchResult, IfOk, Ok};
ghost use Rattle.std.specs.List.{prefix_len};
ghost use Rattle.brd_text.specs.Hex.{hex_word_of};
ghost use Rattle.brd_inputs.specs.Input.{most_bytes};
ghost use Rattle.brd_running.specs.WordText.{in_run, word_or_fault, words_of_text, IsFaultOf};

use brd_inputs::{WordsFault, put};
use brd_text::{hex_word, is_blank, line_after};
use std::alloc::Global;

/// How many words there may be.
const LIMIT: usize = 16_384;

/// The words of a text, or its first fault.
pub fn parse_words(alloc: Global, text: &[u8]) -> Result<Vec<u32>, WordsFault>
    requires { length text.now ≤ most_bytes }
    ensures exact { MatchResult result (λ words. words_of_text text.now ≡ Ok words.items)
        (IsFaultOf (words_of_text text.now)) }
    ensures few { IfOk result (λ words. length words.items ≤ 16384) }
{
    let mut words = Vec::new(alloc);
    let mut line = 1;
    let mut left = text;
    while let Some((byte, rest)) = left.split_first() {
        if is_blank(*byte) {
            line = line_after(line, *byte);
            left = rest;
        } else {
            let (run, behind) = left.split_at(run_len(left));
            let word = checked_word(words.len(), line, run)?;
            put(&mut words, word)?;
            left = behind;
        }
    }
    Ok(words)
}

/// The word of a run, where there is room for it.
fn checked_word(count: usize, line: usize, run: &[u8]) -> Result<u32, WordsFault>
    requires { count ≤ 16384 }
    ensures { result ≡ word_or_fault (16384 - count) line (hex_word_of run.now) }
{
    match hex_word(run) {
        None => Err(WordsFault::Syntax { line }),
        Some(word) => {
            if count == LIMIT {
                return Err(WordsFault::TooMany);
            }
            Ok(word)
        }
    }
}

/// How many bytes come before the first blank.
fn run_len(text: &[u8]) -> usize
    ensures { result ≡ prefix_len in_run text.now }
{
    for (i, byte) in text.iter().enumerate() {
        if is_blank(*byte) {
            return i;
        }
    }
    text.len()
}
