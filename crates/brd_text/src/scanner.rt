//! Bytes to tokens.

ghost use Rattle.std.specs.Prelude.{◌≡◌};

use crate::gap::{Gap, after_gap, token_at};
use crate::token::Token;
use std::marker::Model;

/// Reads the tokens of a text from the front.
#[derive(Drop)]
pub struct Scanner<'a> {
    rest: &'a [u8],
    line: usize,
}

impl<'a> Model for Scanner<'a> {
    ghost use Rattle.std.specs.Prelude.{◌+◌, ◌<◌, ◌^◌, length};
    ghost use Rattle.brd_text.specs.Tokens.{Text, tokens_in};
    ghost use Rattle.brd_text.specs.Tokens.Place.{Between};

    ghost Value = { Text };

    ghost view = { λ s. tokens_in Between s.line s.rest.now };

    ghost invariant = { λ s. s.line + length s.rest.now < 2 ^ 64 };
}

impl<'a> Scanner<'a> {
    ghost use Rattle.brd_text.specs.Tokens.{tokens_of, first, others, seen};

    /// A scanner over all of a text.
    pub fn new(text: &'a [u8]) -> Scanner<'a>
        ensures { result ≡ tokens_of text.now }
    {
        Scanner {
            rest: text,
            line: 1,
        }
    }

    /// Takes the first token, and says on which line it begins. `End` stands after the last token, as often as it is
    /// asked for, with the line on which the text ends.
    pub fn next(&mut self) -> (Token<'a>, usize)
        ensures token { first self.old ≡ record { token = seen result.0; line = result.1 } }
        ensures behind { self.new ≡ others self.old }
    {
        match after_gap(self.rest, self.line) {
            Gap::Open(line) => {
                self.rest = &[];
                self.line = line;
                (Token::Unclosed, line)
            }
            Gap::Closed(rest, line) => {
                let (token, behind) = token_at(rest);
                self.rest = behind;
                self.line = line;
                (token, line)
            }
        }
    }
}
