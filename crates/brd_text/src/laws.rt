//! What the definitions of this crate say by themselves.

ghost use Rattle.std.specs.Prelude.{◌≡◌, ℕ, ◌^◌, ◌<◌, true, List, ◌∷◌, Some};
ghost use Rattle.std.specs.List.{AllByRecursion, join_with_byte, list_all};
ghost use Rattle.brd_text.specs.Hex.{hex_of, hex_word_of};
ghost use Rattle.brd_text.specs.Lines.{lines_of, stays_on};
ghost use Rattle.brd_text.specs.Spelling.{Spells, bare_tokens};
ghost use Rattle.brd_text.specs.Tokens.{Token, tokens_of};

/// What spells tokens, with any blanks and comments between them, is scanned as these tokens.
pub fn spelled_tokens_are_scanned()
    ensures { (bytes : List ℕ) (tokens : List Token) → Spells bytes tokens → bare_tokens (tokens_of bytes) ≡ tokens }
{}

/// The lines of a text, with a newline between one and the next, are the text, and none of them has a newline. No other
/// lines are so.
pub fn lines_are_what_newlines_part()
    ensures joined { (text : List ℕ) → join_with_byte 10 (lines_of text) ≡ text }
    ensures apart { (text : List ℕ) → AllByRecursion (λ line. list_all stays_on line ≡ true) (lines_of text) }
    ensures only { (line : List ℕ) (others : List (List ℕ)) →
        AllByRecursion (λ line. list_all stays_on line ≡ true) (line ∷ others) →
        lines_of (join_with_byte 10 (line ∷ others)) ≡ line ∷ others }
{}

/// The digits of a word spell that word.
pub fn shown_words_are_read()
    ensures { (word : ℕ) → word < 2 ^ 32 → hex_word_of (hex_of word) ≡ Some word }
{}
