//! What the definitions of this crate say by themselves.

ghost use Rattle.std.specs.Prelude.{◌≡◌, ◌↔◌, ℕ, List, Some, true};
ghost use Rattle.brd_source.specs.Forms.{form_of, are_of};
ghost use Rattle.brd_source.specs.Grammar.{LineIs};
ghost use Rattle.brd_source.specs.Lines.{line_of};
ghost use Rattle.brd_source.specs.Names.{HasNames};
ghost use Rattle.brd_source.specs.Spelling.{SpellsLine};
ghost use Rattle.brd_source.specs.Statement.{Instruction, Line};
ghost use Rattle.brd_source.specs.Statement.Statement.{Instruct};
ghost use Rattle.brd_source.specs.Tokens.{SourceToken, tokens_of};

/// What spells tokens, with any blanks between them and a comment after them, is scanned as these tokens.
pub fn spelled_tokens_are_scanned()
    ensures { (bytes : List ℕ) (tokens : List SourceToken) → SpellsLine bytes tokens → tokens_of bytes ≡ tokens }
{}

/// The tokens of a line are spelled by its bytes.
pub fn scanned_tokens_are_spelled()
    ensures { (bytes : List ℕ) → SpellsLine bytes (tokens_of bytes) }
{}

/// The labels of a line are names, and so is what its statement gives a value to.
pub fn lines_have_names()
    ensures { (bytes : List ℕ) (line : Line) → line_of bytes ≡ Some line → HasNames line }
{}

/// The instruction of a line has the operands that its mnemonic takes, none left out.
pub fn instructions_have_their_operands()
    ensures { (bytes : List ℕ) (line : Line) (i : Instruction) → line_of bytes ≡ Some line →
        line.statement ≡ Instruct i → are_of (form_of i.mnemonic) i.operands ≡ true }
{}

/// What is read as a line is just what has the form of one, by the tokens that its bytes have, and so by any tokens
/// that its bytes spell; and it is read as what these say.
pub fn lines_follow_the_grammar()
    ensures exact { (bytes : List ℕ) (line : Line) → (line_of bytes ≡ Some line) ↔ LineIs (tokens_of bytes) line }
    ensures spelled { (bytes : List ℕ) (line : Line) →
        (line_of bytes ≡ Some line) ↔ ((tokens : List SourceToken) × SpellsLine bytes tokens × LineIs tokens line) }
{}
