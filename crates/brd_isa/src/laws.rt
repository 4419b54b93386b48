//! Laws of the definitions: what follows from them, without regard to any code.

ghost use Rattle.std.specs.Prelude.{◌≡◌, ℕ, ◌↔◌, Some};
ghost use Rattle.brd_isa.specs.Table.{StandsFor, IgnoresSa};
ghost use Rattle.brd_isa.specs.Decoding.{decoded, sa_of};
ghost use Rattle.brd_isa.specs.Names.{HasName};
ghost use Rattle.brd_isa.specs.declared.instruction.Insn.{Insn};
ghost use Rattle.brd_isa.specs.declared.mnemonic.Mnemonic.{Mnemonic};

/// The function that the meaning of a step is stated with is the table: it gives an instruction exactly where the word
/// stands for that one.
pub fn follows_the_table()
    ensures { (word : ℕ) (insn : Insn) → (decoded word ≡ Some insn) ↔ StandsFor word insn }
{}

/// A word stands for one instruction at most.
pub fn stands_for_one_instruction()
    ensures { (word : ℕ) (insn other : Insn) → StandsFor word insn → StandsFor word other → insn ≡ other }
{}

/// Two words that stand for one instruction are the same word; where the instruction ignores the field sa, if they
/// agree in it.
pub fn has_one_word()
    ensures { (v w : ℕ) (insn : Insn) →
        StandsFor v insn → StandsFor w insn → (IgnoresSa insn → sa_of v ≡ sa_of w) → v ≡ w }
{}

/// No mnemonic is without a name.
pub fn every_mnemonic_has_a_name()
    ensures { (mnemonic : Mnemonic) → HasName mnemonic }
{}
