//! Which instructions may change memory.

ghost use Rattle.std.specs.Prelude.{◌≡◌};
ghost use Rattle.brd_isa.specs.Decoding.{decoded};
ghost use Rattle.brd_exec.specs.Storing.{is_store, is_store_word, may_store};

use crate::context::Context;
use brd_isa::{Insn, decode, shape_of};
use brd_mem::Ram;

/// Whether a context's next instruction is a store, also an SC. No other instruction changes memory
/// (`laws::only_stores_change_memory`).
#[inline(always)]
#[tactic(auto, unfolding(crate::specs::Storing::may_store))]
pub fn may_store(context: &Context, ram: &Ram) -> bool
    ensures { result ≡ may_store context.now ram.now }
{
    match ram.fetch(context.pc()) {
        Ok(word) => is_store_word(word),
        Err(_) => false,
    }
}

/// Whether a word stands for a store.
#[inline(always)]
fn is_store_word(word: u32) -> bool
    ensures { result ≡ is_store_word (decoded word) }
{
    match decode(word) {
        Some(insn) => is_store(insn),
        None => false,
    }
}

/// Whether an instruction is a store: an SC too.
#[inline(always)]
pub fn is_store(insn: Insn) -> bool
    ensures { result ≡ is_store insn }
{
    match shape_of(&insn).access {
        Some(access) => access.transfer.does_store(),
        None => false,
    }
}
