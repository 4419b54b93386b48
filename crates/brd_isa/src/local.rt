//! Which instructions are local.

ghost use Rattle.std.specs.Prelude.{◌≡◌};
ghost use Rattle.brd_isa.specs.Local.{goes_on, is_local};

use crate::instruction::Insn;
use crate::shape::{Flow, shape_of};

/// Whether an instruction touches only registers, HI, LO and the program counter, and whatever these hold neither
/// raises an exception nor calls the kernel. PREF and SYNC, which touch nothing, are local. Loads, stores, LL and SC,
/// which touch memory or links, aren't; nor are ADD, ADDI, SUB, the traps, BREAK and SYSCALL.
#[inline(always)]
pub fn is_local(insn: Insn) -> bool
    ensures { result ≡ is_local insn }
{
    let shape = shape_of(&insn);
    shape.access.is_none() && goes_on(shape.flow)
}

/// Whether another instruction is executed after it, whatever the registers hold.
#[inline(always)]
fn goes_on(flow: Flow) -> bool
    ensures { result ≡ goes_on flow }
{
    !matches!(
        flow,
        Flow::NextUnlessRaised | Flow::ServiceCall | Flow::Exception
    )
}
