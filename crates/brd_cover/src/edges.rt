//! What a step leads to, and whose it is.

use crate::stacks::Lead;
use brd_board::Standing;
use brd_happening::{Answer, Happening, Instruction, What};
use brd_isa::{BranchOp, Flow, Insn, shape_of};

/// How many numbers a processor's owners take.
const OWNERS: u32 = 512;

/// The number of whom the steps are that a processor does: of a task, or of a handler. Each is below RAM.
pub(crate) fn owner_of(cpu: u8, who: Option<Standing>) -> u32 {
    let own = match who {
        Some(Standing::Task(id)) => u32::from(id),
        Some(Standing::Handler(line)) => 256 + u32::from(line),
        Some(Standing::Idle | Standing::Stopped) | None => OWNERS - 1,
    };
    OWNERS * u32::from(cpu) + own
}

/// The processor of an owner, and its task, or the line of its handler.
pub(crate) fn parts_of(owner: u32) -> (u32, Result<u32, u32>) {
    let own = owner % OWNERS;
    let who = if own < 256 { Ok(own) } else { Err(own - 256) };
    (owner / OWNERS, who)
}

/// Where an instruction at an address leads to, if it calls or returns.
pub(crate) fn lead_of(done: &Instruction, from: u32) -> Option<Lead> {
    let jump = done.jump?;
    if !jump.taken {
        return None;
    }
    let calls = match shape_of(&done.insn).flow {
        Flow::JumpAndLink | Flow::BranchAndLink => true,
        Flow::Return => false,
        _ => return None,
    };
    Some(Lead {
        from,
        target: jump.target,
        calls,
    })
}

/// Whether an instruction is a branch that may be taken or not.
pub(crate) fn may_branch(insn: &Insn) -> bool {
    let flow = shape_of(insn).flow;
    matches!(flow, Flow::Branch | Flow::BranchAndLink) && !is_settled(insn)
}

/// Whether a branch does the same whatever the registers hold: `b` is a BEQ of a register and itself, `bal` a BGEZAL of
/// register 0.
fn is_settled(insn: &Insn) -> bool {
    match *insn {
        Insn::Branch(BranchOp::Beq | BranchOp::Beql, rs, rt, _) => rs.number() == rt.number(),
        Insn::BranchRegimm(_, rs, _) => rs.number() == 0,
        _ => false,
    }
}

/// Whether an instruction was a branch, and was taken.
pub(crate) fn is_taken(what: &What) -> bool {
    match *what {
        What::Instruction(done) => match done.jump {
            Some(jump) => jump.taken && may_branch(&done.insn),
            None => false,
        },
        _ => false,
    }
}

/// Whether who did a step has ended by it.
pub(crate) fn has_ended(what: &What) -> bool {
    match *what {
        What::Call(call) => matches!(call.answer, Answer::Never),
        What::Exception(_) => true,
        _ => false,
    }
}

/// Where a step leads to, if it calls or returns.
pub(crate) fn lead_in(happening: &Happening, from: u32) -> Option<Lead> {
    match happening.what {
        What::Instruction(done) => lead_of(&done, from),
        _ => None,
    }
}
