//! One instruction of a processor.

ghost use Rattle.std.specs.Prelude.{IfSome};
ghost use Rattle.brd_tasks.specs.Ready.{IsProcessor};
ghost use Rattle.brd_board.specs.Executing.{executed, Executes};

use brd_exec::{Outcome, run};
use brd_kernel::Kernel;
use brd_link::Links;
use brd_mem::Ram;

/// An instruction that was executed.
#[derive(Clone, Copy, PartialEq, Eq)]
pub struct Ended {
    /// Its address.
    pub address: u32,
    /// How it ended.
    pub outcome: Outcome,
}

/// Does one instruction in the context in which a processor executes, where it lies. None where nobody executes.
pub fn execute(kernel: &mut Kernel, cpu: u8, ram: &mut Ram, links: &mut Links) -> Option<Ended>
    ensures within { IfSome result (λ _. IsProcessor cpu) }
    ensures is { Executes (executed kernel.old cpu ram.old links.old) kernel.old ram.old links.old kernel.new ram.new
        links.new result }
{
    let who = kernel.executor(cpu)?;
    let context = kernel.context_mut(cpu, who);
    let address = context.pc();
    let outcome = run(context, cpu, ram, links);
    Some(Ended { address, outcome })
}
