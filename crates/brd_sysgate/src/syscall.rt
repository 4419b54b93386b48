//! The whole of a service call.

ghost use Rattle.std.specs.Prelude.{◌≡◌};
ghost use Rattle.brd_exec.specs.State.{advanced};
ghost use Rattle.brd_kernel.specs.Kernel.{processor_at};
ghost use Rattle.brd_kernel.specs.Services.{caller_on};
ghost use Rattle.brd_sysgate.specs.Gate.{
  agent_in,
  caller_of,
  with_changed_context,
  written,
  served_call,
  is_again,
  called,
};

use crate::gate::{Agent, Caller, read, write};
use brd_kernel::{Call, Ercd, Kernel, Reply};

/// A SYSCALL on a processor: its context goes on as after an ordinary instruction, the call is served, and its reply is
/// written where the context lies. A call that is to be made again changes nothing.
#[tactic(auto, unfolding(crate::specs::Gate::called))]
pub fn call(kernel: &mut Kernel, cpu: u8)
    ensures { kernel.new ≡ called kernel.old cpu }
{
    let caller = caller(kernel, cpu);
    let Some(context) = kernel.context(cpu) else {
        return
    };
    let call = read(context, caller);
    if is_again(kernel, call) {
        return;
    }
    advance(kernel, cpu);
    let reply = serve(kernel, cpu, call);
    answer(kernel, cpu, reply);
}

/// Who makes a call from a processor.
fn caller(kernel: &Kernel, cpu: u8) -> Caller
    ensures { result ≡ caller_of kernel.now cpu }
{
    Caller {
        agent: agent(kernel, cpu),
        standard: kernel.is_standard(),
    }
}

/// Who executes on a processor.
fn agent(kernel: &Kernel, cpu: u8) -> Agent
    ensures { result ≡ agent_in (caller_on kernel.now cpu) (processor_at kernel.now cpu) }
{
    let Some(processor) = kernel.processor(cpu) else {
        return Agent::Handler {
            locked: false,
            holding: false,
        };
    };
    if processor.handling.is_some() {
        return Agent::Handler {
            locked: processor.locked,
            holding: processor.spin.is_some(),
        };
    }
    Agent::Task {
        id: kernel.caller(cpu),
        locked: processor.locked,
        disabled: processor.disabled,
        holding: processor.spin.is_some(),
    }
}

/// Whether a call is let through and is to be made again.
fn is_again(kernel: &Kernel, call: Result<Call, Ercd>) -> bool
    ensures { result ≡ is_again kernel.now call }
{
    match call {
        Ok(call) => kernel.comes_again(call),
        Err(_) => false,
    }
}

/// The context of a processor goes on to the next instruction.
fn advance(kernel: &mut Kernel, cpu: u8)
    ensures { kernel.new ≡ with_changed_context advanced kernel.old cpu }
{
    if let Some(who) = kernel.executor(cpu) {
        kernel.context_mut(cpu, who).advance();
    }
}

/// Serves a call, or answers why it can't be made.
fn serve(kernel: &mut Kernel, cpu: u8, call: Result<Call, Ercd>) -> Reply
    ensures { record { kernel = kernel.new; reply = result } ≡ served_call kernel.old cpu call }
{
    match call {
        Ok(call) => kernel.serve(cpu, call),
        Err(code) => Reply::Answer(code.word(), None),
    }
}

/// Writes a reply to the context in which a processor executes.
fn answer(kernel: &mut Kernel, cpu: u8, reply: Reply)
    ensures { kernel.new ≡ with_changed_context (λ s. written s reply) kernel.old cpu }
{
    if let Some(who) = kernel.executor(cpu) {
        write(kernel.context_mut(cpu, who), reply);
    }
}
