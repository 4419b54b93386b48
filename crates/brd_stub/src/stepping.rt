//! How threads are stepped.

ghost use Rattle.std.specs.Prelude.{◌≡◌};
ghost use Rattle.brd_stub.specs.Stepping.{
  stepper_each,
  stepper_in,
  stepper_on,
  stepper_by,
  stepper_back,
  only_of,
  stepped_alone,
};

use crate::threads::{Thread, context_at, cpu_of, who_at};
use brd_board::{Board, Standing};
use brd_debug::{Only, Stepper};
use brd_exec::Context;

/// What a move steps.
#[derive(Clone, Copy)]
pub struct Stepped {
    /// Who is stepped, if somebody is.
    pub stepper: Option<Stepper>,
    /// Whose events alone are told of.
    pub only: Only,
}

/// Each instruction of a thread: of a processor, whoever executes it.
fn stepper_each(thread: Thread) -> Stepper
    ensures { result ≡ stepper_each thread }
{
    match thread {
        Thread::Task(id) => Stepper::Of(Standing::Task(id)),
        Thread::Handler(line) => Stepper::Of(Standing::Handler(line)),
        Thread::Processor(cpu) => Stepper::Each(cpu),
    }
}

/// How a thread is stepped within a range: who it is is to leave the range, or the place where he is if that lies
/// outside. Where a processor executes nobody, its next instruction is waited for.
pub fn stepper_on(board: &Board, thread: Thread, start: u32, end: u32) -> Stepper
    ensures { result ≡ stepper_on board.now thread start end }
{
    stepper_in(
        stepper_each(thread),
        cpu_of(board, thread),
        who_at(board, thread),
        context_at(board, thread),
        start,
        end,
    )
}

/// How somebody on a processor is stepped within a range; by each instruction where there is nobody.
fn stepper_in(
    each: Stepper,
    cpu: u8,
    who: Option<Standing>,
    context: Option<Context>,
    start: u32,
    end: u32,
) -> Stepper
    ensures { result ≡ stepper_in each cpu who context start end }
{
    let (Some(who), Some(context)) = (who, context) else {
        return each;
    };
    let pc = context.pc();
    if start <= pc && pc < end {
        return Stepper::Until {
            cpu,
            who,
            start,
            end,
        };
    }
    Stepper::Until {
        cpu,
        who,
        start: pc,
        end: pc.wrapping_add(1),
    }
}

/// How a thread is stepped backward: by its instructions; of a processor by those of whom it executes.
pub fn stepper_back(board: &Board, thread: Thread) -> Stepper
    ensures { result ≡ stepper_back board.now thread }
{
    match thread {
        Thread::Processor(cpu) => stepper_by(cpu, board.standing(cpu), board.registers(cpu)),
        Thread::Task(id) => Stepper::Of(Standing::Task(id)),
        Thread::Handler(line) => Stepper::Of(Standing::Handler(line)),
    }
}

/// Each instruction of whom a processor executes, or if it executes nobody, its own.
fn stepper_by(cpu: u8, who: Option<Standing>, context: Option<Context>) -> Stepper
    ensures { result ≡ stepper_by cpu who context }
{
    match (who, context) {
        (Some(who), Some(_)) => Stepper::Of(who),
        _ => Stepper::Each(cpu),
    }
}

/// What is told while a thread moves alone: what its own steps come to; of a processor, whoever executes them.
fn only_of(thread: Thread) -> Only
    ensures { result ≡ only_of thread }
{
    match thread {
        Thread::Task(_) | Thread::Handler(_) => Only::Stepped,
        Thread::Processor(cpu) => Only::Processor(cpu),
    }
}

/// What a move of a thread alone steps: its next instruction.
pub fn stepped_alone(thread: Thread) -> Stepped
    ensures { result ≡ stepped_alone thread }
{
    Stepped {
        stepper: Some(stepper_each(thread)),
        only: only_of(thread),
    }
}
