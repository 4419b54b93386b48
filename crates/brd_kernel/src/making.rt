//! The kernel's parts as they are made.

ghost use Rattle.std.specs.Prelude.{◌≡◌, IfOk, replicate};
ghost use Rattle.brd_tasks.specs.Tasks.{no_context};
ghost use Rattle.brd_kernel.specs.Kernel.{line_count};
ghost use Rattle.brd_kernel.specs.Making.{
  idle_one,
  idle_ones,
  setup_of,
  handler_of,
  made_lines,
  course_of,
  timers_below,
  made_timers,
  is_configured,
  made_spin_locks,
};

use crate::lines::FIRST_TIMER;
use crate::processor::{Handler, InterruptLine, LineSetup, Processor};
use brd_base::NoMemory;
use brd_config::SpinLockConfig;
use brd_exec::Context;
use brd_timers::{Course, Timers};
use std::alloc::Global;

/// Processors on which nothing runs.
#[tactic(auto, unfolding(crate::specs::Making::idle_ones))]
pub fn idle_processors(processors: u8) -> [Option<Processor>; 9]
    ensures { result ≡ idle_ones processors 9 }
{
    [
        None,
        idle_processor(processors, 1),
        idle_processor(processors, 2),
        idle_processor(processors, 3),
        idle_processor(processors, 4),
        idle_processor(processors, 5),
        idle_processor(processors, 6),
        idle_processor(processors, 7),
        idle_processor(processors, 8),
    ]
}

/// The processor of a number, where the board has it.
fn idle_processor(processors: u8, cpu: u8) -> Option<Processor>
    ensures { result ≡ idle_one processors cpu }
{
    if cpu >= 1 && cpu <= processors {
        return Some(Processor::idle());
    }
    None
}

/// The context of a handler that doesn't run.
#[tactic(auto, unfolding(brd_tasks::specs::Tasks::no_context))]
pub fn no_context() -> Context
    ensures { result ≡ no_context }
{
    Context::opening(0, 0, 0)
}

/// Contexts of handlers of which none runs.
pub fn no_contexts(alloc: Global) -> Result<Vec<Context>, NoMemory>
    ensures { IfOk result (λ made. made.items ≡ replicate 9 no_context) }
{
    let mut made = Vec::new(alloc);
    for _ in 0..9u8 {
        made.push(no_context())?;
    }
    Ok(made)
}

/// The line of each number, with nothing pending.
#[tactic(auto, using(crate::proofs::MakingLemmas::lines_more, crate::proofs::MakingLemmas::no_lines))]
pub fn lines_of(
    alloc: Global,
    standard: bool,
    setups: &[LineSetup],
) -> Result<Vec<InterruptLine>, NoMemory>
    ensures { IfOk result (λ made. made.items ≡ made_lines setups.now (line_count standard)) }
{
    let mut made = Vec::new(alloc);
    for line in 0..line_count(standard) {
        made.push(InterruptLine::quiet(handler_of(setups, line)))?;
    }
    Ok(made)
}

/// How many interrupt lines a kernel has, with the profile or without.
fn line_count(standard: bool) -> u8
    ensures { result ≡ line_count standard }
{
    if standard { 160 } else { 32 }
}

/// The time handlers, which are there with the profile alone.
pub fn timers_of(alloc: Global, standard: bool, setups: &[LineSetup]) -> Result<Timers, NoMemory>
    ensures { IfOk result (λ made. made ≡ made_timers standard setups.now) }
{
    if !standard {
        return Ok(Timers::new(alloc));
    }
    all_timers_of(alloc, setups)
}

/// The time handler of each place.
#[tactic(auto, using(crate::proofs::MakingLemmas::timers_more, crate::proofs::MakingLemmas::no_timers))]
fn all_timers_of(alloc: Global, setups: &[LineSetup]) -> Result<Timers, NoMemory>
    ensures { IfOk result (λ made. made ≡ timers_below setups.now 128) }
{
    let mut made = Timers::new(alloc);
    for place in 0..128u8 {
        made.push(course_of(setups, place + FIRST_TIMER))?;
    }
    Ok(made)
}

/// When the kernel raises a line, if it does, by the first setup of that line.
fn course_of(setups: &[LineSetup], line: u8) -> Option<Course>
    ensures { result ≡ course_of setups.now line }
{
    let setup = setup_of(setups, line)?;
    setup.course
}

/// The handler of the first setup of a line, if there is one.
fn handler_of(setups: &[LineSetup], line: u8) -> Option<Handler>
    ensures { result ≡ handler_of setups.now line }
{
    let setup = setup_of(setups, line)?;
    Some(setup.handler)
}

/// The first setup of a line, if there is one.
fn setup_of(setups: &[LineSetup], line: u8) -> Option<LineSetup>
    ensures { result ≡ setup_of setups.now line }
{
    for setup in setups {
        if setup.line == line {
            return Some(*setup);
        }
    }
    None
}

/// For each ID whether there is a spin lock.
#[tactic(auto, using(crate::proofs::MakingLemmas::locks_more, crate::proofs::MakingLemmas::no_locks))]
pub fn spin_locks_of(alloc: Global, configs: &[SpinLockConfig]) -> Result<Vec<bool>, NoMemory>
    ensures { IfOk result (λ made. made.items ≡ made_spin_locks configs.now 256) }
{
    let mut made = Vec::new(alloc);
    for id in 0..256u16 {
        made.push(is_configured(configs, id))?;
    }
    Ok(made)
}

/// Whether a spin lock of that ID is configured.
fn is_configured(configs: &[SpinLockConfig], id: u16) -> bool
    ensures { result ≡ is_configured configs.now id }
{
    configs.iter().any(|config| config.id as u16 == id)
}
