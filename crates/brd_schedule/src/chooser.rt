//! Who takes the next step.

ghost use Rattle.std.specs.Prelude.{◌≡◌, ◌+◌, ◌≤◌, IfOk};
ghost use Rattle.brd_schedule.specs.Steps as step;
ghost use Rattle.brd_schedule.specs.Steps.{IsBefore, stepper};

use crate::drawn::Drawn;
use crate::lowered::Lowered;
use crate::plan::{Plan, Rule};
use brd_base::NoMemory;
use std::alloc::Global;

/// A rule at work, before a step.
#[derive(Drop)]
pub(crate) enum Chooser {
    /// Each processor in turn, n steps each.
    Turns(u32),
    /// By weights.
    Drawn(Drawn),
    /// By priorities.
    Lowered(Lowered),
}

impl Chooser {
    /// The rule of a plan, before the first step.
    #[tactic(auto, unfolding(crate::specs::Steps::drawn_before, crate::specs::Steps::priorities_before))]
    pub(crate) fn new(alloc: Global, plan: &Plan) -> Result<Self, NoMemory>
        ensures { IfOk result (IsBefore plan.now 0) }
    {
        match plan.rule {
            Rule::InTurns { each } => Ok(Chooser::Turns(each)),
            Rule::Drawn {
                seed,
                switch,
                weights,
            } => Ok(Chooser::Drawn(Drawn::new(seed, switch, weights))),
            Rule::Lowered { seed, changes } => {
                match Lowered::new(alloc, seed, changes, plan.events) {
                    Ok(lowered) => Ok(Chooser::Lowered(lowered)),
                    Err(fault) => Err(fault),
                }
            }
        }
    }

    /// The processor that takes the step after n others, by the rule of this plan.
    #[tactic(auto, unfolding(crate::specs::Steps::stepper, crate::specs::Steps::drawn_before, crate::specs::Steps::priorities_before))]
    pub(crate) fn next(&mut self, plan: &Plan, steps: u32) -> u8
        requires cpus { 1 ≤ plan.now.cpus }
        requires before { IsBefore plan.now steps self.old }
        ensures is { result ≡ stepper plan.now steps }
        ensures after { IsBefore plan.now (steps + 1) self.new }
    {
        let chosen = match self {
            Chooser::Turns(each) => turn(plan.cpus, *each, steps),
            Chooser::Drawn(drawn) => drawn.next(),
            Chooser::Lowered(lowered) => lowered.next(plan.cpus, steps),
        };
        within(chosen, plan.cpus)
    }
}

/// Whose turn it is after n steps, of which each processor takes m.
fn turn(cpus: u8, each: u32, steps: u32) -> u8
    requires { 1 ≤ cpus }
    ensures { result ≡ step.turn cpus each steps }
{
    let turns = steps / each.max(1);
    (turns % cpus as u32) as u8 + 1
}

/// One of n processors.
fn within(cpu: u8, cpus: u8) -> u8
    requires { 1 ≤ cpus }
    ensures { result ≡ step.within cpus cpu }
{
    cpu.max(1).min(cpus)
}
