//! Journals of plans.

ghost use Rattle.std.specs.Prelude.{◌≡◌, ◌+◌, ◌≤◌, ◌<◌, IfErr, IfOk};
ghost use Rattle.brd_schedule.specs.Schedule.{EndsMaking, IsMade, event_of, fixed, made, raised, steps_on};
ghost use Rattle.brd_schedule.specs.Steps.{IsBefore};

use crate::chooser::Chooser;
use crate::plan::{Plan, Raise};
use brd_board::Event;
use brd_journal::{Journal, JournalFault, MOST_RUNS};
use brd_word::Order;
use std::alloc::Global;

/// The journal of a plan, for boards of a byte order: its events in order, each a raise or a tick where the plan says
/// so, and else the step of the processor whose turn it is by the plan's rule. The fault is that memory ran out, or
/// that the events need more runs than a journal may have.
pub fn make(alloc: Global, plan: &Plan, order: Order) -> Result<Journal, JournalFault>
    requires { 1 ≤ plan.now.cpus }
    ensures made { IfOk result (λ journal. IsMade plan.now journal.events) }
    ensures exact { IfOk result (λ journal. journal.events ≡ made plan.now plan.now.events) }
    ensures order { IfOk result (λ journal. journal.order ≡ order) }
    ensures fault { IfErr result (EndsMaking plan.now) }
{
    let mut chooser = Chooser::new(alloc, plan)?;
    let mut journal = Journal::new(alloc, MOST_RUNS, order);
    let mut steps = 0u32;
    for before in 0..plan.events {
        let event = next_event(plan, &mut chooser, &mut steps, before + 1);
        match journal.push(event) {
            Ok(()) => {}
            Err(fault) => return Err(fault),
        }
    }
    Ok(journal)
}

/// The event of this number, counted from 1, after n steps. A step that it is gets counted.
fn next_event(plan: &Plan, chooser: &mut Chooser, steps: &mut u32, number: u32) -> Event
    requires cpus { 1 ≤ plan.now.cpus }
    requires before { IsBefore plan.now steps.old chooser.old }
    requires room { steps.old < number }
    ensures is { result ≡ event_of plan.now steps.old number }
    ensures steps { steps.new ≡ steps_on plan.now number steps.old }
    ensures after { IsBefore plan.now steps.new chooser.new }
{
    match fixed_event(plan, number) {
        Some(event) => event,
        None => {
            let cpu = chooser.next(plan, *steps);
            *steps += 1;
            Event::Step(cpu)
        }
    }
}

/// The event of this number, counted from 1, where it is no step.
fn fixed_event(plan: &Plan, number: u32) -> Option<Event>
    ensures { result ≡ fixed plan.now number }
{
    if let Some(line) = raised_line(plan.raises, number) {
        return Some(Event::Raise(line));
    }
    if plan.tick_every > 0 && number % plan.tick_every == 0 {
        return Some(Event::Tick);
    }
    None
}

/// The line that is raised as the event of this number.
fn raised_line(raises: &[Raise], number: u32) -> Option<u8>
    ensures { result ≡ raised raises.now number }
{
    for raise in raises {
        if raise.at == number {
            return Some(raise.line);
        }
    }
    None
}
