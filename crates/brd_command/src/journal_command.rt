//! The command `journal`.

ghost use Rattle.std.specs.Prelude.{◌≡◌, ◌≤◌, ◌&&◌, nat_lt, is_some, IfSome, MatchResult};
ghost use Rattle.brd_command.specs.JournalCommand.{IsOfMaking, JournalEnds, KeepsFromMakingOne, MakesJournal};
ghost use Rattle.brd_schedule.specs.Schedule.{IsMade, made as events_made};

use crate::journal_options::{JournalOptions, raises_of, rule_of};
use brd_inputs::{CommandFault, ScheduleFault};
use brd_journal::{Journal, JournalFault};
use brd_report::write_whole;
use brd_schedule::{Plan, make};
use brd_word::Order;
use std::alloc::Global;
use std::io::Write;

/// Writes the journal that is asked for: n events, of which each is a raise, a tick or a step of one of m
/// processors. Nothing is written where the options have a fault.
pub fn journal<W: Write>(
    alloc: Global,
    writer: &mut W,
    cpus: u32,
    events: u32,
    options: JournalOptions<'_>,
) -> Result<(), CommandFault>
    ensures { JournalEnds result cpus events options.entry (W.contents writer.old) (W.contents writer.new) }
{
    let text = match journal_text(alloc, cpus, events, options) {
        Ok(text) => text,
        Err(fault) => return Err(fault),
    };
    match write_whole(writer, &text) {
        Ok(()) => Ok(()),
        Err(error) => Err(CommandFault::Write(error)),
    }
}

/// The text of the journal that is asked for.
fn journal_text(
    alloc: Global,
    cpus: u32,
    events: u32,
    options: JournalOptions<'_>,
) -> Result<Vec<u8>, CommandFault>
    ensures { MatchResult result (λ text. MakesJournal cpus events options.entry text.items)
        (KeepsFromMakingOne cpus events options.entry) }
{
    let Some(cpus) = processors(cpus) else {
        return Err(CommandFault::Schedule(ScheduleFault::Processors));
    };
    let Some(order) = options.order else {
        return Err(CommandFault::Schedule(ScheduleFault::Order));
    };
    let raises = match raises_of(alloc, options.raises) {
        Ok(raises) => raises,
        Err(ScheduleFault::NoMemory) => return Err(CommandFault::NoMemory),
        Err(fault) => return Err(CommandFault::Schedule(fault)),
    };
    let rule = match rule_of(cpus, &options) {
        Ok(rule) => rule,
        Err(ScheduleFault::NoMemory) => return Err(CommandFault::NoMemory),
        Err(fault) => return Err(CommandFault::Schedule(fault)),
    };
    let plan = Plan {
        cpus,
        events,
        tick_every: options.tick_every,
        raises: raises.as_slice(),
        rule,
    };
    let journal = match made(alloc, &plan, order) {
        Ok(journal) => journal,
        Err(fault) => return Err(fault),
    };
    let text = journal.write_text(alloc)?;
    Ok(text)
}

/// The number of processors, where it is 1 to 8.
fn processors(cpus: u32) -> Option<u8>
    ensures count { IfSome result (λ count. (count ≡ cpus) × (1 ≤ count) × (count ≤ 8)) }
    ensures exact { is_some result ≡ (nat_lt 0 cpus && nat_lt cpus 9) }
{
    match cpus {
        1..=8 => Some(cpus as u8),
        _ => None,
    }
}

/// The journal of a plan, for boards of this byte order.
fn made(alloc: Global, plan: &Plan, order: Order) -> Result<Journal, CommandFault>
    requires { 1 ≤ plan.now.cpus }
    ensures { MatchResult result (λ journal. IsMade plan.now journal.events
        × (journal.events ≡ events_made plan.now plan.now.events) × (journal.order ≡ order))
        (IsOfMaking plan.now.events) }
{
    match make(alloc, plan, order) {
        Ok(journal) => Ok(journal),
        Err(JournalFault::NoMemory) => Err(CommandFault::NoMemory),
        Err(JournalFault::Full | JournalFault::Syntax { .. }) => {
            Err(CommandFault::Schedule(ScheduleFault::TooLong))
        }
    }
}
