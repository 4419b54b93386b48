//! What is run of an object file, and told of it.

ghost use Rattle.std.specs.Prelude.{◌≡◌, ◌≤◌, ◌&&◌, nat_lt, is_some, IfOk, IfSome, MatchResult};
ghost use Rattle.brd_inputs.specs.Start.{IsMade, KeepsFromBuilding};
ghost use Rattle.brd_try.specs.Told.{IsTold};
ghost use Rattle.brd_try.specs.Tries as tries;
ghost use Rattle.brd_try.specs.Tries.{IsTried, KeepsFromTrying};
ghost use Rattle.brd_try.specs.Turning.{KeepsFromTurns, TakesTurns};

use crate::config::config_of;
use crate::options::TryOptions;
use crate::past::past_of;
use crate::summary::summary;
use crate::told::{told, why};
use crate::turning::{Turned, take_turns};
use brd_base::NoMemory;
use brd_board::Board;
use brd_config::Config;
use brd_image::{Loaded, load_with_parts};
use brd_inputs::{CommandFault, ScheduleFault};
use brd_journal::JournalFault;
use brd_mem::Image;
use brd_schedule::{Plan, Raise, Rule, make};
use std::alloc::Global;

/// What was run, and what is told of it.
#[derive(Drop)]
pub struct Tried {
    /// The configuration's text.
    pub config: Vec<u8>,
    /// The journal's text.
    pub journal: Vec<u8>,
    /// What is told.
    pub text: Vec<u8>,
}

/// Makes a configuration for an object file, lets the board of both take turns until nothing is left to do, and tells
/// what came of it.
pub fn try_object(alloc: Global, object: &[u8], options: TryOptions) -> Result<Tried, CommandFault>
    ensures { MatchResult result (λ it. IsTried options object.now it.config.items it.journal.items it.text.items)
        (KeepsFromTrying options object.now) }
{
    let Some(cpus) = processors(options.cpus) else {
        return Err(CommandFault::Schedule(ScheduleFault::Processors));
    };
    let text = config_of(alloc, cpus, object)?;
    let Loaded {
        board,
        image,
        config,
    } = match made_board(alloc, object, &text) {
        Ok(loaded) => loaded,
        Err(fault) => return Err(fault),
    };
    let turned = match turns_of(alloc, &board, cpus, options) {
        Ok(turned) => turned,
        Err(fault) => return Err(fault),
    };
    let journal = turned.journal.write_text(alloc)?;
    let past = past_of(
        alloc,
        options.strict,
        object,
        &image,
        &board,
        &turned.journal,
    )?;
    let told = text_of(alloc, &image, &config, board, cpus, &turned, &past)?;
    Ok(Tried {
        config: text,
        journal,
        text: told,
    })
}

/// The number of processors, where a board can have so many.
fn processors(cpus: u32) -> Option<u8>
    ensures count { IfSome result (λ count. (count ≡ cpus) × (1 ≤ count)) }
    ensures exact { is_some result ≡ (nat_lt 0 cpus && nat_lt cpus 9) }
{
    match cpus {
        1..=8 => Some(cpus as u8),
        _ => None,
    }
}

/// The board that an object file and a configuration make, and what it was made of.
fn made_board(alloc: Global, object: &[u8], config: &[u8]) -> Result<Loaded, CommandFault>
    ensures { MatchResult result (IsMade object.now config.now) (KeepsFromBuilding object.now config.now) }
{
    match load_with_parts(alloc, object, config) {
        Ok(loaded) => Ok(loaded),
        Err(fault) => Err(CommandFault::of_build(alloc, fault, object, config)),
    }
}

/// The turns that n processors of a board take by the options.
fn turns_of(
    alloc: Global,
    board: &Board,
    cpus: u8,
    options: TryOptions,
) -> Result<Turned, CommandFault>
    requires some { 1 ≤ cpus }
    requires count { cpus ≡ options.cpus }
    ensures { MatchResult result (TakesTurns options board.now) (KeepsFromTurns options) }
{
    let none: Vec<Raise> = Vec::new(alloc);
    let plan = Plan {
        cpus,
        events: options.steps,
        tick_every: options.tick_every,
        raises: none.as_slice(),
        rule: Rule::InTurns { each: 1 },
    };
    let events = match make(alloc, &plan, board.order()) {
        Ok(events) => events,
        Err(fault) => return Err(fault_of(fault)),
    };
    let boot = board.try_copy()?;
    match take_turns(alloc, boot, cpus, &events) {
        Ok(turned) => Ok(turned),
        Err(fault) => Err(fault_of(fault)),
    }
}

/// The fault of a command whose journal has one.
fn fault_of(fault: JournalFault) -> CommandFault
    ensures { result ≡ tries.fault_of fault }
{
    match fault {
        JournalFault::NoMemory => CommandFault::NoMemory,
        JournalFault::Full | JournalFault::Syntax { .. } => {
            CommandFault::Schedule(ScheduleFault::TooLong)
        }
    }
}

/// What is told of a board with n tasks that has taken turns, and of what has gone past a label's data. What stands at
/// the end in words is left out where the only task has turned the board off.
fn text_of(
    alloc: Global,
    image: &Image,
    config: &Config,
    boot: Board,
    tasks: u8,
    turned: &Turned,
    past: &[u8],
) -> Result<Vec<u8>, NoMemory>
    ensures { IfOk result (λ text. IsTold tasks turned.now.steps turned.now.board text.items) }
{
    let mut words = Vec::new(alloc);
    if tasks > 1 || !turned.board.is_off() {
        words = summary(alloc, image, config, boot, turned, tasks)?;
    }
    words.extend_from_slice(past)?;
    let why = why(
        alloc,
        image.symbols.as_slice(),
        &turned.board,
        tasks,
        turned.place,
    )?;
    told(alloc, &turned.board, tasks, turned.steps, &why, &words)
}
