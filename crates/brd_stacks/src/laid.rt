//! Where stacks lie.

ghost use Rattle.std.specs.Prelude.{◌≡◌, ◌++◌, ◌<◌, ◌^◌, [], IfOk, OnOk};
ghost use Rattle.std.specs.List.{cons_option};
ghost use Rattle.brd_board.specs.Setup as setup;
ghost use Rattle.brd_stacks.specs.Laid.{
  found,
  free_by,
  handler_stack,
  handler_stacks,
  numbered,
  place_of,
  stack_between,
  stacks_of,
  task_stack,
  task_stacks,
  time_handler_stacks,
};

use crate::stack::Stack;
use brd_base::{BASE, List, NoMemory};
use brd_config::{Config, HandlerConfig, Operand, Stack as Place, TaskConfig};
use brd_mem::{Symbol, symbol_value};
use std::alloc::Global;

/// Where a task's stack lies.
#[derive(Clone, Copy)]
pub(crate) struct Laid {
    /// Its lowest address.
    pub low: u32,
    /// The address behind its last byte.
    pub end: u64,
    /// Where the next stack that the configuration leaves open ends.
    pub free: u32,
}

/// The stacks of the tasks, and of the handlers for whose stacks the image has symbols.
pub fn stacks_of(
    alloc: Global,
    symbols: &[Symbol],
    config: &Config,
) -> Result<List<Stack>, NoMemory>
    ensures { IfOk result
        (λ stacks. stacks ≡ stacks_of symbols.now config.now.ram config.now.tasks config.now.handlers) }
{
    let mut stacks = List::new(alloc);
    let free = BASE + config.ram;
    put_tasks(&mut stacks, symbols, free, config.tasks.as_slice())?;
    put_handlers(alloc, &mut stacks, symbols, config.handlers.as_slice())?;
    put_time_handlers(alloc, &mut stacks, symbols)?;
    Ok(stacks)
}

/// Puts the stacks of tasks at the end, where the first one that the configuration leaves open ends at `end`.
fn put_tasks(
    stacks: &mut List<Stack>,
    symbols: &[Symbol],
    end: u32,
    tasks: &[TaskConfig],
) -> Result<(), NoMemory>
    ensures { OnOk result (stacks.new ≡ stacks.old ++ task_stacks symbols.now end tasks.now) }
{
    let mut free = end;
    for task in tasks {
        free = put_task(stacks, symbols, free, task)?;
    }
    Ok(())
}

/// Puts the stack of a task at the end, if boot has laid it. Answers where the next one ends.
fn put_task(
    stacks: &mut List<Stack>,
    symbols: &[Symbol],
    free: u32,
    task: &TaskConfig,
) -> Result<u32, NoMemory>
    ensures put { OnOk result (stacks.new ≡ stacks.old ++ cons_option (task_stack symbols.now free task.now) []) }
    ensures next { IfOk result (λ next. next ≡ free_by free (place_of symbols.now free task.now)) }
{
    match place_of(symbols, free, task) {
        Some(laid) => {
            stacks.push(Stack {
                strand: task.id,
                low: laid.low,
                end: laid.end,
            })?;
            Ok(laid.free)
        }
        None => Ok(free),
    }
}

/// Puts the stacks of handlers at the end.
fn put_handlers(
    alloc: Global,
    stacks: &mut List<Stack>,
    symbols: &[Symbol],
    handlers: &[HandlerConfig],
) -> Result<(), NoMemory>
    ensures { OnOk result (stacks.new ≡ stacks.old ++ handler_stacks symbols.now handlers.now) }
{
    for handler in handlers {
        put_handler(alloc, stacks, symbols, handler.line)?;
    }
    Ok(())
}

/// Puts the stacks of time handlers at the end.
fn put_time_handlers(
    alloc: Global,
    stacks: &mut List<Stack>,
    symbols: &[Symbol],
) -> Result<(), NoMemory>
    ensures { OnOk result (stacks.new ≡ stacks.old ++ time_handler_stacks symbols.now) }
{
    for line in 32..160u8 {
        put_handler(alloc, stacks, symbols, line)?;
    }
    Ok(())
}

/// Puts the stack of the handler of a line at the end, where symbols say where it lies.
fn put_handler(
    alloc: Global,
    stacks: &mut List<Stack>,
    symbols: &[Symbol],
    line: u8,
) -> Result<(), NoMemory>
    ensures { OnOk result (stacks.new ≡ stacks.old ++ cons_option (handler_stack symbols.now line) []) }
{
    match handler_stack(alloc, symbols, line)? {
        Some(stack) => stacks.push(stack),
        None => Ok(()),
    }
}

/// Where boot has laid the stack of a task: none where it names a symbol that isn't there.
#[tactic(auto, unfolding(brd_board::specs::Setup::region_of))]
fn place_of(symbols: &[Symbol], free: u32, task: &TaskConfig) -> Option<Laid>
    ensures { result ≡ place_of symbols.now free task.now }
{
    match &task.stack {
        Place::Automatic => {
            let len = rounded_up(task.stack_size);
            let low = (free as usize).saturating_sub(len) as u32;
            Some(Laid {
                low,
                end: low as u64 + len as u64,
                free: low,
            })
        }
        Place::At(operand) => {
            let low = value_of(symbols, operand)?;
            Some(Laid {
                low,
                end: low as u64 + task.stack_size as u64,
                free,
            })
        }
    }
}

/// A size, up to the next multiple of 16.
fn rounded_up(size: u32) -> usize
    ensures is { result ≡ setup.rounded_up size }
    ensures few { result < 2 ^ 33 }
{
    let high = size as usize + 15;
    high - high % 16
}

/// A number as it stands, or the value of the symbol that is named, where it is there.
fn value_of(symbols: &[Symbol], operand: &Operand) -> Option<u32>
    ensures { result ≡ found (setup.value_of symbols.now operand.now) }
{
    match operand {
        Operand::Number(number) => Some(*number),
        Operand::Name(name) => symbol_value(symbols, name.as_slice()),
    }
}

/// A name and a number behind it.
fn numbered(alloc: Global, name: &str, number: u8) -> Result<Vec<u8>, NoMemory>
    ensures { IfOk result (λ text. text.items ≡ numbered name.now number) }
{
    let mut text = Vec::new(alloc);
    text.extend_from_slice(name.as_bytes())?;
    let digits = format!(in alloc; "{number}")?;
    text.extend_from_slice(digits.as_bytes())?;
    Ok(text)
}

/// The stack of the handler of a line, where symbols say where it begins and ends.
fn handler_stack(alloc: Global, symbols: &[Symbol], line: u8) -> Result<Option<Stack>, NoMemory>
    ensures { IfOk result (λ stack. stack ≡ handler_stack symbols.now line) }
{
    let low = numbered(alloc, "handler_stack_", line)?;
    let end = numbered(alloc, "end_of_handler_stack_", line)?;
    let low = symbol_value(symbols, low.as_slice());
    let end = symbol_value(symbols, end.as_slice());
    Ok(stack_between(line, low, end))
}

/// The stack of the handler of a line that begins and ends there.
fn stack_between(line: u8, low: Option<u32>, end: Option<u32>) -> Option<Stack>
    ensures { result ≡ stack_between line low end }
{
    match (low, end) {
        (Some(low), Some(end)) => Some(Stack {
            strand: 256 + u16::from(line),
            low,
            end: u64::from(end),
        }),
        _ => None,
    }
}
