//! What a configuration makes of an image: its tasks with their stacks, which of them are started, and where handlers
//! start.

ghost use Rattle.std.specs.Prelude.{◌≡◌, ◌≤◌, ◌+◌, All, IfOk};
ghost use Rattle.brd_mem.specs.Memory.{size_of};
ghost use Rattle.brd_config.specs.Configuration.{IsTask};
ghost use Rattle.brd_tasks.specs.Ready.{IsSetup};
ghost use Rattle.brd_kernel.specs.Kernel.{with_tasks};
ghost use Rattle.brd_board.specs.Setup as setup;
ghost use Rattle.brd_board.specs.Setup.{Boots};

use crate::boot::BootFault;
use bitflags::Flags;
use brd_base::{BASE, List};
use brd_config::{HandlerConfig, Operand, Stack, TaskAttributes, TaskConfig};
use brd_kernel::{Handler, Kernel, LineSetup, TaskSetup};
use brd_mem::{Ram, Symbol, symbol_value};
use std::alloc::Global;

/// Where a task's stack lies.
#[derive(Clone, Copy, PartialEq, Eq)]
pub struct Region {
    /// Its lowest address.
    pub low: u32,
    /// How many bytes it has.
    pub len: usize,
    /// The stack pointer with which the task starts.
    pub sp: u64,
    /// Where the next stack that the configuration leaves open ends.
    pub free: u32,
}

/// A task with its place in memory.
#[derive(Clone, Copy, PartialEq, Eq)]
pub struct Placed {
    /// What it is made of.
    pub setup: TaskSetup,
    /// Where the next stack that the configuration leaves open ends.
    pub free: u32,
}

/// A number as it stands, or the value of the symbol that is named.
pub fn value_of(symbols: &[Symbol], operand: &Operand) -> Result<u32, BootFault>
    ensures { result ≡ setup.value_of symbols.now operand.now }
{
    match operand {
        Operand::Number(number) => Ok(*number),
        Operand::Name(name) => {
            symbol_value(symbols, name.as_slice()).ok_or(BootFault::UnknownSymbol)
        }
    }
}

/// Whether an instruction can lie at an address: the word there is aligned and in RAM.
fn is_code_address(ram: &Ram, address: u32) -> bool
    ensures { result ≡ setup.is_code_address (size_of ram.now) address }
{
    address % 4 == 0 && ram.contains(address, 4)
}

/// A size, up to the next multiple of 16.
pub fn rounded_up(size: u32) -> usize
    ensures { result ≡ setup.rounded_up size }
{
    let high = size as usize + 15;
    high - high % 16
}

/// The stack of a task, where the next stack that the configuration leaves open ends at `free`. Its stack pointer isn't
/// above its end.
#[tactic(auto, unfolding(crate::specs::Setup::region_of))]
fn region_of(symbols: &[Symbol], free: u32, task: &TaskConfig) -> Result<Region, BootFault>
    ensures is { result ≡ setup.region_of symbols.now free task.now }
    ensures below { IfOk result (λ region. region.sp ≤ region.low + region.len) }
{
    match &task.stack {
        Stack::Automatic => {
            let len = rounded_up(task.stack_size);
            let low = (free as usize).saturating_sub(len) as u32;
            Ok(Region {
                low,
                len,
                sp: free as u64,
                free: low,
            })
        }
        Stack::At(operand) => {
            let low = value_of(symbols, operand)?;
            let end = low as u64 + task.stack_size as u64;
            Ok(Region {
                low,
                len: task.stack_size as usize,
                sp: end - end % 8,
                free,
            })
        }
    }
}

/// A task as its statement says it, where the next stack that the configuration leaves open ends at `free`.
#[tactic(auto, unfolding(crate::specs::Setup::placed_task))]
fn placed_task(
    ram: &Ram,
    symbols: &[Symbol],
    free: u32,
    task: &TaskConfig,
) -> Result<Placed, BootFault>
    ensures is { result ≡ setup.placed_task (size_of ram.now) symbols.now free task.now }
    ensures same { IfOk result (λ placed. (placed.setup.id ≡ task.now.id) × (placed.setup.cpu ≡ task.now.processor)) }
{
    let exinf = value_of(symbols, &task.exinf)?;
    let address = value_of(symbols, &task.address)?;
    let region = region_of(symbols, free, task)?;
    // (RAM's size has a bound, so that a stack pointer fits into a word)
    let _ = ram.size();
    if !is_code_address(ram, address) || !ram.contains(region.low, region.len) {
        return Err(BootFault::Outside);
    }
    Ok(Placed {
        setup: TaskSetup {
            id: task.id,
            cpu: task.processor,
            priority: task.priority,
            exinf,
            address,
            sp: region.sp as u32,
        },
        free: region.free,
    })
}

/// What the tasks are made of, in the order of their statements.
pub fn setups_of(
    alloc: Global,
    ram: &Ram,
    symbols: &[Symbol],
    tasks: &[TaskConfig],
) -> Result<List<TaskSetup>, BootFault>
    requires { All (IsTask 8) tasks.now }
    ensures is { Boots (setup.setups_of (size_of ram.now) symbols.now tasks.now) result }
    ensures well { IfOk result (λ setups. All IsSetup setups) }
{
    let mut setups = List::new(alloc);
    let mut free = BASE + ram.size() as u32;
    for task in tasks {
        let placed = placed_task(ram, symbols, free, task)?;
        setups.push(placed.setup)?;
        free = placed.free;
    }
    Ok(setups)
}

/// Where a handler starts.
#[tactic(auto, unfolding(crate::specs::Setup::handler_address))]
pub fn handler_address(ram: &Ram, symbols: &[Symbol], operand: &Operand) -> Result<u32, BootFault>
    ensures { result ≡ setup.handler_address (size_of ram.now) symbols.now operand.now }
{
    let address = value_of(symbols, operand)?;
    if !is_code_address(ram, address) {
        return Err(BootFault::Outside);
    }
    Ok(address)
}

/// The lines that have a handler, in the order of the handlers' statements.
pub fn handlers_of(
    alloc: Global,
    ram: &Ram,
    symbols: &[Symbol],
    handlers: &[HandlerConfig],
) -> Result<List<LineSetup>, BootFault>
    ensures { Boots (setup.handlers_of (size_of ram.now) symbols.now handlers.now) result }
{
    let mut lines = List::new(alloc);
    for handler in handlers {
        let address = handler_address(ram, symbols, &handler.address)?;
        lines.push(line_of(handler, address))?;
    }
    Ok(lines)
}

/// The line of a handler that starts at an address, and finds the line in $a0.
fn line_of(handler: &HandlerConfig, address: u32) -> LineSetup
    ensures { result ≡ setup.line_of handler.now address }
{
    LineSetup {
        line: handler.line,
        handler: Handler {
            cpu: handler.processor,
            address,
            argument: handler.line as u32,
        },
        course: None,
    }
}

/// Starts a task, if it has TA_ACT.
fn start(kernel: &mut Kernel, task: &TaskConfig)
    ensures { kernel.new ≡ with_tasks kernel.old (setup.started_at_boot kernel.old.tasks task.now) }
{
    if task.attributes.contains(TaskAttributes::TA_ACT) {
        kernel.start(task.id);
    }
}

/// Starts the tasks with TA_ACT, in the order of their statements.
pub fn start_all(kernel: &mut Kernel, tasks: &[TaskConfig])
    ensures { kernel.new ≡ with_tasks kernel.old (setup.all_started kernel.old.tasks tasks.now) }
{
    for task in tasks {
        start(kernel, task);
    }
}
