//! A run in Callgrind's format (Valgrind, "Callgrind Format Specification", version 1).

ghost use Rattle.std.specs.Prelude.{IfOk, codes};
ghost use Rattle.brd_timeline.specs.Ends.{EndsWith};

use crate::calls::Call;
use crate::counting::Counting;
use crate::edges::parts_of;
use crate::text::{put, put_line, put_name, put_path};
use crate::whole::{NONE, Sources};
use brd_base::{BASE, NoMemory};
use brd_text::put_decimal;
use std::alloc::Global;

/// Steps of a line of a function, or calls that stand in it.
#[derive(Clone, Copy, PartialEq, Eq, PartialOrd, Ord)]
struct Cost {
    /// The number of the function.
    function: u32,
    /// The number of the file.
    file: u32,
    /// The line.
    line: u32,
    /// The address of the instruction, or that to which the call leads.
    address: u32,
    /// How often it is called; 0 of steps.
    count: u64,
    /// How many steps.
    steps: u64,
}

/// Puts at the end, in Callgrind's format, where a run has spent its steps: those of each line of each function, and
/// the calls that stand there, with the steps until they returned. Calls that have not returned end with the run. Each
/// task and each handler is a function of its own, which calls the first one.
pub fn put_callgrind(
    alloc: Global,
    counting: &mut Counting,
    sources: Sources,
    to: &mut Vec<u8>,
) -> Result<(), NoMemory>
    ensures { IfOk result (λ _. EndsWith (codes "\n") to.new.items) }
{
    counting.close();
    put(to, "# callgrind format\nversion: 1\ncreator: board trace\n")?;
    put(to, "positions: line\nevents: Steps\n")?;
    let costs = costs_of(alloc, counting, sources)?;
    let total = total_of(&costs);
    put_line(to, "summary: ", total)?;
    put_costs(&costs, sources, to)?;
    put_owners(counting, sources, to)?;
    put_line(to, "\ntotals: ", total)
}

/// How many steps there are, without those of calls, which are steps of other functions.
fn total_of(costs: &Vec<Cost>) -> u64 {
    let mut total = 0u64;
    for cost in costs.iter() {
        if cost.count == 0 {
            total = total.saturating_add(cost.steps);
        }
    }
    total
}

/// The steps of each address, and the calls that stand there, by function, file and line.
fn costs_of(alloc: Global, counting: &Counting, sources: Sources) -> Result<Vec<Cost>, NoMemory> {
    let mut costs = Vec::new(alloc);
    for place in BASE / 4..counting.counts.end() / 4 {
        let address = place.saturating_mul(4);
        let steps = counting.counts.at(address).executed;
        if steps > 0 {
            costs.push(cost_at(sources, address, address, 0, steps))?;
        }
    }
    for call in counting.calls.all.iter() {
        if call.from >= BASE {
            costs.push(cost_at(sources, call.from, call.target, call.count, call.steps))?;
        }
    }
    costs.sort()?;
    Ok(costs)
}

/// What was spent at an address.
fn cost_at(sources: Sources, place: u32, address: u32, count: u64, steps: u64) -> Cost {
    let (file, line) = sources.line_at(place);
    Cost {
        function: sources.function_at(place),
        file,
        line,
        address,
        count,
        steps,
    }
}

/// Puts what was spent in each function at the end.
fn put_costs(costs: &Vec<Cost>, sources: Sources, to: &mut Vec<u8>) -> Result<(), NoMemory> {
    let mut function = None;
    let mut file = NONE;
    for cost in costs.iter() {
        if function != Some(cost.function) {
            file = put_function(to, sources, cost.function)?;
            function = Some(cost.function);
        }
        if file != cost.file {
            put_file(to, "fi=", sources.file_of(cost.file))?;
            file = cost.file;
        }
        put_cost(to, sources, cost)?;
    }
    Ok(())
}

/// Begins a function at the end: its file and its name. Answers the number of the file.
fn put_function(to: &mut Vec<u8>, sources: Sources, function: u32) -> Result<u32, NoMemory> {
    let (file, _) = sources.start_of(function);
    put_file(to, "\nfl=", sources.file_of(file))?;
    put_named(to, "fn=", sources.name_of(function))?;
    Ok(file)
}

/// Puts steps, or a call, at the end.
fn put_cost(to: &mut Vec<u8>, sources: Sources, cost: &Cost) -> Result<(), NoMemory> {
    if cost.count > 0 {
        put_callee(to, sources, cost.address, cost.count)?;
    }
    put_decimal(to, u64::from(cost.line))?;
    put_line(to, " ", cost.steps)
}

/// Puts at the end which function is called, and how often.
fn put_callee(to: &mut Vec<u8>, sources: Sources, target: u32, count: u64) -> Result<(), NoMemory> {
    let function = sources.function_at(target);
    let (file, line) = sources.start_of(function);
    put_file(to, "cfi=", sources.file_of(file))?;
    put_named(to, "cfn=", sources.name_of(function))?;
    put(to, "calls=")?;
    put_decimal(to, count)?;
    put_line(to, " ", u64::from(line))
}

/// Puts a line with the path of a file at the end.
fn put_file(to: &mut Vec<u8>, front: &str, path: &[u8]) -> Result<(), NoMemory> {
    put(to, front)?;
    put_path(to, path)?;
    put(to, "\n")
}

/// Puts a line with the name of a function at the end.
fn put_named(to: &mut Vec<u8>, front: &str, name: &[u8]) -> Result<(), NoMemory> {
    put(to, front)?;
    put_name(to, name)?;
    put(to, "\n")
}

/// Puts each task and each handler at the end, with the functions that were its first ones.
fn put_owners(counting: &Counting, sources: Sources, to: &mut Vec<u8>) -> Result<(), NoMemory> {
    for call in counting.calls.all.iter() {
        if call.from < BASE {
            put_owner(to, sources, call)?;
        }
    }
    Ok(())
}

/// Puts a task or a handler at the end, with a function that was its first one.
fn put_owner(to: &mut Vec<u8>, sources: Sources, call: &Call) -> Result<(), NoMemory> {
    let (cpu, who) = parts_of(call.from);
    put(to, "\nfl=???\nfn=cpu ")?;
    put_decimal(to, u64::from(cpu))?;
    match who {
        Ok(task) => put_line(to, " task ", u64::from(task))?,
        Err(line) => put_line(to, " handler of line ", u64::from(line))?,
    }
    put_callee(to, sources, call.target, call.count)?;
    put_line(to, "0 ", call.steps)
}
