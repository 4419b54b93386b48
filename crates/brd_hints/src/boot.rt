//! Diagnoses of boots.

use crate::finding::{Finding, told};
use crate::hint::FaultHint;
use crate::values_of::line_of;
use brd_base::BASE;
use brd_config::{Config, Operand, PoolConfig, Stack, TaskConfig};
use brd_mem::{Image, Segment, Symbol};
use std::alloc::Global;

/// The diagnosis of an object file and a configuration that start no board.
pub fn boot_hint(alloc: Global, image: &[u8], text: &[u8]) -> FaultHint {
    let Ok(image) = brd_elf::read(alloc, image) else {
        return FaultHint::none();
    };
    let Ok(config) = brd_config::parse(alloc, text) else {
        return FaultHint::none();
    };
    told(b"the boot", None, None, fault_of(&image, &config, text))
}

/// What keeps a board from being started, in the order in which the boot looks at it.
fn fault_of<'a>(image: &Image, config: &'a Config, text: &[u8]) -> Option<Finding<'a>> {
    let ram = config.ram as u64;
    let symbols = image.symbols.as_slice();
    if let Some(found) = segment_fault(image.segments.as_slice(), ram) {
        return Some(found.with_second(ram / 1_024));
    }
    let mut stacks = 0u64;
    for task in config.tasks.as_slice() {
        if let Some(found) = no_symbol_of(symbols, task) {
            let line = line_of(text, b"CRE_TSK", task.id as u64);
            return Some(found.with_number(task.id as u64).with_second(line));
        }
        if let Some(found) = task_fault(symbols, task, ram, &mut stacks) {
            return Some(found.with_number(task.id as u64).with_second(ram / 1_024));
        }
    }
    for handler in config.handlers.as_slice() {
        let found = Finding::at(&[], b"", name_of(&handler.address)).with_number(
            handler.line as u64,
        );
        let Some(address) = value_of(symbols, &handler.address) else {
            let template =
                b"the handler of line ? (line & of the text) is ~, which is no symbol of the object file (see nm)";
            let line = line_of(text, b"DEF_INH", handler.line as u64);
            return Some(Finding { template, ..found }.with_second(line));
        };
        if is_no_start(address, ram) {
            let template =
                b"the handler of line ? is at @, which is no multiple of 4 in the RAM of & KiB from 0x80000000";
            return Some(
                Finding { template, ..found }
                    .with_address(address)
                    .with_second(ram / 1_024),
            );
        }
    }
    for pool in config.pools.as_slice() {
        if let Some(found) = no_area_of(symbols, pool) {
            let line = line_of(text, b"CRE_MPF", pool.id as u64);
            return Some(found.with_number(pool.id as u64).with_second(line));
        }
        if let Some(found) = pool_fault(symbols, pool, ram, &mut stacks) {
            return Some(found.with_number(pool.id as u64).with_second(ram / 1_024));
        }
    }
    time_fault_of(symbols, config, text)
}

/// A cyclic handler or an alarm handler as a configuration says it.
#[derive(Clone, Copy)]
struct TimeHandler<'a> {
    /// What such a handler is called.
    name: &'static [u8],
    /// The word of its statement.
    word: &'static [u8],
    id: u16,
    exinf: &'a Operand,
    address: &'a Operand,
}

/// What keeps a board from being started that is a time handler's.
fn time_fault_of<'a>(symbols: &[Symbol], config: &'a Config, text: &[u8]) -> Option<Finding<'a>> {
    let ram = config.ram as u64;
    for cyclic in config.cyclics.as_slice() {
        let it = TimeHandler {
            name: b"cyclic handler",
            word: b"CRE_CYC",
            id: cyclic.id,
            exinf: &cyclic.exinf,
            address: &cyclic.address,
        };
        if let Some(found) = it.fault(symbols, ram, text) {
            return Some(found);
        }
    }
    for alarm in config.alarms.as_slice() {
        let it = TimeHandler {
            name: b"alarm handler",
            word: b"CRE_ALM",
            id: alarm.id,
            exinf: &alarm.exinf,
            address: &alarm.address,
        };
        if let Some(found) = it.fault(symbols, ram, text) {
            return Some(found);
        }
    }
    None
}

impl<'a> TimeHandler<'a> {
    /// What keeps a board from being started that is this handler's.
    fn fault(&self, symbols: &[Symbol], ram: u64, text: &[u8]) -> Option<Finding<'a>> {
        let found = if let Some(found) = self.no_symbol(symbols) {
            found.with_second(line_of(text, self.word, self.id as u64))
        } else {
            self.no_start(symbols, ram)?.with_second(ram / 1_024)
        };
        Some(found.with_other(self.name).with_number(self.id as u64))
    }

    /// Its first name that is no symbol.
    fn no_symbol(&self, symbols: &[Symbol]) -> Option<Finding<'a>> {
        let (template, operand) = if value_of(symbols, self.exinf).is_none() {
            (
                b"^ ? (line &) has the argument ~, which is no symbol of the object file (see nm)".as_slice(),
                self.exinf,
            )
        } else if value_of(symbols, self.address).is_none() {
            (
                b"^ ? (line &) starts at ~, which is no symbol of the object file (see nm)".as_slice(),
                self.address,
            )
        } else {
            return None;
        };
        Some(Finding::at(&[], template, name_of(operand)))
    }

    /// That it starts where no instruction can lie.
    fn no_start(&self, symbols: &[Symbol], ram: u64) -> Option<Finding<'a>> {
        let start = value_of(symbols, self.address)?;
        let template =
            b"^ ? starts at @, which is no multiple of 4 in the RAM of & KiB from 0x80000000";
        is_no_start(start, ram).then_some(Finding::at(&[], template, &[]).with_address(start))
    }
}

/// What an operand stands for: a number, or the value of a symbol. `None` where there is no such symbol.
fn value_of(symbols: &[Symbol], operand: &Operand) -> Option<u64> {
    match operand {
        Operand::Number(number) => Some(*number as u64),
        Operand::Name(name) => {
            for symbol in symbols {
                if symbol.name.as_slice() == name.as_slice() {
                    return Some(symbol.value as u64);
                }
            }
            None
        }
    }
}

/// The name that an operand is; nothing where it is a number.
fn name_of(operand: &Operand) -> &[u8] {
    match operand {
        Operand::Number(_) => &[],
        Operand::Name(name) => name.as_slice(),
    }
}

/// The first name of a task that is no symbol.
fn no_symbol_of<'a>(symbols: &[Symbol], task: &'a TaskConfig) -> Option<Finding<'a>> {
    let (template, operand) = if value_of(symbols, &task.exinf).is_none() {
        (
            b"task ? (line &) has the argument ~, which is no symbol of the object file (see nm)".as_slice(),
            &task.exinf,
        )
    } else if value_of(symbols, &task.address).is_none() {
        (
            b"task ? (line &) starts at ~, which is no symbol of the object file (see nm)".as_slice(),
            &task.address,
        )
    } else if let Stack::At(stack) = &task.stack {
        if value_of(symbols, stack).is_some() {
            return None;
        }
        (
            b"task ? (line &) has its stack at ~, which is no symbol of the object file (see nm)".as_slice(),
            stack,
        )
    } else {
        return None;
    };
    Some(Finding::at(&[], template, name_of(operand)))
}

/// Whether n bytes from an address on aren't in a RAM of this size.
fn is_outside(start: u64, len: u64, ram: u64) -> bool {
    start < BASE as u64 || start.saturating_add(len) > (BASE as u64).saturating_add(ram)
}

/// Whether no instruction can lie at an address.
fn is_no_start(address: u64, ram: u64) -> bool {
    is_outside(address, 4, ram) || address % 4 != 0
}

/// The first segment that isn't in RAM.
fn segment_fault<'a>(segments: &[Segment], ram: u64) -> Option<Finding<'a>> {
    for segment in segments {
        let (start, len) = (segment.address as u64, segment.bytes.len() as u64);
        if is_outside(start, len, ram) {
            let template =
                b"the segment of ? bytes at @ isn't in the RAM of & KiB from 0x80000000: give BOARD more";
            return Some(
                Finding::at(&[], template, &[])
                    .with_number(len)
                    .with_address(start),
            );
        }
    }
    None
}

/// What isn't in RAM of a task: its start, or its stack, where the stacks of earlier ones have n bytes.
fn task_fault<'a>(
    symbols: &[Symbol],
    task: &TaskConfig,
    ram: u64,
    stacks: &mut u64,
) -> Option<Finding<'a>> {
    let start = value_of(symbols, &task.address)?;
    let size = task.stack_size as u64;
    if is_no_start(start, ram) {
        let template =
            b"task ? starts at @, which is no multiple of 4 in the RAM of & KiB from 0x80000000";
        return Some(Finding::at(&[], template, &[]).with_address(start));
    }
    let Stack::At(stack) = &task.stack else {
        *stacks = stacks.saturating_add(size.saturating_add(15) / 16 * 16);
        let template = b"the stacks of the tasks up to task ? need more than the RAM of & KiB";
        return (*stacks > ram).then_some(Finding::at(&[], template, &[]));
    };
    let stack = value_of(symbols, stack)?;
    let template = b"the stack of task ? at @ isn't in the RAM of & KiB from 0x80000000";
    is_outside(stack, size, ram).then_some(Finding::at(&[], template, &[]).with_address(stack))
}

/// The area of a memory pool, where it is a name that is no symbol.
fn no_area_of<'a>(symbols: &[Symbol], pool: &'a PoolConfig) -> Option<Finding<'a>> {
    let Stack::At(area) = &pool.area else {
        return None;
    };
    if value_of(symbols, area).is_some() {
        return None;
    }
    let template =
        b"fixed memory pool ? (line &) lies at ~, which is no symbol of the object file (see nm)";
    Some(Finding::at(&[], template, name_of(area)))
}

/// What isn't in RAM of a memory pool, where stacks and the pools before it have n bytes below the end of RAM.
fn pool_fault<'a>(
    symbols: &[Symbol],
    pool: &PoolConfig,
    ram: u64,
    laid: &mut u64,
) -> Option<Finding<'a>> {
    let block = (pool.size as u64).saturating_add(3) / 4 * 4;
    let size = block.saturating_mul(pool.count as u64);
    let Stack::At(area) = &pool.area else {
        *laid = laid.saturating_add(size);
        let template =
            b"the stacks and the fixed memory pools up to pool ? need more than the RAM of & KiB";
        return (*laid > ram).then_some(Finding::at(&[], template, &[]));
    };
    let start = value_of(symbols, area)?;
    if start % 4 != 0 {
        let template = b"fixed memory pool ? begins at @, which is no multiple of 4";
        return Some(Finding::at(&[], template, &[]).with_address(start));
    }
    let template = b"fixed memory pool ? at @ isn't in the RAM of & KiB from 0x80000000";
    is_outside(start, size, ram).then_some(Finding::at(&[], template, &[]).with_address(start))
}
