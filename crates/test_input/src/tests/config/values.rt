//! What the text with every kind of statement says, value by value.

use super::EVERY;
use bitflags::Flags;
use brd_config::{
    Config, ConfigFault, Operand, QueueConfig, Stack, TaskAttributes, TaskConfig, parse,
};
use std::alloc::Global;
use std::test::Fail;
use test_help::{first_wrong_text, none_wrong};

/// Whether an operand is this name.
fn has_name(operand: &Operand, name: &str) -> bool {
    match operand {
        Operand::Number(_) => false,
        Operand::Name(bytes) => bytes.as_slice() == name.as_bytes(),
    }
}

/// Whether an operand is this number.
fn has_number(operand: &Operand, wanted: u32) -> bool {
    match operand {
        Operand::Number(number) => *number == wanted,
        Operand::Name(_) => false,
    }
}

/// Whether a task has this ID, processor, priority, set of attributes and stack size.
fn is_task(task: &TaskConfig, id: u16, processor: u8, priority: u8, bits: u32, size: u32) -> bool {
    task.id == id
        && task.processor == processor
        && task.priority == priority
        && task.attributes.bits() == bits
        && task.stack_size == size
}

/// Whether the tasks are those of the text.
fn has_tasks(config: &Config) -> bool {
    let [first, second, third] = config.tasks.as_slice() else {
        return false;
    };
    is_task(first, 1, 1, 2, 2, 256)
        && first.attributes.contains(TaskAttributes::TA_ACT)
        && has_number(&first.exinf, 0)
        && has_name(&first.address, "main_task")
        && matches!(first.stack, Stack::Automatic)
        && is_task(second, 2, 2, 16, 1, 0x200)
        && has_name(&second.exinf, "exinf_2")
        && has_number(&second.address, 0x80000100)
        && matches!(&second.stack, Stack::At(operand) if has_number(operand, 0x80030000))
        && is_task(third, 255, 2, 1, 0, 1)
        && has_name(&third.exinf, ".start")
        && has_name(&third.address, "_loop$1")
        && matches!(&third.stack, Stack::At(operand) if has_name(operand, "stack_area"))
}

/// Whether the semaphores are those of the text.
fn has_semaphores(config: &Config) -> bool {
    let [semaphore] = config.semaphores.as_slice() else {
        return false;
    };
    semaphore.id == 1
        && semaphore.attributes.bits() == 1
        && semaphore.initial == 1
        && semaphore.maximum == 16
}

/// Whether the flags are those of the text.
fn has_flags(config: &Config) -> bool {
    let [flag] = config.flags.as_slice() else {
        return false;
    };
    flag.id == 3 && flag.attributes.bits() == 7 && flag.pattern == 0xFFFF_FFFF
}

/// Whether a queue has this ID, set of attributes and capacity.
fn is_queue(queue: &QueueConfig, id: u16, bits: u32, capacity: u16) -> bool {
    queue.id == id && queue.attributes.bits() == bits && queue.capacity == capacity
}

/// Whether the queues are those of the text.
fn has_queues(config: &Config) -> bool {
    let [large, none] = config.queues.as_slice() else {
        return false;
    };
    is_queue(large, 4, 0, 256) && is_queue(none, 5, 1, 0)
}

/// Whether the spin locks are those of the text.
fn has_spin_locks(config: &Config) -> bool {
    let [last, sixth] = config.spin_locks.as_slice() else {
        return false;
    };
    last.id == 255 && sixth.id == 6
}

/// Whether the handlers are those of the text.
fn has_handlers(config: &Config) -> bool {
    let [timer, zero] = config.handlers.as_slice() else {
        return false;
    };
    !config.handlers.is_empty()
        && config.handlers.len() == 2
        && timer.line == 31
        && timer.processor == 2
        && has_name(&timer.address, "on_timer")
        && zero.line == 0
        && zero.processor == 1
        && has_number(&zero.address, 0x80000200)
}

/// What of a configuration isn't as in the text.
fn wrong_part(config: &Config) -> Option<&'static str> {
    if config.processors != 2 || config.ram != 0x40000 {
        Some("the board")
    } else if !has_tasks(config) {
        Some("a task")
    } else if !has_semaphores(config) {
        Some("a semaphore")
    } else if !has_flags(config) {
        Some("a flag")
    } else if !has_queues(config) {
        Some("a queue")
    } else if !has_spin_locks(config) {
        Some("a spin lock")
    } else if !has_handlers(config) {
        Some("a handler")
    } else {
        None
    }
}

/// What of the text isn't read as it should be.
fn wrong_part_of_every(alloc: Global) -> Option<&'static str> {
    match parse(alloc, EVERY.as_bytes()) {
        Ok(config) => wrong_part(&config),
        Err(_) => Some("the text"),
    }
}

#[test]
fn every_value(rt: HostRuntime) -> Result<(), Fail> {
    none_wrong(wrong_part_of_every(rt.alloc()))
}

#[test]
fn names_of_attributes(rt: HostRuntime) {
    let is_none_of_a_task = TaskAttributes::from_name("TA_CLR").is_none();
    let found = TaskAttributes::from_name("TA_ACT");
    assert!(rt; is_none_of_a_task && found == Some(TaskAttributes::TA_ACT));
}

/// Each fault, as it reads.
const TEXTS: &[(ConfigFault, &str)] = &[
    (ConfigFault::NoMemory, "out of memory"),
    (
        ConfigFault::Syntax { line: 1 },
        "line 1: found what no statement has here, expected one in the form of its kind",
    ),
    (
        ConfigFault::Duplicate { line: 2 },
        "line 2: found an ID, a line or BOARD for the second time, expected each once",
    ),
    (
        ConfigFault::BadId { line: 7 },
        "line 7: found an ID or a line out of range, expected an ID 1 to 255, a line 0 to 31",
    ),
    (
        ConfigFault::BadAttribute { line: 3 },
        "line 3: found an attribute that the object does not have, expected bits of CRE_TSK 3, CRE_FLG 7, CRE_SPN 0, others 1",
    ),
    (
        ConfigFault::BadPriority { line: 40 },
        "line 40: found a priority out of range, expected 1 to 16",
    ),
    (
        ConfigFault::BadCount { line: 5 },
        "line 5: found a size or a count out of range, expected RAM 0x10000 to 0x1000000 in steps of 0x10000, a stack above 0, a maximum 1 to 65535, a count up to it, a capacity up to 256",
    ),
    (
        ConfigFault::BadProcessor { line: 6 },
        "line 6: found a processor out of range, expected 1 to 8 of BOARD, 1 to its number of CLASS",
    ),
];

#[test]
fn texts_of_faults(rt: HostRuntime) -> Result<(), Fail> {
    none_wrong(first_wrong_text(rt.alloc(), TEXTS))
}
