//! What a text with the objects says that are there with the profile alone, value by value.

use bitflags::Flags;
use brd_config::{
    AlarmConfig, Config, CyclicConfig, MailboxConfig, Operand, PoolConfig, Protocol, Stack, parse,
};
use std::alloc::Global;

/// A text with a statement of every kind that the profile adds.
const TEXT: &str = "PROFILE(STANDARD);
BOARD(1, 0x20000);
CRE_MTX(1, {TA_CEILING, 3});
CRE_CYC(64, {TA_HLNG | TA_STA | TA_PHS, 7, on_cycle, 1, 0x7fffffff});
CLASS(TCL_1) {
    CRE_CYC(1, {TA_NULL, exinf_1, 0x80000100, 0x7fffffff, 0});
    CRE_ALM(1, {TA_ASM, 0xffffffff, on_alarm});
}
CRE_MPF(2, {TA_TPRI, 256, 0x20000, NULL});
CRE_MPF(3, {TA_TFIFO, 1, 5, 0x80008000});
CRE_MBX(4, {TA_TPRI | TA_MPRI, 16, NULL});
CRE_MBX(5, {TA_MFIFO, 1, NULL});
";

/// Whether the mutex is that of the text.
fn has_mutex(config: &Config) -> bool {
    let [mutex] = config.mutexes.as_slice() else {
        return false;
    };
    mutex.id == 1 && mutex.protocol == Protocol::Ceiling && mutex.ceiling == 3
}

/// Whether a pool has this ID, set of attributes, and number and size of blocks.
fn is_pool(pool: &PoolConfig, id: u16, bits: u32, count: u16, size: u32) -> bool {
    pool.id == id && pool.attributes.bits() == bits && pool.count == count && pool.size == size
}

/// Whether the memory pools are those of the text.
fn has_pools(config: &Config) -> bool {
    let [large, small] = config.pools.as_slice() else {
        return false;
    };
    is_pool(large, 2, 1, 256, 0x20000)
        && matches!(large.area, Stack::Automatic)
        && is_pool(small, 3, 0, 1, 5)
        && matches!(&small.area, Stack::At(Operand::Number(0x80008000)))
}

/// Whether a mailbox has this ID, set of attributes and number of priorities.
fn is_mailbox(mailbox: &MailboxConfig, id: u16, bits: u32, priorities: u8) -> bool {
    mailbox.id == id && mailbox.attributes.bits() == bits && mailbox.priorities == priorities
}

/// Whether the mailboxes are those of the text.
fn has_mailboxes(config: &Config) -> bool {
    let [by_priority, by_arrival] = config.mailboxes.as_slice() else {
        return false;
    };
    is_mailbox(by_priority, 4, 3, 16) && is_mailbox(by_arrival, 5, 0, 1)
}

/// Whether an operand is this number.
fn is_number(operand: &Operand, number: u32) -> bool {
    match operand {
        Operand::Number(found) => *found == number,
        Operand::Name(_) => false,
    }
}

/// Whether an operand is this name.
fn is_name(operand: &Operand, name: &str) -> bool {
    match operand {
        Operand::Number(_) => false,
        Operand::Name(found) => found.as_slice() == name.as_bytes(),
    }
}

/// Whether a cyclic handler has this ID, set of attributes, and times.
fn is_cyclic(cyclic: &CyclicConfig, id: u16, bits: u32, period: u32, phase: u32) -> bool {
    cyclic.id == id
        && cyclic.processor == 1
        && cyclic.attributes.bits() == bits
        && cyclic.period == period
        && cyclic.phase == phase
}

/// Whether the cyclic handlers are those of the text.
fn has_cyclics(config: &Config) -> bool {
    let [started, stopped] = config.cyclics.as_slice() else {
        return false;
    };
    is_cyclic(started, 64, 6, 1, 0x7fff_ffff)
        && is_number(&started.exinf, 7)
        && is_name(&started.address, "on_cycle")
        && is_cyclic(stopped, 1, 0, 0x7fff_ffff, 0)
        && is_name(&stopped.exinf, "exinf_1")
        && is_number(&stopped.address, 0x80000100)
}

/// Whether this is the alarm handler of the text.
fn is_alarm(alarm: &AlarmConfig) -> bool {
    alarm.id == 1
        && alarm.processor == 1
        && is_number(&alarm.exinf, 0xffff_ffff)
        && is_name(&alarm.address, "on_alarm")
}

/// Whether the alarm handler is that of the text.
fn has_alarm(config: &Config) -> bool {
    let [alarm] = config.alarms.as_slice() else {
        return false;
    };
    is_alarm(alarm)
}

/// Whether the text is read as it should be.
fn is_read(alloc: Global) -> bool {
    match parse(alloc, TEXT.as_bytes()) {
        Ok(config) => {
            config.standard
                && has_mutex(&config)
                && has_pools(&config)
                && has_mailboxes(&config)
                && has_cyclics(&config)
                && has_alarm(&config)
        }
        Err(_) => false,
    }
}

#[test]
fn objects_of_the_profile(rt: HostRuntime) {
    assert!(rt; is_read(rt.alloc()));
}
