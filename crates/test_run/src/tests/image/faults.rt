//! Which fault comes first, and how it reads.

use super::{ONE_LETTER, ONE_TASK, has_fault};
use brd_asm::AsmFault;
use brd_board::BootFault;
use brd_config::ConfigFault;
use brd_elf::ElfFault;
use brd_image::BuildFault;
use std::alloc::Global;
use std::test::Fail;
use test_help::{first_wrong_text, none_wrong};

const UNKNOWN: &str = "BOARD(1, 0x10000); CRE_TSK(1, {TA_ACT, 0, nowhere, 1, 256, NULL});";

/// Configurations, each with the fault of a board of `ONE_LETTER` and of it.
const OF_CONFIGURATIONS: &[(&str, BuildFault)] = &[
    (UNKNOWN, BuildFault::Boot(BootFault::UnknownSymbol)),
    (
        "BOARD(9, 0x10000);",
        BuildFault::Config(ConfigFault::BadProcessor { line: 1 }),
    ),
    ("", BuildFault::Config(ConfigFault::Syntax { line: 1 })),
    (
        "BOARD(1, 0x10000);\nCRE_TSK(1, {TA_ACT, 0, _start, 1, 0x10001, NULL});",
        BuildFault::Boot(BootFault::Outside),
    ),
    // A configuration is parsed whole before its names are looked up.
    (
        "BOARD(1, 0x10000);\nCRE_TSK(1, {TA_ACT, 0, nowhere, 1, 256, NULL});\nCRE_SEM(0, {0, 0, 1});",
        BuildFault::Config(ConfigFault::BadId { line: 3 }),
    ),
];

/// A source with a segment after RAM.
const OUTSIDE: &str = "_start: nop\n.org 0x80010000\n.byte 1";

/// The same for `OUTSIDE`: its fault is one of the boot, and comes after those of the configuration.
const OF_OUTSIDE: &[(&str, BuildFault)] = &[
    (ONE_TASK, BuildFault::Boot(BootFault::Outside)),
    (UNKNOWN, BuildFault::Boot(BootFault::Outside)),
    (
        "BOARD(1, 0x10000);\n}",
        BuildFault::Config(ConfigFault::Syntax { line: 2 }),
    ),
];

/// Sources, each with its fault.
const OF_SOURCES: &[(&str, BuildFault)] = &[
    (
        "addiu $t0, $t0",
        BuildFault::Asm(AsmFault::Syntax { line: 1 }),
    ),
    (
        "nop\n.word q",
        BuildFault::Asm(AsmFault::UnknownName { line: 2 }),
    ),
    (
        ".byte 1\nnop",
        BuildFault::Asm(AsmFault::Misaligned { line: 2 }),
    ),
];

/// The first of these configurations that has another fault with a source.
fn first_wrong(alloc: Global, source: &str, rows: &[(&str, BuildFault)]) -> Option<usize> {
    for (n, (config, fault)) in rows.iter().enumerate() {
        if !has_fault(alloc, source.as_bytes(), config.as_bytes(), *fault) {
            return Some(n);
        }
    }
    None
}

/// The first of `OF_SOURCES` that has another fault with a configuration.
fn first_wrong_source(alloc: Global, config: &str) -> Option<usize> {
    for (n, (source, fault)) in OF_SOURCES.iter().enumerate() {
        if !has_fault(alloc, source.as_bytes(), config.as_bytes(), *fault) {
            return Some(n);
        }
    }
    None
}

#[test]
fn of_the_configuration_or_the_boot(rt: HostRuntime) -> Result<(), Fail> {
    none_wrong(first_wrong(rt.alloc(), ONE_LETTER, OF_CONFIGURATIONS))?;
    none_wrong(first_wrong(rt.alloc(), OUTSIDE, OF_OUTSIDE))
}

/// A source with a fault comes before a configuration with one, whichever.
#[test]
fn of_the_source_first(rt: HostRuntime) -> Result<(), Fail> {
    for config in ["", "BOARD(9, 0x10000);", UNKNOWN, ONE_TASK] {
        none_wrong(first_wrong_source(rt.alloc(), config))?;
    }
    Ok(())
}

/// Each fault is one line, which says in which text it is, and where.
const TEXTS: &[(BuildFault, &str)] = &[
    (BuildFault::NoMemory, "out of memory"),
    (
        BuildFault::Asm(AsmFault::Twice { line: 3 }),
        "the source: line 3: found a name that is defined already, expected each once",
    ),
    (
        BuildFault::Elf(ElfFault::Overlap { at: 84 }),
        "the object file: offset 84: the segment of this program header overlaps an earlier one",
    ),
    (
        BuildFault::Config(ConfigFault::BadPriority { line: 7 }),
        "the configuration: line 7: found a priority out of range, expected 1 to 16",
    ),
    (
        BuildFault::Boot(BootFault::UnknownSymbol),
        "the boot: the configuration names a symbol that the image doesn't have",
    ),
    (
        BuildFault::Boot(BootFault::Outside),
        "the boot: a segment, a stack, a memory pool or a start isn't in the board's RAM, or a pool or a start isn't aligned",
    ),
];

#[test]
fn texts(rt: HostRuntime) -> Result<(), Fail> {
    none_wrong(first_wrong_text(rt.alloc(), TEXTS))
}
