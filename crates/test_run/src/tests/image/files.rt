//! Boards of object files.

use super::{ONE_TASK, Shown, has_load_fault, shows, tells};
use brd_asm::assemble;
use brd_board::{BootFault, Event, Report};
use brd_config::ConfigFault;
use brd_elf::{ElfFault, write};
use brd_image::{BuildFault, load};
use std::alloc::Global;
use std::test::Fail;

/// Four words: `%hi` and `%lo` of a label, a load, a value. Its file has 348 bytes.
const FOUR_WORDS: &str = "_start: lui $t0, %hi(d)\nlw $t1, %lo(d)($t0)\nnop\nd: .word 7\n";

/// The file of a source without a fault.
pub fn file_of(alloc: Global, source: &str) -> Result<Vec<u8>, Fail> {
    let image = assemble(alloc, source.as_bytes())?;
    Ok(write(alloc, &image)?)
}

/// Three steps, and what they report.
const STEPS: &[Event] = &[Event::Step(1), Event::Step(1), Event::Step(1)];

const REPORTS: &[Report] = &[
    Report::Ran(0x8000_0000),
    Report::Ran(0x8000_0004),
    Report::Ran(0x8000_0008),
];

/// What the board of `FOUR_WORDS` shows after them.
const SHOWN: Shown = Shown {
    is_off: false,
    pc: 0x8000_000c,
    words: &[(8, 0x8000_0000), (9, 7), (29, 0x8001_0000)],
    console: b"",
};

/// Whether the board of a file shows this after three steps.
fn is_loaded(alloc: Global, file: &[u8], config: &str, shown: &Shown) -> bool {
    match load(alloc, file, config.as_bytes()) {
        Ok(mut board) => {
            board.play(STEPS);
            shows(&board, shown)
        }
        Err(_) => false,
    }
}

/// A source that was assembled and written is loaded as the board that its source builds.
#[test]
fn what_was_written_is_loaded(rt: HostRuntime) -> Result<(), Fail> {
    let alloc = rt.alloc();
    let file = file_of(alloc, FOUR_WORDS)?;
    assert!(rt; file.len() == 348 && is_loaded(alloc, &file, ONE_TASK, &SHOWN));
    assert!(rt; tells(alloc, FOUR_WORDS, ONE_TASK, REPORTS, &SHOWN));
    Ok(())
}

/// A file that ends early.
const TRUNCATED: BuildFault = BuildFault::Elf(ElfFault::Truncated { at: 32 });

const NOT_ELF: BuildFault = BuildFault::Elf(ElfFault::NotElf);

/// Configurations with a fault, which comes where the file has none.
const OF_CONFIGURATIONS: &[(&[u8], BuildFault)] = &[
    (
        b"BOARD(1, 0x10000);\nCRE_TSK(1, {TA_ACT, 0, nowhere, 17, 256, NULL});",
        BuildFault::Config(ConfigFault::BadPriority { line: 2 }),
    ),
    (
        b"BOARD(1, 0x10000);\nDEF_INH(3, {0, nowhere});",
        BuildFault::Boot(BootFault::UnknownSymbol),
    ),
];

/// The first of `OF_CONFIGURATIONS` that has another fault with a file.
fn first_wrong(alloc: Global, file: &[u8]) -> Option<usize> {
    for (n, (config, fault)) in OF_CONFIGURATIONS.iter().enumerate() {
        if !has_load_fault(alloc, file, config, *fault) {
            return Some(n);
        }
    }
    None
}

/// Whether a file has this fault with a configuration that has none, and with an empty one.
fn comes_first(alloc: Global, file: &[u8], fault: BuildFault) -> bool {
    has_load_fault(alloc, file, ONE_TASK.as_bytes(), fault)
        && has_load_fault(alloc, file, b"", fault)
        && has_load_fault(alloc, file, b"BOARD(9, 0x10000);", fault)
}

/// Whether a file without its last byte has the fault of one that ends early.
fn is_truncated(alloc: Global, file: &[u8]) -> bool {
    match file.split_last() {
        Some((_, cut)) => comes_first(alloc, cut, TRUNCATED),
        None => false,
    }
}

/// A file with a fault comes before a configuration with one; a configuration is parsed before its names are looked up.
#[test]
fn faults_of_files(rt: HostRuntime) -> Result<(), Fail> {
    let alloc = rt.alloc();
    let file = file_of(alloc, FOUR_WORDS)?;
    assert!(rt;
        is_truncated(alloc, &file)
            && comes_first(alloc, b"ELF!", NOT_ELF)
            && comes_first(alloc, b"", NOT_ELF)
            && first_wrong(alloc, &file).is_none()
    );
    Ok(())
}
