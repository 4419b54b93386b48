//! Diagnoses of object files: what the field says at which a fault is found.

use crate::finding::{Finding, told};
use crate::hint::FaultHint;
use brd_elf::{ElfFault, half_at, order_of, word_at};

/// The diagnosis of an object file's fault.
pub fn object_file_hint(bytes: &[u8], fault: ElfFault) -> FaultHint {
    let found = match fault {
        ElfFault::Unsupported { at } => unsupported(bytes, at),
        ElfFault::Outside { at } => Some(outside_fault(bytes, at)),
        _ => None,
    };
    told(b"the object file", None, None, found)
}

/// The halfword at an offset, in the file's byte order; 0 where the file ends before it.
fn half(bytes: &[u8], at: usize) -> u64 {
    if bytes.len() < 52 || at > bytes.len() - 2 {
        return 0;
    }
    half_at(bytes, at, order_of(bytes)) as u64
}

/// The word at an offset, likewise.
fn word(bytes: &[u8], at: usize) -> u64 {
    if bytes.len() < 52 || at > bytes.len() - 4 {
        return 0;
    }
    word_at(bytes, at, order_of(bytes)) as u64
}

/// The machines that are often met, by their numbers.
const MACHINES: &[(u64, &[u8])] = &[
    (2, b"SPARC"),
    (3, b"x86 (32 bits)"),
    (20, b"PowerPC"),
    (40, b"ARM"),
    (62, b"x86-64"),
    (183, b"AArch64"),
    (243, b"RISC-V"),
];

/// The name of a machine.
fn machine(number: u64) -> &'static [u8] {
    for (known, name) in MACHINES {
        if *known == number {
            return *name;
        }
    }
    b"another machine"
}

/// What isn't supported at this offset.
fn unsupported<'a>(bytes: &[u8], at: usize) -> Option<Finding<'a>> {
    let half = half(bytes, at);
    let (template, word) = match (at, bytes.get(at), half) {
        (4, Some(2), _) => (
            b"it is ELF64, of 64 bits: wanted is ELF32, for MIPS32 (gcc: -march=mips32 -mabi=32)".as_slice(),
            b"".as_slice(),
        ),
        (5, _, _) => (
            b"its byte order is neither big-endian (2) nor little-endian (1): byte 5 says neither".as_slice(),
            b"".as_slice(),
        ),
        (16, _, 1) => (
            b"it isn't linked (type REL): link it, as mips-linux-gnu-ld -T examples/firmware.ld does".as_slice(),
            b"".as_slice(),
        ),
        (16, _, 3) => (
            b"it is a shared object (type DYN): link it with -static and -no-pie".as_slice(),
            b"".as_slice(),
        ),
        (18, _, _) => (
            b"it is for ~ (machine ?): wanted is MIPS (machine 8), as mips-linux-gnu-gcc makes it".as_slice(),
            machine(half),
        ),
        _ => (segment_advice(word(bytes, at), at)?, b"".as_slice()),
    };
    Some(Finding::at(&[], template, word).with_number(half))
}

/// What is said of a program header of this type.
fn segment_advice(kind: u64, at: usize) -> Option<&'static [u8]> {
    match kind {
        2 | 3 if at >= 52 => Some(b"it asks for a dynamic linker: link it with -static"),
        _ => None,
    }
}

/// A segment that isn't loaded where it has to be, by its program header.
fn outside_fault<'a>(bytes: &[u8], at: usize) -> Finding<'a> {
    Finding::at(
        &[],
        b"it loads ? bytes to @, outside of 0x80000000 to 0x80ffffff: link it with -T examples/firmware.ld",
        &[],
    )
    .with_number(word(bytes, at.saturating_add(20)))
    .with_address(word(bytes, at.saturating_add(8)))
}
