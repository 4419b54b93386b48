//! Reads ELF files, and measures files that are made to take long.
//!
//!     bench_elf         reads `firmware.elf` and `little.elf` of the current directory, then a small file of each kind
//!     bench_elf FILE    reads that file
//!     bench_elf time    reads a large file of each kind, and says how long each takes
//!
//! Of a file that is an image it prints `little-endian` if it is, the entry, each segment with its size and the sum of
//! its bytes, and each symbol. `firmware.elf` was made by GNU as and ld with `examples/firmware.ld` from a program of a
//! few lines: it loads 112 bytes, of which the last 16 aren't in the file, and has the program headers
//! PT_MIPS_ABIFLAGS, PT_MIPS_REGINFO and PT_GNU_STACK. `little.elf` is the same with `-EL`.
#![tactic(auto)]

mod kinds;
mod show;

use anyhow::{Result, bail};
use kinds::{Kind, Size};
use std::time::Instant;
use std::{env, fs};

fn main(rt: HostRuntime) -> Result<()> {
    let mut args = env::args(&rt)?;
    let _program = args.next();
    match args.next() {
        None => {
            show_file(&rt, "firmware.elf")?;
            show_file(&rt, "little.elf")?;
            show_kinds(&rt)
        }
        Some(word) if word.as_str() == "time" => time_kinds(&rt),
        Some(path) => show_file(&rt, path.as_str()),
    }
}

/// Reads a file and prints what it is.
fn show_file(rt: &HostRuntime, path: &str) -> Result<()> {
    let bytes = fs::read(rt, path)?;
    match brd_elf::read(rt.alloc(), &bytes) {
        Ok(image) => {
            show::image(rt, &image)?;
            Ok(())
        }
        Err(fault) => bail!("{path}: {fault}"),
    }
}

/// Reads a small file of each kind and prints what is answered.
fn show_kinds(rt: &HostRuntime) -> Result<()> {
    for kind in kinds::ALL {
        let bytes = kinds::file(rt.alloc(), kind, kinds::SMALL)?;
        show::answer(
            rt,
            kinds::name(kind),
            bytes.len(),
            brd_elf::read(rt.alloc(), &bytes),
        )?;
    }
    Ok(())
}

/// Measures a large file of each kind, and a huge one of names that come again.
fn time_kinds(rt: &HostRuntime) -> Result<()> {
    for kind in kinds::ALL {
        time_kind(rt, kind, kinds::LARGE)?;
    }
    time_kind(rt, Kind::Copies, kinds::HUGE)
}

/// Reads a file and prints what is answered, and how long it took.
fn time_kind(rt: &HostRuntime, kind: Kind, size: Size) -> Result<()> {
    let bytes = kinds::file(rt.alloc(), kind, size)?;
    let start = Instant::now(rt)?;
    let answer = brd_elf::read(rt.alloc(), &bytes);
    let took = start.elapsed(rt)?;
    show::answer(rt, kinds::name(kind), bytes.len(), answer)?;
    let micros = took.as_micros();
    println!(rt; "  {micros} microseconds")?;
    Ok(())
}
