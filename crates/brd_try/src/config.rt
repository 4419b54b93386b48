//! The configuration that is made for an object file.

ghost use Rattle.std.specs.Prelude.{◌≡◌, ◌++◌, ◌≤◌, ◌<◌, ◌+◌, ◌^◌, length, codes, IfOk, OnOk, is_some};
ghost use Rattle.brd_mem.specs.Image.{symbol_value};
ghost use Rattle.brd_try.specs.Config as config;

use brd_base::{BASE, NoMemory};
use brd_elf::{ElfFault, read};
use brd_mem::{Image, Segment, Symbol};
use brd_text::hex_digits;
use std::alloc::Global;

/// The name of the symbol at which tasks begin, where there is one.
const MAIN: &[u8] = b"main";

/// The configuration of n processors for an object file; nothing where that is none.
pub(crate) fn config_of(alloc: Global, cpus: u8, object: &[u8]) -> Result<Vec<u8>, NoMemory>
    ensures { IfOk result (λ text. text.items ≡ config.config_of cpus object.now) }
{
    match read(alloc, object) {
        Ok(image) => config_text(alloc, cpus, &image),
        Err(ElfFault::NoMemory) => Err(NoMemory),
        Err(_) => Ok(Vec::new(alloc)),
    }
}

/// The configuration of n processors for an image.
fn config_text(alloc: Global, cpus: u8, image: &Image) -> Result<Vec<u8>, NoMemory>
    ensures { IfOk result (λ text. text.items ≡ config.config_text cpus image.now) }
{
    let mut out = Vec::new(alloc);
    let front = format!(in alloc; "BOARD({cpus}, ")?;
    out.extend_from_slice(front.as_bytes())?;
    put_hex(&mut out, ram_size(cpus, image))?;
    out.extend_from_slice(b");\n")?;
    let start = start_text(alloc, image)?;
    put_tasks(alloc, &mut out, cpus, &start)?;
    Ok(out)
}

/// The size of RAM for an image and a stack for each of n tasks.
fn ram_size(cpus: u8, image: &Image) -> u32
    ensures { result ≡ config.ram_size cpus image.now }
{
    let end = end_of(image.segments.as_slice());
    let needed = (end - BASE as u128 + 4_096 * cpus as u128 + 65_535) / 65_536;
    65_536 * needed.max(1).min(256) as u32
}

/// Where the last of some segments ends, at least the first address of RAM.
fn end_of(segments: &[Segment]) -> u128
    ensures is { result ≡ config.end_from BASE segments.now }
    ensures least { BASE ≤ result }
    ensures most { result < 2 ^ 65 }
{
    let mut most = BASE as u128;
    for segment in segments {
        most = most.max(segment.address as u128 + segment.bytes.len() as u128);
    }
    most
}

/// Puts a word at the end in hexadecimal.
fn put_hex(out: &mut Vec<u8>, word: u32) -> Result<(), NoMemory>
    ensures { OnOk result (out.new.items ≡ out.old.items ++ config.hex_text word) }
{
    out.extend_from_slice(b"0x")?;
    out.extend_from_slice(&hex_digits(word))?;
    Ok(())
}

/// Where the tasks of an image begin.
fn start_text(alloc: Global, image: &Image) -> Result<Vec<u8>, NoMemory>
    ensures { IfOk result (λ text.
        text.items ≡ config.start_text (symbol_value image.now.symbols (codes "main")) image.now.entry) }
{
    let mut out = Vec::new(alloc);
    if has_main(image.symbols.as_slice()) {
        out.extend_from_slice(MAIN)?;
        return Ok(out);
    }
    put_hex(&mut out, image.entry)?;
    Ok(out)
}

/// Whether a symbol has the name at which tasks begin.
fn has_main(symbols: &[Symbol]) -> bool
    ensures { result ≡ is_some (symbol_value symbols.now (codes "main")) }
{
    for symbol in symbols {
        if MAIN == symbol.name.as_slice() {
            return true;
        }
    }
    false
}

/// Puts the task of each of n processors at the end.
fn put_tasks(alloc: Global, out: &mut Vec<u8>, cpus: u8, start: &[u8]) -> Result<(), NoMemory>
    ensures { OnOk result (out.new.items ≡ out.old.items ++ config.tasks_text cpus start.now) }
{
    for before in 0..cpus {
        put_task(alloc, out, before + 1, start)?;
    }
    Ok(())
}

/// Puts the task of a processor at the end.
fn put_task(alloc: Global, out: &mut Vec<u8>, cpu: u8, start: &[u8]) -> Result<(), NoMemory>
    ensures { OnOk result (out.new.items ≡ out.old.items ++ config.task_text start.now cpu) }
{
    put_class(alloc, out, cpu)?;
    put_creation(alloc, out, cpu, start)?;
    out.extend_from_slice(b"}\n")?;
    Ok(())
}

/// Puts the line at the end that says of which processor what follows is.
#[tactic(auto, unfolding(crate::specs::Config::class_line))]
fn put_class(alloc: Global, out: &mut Vec<u8>, cpu: u8) -> Result<(), NoMemory>
    ensures { OnOk result (out.new.items ≡ out.old.items ++ config.class_line cpu) }
{
    let line = format!(in alloc; "CLASS(TCL_{cpu}) {{\n")?;
    out.extend_from_slice(line.as_bytes())?;
    Ok(())
}

/// Puts the line at the end that creates the task of a processor.
#[tactic(auto, unfolding(crate::specs::Config::creation_line))]
fn put_creation(alloc: Global, out: &mut Vec<u8>, cpu: u8, start: &[u8]) -> Result<(), NoMemory>
    ensures { OnOk result (out.new.items ≡ out.old.items ++ config.creation_line start.now cpu) }
{
    put_front(alloc, out, cpu)?;
    let argument = format!(in alloc; "{cpu}, ")?;
    out.extend_from_slice(argument.as_bytes())?;
    out.extend_from_slice(start)?;
    out.extend_from_slice(b", 1, 4096, NULL});\n")?;
    Ok(())
}

/// Puts the front of that line at the end.
#[tactic(auto, unfolding(crate::specs::Config::creation_front))]
fn put_front(alloc: Global, out: &mut Vec<u8>, cpu: u8) -> Result<(), NoMemory>
    ensures { OnOk result (out.new.items ≡ out.old.items ++ config.creation_front cpu) }
{
    let front = format!(in alloc; "    CRE_TSK({cpu}, {{TA_ACT, ")?;
    out.extend_from_slice(front.as_bytes())?;
    Ok(())
}
