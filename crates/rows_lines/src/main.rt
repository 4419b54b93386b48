//! Prints of the object file on standard input each stretch of its line table, `FROM TO FILE:LINE`, and then each
//! function, `FROM TO NAME`, where FROM is the first address and TO the one after the last.
#![tactic(auto)]

use anyhow::Result;
use brd_lines::{Function, Lines, read_functions, read_lines};
use std::alloc::{AllocError, Global};
use std::io::{Read, Write};

/// Puts two addresses at the end, and a space after each.
fn put_range(out: &mut Vec<u8>, alloc: Global, from: u32, to: u32) -> Result<(), AllocError> {
    let text = format!(in alloc; "{from:08x} {to:08x} ")?;
    out.extend_from_slice(text.as_bytes())
}

/// Puts the stretches at the end, a line each.
fn put_lines(out: &mut Vec<u8>, alloc: Global, lines: &Lines) -> Result<(), AllocError> {
    for stretch in lines.stretches() {
        put_range(out, alloc, stretch.from, stretch.to)?;
        out.extend_from_slice(lines.file(stretch.file))?;
        let line = stretch.line;
        let text = format!(in alloc; ":{line}\n")?;
        out.extend_from_slice(text.as_bytes())?;
    }
    Ok(())
}

/// Puts the functions at the end, a line each.
fn put_functions(
    out: &mut Vec<u8>,
    alloc: Global,
    functions: &Vec<Function>,
) -> Result<(), AllocError> {
    for function in functions.iter() {
        put_range(out, alloc, function.from, function.to)?;
        out.extend_from_slice(&function.name)?;
        out.push(b'\n')?;
    }
    Ok(())
}

fn main(rt: HostRuntime) -> Result<()> {
    let alloc = rt.alloc();
    let mut file = Vec::new(alloc);
    rt.stdin().read_to_end(&mut file)?;
    let mut out = Vec::new(alloc);
    put_lines(&mut out, alloc, &read_lines(alloc, &file)?)?;
    put_functions(&mut out, alloc, &read_functions(alloc, &file)?)?;
    rt.stdout().write_all(&out)?;
    Ok(())
}
