//! Processors that spin in words.

ghost use Rattle.std.specs.Prelude.{◌≡◌, ◌++◌, OnOk};
ghost use Rattle.std.specs.Fmt.{decimal};
ghost use Rattle.brd_spins.specs.Text.{
  begins_text,
  does_text,
  is_asked,
  place_text,
  since_text,
  spin_text,
  spins_text,
  told_text,
  what_text,
};

use crate::spin::{Spin, SpinKind};
use brd_base::NoMemory;
use brd_listing::{nearest, write_place};
use brd_mem::Symbol;
use brd_text::{put, put_word};
use std::alloc::Global;

/// Puts a line for each processor that spins at the end, or for one of them alone: since when, where, and what it does.
pub fn put_spins(
    alloc: Global,
    symbols: &[Symbol],
    asked: Option<u8>,
    spins: &[Spin],
    out: &mut Vec<u8>,
) -> Result<(), NoMemory>
    ensures { OnOk result (out.new.items ≡ out.old.items ++ spins_text symbols.now asked spins.now) }
{
    for i in 0..spins.len() {
        put_told(alloc, symbols, asked, spins[i], out)?;
    }
    Ok(())
}

/// Puts the line of a processor that spins at the end, if it is asked for.
fn put_told(
    alloc: Global,
    symbols: &[Symbol],
    asked: Option<u8>,
    spin: Spin,
    out: &mut Vec<u8>,
) -> Result<(), NoMemory>
    ensures { OnOk result (out.new.items ≡ out.old.items ++ told_text symbols.now asked spin) }
{
    if !is_asked(asked, spin.cpu) {
        return Ok(());
    }
    put_spin(alloc, symbols, spin, out)
}

/// Whether a processor is the one that is asked for, where one is.
fn is_asked(asked: Option<u8>, cpu: u8) -> bool
    ensures { result ≡ is_asked asked cpu }
{
    match asked {
        None => true,
        Some(asked) => asked == cpu,
    }
}

/// Puts the line of a processor that spins at the end.
fn put_spin(
    alloc: Global,
    symbols: &[Symbol],
    spin: Spin,
    out: &mut Vec<u8>,
) -> Result<(), NoMemory>
    ensures { OnOk result (out.new.items ≡ out.old.items ++ spin_text symbols.now spin) }
{
    put_begins(alloc, spin, out)?;
    put_does(alloc, symbols, spin, out)?;
    put(out, "\n")
}

/// Puts at the end which processor spins, and since when.
fn put_begins(alloc: Global, spin: Spin, out: &mut Vec<u8>) -> Result<(), NoMemory>
    ensures { OnOk result (out.new.items ≡ out.old.items ++ begins_text spin) }
{
    put(out, "cpu ")?;
    put_number(alloc, u64::from(spin.cpu), out)?;
    put(out, " spins since ")?;
    put_since(alloc, spin.since, out)
}

/// Puts at the end where a processor spins, and what it does.
fn put_does(
    alloc: Global,
    symbols: &[Symbol],
    spin: Spin,
    out: &mut Vec<u8>,
) -> Result<(), NoMemory>
    ensures { OnOk result (out.new.items ≡ out.old.items ++ does_text symbols.now spin) }
{
    put(out, " at ")?;
    put_place(symbols, spin.place, out)?;
    put(out, ": ")?;
    put_what(alloc, spin.what, out)
}

/// Puts at the end from which position on.
fn put_since(alloc: Global, since: u64, out: &mut Vec<u8>) -> Result<(), NoMemory>
    ensures { OnOk result (out.new.items ≡ out.old.items ++ since_text since) }
{
    if since == 0 {
        return put(out, "the start");
    }
    put(out, "event ")?;
    put_number(alloc, since, out)
}

/// Puts at the end what a processor does that spins.
fn put_what(alloc: Global, what: SpinKind, out: &mut Vec<u8>) -> Result<(), NoMemory>
    ensures { OnOk result (out.new.items ≡ out.old.items ++ what_text what) }
{
    match what {
        SpinKind::Loop(count) => {
            put_number(alloc, u64::from(count), out)?;
            put(out, " instructions that change nothing")
        }
        SpinKind::Lock(lock) => {
            put(out, "asks for lock ")?;
            put_number(alloc, u64::from(lock), out)
        }
    }
}

/// Puts an address at the end, by the nearest symbol and as digits.
fn put_place(symbols: &[Symbol], address: u32, out: &mut Vec<u8>) -> Result<(), NoMemory>
    ensures { OnOk result (out.new.items ≡ out.old.items ++ place_text symbols.now address) }
{
    write_place(symbols, address, out)?;
    if nearest(symbols, address).is_none() {
        return Ok(());
    }
    put(out, " (")?;
    put_word(out, address)?;
    put(out, ")")
}

/// Puts a number at the end, in decimal.
fn put_number(alloc: Global, number: u64, out: &mut Vec<u8>) -> Result<(), NoMemory>
    ensures { OnOk result (out.new.items ≡ out.old.items ++ decimal number) }
{
    let text = format!(in alloc; "{number}")?;
    put(out, text.as_str())
}
