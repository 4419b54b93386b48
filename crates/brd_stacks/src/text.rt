//! Stacks in words.

ghost use Rattle.std.specs.Prelude.{◌≡◌, ◌++◌, ◌≤◌, OnOk};
ghost use Rattle.std.specs.Fmt.{decimal};
ghost use Rattle.brd_stacks.specs.Text.{
  below_text,
  fall_text,
  handler_text,
  named_text,
  overflow_text,
  overflows_text,
  place_text,
  point_text,
  sizes_text,
  store_text,
  stacks_text,
  strand_text,
  time_handler_text,
  track_text,
  tracks_text,
  used_by,
};

use crate::stack::{Point, Stack};
use crate::track::{Track, has_overflow};
use brd_base::NoMemory;
use brd_listing::{nearest, write_place};
use brd_mem::Symbol;
use brd_text::{put, put_word};
use std::alloc::Global;

/// Puts a line for each stack at the end: how much of it was used, and where. Then one for each stack below which
/// something was stored, or one that says that there is none.
pub fn put_stacks(
    alloc: Global,
    symbols: &[Symbol],
    tracks: &[Track],
    out: &mut Vec<u8>,
) -> Result<(), NoMemory>
    ensures { OnOk result (out.new.items ≡ out.old.items ++ stacks_text symbols.now tracks.now) }
{
    put_tracks(alloc, symbols, tracks, out)?;
    if !has_overflow(tracks) {
        return put(out, "stack overflow: none\n");
    }
    put_overflows(alloc, symbols, tracks, out)
}

/// Puts a line for each stack at the end.
fn put_tracks(
    alloc: Global,
    symbols: &[Symbol],
    tracks: &[Track],
    out: &mut Vec<u8>,
) -> Result<(), NoMemory>
    ensures { OnOk result (out.new.items ≡ out.old.items ++ tracks_text symbols.now tracks.now) }
{
    for i in 0..tracks.len() {
        put_track(alloc, symbols, tracks[i], out)?;
    }
    Ok(())
}

/// Puts a line for each store below a stack at the end.
fn put_overflows(
    alloc: Global,
    symbols: &[Symbol],
    tracks: &[Track],
    out: &mut Vec<u8>,
) -> Result<(), NoMemory>
    ensures { OnOk result (out.new.items ≡ out.old.items ++ overflows_text symbols.now tracks.now) }
{
    for i in 0..tracks.len() {
        put_overflow(alloc, symbols, tracks[i], out)?;
    }
    Ok(())
}

/// Puts the line of a stack at the end.
fn put_track(
    alloc: Global,
    symbols: &[Symbol],
    track: Track,
    out: &mut Vec<u8>,
) -> Result<(), NoMemory>
    ensures { OnOk result (out.new.items ≡ out.old.items ++ track_text symbols.now track) }
{
    put_strand(alloc, track.stack.strand, out)?;
    put(out, ": ")?;
    put_sizes(alloc, track, out)?;
    if let Some(point) = track.deepest {
        put(out, ", ")?;
        put_point(alloc, symbols, point, out)?;
    }
    put(out, "\n")
}

/// Puts at the end how much of a stack was used, and how much there is of it.
fn put_sizes(alloc: Global, track: Track, out: &mut Vec<u8>) -> Result<(), NoMemory>
    ensures { OnOk result (out.new.items ≡ out.old.items ++ sizes_text track) }
{
    put_number(alloc, used_by(track.stack, track.deepest), out)?;
    put(out, " of ")?;
    put_number(
        alloc,
        track.stack.end.saturating_sub(u64::from(track.stack.low)),
        out,
    )?;
    put(out, " bytes")
}

/// How many bytes of a stack are used at its deepest point.
fn used_by(stack: Stack, deepest: Option<Point>) -> u64
    ensures { result ≡ used_by stack deepest }
{
    match deepest {
        Some(point) => stack.end.saturating_sub(u64::from(point.after)),
        None => 0,
    }
}

/// Puts the line of a store below a stack at the end, if one is told.
fn put_overflow(
    alloc: Global,
    symbols: &[Symbol],
    track: Track,
    out: &mut Vec<u8>,
) -> Result<(), NoMemory>
    ensures { OnOk result (out.new.items ≡ out.old.items ++ overflow_text symbols.now track) }
{
    match track.overflow {
        Some(point) => put_store(alloc, symbols, track.stack, point, out),
        None => Ok(()),
    }
}

/// Puts the line of a store below a stack at the end.
fn put_store(
    alloc: Global,
    symbols: &[Symbol],
    stack: Stack,
    point: Point,
    out: &mut Vec<u8>,
) -> Result<(), NoMemory>
    ensures { OnOk result (out.new.items ≡ out.old.items ++ store_text symbols.now stack point) }
{
    put(out, "stack overflow: ")?;
    put_strand(alloc, stack.strand, out)?;
    put_fall(alloc, symbols, stack, point, out)
}

/// Puts at the end where the instruction is that stores below a stack, and where it stores.
fn put_fall(
    alloc: Global,
    symbols: &[Symbol],
    stack: Stack,
    point: Point,
    out: &mut Vec<u8>,
) -> Result<(), NoMemory>
    ensures { OnOk result (out.new.items ≡ out.old.items ++ fall_text symbols.now stack point) }
{
    put(out, ", ")?;
    put_point(alloc, symbols, point, out)?;
    put_below(alloc, stack, point, out)?;
    put(out, "\n")
}

/// Puts at the end where something was stored below a stack.
fn put_below(alloc: Global, stack: Stack, point: Point, out: &mut Vec<u8>) -> Result<(), NoMemory>
    ensures { OnOk result (out.new.items ≡ out.old.items ++ below_text stack point) }
{
    let Some(store) = point.store else {
        return Ok(());
    };
    put(out, ", stores to ")?;
    put_word(out, store.address)?;
    put(out, ", ")?;
    put_number(
        alloc,
        u64::from(stack.low.saturating_sub(store.address)),
        out,
    )?;
    put(out, " bytes below it")
}

/// Puts the event and the place of a point at the end.
fn put_point(
    alloc: Global,
    symbols: &[Symbol],
    point: Point,
    out: &mut Vec<u8>,
) -> Result<(), NoMemory>
    ensures { OnOk result (out.new.items ≡ out.old.items ++ point_text symbols.now point) }
{
    put_named(alloc, "event", point.event, out)?;
    put(out, " at ")?;
    put_place(symbols, point.place, out)
}

/// Puts an address at the end, by the nearest symbol and as digits.
fn put_place(symbols: &[Symbol], address: u32, out: &mut Vec<u8>) -> Result<(), NoMemory>
    ensures { OnOk result (out.new.items ≡ out.old.items ++ place_text symbols.now address) }
{
    write_place(symbols, address, out)?;
    if nearest(symbols, address).is_none() {
        return Ok(());
    }
    put(out, " (")?;
    put_word(out, address)?;
    put(out, ")")
}

/// Puts at the end who it is whose strand has this number: a task, or from 256 on a handler.
fn put_strand(alloc: Global, strand: u16, out: &mut Vec<u8>) -> Result<(), NoMemory>
    ensures { OnOk result (out.new.items ≡ out.old.items ++ strand_text strand) }
{
    if strand < 256 {
        return put_named(alloc, "task", u64::from(strand), out);
    }
    put_handler(alloc, strand - 256, out)
}

/// Puts at the end whose handler that of a line is.
fn put_handler(alloc: Global, line: u16, out: &mut Vec<u8>) -> Result<(), NoMemory>
    ensures { OnOk result (out.new.items ≡ out.old.items ++ handler_text line) }
{
    if line < 32 {
        return put_named(alloc, "handler", u64::from(line), out);
    }
    put_time_handler(alloc, line, out)
}

/// Puts at the end what the time handler of a line is called.
fn put_time_handler(alloc: Global, line: u16, out: &mut Vec<u8>) -> Result<(), NoMemory>
    requires { 32 ≤ line }
    ensures { OnOk result (out.new.items ≡ out.old.items ++ time_handler_text line) }
{
    if line % 2 == 0 {
        return put_named(alloc, "cyclic handler", u64::from((line - 30) / 2), out);
    }
    put_named(alloc, "alarm handler", u64::from((line - 31) / 2), out)
}

/// Puts a name and a number at the end.
fn put_named(alloc: Global, name: &str, number: u64, out: &mut Vec<u8>) -> Result<(), NoMemory>
    ensures { OnOk result (out.new.items ≡ out.old.items ++ named_text name.now number) }
{
    put(out, name)?;
    put(out, " ")?;
    put_number(alloc, number, out)
}

/// Puts a number at the end, in decimal.
fn put_number(alloc: Global, number: u64, out: &mut Vec<u8>) -> Result<(), NoMemory>
    ensures { OnOk result (out.new.items ≡ out.old.items ++ decimal number) }
{
    let text = format!(in alloc; "{number}")?;
    put(out, text.as_str())
}
