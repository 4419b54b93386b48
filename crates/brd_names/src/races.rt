//! Data races in words.

ghost use Rattle.std.specs.Prelude.{◌≡◌, ◌++◌, OnOk};
ghost use Rattle.brd_names.specs.Races.{
  mark_text,
  marks_text,
  pair_text,
  race_text,
  races_text,
  strand_text,
  touch_text,
};

use crate::names::Names;
use crate::text::{put, put_called, put_count, put_named};
use brd_base::NoMemory;
use brd_order::{Mark, Race, Touch};
use std::alloc::Global;

/// Puts a line for each race at the end, and one that says how many words have one.
pub fn put_races(
    alloc: Global,
    names: Names,
    races: &[Race],
    out: &mut Vec<u8>,
) -> Result<(), NoMemory>
    ensures { OnOk result (out.new.items ≡ out.old.items ++ races_text names.entry races.now) }
{
    for i in 0..races.len() {
        put_race(alloc, names, &races[i], out)?;
    }
    put(out, "races: ")?;
    put_count(alloc, out, races.len() as u64, "word")?;
    put(out, "\n")
}

/// Puts the line of a race at the end: the word, and both touches.
fn put_race(alloc: Global, names: Names, race: &Race, out: &mut Vec<u8>) -> Result<(), NoMemory>
    ensures { OnOk result (out.new.items ≡ out.old.items ++ race_text names.entry race.now) }
{
    put(out, "race at ")?;
    names.put_datum(out, race.later.touch.word)?;
    put_marks(alloc, names, race, out)
}

/// Puts both touches of a race at the end, that of the earlier event first.
fn put_marks(alloc: Global, names: Names, race: &Race, out: &mut Vec<u8>) -> Result<(), NoMemory>
    ensures { OnOk result (out.new.items ≡ out.old.items ++ marks_text names.entry race.now) }
{
    if race.later.event < race.earlier.event {
        return put_pair(alloc, names, &race.later, &race.earlier, out);
    }
    put_pair(alloc, names, &race.earlier, &race.later, out)
}

/// Puts two touches at the end.
fn put_pair(
    alloc: Global,
    names: Names,
    first: &Mark,
    second: &Mark,
    out: &mut Vec<u8>,
) -> Result<(), NoMemory>
    ensures { OnOk result (out.new.items ≡ out.old.items ++ pair_text names.entry first.now second.now) }
{
    put(out, ": ")?;
    put_mark(alloc, names, first, out)?;
    put(out, "; ")?;
    put_mark(alloc, names, second, out)?;
    put(out, "\n")
}

/// Puts a touch at the end: its event, who touches, where, and how.
fn put_mark(alloc: Global, names: Names, mark: &Mark, out: &mut Vec<u8>) -> Result<(), NoMemory>
    ensures { OnOk result (out.new.items ≡ out.old.items ++ mark_text names.entry mark.now) }
{
    put_named(alloc, out, "event", mark.event)?;
    put(out, ", ")?;
    put_strand(alloc, mark.strand, out)?;
    put(out, " at ")?;
    names.put_code(alloc, mark.place, out)?;
    put_touch(&mark.touch, out)
}

/// Puts at the end who it is whose strand has this number: a task, or from 256 on a handler.
fn put_strand(alloc: Global, strand: u16, out: &mut Vec<u8>) -> Result<(), NoMemory>
    ensures { OnOk result (out.new.items ≡ out.old.items ++ strand_text strand) }
{
    if strand < 256 {
        return put_named(alloc, out, "task", u64::from(strand));
    }
    put_called(alloc, out, "handler", strand - 256)
}

/// Puts at the end how a word is touched.
fn put_touch(touch: &Touch, out: &mut Vec<u8>) -> Result<(), NoMemory>
    ensures { OnOk result (out.new.items ≡ out.old.items ++ touch_text touch.now) }
{
    match (touch.stores, touch.synchronizes) {
        (true, true) => put(out, ", stores, synchronizing"),
        (true, false) => put(out, ", stores"),
        (false, true) => put(out, ", loads, synchronizing"),
        (false, false) => put(out, ", loads"),
    }
}
