//! How long each scan takes, and how long its plain loop.
ghost use Rattle.std.specs.Prelude.{◌≤◌};

use crate::bed::{Bed, MOST};
use crate::plain;
use brd_lanes::{break_links, first_match, hits, next_due, same_words};
use std::io;
use std::rt::Clock;
use std::time::Instant;

const ROUNDS: u32 = 20_000;

const REPEATS: usize = 50;

/// A time for each call, in tenths of a nanosecond: the best of the repeats, each of which is
/// shorter than a time slice.
///
/// Each call gets the number of its round, so that no two need be the same.
fn time_of<F: Fn(u32) -> usize>(rt: &impl Clock, scan: F) -> io::Result<u64>
    requires { F.IsAlwaysCallable scan }
{
    let mut best = u64::MAX;
    for _ in 0..REPEATS {
        let start = Instant::now(rt)?;
        let mut total = 0usize;
        for round in 0..ROUNDS {
            total = total.wrapping_add(scan(round));
        }
        let nanos = u64::try_from(start.elapsed(rt)?.as_nanos()).unwrap_or(u64::MAX);
        // The sum of the answers has to be used.
        if total != 1 {
            best = best.min(nanos.saturating_mul(10) / ROUNDS as u64);
        }
    }
    Ok(best)
}

fn print_row(rt: &impl Print, name: &str, len: usize, lanes: u64, alone: u64) -> io::Result<()> {
    println!(rt;
        "{name:12} {len:4} {:6}.{} {:6}.{}",
        lanes / 10,
        lanes % 10,
        alone / 10,
        alone % 10
    )
}

fn place(found: Option<usize>) -> usize {
    found.unwrap_or(MOST)
}

fn print_first_match<R: Clock + Print>(rt: &R, bed: &Bed, len: usize) -> io::Result<()>
    requires { len ≤ MOST }
{
    let pats = &bed.pats[..len];
    let or_modes = &bed.or_modes[..len];
    let lanes = time_of(
        rt,
        |round| place(first_match(pats, or_modes, round % 2 * 256, 0)),
    )?;
    let alone = time_of(
        rt,
        |round| place(plain::first_match(pats, or_modes, round % 2 * 256, 0)),
    )?;
    print_row(rt, "first_match", len, lanes, alone)
}

fn print_next_due<R: Clock + Print>(rt: &R, bed: &Bed, len: usize) -> io::Result<()>
    requires { len ≤ MOST }
{
    let dues = &bed.dues[..len];
    let lanes = time_of(rt, |round| place(next_due(dues, round as u64, 0)))?;
    let alone = time_of(rt, |round| place(plain::next_due(dues, round as u64, 0)))?;
    print_row(rt, "next_due", len, lanes, alone)
}

fn print_break_links<R: Clock + Print>(rt: &R, bed: &Bed) -> io::Result<()> {
    let links = &bed.links;
    let lanes = time_of(
        rt,
        |round| break_links(links, 0xff, round % 2048 * 16, 0) as usize,
    )?;
    let alone = time_of(
        rt,
        |round| plain::break_links(links, 0xff, round % 2048 * 16, 0) as usize,
    )?;
    print_row(rt, "break_links", 8, lanes, alone)
}

fn print_same_words<R: Clock + Print>(rt: &R, bed: &Bed, len: usize) -> io::Result<()>
    requires { len ≤ MOST }
{
    let words = &bed.words[..len];
    let copy = &bed.copy[..len];
    let second = &bed.second_copy[..len];
    let lanes = time_of(rt, |round| {
        same_words(words, if round % 2 == 0 { copy } else { second }) as usize
    })?;
    let alone = time_of(rt, |round| {
        plain::same_words(words, if round % 2 == 0 { copy } else { second }) as usize
    })?;
    print_row(rt, "same_words", len, lanes, alone)
}

fn print_hits<R: Clock + Print>(rt: &R, bed: &Bed, len: usize) -> io::Result<()>
    requires { len ≤ MOST }
{
    let words = &bed.words[..len];
    let lanes = time_of(rt, |round| hits(words, round % 2 + 0x8000_0000) as usize)?;
    let alone = time_of(
        rt,
        |round| plain::hits(words, round % 2 + 0x8000_0000) as usize,
    )?;
    print_row(rt, "hits", len, lanes, alone)
}

/// Starts at one of the first eight places, where each wait is satisfied.
fn print_first_match_at_once<R: Clock + Print>(rt: &R, bed: &Bed) -> io::Result<()> {
    let pats = &bed.pats;
    let or_modes = &bed.or_modes;
    let lanes = time_of(
        rt,
        |round| place(first_match(pats, or_modes, 3, round as usize % 8)),
    )?;
    let alone = time_of(rt, |round| {
        place(plain::first_match(pats, or_modes, 3, round as usize % 8))
    })?;
    print_row(rt, "first_match", MOST, lanes, alone)
}

/// The same, where each tick is due.
fn print_next_due_at_once<R: Clock + Print>(rt: &R, bed: &Bed) -> io::Result<()> {
    let dues = &bed.dues;
    let lanes = time_of(
        rt,
        |round| place(next_due(dues, 1 << 63, round as usize % 8)),
    )?;
    let alone = time_of(
        rt,
        |round| place(plain::next_due(dues, 1 << 63, round as usize % 8)),
    )?;
    print_row(rt, "next_due", MOST, lanes, alone)
}

/// Looks for the first of the words.
fn print_hits_at_once<R: Clock + Print>(rt: &R, bed: &Bed) -> io::Result<()> {
    let words = &bed.words;
    let lanes = time_of(
        rt,
        |round| hits(&words[round as usize % 8..], round % 8) as usize,
    )?;
    let alone = time_of(
        rt,
        |round| plain::hits(&words[round as usize % 8..], round % 8) as usize,
    )?;
    print_row(rt, "hits", MOST, lanes, alone)
}

/// Prints a line for each scan and length: nanoseconds by lanes, and by the plain loop.
pub(crate) fn print_times<R: Clock + Print>(rt: &R) -> io::Result<()> {
    let bed = Bed::new();
    println!(rt; "scan          len    lanes    plain  (ns a call)")?;
    println!(rt; "to the end:")?;
    for len in [256, 255, 64, 8, 7] {
        print_first_match(rt, &bed, len)?;
        print_next_due(rt, &bed, len)?;
    }
    for len in [256, 64, 8, 7] {
        print_same_words(rt, &bed, len)?;
        print_hits(rt, &bed, len)?;
    }
    print_break_links(rt, &bed)?;
    println!(rt; "found in the first place:")?;
    print_first_match_at_once(rt, &bed)?;
    print_next_due_at_once(rt, &bed)?;
    print_hits_at_once(rt, &bed)
}
