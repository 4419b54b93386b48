//! A run in lcov's format (geninfo(1), "FILES").

ghost use Rattle.std.specs.Prelude.{IfOk, codes};
ghost use Rattle.brd_timeline.specs.Ends.{EndsWith};

use crate::code::Code;
use crate::counting::Counting;
use crate::found::{Found, Line};
use crate::record::Record;
use crate::text::put;
use crate::whole::Sources;
use brd_base::NoMemory;
use brd_mem::Image;
use std::alloc::Global;

/// The file that stands for code without a line table; its line n is the n-th word of RAM.
const WORDS: &str = "words-of-ram";

/// Puts at the end, in lcov's format, what a run has executed: by file the functions, the sides of branches and the
/// lines of the image, each with how often.
pub fn put_lcov(
    alloc: Global,
    counting: &Counting,
    image: &Image,
    sources: Sources,
    to: &mut Vec<u8>,
) -> Result<(), NoMemory>
    ensures { IfOk result (λ _. EndsWith (codes "\n") to.new.items) }
{
    let code = Code::of(alloc, image)?;
    let found = Found::of(alloc, counting, &code, sources)?;
    let mut records = Vec::new(alloc);
    for _ in 0..sources.lines.files().len() {
        records.push(Record::new(alloc))?;
    }
    records.push(Record::new(alloc))?;
    add_functions(&mut records, &found, counting, sources)?;
    add_branches(&mut records, &found, counting)?;
    add_lines(&mut records, &found)?;
    put_records(to, &records, sources)
}

/// Puts the records at the end, the last one for code without a line table.
fn put_records(to: &mut Vec<u8>, records: &Vec<Record>, sources: Sources) -> Result<(), NoMemory>
    ensures { IfOk result (λ _. EndsWith (codes "\n") to.new.items) }
{
    put_first(to)?;
    for (place, record) in records.iter().enumerate() {
        let file = match sources.lines.files().get(place) {
            Some(file) => file.as_slice(),
            None => WORDS.as_bytes(),
        };
        record.put_record(to, file)?;
    }
    Ok(())
}

/// Puts the first line at the end: the test has no name.
fn put_first(to: &mut Vec<u8>) -> Result<(), NoMemory>
    ensures { IfOk result (λ _. EndsWith (codes "\n") to.new.items) }
{
    put(to, "TN:")?;
    put(to, "\n")
}

/// The record of the file of a number: the last one where there is no such file.
fn record_of(records: &mut Vec<Record>, file: u32) -> Option<&mut Record> {
    let last = records.len().checked_sub(1)?;
    records.get_mut((file as usize).min(last))
}

/// Adds the functions to the records of their files.
fn add_functions(
    records: &mut Vec<Record>,
    found: &Found,
    counting: &Counting,
    sources: Sources,
) -> Result<(), NoMemory> {
    for mark in found.functions.iter() {
        let executed = counting.counts.at(mark.address).executed;
        if let Some(record) = record_of(records, mark.file) {
            record.add_function(mark.line, sources.name_of(mark.function), executed)?;
        }
    }
    Ok(())
}

/// Adds the branches to the records of their files.
fn add_branches(
    records: &mut Vec<Record>,
    found: &Found,
    counting: &Counting,
) -> Result<(), NoMemory> {
    for mark in found.branches.iter() {
        let count = counting.counts.at(mark.address);
        if let Some(record) = record_of(records, mark.file) {
            record.add_branch(mark.line, count)?;
        }
    }
    Ok(())
}

/// Adds the lines to the records of their files: of those that are there several times the one that was executed most,
/// which is the last.
fn add_lines(records: &mut Vec<Record>, found: &Found) -> Result<(), NoMemory> {
    for (place, line) in found.lines.iter().enumerate() {
        if is_same(*line, found.lines.get(place.saturating_add(1)).copied()) {
            continue;
        }
        if let Some(record) = record_of(records, line.file) {
            record.add_line(line.line, line.executed)?;
        }
    }
    Ok(())
}

/// Whether the one behind it is of the same line.
fn is_same(line: Line, behind: Option<Line>) -> bool {
    match behind {
        Some(next) => next.file == line.file && next.line == line.line,
        None => false,
    }
}
