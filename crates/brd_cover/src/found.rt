//! Lines, functions and branches in the order in which lcov's format has them.

use crate::code::{Code, Kind};
use crate::counting::Counting;
use crate::counts::Counts;
use crate::whole::{NONE, Sources};
use brd_base::{BASE, NoMemory};
use brd_lines::Stretch;
use std::alloc::Global;

/// How often a line was executed, or the place of a branch in it.
#[derive(Clone, Copy, PartialEq, Eq, PartialOrd, Ord)]
pub(crate) struct Line {
    /// The number of the file.
    pub(crate) file: u32,
    /// The line.
    pub(crate) line: u32,
    /// How often its instruction was executed that was executed most.
    pub(crate) executed: u64,
}

/// A branch, or a function, of a line.
#[derive(Clone, Copy, PartialEq, Eq, PartialOrd, Ord)]
pub(crate) struct Mark {
    /// The number of the file.
    pub(crate) file: u32,
    /// The line.
    pub(crate) line: u32,
    /// Its address.
    pub(crate) address: u32,
    /// The number of the function.
    pub(crate) function: u32,
}

/// What a run's counts say of lines.
#[derive(Drop)]
pub(crate) struct Found {
    pub(crate) lines: Vec<Line>,
    pub(crate) branches: Vec<Mark>,
    pub(crate) functions: Vec<Mark>,
}

/// The word of RAM that lies at an address, from 1 on: it stands for the line where there is no line.
pub(crate) fn word_number(address: u32) -> u32 {
    address.saturating_sub(BASE) / 4 + 1
}

impl Found {
    /// What the counts of a run say of lines, functions and branches.
    pub(crate) fn of(
        alloc: Global,
        counting: &Counting,
        code: &Code,
        sources: Sources,
    ) -> Result<Found, NoMemory> {
        let mut found = Found {
            lines: Vec::new(alloc),
            branches: Vec::new(alloc),
            functions: Vec::new(alloc),
        };
        let touched = touched_of(alloc, &counting.counts, sources)?;
        found.add_stretches(&counting.counts, code, sources)?;
        found.add_words(&counting.counts, code, sources, &touched)?;
        found.add_functions(sources, &touched)?;
        found.lines.sort()?;
        found.branches.sort()?;
        found.functions.sort()?;
        Ok(found)
    }

    /// Adds the lines of stretches.
    fn add_stretches(
        &mut self,
        counts: &Counts,
        code: &Code,
        sources: Sources,
    ) -> Result<(), NoMemory> {
        for stretch in sources.lines.stretches() {
            self.add_stretch(counts, code, *stretch)?;
        }
        Ok(())
    }

    /// Adds the line of a stretch, and the branches in it.
    fn add_stretch(
        &mut self,
        counts: &Counts,
        code: &Code,
        stretch: Stretch,
    ) -> Result<(), NoMemory> {
        let mut most = 0;
        for place in stretch.from.div_ceil(4)..stretch.to.div_ceil(4) {
            let address = place.saturating_mul(4);
            most = most.max(counts.at(address).executed);
            if code.at(address) == Kind::Branch {
                self.branches.push(Mark {
                    file: stretch.file,
                    line: stretch.line,
                    address,
                    function: NONE,
                })?;
            }
        }
        self.lines.push(Line {
            file: stretch.file,
            line: stretch.line,
            executed: most,
        })?;
        Ok(())
    }

    /// Adds what has no line: what was executed, and all instructions of a function of which one was.
    fn add_words(
        &mut self,
        counts: &Counts,
        code: &Code,
        sources: Sources,
        touched: &Vec<bool>,
    ) -> Result<(), NoMemory> {
        for place in BASE / 4..counts.end().max(code.end()) / 4 {
            let address = place.saturating_mul(4);
            let kind = code.at(address);
            let executed = counts.at(address).executed;
            let shown = kind != Kind::Nothing && is_touched(touched, sources.function_at(address));
            if (shown || executed > 0) && sources.lines.stretch_at(address).is_none() {
                self.add_word(address, kind, executed)?;
            }
        }
        Ok(())
    }

    /// Adds a word of RAM that has no line.
    fn add_word(&mut self, address: u32, kind: Kind, executed: u64) -> Result<(), NoMemory> {
        let line = word_number(address);
        self.lines.push(Line {
            file: NONE,
            line,
            executed,
        })?;
        if kind == Kind::Branch {
            self.branches.push(Mark {
                file: NONE,
                line,
                address,
                function: NONE,
            })?;
        }
        Ok(())
    }

    /// Adds the functions, but for those that have no line and of which nothing was executed.
    fn add_functions(&mut self, sources: Sources, touched: &Vec<bool>) -> Result<(), NoMemory> {
        for (place, function) in sources.functions.iter().enumerate() {
            let number = place.min(NONE as usize) as u32;
            let (file, line) = sources.line_at(function.from);
            if file == NONE && !is_touched(touched, number) {
                continue;
            }
            let line = if file == NONE {
                word_number(function.from)
            } else {
                line
            };
            self.functions.push(Mark {
                file,
                line,
                address: function.from,
                function: number,
            })?;
        }
        Ok(())
    }
}

/// Whether an instruction of the function of a number was executed.
fn is_touched(touched: &Vec<bool>, function: u32) -> bool {
    match touched.get(function as usize) {
        Some(touched) => *touched,
        None => false,
    }
}

/// Of which functions an instruction was executed.
fn touched_of(alloc: Global, counts: &Counts, sources: Sources) -> Result<Vec<bool>, NoMemory> {
    let mut touched = Vec::new(alloc);
    touched.resize(sources.functions.len(), false)?;
    for place in BASE / 4..counts.end() / 4 {
        let address = place.saturating_mul(4);
        if counts.at(address).executed > 0 {
            if let Some(here) = touched.get_mut(sources.function_at(address) as usize) {
                *here = true;
            }
        }
    }
    Ok(touched)
}
