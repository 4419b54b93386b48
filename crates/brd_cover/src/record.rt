//! What lcov's format has of a file.

ghost use Rattle.std.specs.Prelude.{IfOk, codes};
ghost use Rattle.brd_timeline.specs.Ends.{EndsWith};

use crate::counts::Count;
use crate::text::{put, put_line, put_name, put_path};
use brd_base::NoMemory;
use brd_text::put_decimal;
use std::alloc::Global;

/// How many of something there are, and how many of them were executed.
#[derive(Clone, Copy)]
struct Tally {
    found: u64,
    hit: u64,
}

impl Tally {
    /// None.
    const NONE: Tally = Tally { found: 0, hit: 0 };

    /// Counts one.
    fn add(&mut self, executed: bool) {
        self.found = self.found.saturating_add(1);
        self.hit = self.hit.saturating_add(u64::from(executed));
    }
}

/// A file's record, as far as it has come.
#[derive(Drop)]
pub(crate) struct Record {
    starts: Vec<u8>,
    calls: Vec<u8>,
    branches: Vec<u8>,
    lines: Vec<u8>,
    functions_tally: Tally,
    branches_tally: Tally,
    lines_tally: Tally,
}

impl Record {
    /// Nothing of a file.
    pub(crate) fn new(alloc: Global) -> Record {
        Record {
            starts: Vec::new(alloc),
            calls: Vec::new(alloc),
            branches: Vec::new(alloc),
            lines: Vec::new(alloc),
            functions_tally: Tally::NONE,
            branches_tally: Tally::NONE,
            lines_tally: Tally::NONE,
        }
    }

    /// Adds a function that begins in a line.
    pub(crate) fn add_function(
        &mut self,
        line: u32,
        name: &[u8],
        executed: u64,
    ) -> Result<(), NoMemory> {
        put(&mut self.starts, "FN:")?;
        put_decimal(&mut self.starts, u64::from(line))?;
        put(&mut self.starts, ",")?;
        put_name(&mut self.starts, name)?;
        put(&mut self.starts, "\n")?;
        put(&mut self.calls, "FNDA:")?;
        put_decimal(&mut self.calls, executed)?;
        put(&mut self.calls, ",")?;
        put_name(&mut self.calls, name)?;
        put(&mut self.calls, "\n")?;
        self.functions_tally.add(executed > 0);
        Ok(())
    }

    /// Adds a branch of a line: how often it was taken, and how often not.
    pub(crate) fn add_branch(&mut self, line: u32, count: Count) -> Result<(), NoMemory> {
        let block = self.branches_tally.found / 2;
        let not_taken = count.executed.saturating_sub(count.taken);
        self.add_side(line, block, 0, count.executed, count.taken)?;
        self.add_side(line, block, 1, count.executed, not_taken)
    }

    /// Adds one of the two sides of a branch. One that wasn't executed has no number.
    fn add_side(
        &mut self,
        line: u32,
        block: u64,
        side: u64,
        executed: u64,
        gone: u64,
    ) -> Result<(), NoMemory> {
        put(&mut self.branches, "BRDA:")?;
        put_decimal(&mut self.branches, u64::from(line))?;
        put(&mut self.branches, ",")?;
        put_decimal(&mut self.branches, block)?;
        put(&mut self.branches, ",")?;
        put_decimal(&mut self.branches, side)?;
        if executed == 0 {
            put(&mut self.branches, ",-\n")?;
        } else {
            put_line(&mut self.branches, ",", gone)?;
        }
        self.branches_tally.add(gone > 0);
        Ok(())
    }

    /// Adds a line.
    pub(crate) fn add_line(&mut self, line: u32, executed: u64) -> Result<(), NoMemory> {
        put(&mut self.lines, "DA:")?;
        put_decimal(&mut self.lines, u64::from(line))?;
        put_line(&mut self.lines, ",", executed)?;
        self.lines_tally.add(executed > 0);
        Ok(())
    }

    /// Puts the record of a file at the end, if it has a line.
    pub(crate) fn put_record(&self, to: &mut Vec<u8>, file: &[u8]) -> Result<(), NoMemory>
        ensures { IfOk result (λ _. EndsWith (codes "\n") to.old.items → EndsWith (codes "\n") to.new.items) }
    {
        if self.lines_tally.found == 0 {
            return Ok(());
        }
        put(to, "SF:")?;
        put_path(to, file)?;
        put(to, "\n")?;
        to.extend_from_slice(&self.starts)?;
        to.extend_from_slice(&self.calls)?;
        put_tally(to, "FNF:", "FNH:", self.functions_tally)?;
        to.extend_from_slice(&self.branches)?;
        put_tally(to, "BRF:", "BRH:", self.branches_tally)?;
        to.extend_from_slice(&self.lines)?;
        put_tally(to, "LF:", "LH:", self.lines_tally)?;
        put(to, "end_of_record")?;
        put(to, "\n")
    }
}

/// Puts at the end how many of something there are, and how many of them were executed.
fn put_tally(to: &mut Vec<u8>, found: &str, hit: &str, tally: Tally) -> Result<(), NoMemory> {
    put_line(to, found, tally.found)?;
    put_line(to, hit, tally.hit)
}
