//! Many steps of one processor, in batches of decoded instructions.

ghost use Rattle.std.specs.Prelude.{◌≡◌, ◌≤◌, replicate, IfSome};
ghost use Rattle.brd_kernel.specs.Kernel.{executor_on};
ghost use Rattle.brd_kernel.specs.Always.{HasPlace};
ghost use Rattle.brd_board.specs.Board.{after};
ghost use Rattle.brd_board.specs.declared.event.Event.TheVariants.{Step};
ghost use Rattle.brd_board.specs.Batch.{GoesBatch, AllRun};

use super::Board;
use brd_fast::{Table, go};
use brd_kernel::Kernel;
use brd_link::Links;
use brd_mem::Ram;

/// From how many steps on a batch of decoded instructions is worth its beginning and its end (measured).
const FEW: u32 = 5;

/// How many steps are done one by one after a batch that was shorter than that (own choice).
const STRETCH: u32 = 256;

/// The decoded instructions of a board.
#[derive(Drop)]
pub(super) enum Code {
    /// There are none yet; this many steps were asked for that could have been in batches.
    Unread(u32),
    /// They are in this table.
    Read(Table),
    /// There was no memory for them, and it isn't asked for again.
    NoMemory,
}

impl Board {
    /// Lets a processor do `count` steps.
    #[inline(always)]
    pub(super) fn many_steps(&mut self, cpu: u8, count: u32)
        ensures { self.new ≡ after self.old (replicate count (Step cpu)) }
    {
        if count < FEW {
            self.steps(cpu, count);
            return;
        }
        self.read_and_step(cpu, count);
    }

    /// Lets a processor do `count` steps, in batches if the board has a table. It is out of line, so that a few steps
    /// don't pay for it.
    #[inline(never)]
    fn read_and_step(&mut self, cpu: u8, count: u32)
        ensures { self.new ≡ after self.old (replicate count (Step cpu)) }
    {
        if !self.has_read(count) {
            self.steps(cpu, count);
            return;
        }
        self.batches(cpu, count);
    }

    /// Lets a processor do `count` steps, in batches where it can. After a short batch it does some one by one, so that
    /// where batches end soon their beginnings and ends cost little.
    fn batches(&mut self, cpu: u8, count: u32)
        ensures { self.new ≡ after self.old (replicate count (Step cpu)) }
    {
        let mut left = count;
        while left > 0 {
            let done = self.batch(cpu, left);
            left -= done;
            let apart = left.min(if done < FEW { STRETCH } else { 1 });
            self.steps(cpu, apart);
            left -= apart;
        }
    }

    /// Lets a processor go on: does some of its next steps, up to `limit` of them, each of which executes an
    /// instruction and no more. Answers how many it did: as many as a batch of decoded instructions had, and none where
    /// the board has no table of these.
    pub fn go_on(&mut self, cpu: u8, limit: u32) -> u32
        ensures few { result ≤ limit }
        ensures done { self.new ≡ after self.old (replicate result (Step cpu)) }
        ensures ran { AllRun self.old cpu result }
    {
        if limit == 0 || !self.has_read(limit) {
            return 0;
        }
        self.batch(cpu, limit)
    }

    /// Lets a processor do steps in a row, up to `limit` of them. Answers how many it did.
    fn batch(&mut self, cpu: u8, limit: u32) -> u32
        ensures few { result ≤ limit }
        ensures done { self.new ≡ after self.old (replicate result (Step cpu)) }
        ensures ran { AllRun self.old cpu result }
    {
        if self.is_off() || self.kernel.deliverable(cpu).is_some() {
            return 0;
        }
        match &mut self.code {
            Code::Read(table) => {
                run_batch(
                    &mut self.kernel,
                    cpu,
                    table,
                    &mut self.ram,
                    &mut self.links,
                    limit,
                )
            }
            Code::Unread(_) | Code::NoMemory => 0,
        }
    }

    /// Whether the board has a table of decoded instructions, before `count` more steps.
    fn has_read(&mut self, count: u32) -> bool
        ensures { self.new ≡ self.old }
    {
        if let Code::Unread(steps) = self.code {
            self.code = self.read(steps.saturating_add(count));
        }
        matches!(self.code, Code::Read(_))
    }

    /// The decoded instructions of a board that was asked for this many steps, the next ones among them, without any:
    /// none before they are as many as the table has words (own choice: these take about as much time as it does to
    /// make one).
    fn read(&self, steps: u32) -> Code {
        if (steps as usize) < Table::len_for(&self.ram) {
            return Code::Unread(steps);
        }
        match Table::new(*self.faults.allocator(), &self.ram) {
            Ok(table) => Code::Read(table),
            Err(_) => Code::NoMemory,
        }
    }
}

/// Lets a processor do steps in a row where somebody executes on it, in the context where it lies: up to `limit` of
/// them. Answers how many it did.
fn run_batch(
    kernel: &mut Kernel,
    cpu: u8,
    table: &mut Table,
    ram: &mut Ram,
    links: &mut Links,
    limit: u32,
) -> u32
    ensures few { result ≤ limit }
    ensures place { IfSome (executor_on kernel.old cpu) (HasPlace kernel.old cpu) }
    ensures is { GoesBatch (executor_on kernel.old cpu) cpu result kernel.old ram.old links.old kernel.new
        ram.new links.new }
{
    let Some(who) = kernel.executor(cpu) else {
        return 0;
    };
    let context = kernel.context_mut(cpu, who);
    go(table, cpu, context, ram, links, limit)
}
