//! Raises of interrupt lines that had no effect, counted by line.

ghost use Rattle.std.specs.Prelude.{◌≡◌, ◌==◌, [], OnOk};
ghost use Rattle.std.specs.List.{position};
ghost use Rattle.brd_verdicts.specs.Losses.{
  all_rung,
  lost_by,
  lost_if,
  lost_in,
  lost_with,
  more_lost,
  rung_lost,
};
ghost use Rattle.brd_verdicts.specs.Again.{lost_again};

use crate::changed::{old_at, put_at};
use brd_base::NoMemory;
use brd_happening::{Happening, Rung, What, Why};
use std::alloc::Global;
use std::marker::Model;

/// Raises of a line that had no effect.
#[derive(Clone, Copy)]
pub struct LostRaises {
    /// The line.
    pub line: u8,
    /// Whether it was pending; else nobody handles it.
    pub pending: bool,
    /// The position of the first one.
    pub position: u64,
    /// How many there were.
    pub count: u64,
}

/// Raises that had no effect, each line once. Contracts see them as their list.
#[derive(Drop)]
pub struct Losses {
    lines: Vec<LostRaises>,
}

impl Model for Losses {
    ghost use Rattle.std.specs.Prelude.{List as Items};
    ghost use Rattle.brd_verdicts.specs.declared.losses.LostRaises.{LostRaises};

    ghost Value = { Items LostRaises };

    ghost view = { λ losses. losses.lines.items };
}

impl Losses {
    /// None.
    pub(crate) fn new(alloc: Global) -> Losses
        ensures { result ≡ [] }
    {
        Losses {
            lines: Vec::new(alloc),
        }
    }

    /// The lines, in the order of their first such raises.
    pub fn as_slice(&self) -> &[LostRaises]
        ensures { result.now ≡ self.now }
    {
        self.lines.as_slice()
    }

    /// Counts the raises of the event of a position that had no effect.
    pub(crate) fn count_all(&mut self, position: u64, told: &Happening) -> Result<(), NoMemory>
        ensures { OnOk result (self.new ≡ lost_by position told.now self.old) }
    {
        self.count(lost_in(position, told.what))?;
        self.count_rung(position, told.rung.as_slice())
    }

    /// Counts the lines that the tick of a position raised in vain.
    fn count_rung(&mut self, position: u64, rung: &[Rung]) -> Result<(), NoMemory>
        ensures { OnOk result (self.new ≡ all_rung position rung.now self.old) }
    {
        for it in rung {
            self.count(rung_lost(position, *it))?;
        }
        Ok(())
    }

    /// Counts raises, if there are some.
    pub(crate) fn count(&mut self, new: Option<LostRaises>) -> Result<(), NoMemory>
        ensures { OnOk result (self.new ≡ lost_if new self.old) }
    {
        match new {
            Some(new) => self.count_some(new),
            None => Ok(()),
        }
    }

    /// Counts raises.
    fn count_some(&mut self, new: LostRaises) -> Result<(), NoMemory>
        ensures { OnOk result (self.new ≡ lost_with new self.old) }
    {
        let lines = self.lines.as_slice();
        let at = place_of(lines, new);
        let old = old_at(lines, at, new);
        put_at(&mut self.lines, at, new, more_lost(new.count, old))
    }
}

/// The same line, with so many more.
fn more_lost(count: u64, line: LostRaises) -> LostRaises
    ensures { result ≡ more_lost count line }
{
    LostRaises {
        count: line.count.saturating_add(count),
        ..line
    }
}

/// Where among these the same line is.
fn place_of(lines: &[LostRaises], new: LostRaises) -> Option<usize>
    ensures { result ≡ position (λ old. old.line == new.line) lines.now }
{
    lines.iter().position(|old| old.line == new.line)
}

/// The raise of a line by the tick of a position, if it had no effect.
fn rung_lost(position: u64, it: Rung) -> Option<LostRaises>
    ensures { result ≡ rung_lost position it }
{
    if !it.pending {
        return None;
    }
    Some(LostRaises {
        line: it.line,
        pending: true,
        position,
        count: 1,
    })
}

/// The raise of an event of a position that had no effect.
fn lost_in(position: u64, what: What) -> Option<LostRaises>
    ensures { result ≡ lost_in position what }
{
    match what {
        What::Lost(line) => Some(LostRaises {
            line,
            pending: true,
            position,
            count: 1,
        }),
        What::Nothing(Why::NoHandler(line)) => Some(LostRaises {
            line,
            pending: false,
            position,
            count: 1,
        }),
        _ => None,
    }
}

/// The same raise so many times more, from a position on, after one in which this happened: none of these has an
/// effect.
pub(crate) fn lost_again(position: u64, count: u64, what: What) -> Option<LostRaises>
    ensures { result ≡ lost_again position count what }
{
    if count == 0 {
        return None;
    }
    match what {
        What::Raised(line) | What::Lost(line) => Some(LostRaises {
            line,
            pending: true,
            position,
            count,
        }),
        What::Nothing(Why::NoHandler(line)) => Some(LostRaises {
            line,
            pending: false,
            position,
            count,
        }),
        _ => None,
    }
}
