//! What the processors of a board do, in words.

ghost use Rattle.std.specs.Prelude.{◌≡◌, ◌++◌, None, OnOk, codes, slice_index_or};
ghost use Rattle.brd_names.specs.Lines.{named_text};
ghost use Rattle.brd_names.specs.Standings.{standing_text};
ghost use Rattle.brd_names.specs.Standings.{has_task, runs_in};
ghost use Rattle.brd_names.specs.Standings.{standings_of};

use crate::text::{put, put_called, put_comma, put_named};
use brd_base::NoMemory;
use brd_board::{Board, Standing, TaskId};
use std::alloc::Global;

/// What the processors do.
#[derive(Clone, Copy)]
pub struct Standings {
    /// What each does, where there is one of that number.
    pub of: [Option<Standing>; 9],
}

impl Standings {
    /// What the processors of a board do.
    pub fn of(board: &Board) -> Standings
        ensures { result.of ≡ standings_of board.now }
    {
        Standings {
            of: [
                None,
                board.standing(1),
                board.standing(2),
                board.standing(3),
                board.standing(4),
                board.standing(5),
                board.standing(6),
                board.standing(7),
                board.standing(8),
            ],
        }
    }

    /// What one does.
    pub fn at(&self, cpu: u8) -> Option<Standing>
        ensures { result ≡ slice_index_or self.now.of cpu None }
    {
        if (cpu as usize) < 9 {
            return self.of[cpu as usize];
        }
        None
    }

    /// Whether a processor runs a task.
    pub fn runs(&self, id: TaskId) -> bool
        ensures { result ≡ runs_in self.now.of id }
    {
        self.of.iter().any(|standing| runs_task(id, *standing))
    }

    /// Puts at the end what each processor does, before an event.
    pub fn put_all(&self, alloc: Global, out: &mut Vec<u8>) -> Result<(), NoMemory> {
        put(out, "begins:")?;
        for cpu in 1..9u8 {
            if self.at(cpu).is_some() {
                put(out, if cpu == 1 { " " } else { ", " })?;
                put_standing(alloc, out, cpu, self.at(cpu))?;
            }
        }
        Ok(())
    }

    /// Puts at the end what processors do now that did something else before.
    pub fn put_changes(
        &self,
        alloc: Global,
        out: &mut Vec<u8>,
        before: &Standings,
    ) -> Result<(), NoMemory> {
        for cpu in 1..9u8 {
            if self.at(cpu) != before.at(cpu) {
                put_comma(out)?;
                put_standing(alloc, out, cpu, self.at(cpu))?;
            }
        }
        Ok(())
    }
}

/// Whether a processor that does this runs a task.
fn runs_task(id: TaskId, standing: Option<Standing>) -> bool
    ensures { result ≡ has_task id standing }
{
    match standing {
        Some(Standing::Task(other)) => other == id,
        _ => false,
    }
}

/// Puts at the end what a processor does.
pub fn put_standing(
    alloc: Global,
    out: &mut Vec<u8>,
    cpu: u8,
    standing: Option<Standing>,
) -> Result<(), NoMemory>
    ensures { OnOk result (out.new.items ≡ out.old.items ++ (named_text (codes "cpu") cpu ++ standing_text standing)) }
{
    put_named(alloc, out, "cpu", u64::from(cpu))?;
    put_doing(alloc, out, standing)
}

/// Puts at the end what a processor does, after its name.
fn put_doing(alloc: Global, out: &mut Vec<u8>, standing: Option<Standing>) -> Result<(), NoMemory>
    ensures { OnOk result (out.new.items ≡ out.old.items ++ standing_text standing) }
{
    match standing {
        None => Ok(()),
        Some(Standing::Idle) => put(out, " idle"),
        Some(Standing::Stopped) => put(out, " stopped"),
        Some(Standing::Task(id)) => put_named(alloc, out, " runs task", u64::from(id)),
        Some(Standing::Handler(line)) => {
            put(out, " runs ")?;
            put_called(alloc, out, "handler", u16::from(line))
        }
    }
}
