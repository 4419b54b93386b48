//! Which instructions were done, outside delay slots and in them.

use crate::table::{Form, KEYS, ROWS, key_of};
use brd_board::{Board, Event, Report};
use std::io::Print;

/// Which instructions were done, by their keys.
#[derive(Drop)]
pub struct Seen {
    outside: [bool; KEYS],
    inside: [bool; KEYS],
    /// How many steps there were, and how many of them ran an instruction.
    steps: u32,
    ran: u32,
}

impl Seen {
    /// None.
    pub fn none() -> Self {
        Seen {
            outside: [false; KEYS],
            inside: [false; KEYS],
            steps: 0,
            ran: 0,
        }
    }

    /// Does an event, and notes the instruction that it does.
    pub fn event(&mut self, board: &mut Board, event: Event) {
        let next = match event {
            Event::Step(cpu) => next_of(board, cpu),
            _ => None,
        };
        let report = board.event(event);
        self.steps = self.steps.wrapping_add(1);
        if let Some((word, slot)) = next {
            self.note(report, word, slot);
        }
    }

    /// Notes an instruction that was done.
    fn note(&mut self, report: Report, word: u32, slot: bool) {
        if !matches!(report, Report::Ran(_)) {
            return;
        }
        self.ran = self.ran.wrapping_add(1);
        if slot {
            self.inside[key_of(word)] = true;
        } else {
            self.outside[key_of(word)] = true;
        }
    }

    /// Whether the instruction of a word was done outside slots, and, where it may be in one, in one. Those that mostly
    /// end their task aren't asked for.
    fn has(&self, word: u32, form: Form) -> bool {
        let key = key_of(word);
        form.is_rare() || self.outside[key] && (form.has_slot() || self.inside[key])
    }

    /// Prints the instructions that weren't done so, and whether at least a third of the events ran an instruction.
    pub fn print(&self, rt: &impl Print) -> anyhow::Result<()> {
        for (name, word, form) in ROWS {
            if !self.has(*word, *form) {
                println!(rt; "not done both outside a slot and in one: {name}")?;
            }
        }
        if self.ran >= self.steps / 3 {
            println!(rt; "a third of the single events or more ran an instruction")?;
        }
        Ok(())
    }
}

/// The word that a processor does next, and whether it is in a delay slot; None where it does none.
fn next_of(board: &Board, cpu: u8) -> Option<(u32, bool)> {
    let context = board.registers(cpu)?;
    let word = board.word(context.pc())?;
    Some((word, context.slot()))
}
