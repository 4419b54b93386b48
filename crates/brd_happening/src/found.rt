//! What a step finds of the instruction that it executes, before anything has changed.

ghost use Rattle.std.specs.Prelude.{◌≡◌};
ghost use Rattle.brd_happening.specs.Found.{
  stands_for,
  address_in,
  word_around,
  is_link_to,
  found_by,
  found_on,
};

use crate::instruction::address_by;
use brd_board::{Board, Standing};
use brd_exec::Context;
use brd_isa::{Insn, decode};

/// Who executes on a processor, his next instruction, and what lies in RAM for it.
#[derive(Clone, Copy)]
pub struct Found {
    /// The processor.
    pub cpu: u8,
    /// Who executes.
    pub who: Standing,
    /// The registers with which it is executed.
    pub context: Context,
    /// The word that is fetched, where RAM has one there.
    pub word: Option<u32>,
    /// The instruction that the word stands for, if it stands for one.
    pub insn: Option<Insn>,
    /// The address that it names, if it is a load or a store.
    pub address: Option<u32>,
    /// The aligned word that holds this address, where RAM has it.
    pub held: Option<u32>,
    /// Whether the processor's link is to just this address.
    pub linked: bool,
}

impl Found {
    /// What a processor finds, if somebody executes there.
    pub(crate) fn on(board: &Board, cpu: u8) -> Option<Found>
        ensures { result ≡ found_on board.now cpu }
    {
        match (board.standing(cpu), board.registers(cpu)) {
            (Some(who), Some(context)) => Some(Found::by(board, cpu, who, &context)),
            _ => None,
        }
    }

    /// What a processor finds, by who executes there and in which context.
    fn by(board: &Board, cpu: u8, who: Standing, context: &Context) -> Found
        ensures { result ≡ found_by board.now cpu who context.now }
    {
        let word = board.aligned_word(context.pc());
        let insn = stands_for(word);
        let address = address_in(&insn, context);
        let held = word_around(board, address);
        let linked = is_link_to(board.link(cpu), address);
        let context = *context;
        Found {
            cpu,
            who,
            context,
            word,
            insn,
            address,
            held,
            linked,
        }
    }
}

/// The instruction that a word stands for.
fn stands_for(word: Option<u32>) -> Option<Insn>
    ensures { result ≡ stands_for word }
{
    match word {
        Some(word) => decode(word),
        None => None,
    }
}

/// The address that a load or a store names.
fn address_in(insn: &Option<Insn>, context: &Context) -> Option<u32>
    ensures { result ≡ address_in insn.now context.now }
{
    match *insn {
        Some(insn) => address_by(&insn, context),
        None => None,
    }
}

/// The aligned word that holds an address, where RAM has it.
pub(crate) fn word_around(board: &Board, address: Option<u32>) -> Option<u32>
    ensures { result ≡ word_around board.now.memory address }
{
    match address {
        Some(address) => board.aligned_word(address - address % 4),
        None => None,
    }
}

/// Whether a link is to an address.
fn is_link_to(link: Option<u32>, address: Option<u32>) -> bool
    ensures { result ≡ is_link_to link address }
{
    match (link, address) {
        (Some(link), Some(address)) => link == address,
        _ => false,
    }
}
