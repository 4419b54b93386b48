//! What stands at the addresses of an image.

use crate::edges::may_branch;
use brd_base::{BASE, NoMemory, TOP};
use brd_isa::decode;
use brd_mem::{Image, Segment};
use brd_word::{Order, word_of};
use std::alloc::Global;

/// What stands in a word.
#[derive(Clone, Copy, PartialEq, Eq)]
pub(crate) enum Kind {
    /// No instruction.
    Nothing,
    /// An instruction that is no branch.
    Plain,
    /// A branch that may be taken or not.
    Branch,
}

/// What stands at the addresses of an image.
#[derive(Drop)]
pub(crate) struct Code {
    /// Of the words of RAM from its first address on.
    kinds: Vec<Kind>,
}

impl Code {
    /// What stands at the addresses of an image, as it is loaded.
    pub(crate) fn of(alloc: Global, image: &Image) -> Result<Code, NoMemory> {
        let mut code = Code {
            kinds: Vec::new(alloc),
        };
        for segment in image.segments.as_slice() {
            code.add(segment, image.order)?;
        }
        Ok(code)
    }

    /// Adds the words of a segment.
    fn add(&mut self, segment: &Segment, order: Order) -> Result<(), NoMemory> {
        let bytes = segment.bytes.as_slice();
        let skipped = (4 - segment.address % 4) % 4;
        let mut address = segment.address.saturating_add(skipped);
        let mut rest = match bytes.get(skipped as usize..) {
            Some(rest) => rest,
            None => return Ok(()),
        };
        for _ in 0..bytes.len() / 4 {
            let [a, b, c, d, behind @ ..] = rest else {
                break;
            };
            let word = word_of([*a, *b, *c, *d], order);
            self.put(address, kind_of(word))?;
            address = address.saturating_add(4);
            rest = behind;
        }
        Ok(())
    }

    /// Puts what stands at an address, where that is in RAM.
    fn put(&mut self, address: u32, kind: Kind) -> Result<(), NoMemory> {
        if address < BASE || address >= TOP {
            return Ok(());
        }
        let place = ((address - BASE) / 4) as usize;
        if place >= self.kinds.len() {
            self.kinds.resize(place + 1, Kind::Nothing)?;
        }
        if let Some(there) = self.kinds.get_mut(place) {
            *there = kind;
        }
        Ok(())
    }

    /// The address behind the last word.
    pub(crate) fn end(&self) -> u32 {
        let words = self.kinds.len().min(((TOP - BASE) / 4) as usize);
        BASE + 4 * words as u32
    }

    /// What stands at an address.
    pub(crate) fn at(&self, address: u32) -> Kind {
        if address < BASE || address % 4 != 0 {
            return Kind::Nothing;
        }
        match self.kinds.get(((address - BASE) / 4) as usize) {
            Some(kind) => *kind,
            None => Kind::Nothing,
        }
    }
}

/// What a word stands for.
fn kind_of(word: u32) -> Kind {
    match decode(word) {
        Some(insn) if may_branch(&insn) => Kind::Branch,
        Some(_) => Kind::Plain,
        None => Kind::Nothing,
    }
}
