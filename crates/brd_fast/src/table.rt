//! Decoded words, kept for the next time.

ghost use Rattle.std.specs.Prelude.{◌≡◌, All, IfOk};
ghost use Rattle.brd_fast.specs.Known.{IsRight};

use crate::known::Known;
use brd_base::NoMemory;
use brd_mem::Ram;
use brd_word::Order;
use std::alloc::Global;

/// How many words a table has at most: those of RAM's first MiB (own choice).
const MOST: usize = 0x40000;

/// Entries for the first words of a RAM, each beside the bytes of the word that it was made of. The table says nothing
/// of RAM: whoever takes an entry compares these bytes with those that RAM has there, and does it only where they are
/// the same. So a store doesn't touch it.
#[derive(Drop)]
pub struct Table {
    known: Vec<Known>,
    order: Order,
    ghost right: { All (IsRight order) known.items },
}

impl Table {
    /// How many words the table of a RAM has.
    pub fn len_for(ram: &Ram) -> usize {
        (ram.size() / 4).min(MOST)
    }

    /// A table for a RAM.
    pub fn new(alloc: Global, ram: &Ram) -> Result<Table, NoMemory>
        ensures { IfOk result (λ table. table.order ≡ ram.now.order) }
    {
        let len = Table::len_for(ram);
        let mut known = Vec::with_capacity(alloc, len)?;
        for _ in 0..len {
            let Known { raw, entry } = Known::nop();
            known.push(Known { raw, entry })?;
        }
        Ok(Table {
            known,
            order: ram.order(),
        })
    }

    /// In which order the bytes of its words lie.
    #[inline(always)]
    pub fn order(&self) -> Order
        ensures { result ≡ self.now.order }
    {
        self.order
    }

    /// The words and entries that the table has now.
    #[inline(always)]
    pub fn known(&self) -> &[Known]
        ensures { All (IsRight self.now.order) result.now }
    {
        self.known.as_slice()
    }

    /// Takes up a word's bytes with its entry. Answers whether the table has its place, and hadn't the word already.
    pub fn learns(&mut self, at: usize, raw: u32) -> bool
        ensures { self.new.order ≡ self.old.order }
    {
        match self.known.get(at) {
            Some(known) if known.raw != raw => {
                self.known[at] = Known::of(raw, self.order);
                true
            }
            _ => false,
        }
    }
}
