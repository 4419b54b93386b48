//! The symbols that are kept, with a register for the test whether a name is new.

ghost use Rattle.std.specs.Prelude.{◌≡◌, ℕ, ◌^◌, ◌<◌, ◌≤◌, List, [], ◌∷◌, ◌++◌, length, drop, slice_index_or, true};
ghost use Rattle.std.specs.Prelude.{false, option_map, Some, IfOk, OnOk, OnErr, IfSome};
ghost use Rattle.brd_elf.specs.Faults.{Gives};
ghost use Rattle.brd_elf.specs.Symbols.{string_of, kept};
ghost use Rattle.brd_elf.specs.Trie.{path_of};
ghost use Rattle.brd_elf.specs.Named.{Known, is_known};

use crate::fault::ElfFault;
use crate::places::Places;
use crate::symbols::Entry;
use brd_base::NoMemory;
use brd_mem::{Bytes, Symbol, Symbols};
use std::alloc::Global;
use std::marker::Model;

/// Symbols in the order in which they were kept, no two with one name.
#[derive(Drop)]
pub struct Named<'a> {
    symbols: Vec<Symbol>,
    /// The string table.
    places: Places<'a>,
    /// By its number, whether a string is the empty one or a symbol's name. A number after the end has no mark.
    marks: Vec<bool>,
}

impl<'a> Model for Named<'a> {
    ghost use Rattle.brd_elf.specs.Named.{Known, IsRegister};

    ghost Value = { Known };

    ghost view = { λ named.
        record { strings = named.places.strings; symbols = named.symbols.items; paths = named.places.paths } };

    ghost invariant = { λ named. IsRegister named.marks.items
        (record { strings = named.places.strings; symbols = named.symbols.items; paths = named.places.paths }) };
}

impl<'a> Named<'a> {
    /// No symbols, with names from these strings.
    pub fn new(alloc: Global, strings: &'a [u8]) -> Result<Self, NoMemory>
        requires { length strings.now < 2 ^ 32 }
        ensures { IfOk result (λ named. named ≡ record { strings = strings.now; symbols = []; paths = [] ∷ [] }) }
    {
        let places = Places::new(alloc, strings)?;
        let marks = vec![in alloc; true]?;
        Ok(Named {
            symbols: Vec::new(alloc),
            places,
            marks,
        })
    }

    /// Keeps the symbol of an entry at an offset too, if it is one that is kept. After a fault they are of no more use.
    #[tactic(auto, unfolding(crate::specs::Symbols::kept))]
    pub fn keep(&mut self, alloc: Global, at: usize, entry: Entry) -> Result<(), ElfFault>
        ensures kept { Gives (λ _. self.new.symbols) result (kept self.old.strings at entry self.old.symbols) }
        ensures strings { self.new.strings ≡ self.old.strings }
    {
        if entry.section == 0 {
            return Ok(());
        }
        let start = entry.name as usize;
        let Some(number) = self.number_of(start)? else {
            return Err(ElfFault::Symbols { at });
        };
        if self.is_known(number) {
            return Ok(());
        }
        match self.places.string_at(start) {
            None => Err(ElfFault::Symbols { at }),
            Some(name) => Ok(self.add(alloc, number, name, entry.value)?),
        }
    }

    /// The number of the string at a place, or nothing if no string ends after it.
    fn number_of(&mut self, start: usize) -> Result<Option<u32>, NoMemory>
        ensures symbols { self.new.symbols ≡ self.old.symbols }
        ensures strings { self.new.strings ≡ self.old.strings }
        ensures string { IfOk result
            (λ number. option_map (path_of self.new.paths) number ≡ string_of (drop start self.old.strings)) }
        ensures there { IfOk result (λ number. IfSome number (λ n. n < length self.new.paths)) }
    {
        self.places.number_of(start)
    }

    /// Whether the string with a number is no new name.
    fn is_known(&self, number: u32) -> bool
        requires { number < length self.now.paths }
        ensures { result ≡ is_known self.now.symbols (Some (path_of self.now.paths number)) }
    {
        let number = number as usize;
        number < self.marks.len() && self.marks[number]
    }

    /// Adds a symbol of a new name, that has a number.
    fn add(
        &mut self,
        alloc: Global,
        number: u32,
        name: &'a [u8],
        value: u32,
    ) -> Result<(), NoMemory>
        requires there { number < length self.old.paths }
        requires path { path_of self.old.paths number ≡ name.now }
        requires new { is_known self.old.symbols (Some name.now) ≡ false }
        ensures added { OnOk result (self.new ≡ record {
          strings = self.old.strings;
          paths = self.old.paths;
          symbols = self.old.symbols ++ record { name = name.now; value = value } ∷ [];
        }) }
        ensures kept { OnErr result (self.new ≡ self.old) }
    {
        let mut copy = Bytes::new(alloc);
        copy.append(name)?;
        self.symbols.push(Symbol { name: copy, value })?;
        if let Err(refused) = mark(&mut self.marks, number as usize) {
            self.symbols.pop();
            return Err(refused);
        }
        Ok(())
    }

    /// The symbols.
    pub fn into_symbols(self) -> Symbols
        ensures { result ≡ self.entry.symbols }
    {
        let Named {
            symbols,
            places: _,
            marks: _,
        } = self;
        Symbols::from_vec(symbols)
    }
}

/// Sets a mark, which may lie after the end; those that aren't there are no marks.
fn mark(marks: &mut Vec<bool>, at: usize) -> Result<(), NoMemory>
    requires { at < 2 ^ 32 }
    ensures same { OnErr result (marks.new.items ≡ marks.old.items) }
    ensures here { OnOk result (slice_index_or marks.new.items at false ≡ true) }
    ensures others { OnOk result ((place : ℕ) → (place ≡ at → ⊥)
        → slice_index_or marks.new.items place false ≡ slice_index_or marks.old.items place false) }
    ensures size { OnOk result
        ((limit : ℕ) → length marks.old.items ≤ limit → at < limit → length marks.new.items ≤ limit) }
{
    if at >= marks.len() {
        marks.resize(at + 1, false)?;
    }
    marks[at] = true;
    Ok(())
}
