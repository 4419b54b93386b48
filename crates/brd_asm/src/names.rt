//! The names of a source and their values.

ghost use Rattle.std.specs.Prelude.{◌≡◌, [], ◌∷◌, ◌++◌, false, map, IfOk};
ghost use Rattle.brd_asm.specs.Faults.{Gives};
ghost use Rattle.brd_asm.specs.Values.{named};
ghost use Rattle.brd_asm.specs.Image.{symbol_of};
ghost use Rattle.brd_asm.specs.Layout.{is_defined, define, labelled};

use crate::fault::AsmFault;
use crate::key::{NameKey, SourceHash};
use crate::value::word;
use brd_base::NoMemory;
use brd_mem::{Bytes, Symbol, Symbols};
use indexmap::IndexMap;
use std::alloc::Global;
use std::marker::Model;

/// Names in order of definition, each with its value.
pub struct Names<'a> {
    values: IndexMap<NameKey<'a>, i64, SourceHash>,
}

impl<'a> Model for Names<'a> {
    ghost use Rattle.std.specs.Prelude.{List, map};
    ghost use Rattle.brd_asm.specs.Values.{Name};
    ghost use Rattle.brd_asm.specs.View as seen;

    ghost Value = { List Name };

    ghost view = { λ names. map seen.name names.values.entries };
}

/// Written out, so that a function that lets one go is proved with a call, and not with the end of each part.
impl Drop for Names<'_> {
    fn drop(self) {
        let Names { values: _ } = self;
    }
}

impl<'a> Names<'a> {
    /// No names of a text yet.
    pub fn new(alloc: Global, text: &[u8]) -> Self
        ensures { result ≡ [] }
    {
        Names {
            values: IndexMap::with_hasher(alloc, SourceHash::new(text)),
        }
    }

    /// The value of a name, if it has one.
    pub fn value(&self, name: &[u8]) -> Option<i64>
        ensures { result ≡ named self.now name.now }
    {
        self.values.get(&NameKey { name }).copied()
    }

    /// Whether a name has a value.
    pub fn has(&self, name: &[u8]) -> bool
        ensures { result ≡ is_defined self.now name.now }
    {
        self.value(name).is_some()
    }

    /// Gives a value to one more name, which on this line is defined.
    #[tactic(auto, unfolding(crate::specs::Layout::define))]
    pub fn define(&mut self, line: usize, value: i64, name: &'a [u8]) -> Result<(), AsmFault>
        ensures { Gives (λ _. self.new) result (define line value name.entry.now self.old) }
    {
        if self.put(name, value)? {
            return Err(AsmFault::Twice { line });
        }
        Ok(())
    }

    /// Gives a value to a name, and says whether it had one. If it had, the names are of no more use.
    fn put(&mut self, name: &'a [u8], value: i64) -> Result<bool, NoMemory>
        ensures had { IfOk result (λ had. had ≡ is_defined self.old name.entry.now) }
        ensures put { IfOk result
            (λ had. had ≡ false → self.new ≡ self.old ++ record { name = name.entry.now; value = value } ∷ []) }
    {
        let old = self.values.insert(NameKey { name }, value)?;
        Ok(old.is_some())
    }

    /// Gives a place to labels. After a fault the names are of no more use.
    pub fn label(&mut self, line: usize, place: u32, labels: &[&'a [u8]]) -> Result<(), AsmFault>
        ensures { Gives (λ _. self.new) result (labelled line place (map (λ label. label.now) labels.now) self.old) }
    {
        for label in labels {
            self.define(line, i64::from(place), *label)?;
        }
        Ok(())
    }

    /// The symbols of an image, in order of definition.
    pub fn symbols(&self, alloc: Global) -> Result<Symbols, NoMemory>
        ensures { IfOk result (λ symbols. symbols ≡ map symbol_of self.now) }
    {
        let mut symbols = Symbols::new(alloc);
        for (key, value) in self.values.iter() {
            let mut bytes = Bytes::new(alloc);
            bytes.append(key.name)?;
            let value = word(*value);
            symbols.push(Symbol { name: bytes, value })?;
        }
        Ok(symbols)
    }
}
