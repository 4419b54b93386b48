//! A table of as many values as it began with.

ghost use Rattle.std.specs.Prelude.{◌≡◌, replicate, slice_index_or, slice_set, IfOk};

use brd_base::NoMemory;
use std::alloc::Global;
use std::marker::Model;

/// Values by index. Contracts see it as their list.
pub(crate) struct Table<T> {
    items: Vec<T>,
}

impl<T> Model for Table<T> {
    ghost use Rattle.std.specs.Prelude.{List as Items};

    ghost Value = { Items T };

    ghost view = { λ table. table.items.items };
}

/// Written out, so that a function that lets one go is proved with a call, and not with the end of each part.
impl<T: Drop> Drop for Table<T> {
    fn drop(self) {
        let Table { items: _ } = self;
    }
}

impl<T: Copy + Drop> Table<T> {
    /// So many of one value.
    pub(crate) fn new(alloc: Global, count: usize, item: T) -> Result<Self, NoMemory>
        ensures { IfOk result (λ table. table ≡ replicate count item) }
    {
        let mut items = Vec::new(alloc);
        for _ in 0..count {
            items.push(item)?;
        }
        Ok(Table { items })
    }

    /// The value at an index, or another one where the table has none.
    pub(crate) fn get(&self, index: usize, or: T) -> T
        ensures { result ≡ slice_index_or self.now index or }
    {
        if index < self.items.len() {
            return self.items[index];
        }
        or
    }

    /// Puts a value at an index, if the table has it.
    pub(crate) fn put(&mut self, index: usize, item: T)
        ensures { self.new ≡ slice_set self.old index item }
    {
        if index < self.items.len() {
            self.items[index] = item;
        }
    }

    /// All values.
    pub(crate) fn as_slice(&self) -> &[T]
        ensures { result.now ≡ self.now }
    {
        self.items.as_slice()
    }
}
