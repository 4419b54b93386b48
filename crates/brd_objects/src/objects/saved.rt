//! What a snapshot keeps of the objects of one kind.

ghost use Rattle.std.specs.Prelude.{◌≡◌, IfOk, map};
ghost use Rattle.std.specs.Option.{option_map};

use super::Objects;
use crate::object::Object;
use brd_base::NoMemory;
use std::marker::Model;

/// The objects of one kind that a board has, by their IDs, without room.
#[derive(Drop)]
pub struct SavedObjects<T: Object> {
    rows: Vec<Option<T::Saved>>,
}

impl<T: Object> Model for SavedObjects<T> {
    ghost use Rattle.std.specs.Prelude.{◌≤◌, length, map};
    ghost use Rattle.std.specs.Option.{option_map};
    ghost use Rattle.brd_objects.specs.Rows.{table_of};
    ghost use Rattle.brd_objects.specs.Table.{Table};

    ghost Value = { Table T };

    ghost view = { λ saved. table_of (map (option_map T.restored) saved.rows.items) };

    ghost invariant = { λ saved. length saved.rows.items ≤ 256 };
}

impl<T: Object> Objects<T> {
    /// The same objects without room.
    pub fn save(&self) -> Result<SavedObjects<T>, NoMemory>
        ensures { IfOk result (λ saved. saved ≡ self.now) }
    {
        let mut rows = Vec::with_capacity(*self.rows.allocator(), self.rows.len())?;
        for row in self.rows.as_slice() {
            rows.push(saved_row(row)?)?;
        }
        Ok(SavedObjects { rows })
    }
}

impl<T: Object> SavedObjects<T> {
    /// The same objects with room.
    pub fn restore(&self) -> Result<Objects<T>, NoMemory>
        ensures { IfOk result (λ objects. objects ≡ self.now) }
    {
        let mut rows = Vec::with_capacity(*self.rows.allocator(), self.rows.len())?;
        for row in self.rows.as_slice() {
            rows.push(restored_row(row)?)?;
        }
        Ok(Objects { rows })
    }
}

/// The object of an ID, if there is one, without room.
fn saved_row<T: Object>(row: &Option<T>) -> Result<Option<T::Saved>, NoMemory>
    ensures { IfOk result (λ saved. option_map T.restored saved ≡ row.now) }
{
    match row {
        Some(object) => Ok(Some(object.save()?)),
        None => Ok(None),
    }
}

/// The object of an ID, if there is one, with room.
fn restored_row<T: Object>(row: &Option<T::Saved>) -> Result<Option<T>, NoMemory>
    ensures { IfOk result (λ object. object ≡ option_map T.restored row.now) }
{
    match row {
        Some(saved) => Ok(Some(T::restore(saved)?)),
        None => Ok(None),
    }
}
