//! The objects of one kind.

ghost use Rattle.std.specs.Prelude.{◌≡◌, ◌≤◌, ◌-◌, All, Decides, IfOk, None, false, length, option_copied, take};
ghost use Rattle.brd_objects.specs.Rows.{table_of};
ghost use Rattle.brd_objects.specs.Table.{object_at, objects_changed, made_at, made_below};

mod saved;

use crate::object::Object;
use brd_base::{NoMemory, same_slices};
pub use saved::SavedObjects;
use std::alloc::Global;
use std::marker::Model;

/// The objects of one kind that a board has, by their IDs. Only `new` takes memory. Rows behind the last object's aren't
/// kept, so that a copy costs what is configured.
pub struct Objects<T: Object> {
    pub(crate) rows: Vec<Option<T>>,
}

impl<T: Object> Model for Objects<T> {
    ghost use Rattle.std.specs.Prelude.{◌≤◌, length};
    ghost use Rattle.brd_objects.specs.Rows.{table_of};
    ghost use Rattle.brd_objects.specs.Table.{Table};

    ghost Value = { Table T };

    ghost view = { λ objects. table_of objects.rows.items };

    ghost invariant = { λ objects. length objects.rows.items ≤ 256 };
}

/// Written out, so that a function that lets one go is proved with a call, and not with the end of each part.
impl<T: Object> Drop for Objects<T> {
    fn drop(self) {
        let Objects { rows: _ } = self;
    }
}

impl<T: Object> Objects<T> {
    /// The objects of a configuration. Of statements with one ID the first counts.
    pub fn new(alloc: Global, configs: &[T::Config]) -> Result<Objects<T>, NoMemory>
        ensures { IfOk result (λ objects. objects ≡ made_below T.id_of T.made_of configs.now 256) }
    {
        let mut rows = rows_of(alloc, configs)?;
        cut(&mut rows);
        Ok(Objects { rows })
    }

    /// Equal objects.
    pub fn try_copy(&self) -> Result<Objects<T>, NoMemory>
        ensures { IfOk result (λ copy. copy ≡ self.now) }
    {
        Ok(Objects {
            rows: self.rows.clone()?,
        })
    }

    /// Whether both are equal.
    pub fn same(&self, other: &Objects<T>) -> bool
        ensures { Decides result (self.now ≡ other.now) }
    {
        if self.rows.len() <= other.rows.len() {
            return same_rows(self.rows.as_slice(), other.rows.as_slice());
        }
        same_rows(other.rows.as_slice(), self.rows.as_slice())
    }

    /// The object of an ID.
    #[tactic(auto, using(crate::proofs::RowLemmas::at_rows, crate::proofs::RowLemmas::past_rows))]
    pub fn object(&self, id: u16) -> Option<&T>
        ensures { option_copied result ≡ object_at self.now id }
    {
        if (id as usize) < self.rows.len() {
            return self.rows[id as usize].as_ref();
        }
        None
    }

    /// A task no longer waits for any of them.
    #[tactic(auto, using(crate::proofs::RowLemmas::changed_rows))]
    pub fn leave(&mut self, task: u16)
        ensures { self.new ≡ objects_changed (T.left task) self.old }
    {
        leave_each(&mut self.rows, task);
    }

    /// A task, where it waits, is given a priority: by arrival it keeps its place, by priority it comes after its
    /// equals.
    #[tactic(auto, using(crate::proofs::RowLemmas::changed_rows))]
    pub fn reorder(&mut self, task: u16, priority: u8)
        ensures { self.new ≡ objects_changed (T.reordered task priority) self.old }
    {
        reorder_each(&mut self.rows, task, priority);
    }
}

/// A task no longer waits for any of these objects.
fn leave_each<T: Object>(rows: &mut Vec<Option<T>>, task: u16)
    ensures { rows.new.items ≡ objects_changed (T.left task) rows.old.items }
{
    for row in rows.iter_mut() {
        if let Some(object) = row {
            object.leave(task);
        }
    }
}

/// A task, where it waits for one of these objects, is given a priority.
fn reorder_each<T: Object>(rows: &mut Vec<Option<T>>, task: u16, priority: u8)
    ensures { rows.new.items ≡ objects_changed (T.reordered task priority) rows.old.items }
{
    for row in rows.iter_mut() {
        if let Some(object) = row {
            object.reorder(task, priority);
        }
    }
}

/// Whether two tables are equal, of which the first one has no more rows.
#[tactic(auto, using(crate::proofs::RowLemmas::same_from, crate::proofs::RowLemmas::same_front, crate::proofs::RowLemmas::same_rest))]
fn same_rows<T: Object>(few: &[Option<T>], many: &[Option<T>]) -> bool
    requires fewer { length few.now ≤ length many.now }
    requires few { length many.now ≤ 256 }
    ensures { Decides result (table_of few.now ≡ table_of many.now) }
{
    let (front, rest) = many.split_at(few.len());
    same_slices(few, front) && are_empty(rest)
}

/// Whether there is no object in these rows.
fn are_empty<T: Object>(rows: &[Option<T>]) -> bool
    ensures { Decides result (All (λ row. row ≡ None) rows.now) }
{
    for row in rows {
        if row.is_some() {
            return false;
        }
    }
    true
}

/// Leaves out the last rows, as long as there is no object in them.
fn cut<T: Object>(rows: &mut Vec<Option<T>>)
    requires { length rows.old.items ≤ 256 }
    ensures few { length rows.new.items ≤ 256 }
    ensures same { table_of rows.new.items ≡ table_of rows.old.items }
{
    for _ in 0..rows.len() {
        if ends_in_object(rows.as_slice()) {
            return;
        }
        let _ = rows.pop();
    }
}

/// Whether there is an object in the last row. If not, the table is the same without it.
#[tactic(auto, using(crate::proofs::RowLemmas::without_last, crate::proofs::RowLemmas::without_any))]
fn ends_in_object<T: Object>(rows: &[Option<T>]) -> bool
    requires { length rows.now ≤ 256 }
    ensures { result ≡ false → table_of (take (length rows.now - 1) rows.now) ≡ table_of rows.now }
{
    if rows.is_empty() {
        return false;
    }
    rows[rows.len() - 1].is_some()
}

/// The row of each ID.
#[tactic(auto, using(crate::proofs::TableLemmas::made_more, crate::proofs::TableLemmas::made_none, crate::proofs::TableLemmas::made_long, crate::proofs::RowLemmas::whole))]
fn rows_of<T: Object>(alloc: Global, configs: &[T::Config]) -> Result<Vec<Option<T>>, NoMemory>
    ensures few { IfOk result (λ rows. length rows.items ≤ 256) }
    ensures is { IfOk result (λ rows. table_of rows.items ≡ made_below T.id_of T.made_of configs.now 256) }
{
    let mut rows = Vec::new(alloc);
    for id in 0..256u16 {
        rows.push(row_of(alloc, configs, id)?)?;
    }
    Ok(rows)
}

/// The object of an ID at the making.
fn row_of<T: Object>(alloc: Global, configs: &[T::Config], id: u16) -> Result<Option<T>, NoMemory>
    ensures { IfOk result (λ row. row ≡ made_at T.id_of T.made_of configs.now id) }
{
    for config in configs {
        if T::id(config) == id {
            return Ok(Some(T::new(alloc, config)?));
        }
    }
    Ok(None)
}
