//! Marks with names.

ghost use Rattle.std.specs.Prelude.{◌≡◌, [], OnOk, IfOk};
ghost use Rattle.brd_stub.specs.Marks.{is_of, mark_of, may_mark, with_mark, without_mark};

use brd_base::NoMemory;
use brd_gdb::MarkName;
use std::alloc::Global;
use std::marker::Model;

/// How many marks have names at most (own choice).
const MOST_NAMED: usize = 64;

/// A mark with a name.
#[derive(Clone, Copy)]
pub struct NamedMark {
    /// Its name.
    pub name: MarkName,
    /// Where it stands.
    pub position: u64,
}

/// The marks that have names, in the order in which they were last set.
#[derive(Drop)]
pub struct Marks {
    marks: Vec<NamedMark>,
}

impl Model for Marks {
    ghost use Rattle.std.specs.Prelude.{List};
    ghost use Rattle.brd_stub.specs.declared.marks.NamedMark.{NamedMark};

    ghost Value = { List NamedMark };

    ghost view = { λ m. m.marks.items };
}

impl Marks {
    /// None.
    pub fn new(alloc: Global) -> Marks
        ensures { result ≡ [] }
    {
        Marks {
            marks: Vec::new(alloc),
        }
    }

    /// All.
    pub fn as_slice(&self) -> &[NamedMark]
        ensures { result.now ≡ self.now }
    {
        self.marks.as_slice()
    }

    /// Where the mark of a name stands, if there is one.
    pub fn position_of(&self, name: MarkName) -> Option<u64>
        ensures { result ≡ mark_of self.now name }
    {
        mark_of(self.marks.as_slice(), name)
    }

    /// Lets the mark of a name stand at a position, unless 64 others have names. Answers whether it stands there now.
    pub fn set(&mut self, name: MarkName, position: u64) -> Result<bool, NoMemory>
        ensures set { OnOk result (self.new ≡ with_mark self.old name position) }
        ensures may { IfOk result (λ set. set ≡ may_mark self.old name) }
    {
        if !may_mark(self.marks.as_slice(), name) {
            return Ok(false);
        }
        remove(&mut self.marks, name);
        self.marks.push(NamedMark { name, position })?;
        Ok(true)
    }
}

/// Whether the mark of a name may be set.
fn may_mark(marks: &[NamedMark], name: MarkName) -> bool
    ensures { result ≡ may_mark marks.now name }
{
    marks.len() < MOST_NAMED || mark_of(marks, name).is_some()
}

/// Where the mark of a name stands, if there is one.
fn mark_of(marks: &[NamedMark], name: MarkName) -> Option<u64>
    ensures { result ≡ mark_of marks.now name }
{
    for mark in marks {
        if is_of(*mark, name) {
            return Some(mark.position);
        }
    }
    None
}

/// Removes the mark of a name, if it is there.
fn remove(marks: &mut Vec<NamedMark>, name: MarkName)
    ensures { marks.new.items ≡ without_mark marks.old.items name }
{
    marks.retain(|mark| !is_of(*mark, name));
}

/// Whether a mark has this name.
fn is_of(mark: NamedMark, name: MarkName) -> bool
    ensures { result ≡ is_of mark name }
{
    mark.name.bytes.as_slice() == name.bytes.as_slice()
}
