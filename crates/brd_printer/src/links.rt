//! The links that an event ends.

ghost use Rattle.std.specs.Prelude.{◌≡◌, ◌++◌, OnOk};
ghost use Rattle.brd_printer.specs.Links as links;

use brd_base::NoMemory;
use brd_board::Board;
use brd_names::put_named;
use std::alloc::Global;

/// Which processors have a link before an event and after it.
#[derive(Clone, Copy)]
pub struct Links<'a> {
    /// The processor whose step the event is.
    pub cpu: Option<u8>,
    /// Whether each has one before it, by its number.
    pub before: &'a [bool],
    /// Whether each has one after it.
    pub after: &'a [bool],
}

impl<'a> Links<'a> {
    /// Puts at the end whose links the event has ended.
    pub fn put_ended(self, alloc: Global, out: &mut Vec<u8>) -> Result<(), NoMemory>
        ensures { OnOk result (out.new.items ≡ out.old.items ++ links.text_of self.entry) }
    {
        for cpu in 1..9u8 {
            self.put_ended_of(alloc, cpu, out)?;
        }
        Ok(())
    }

    /// Puts at the end that the event has ended the link of a processor, where it has.
    fn put_ended_of(self, alloc: Global, cpu: u8, out: &mut Vec<u8>) -> Result<(), NoMemory>
        ensures { OnOk result (out.new.items ≡ out.old.items
            ++ links.ended_text_of self.entry.cpu self.entry.before.now self.entry.after.now cpu) }
    {
        if self.ends(cpu) {
            return put_named(alloc, out, "; ends the link of cpu", u64::from(cpu));
        }
        Ok(())
    }

    /// Whether the event has ended the link of a processor: it is a step of another one.
    fn ends(self, cpu: u8) -> bool
        ensures { result ≡ links.ends self.entry.cpu self.entry.before.now self.entry.after.now cpu }
    {
        self.cpu != Some(cpu) && is_linked(self.before, cpu) && !is_linked(self.after, cpu)
    }
}

/// Which processors have a link, by number.
pub fn linked_on(board: &Board) -> [bool; 9]
    ensures { result ≡ links.linked_on board.now }
{
    [
        board.link(0).is_some(),
        board.link(1).is_some(),
        board.link(2).is_some(),
        board.link(3).is_some(),
        board.link(4).is_some(),
        board.link(5).is_some(),
        board.link(6).is_some(),
        board.link(7).is_some(),
        board.link(8).is_some(),
    ]
}

/// Whether a processor is one that has a link.
fn is_linked(linked: &[bool], cpu: u8) -> bool
    ensures { result ≡ links.is_linked linked.now cpu }
{
    match linked.get(cpu as usize) {
        Some(it) => *it,
        None => false,
    }
}
