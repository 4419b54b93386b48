//! A queue of tasks.

ghost use Rattle.std.specs.Prelude.{◌≡◌, ◌<◌, ◌≤◌, ℕ, [], false, insert, length, drop, remove, slice_get, IfNone, IfOk};
ghost use Rattle.std.specs.Prelude.{IfSome, find, is_some, vec_capacity, ◌==◌};
ghost use Rattle.std.specs.Option.{option_map};
ghost use Rattle.brd_queue.specs.Queue.{AreApart, has, entered, behind_equals, without, moved_behind, with_priority};
ghost use Rattle.brd_queue.specs.Queue.{renumbered, reordered, placed, is_empty, first_of};

mod saved;

use crate::entry::{QueueEntry, QueueOrder};
use crate::room::{MOST_TASKS, insert_within};
use brd_base::{NoMemory, Same, copy_with_room, same_slices};
pub use saved::SavedQueue;
use std::alloc::{AllocError, Global};
use std::marker::Model;

/// Tasks in the order in which they are served, none of them twice, each with what it wants. It has room for every task
/// that there can be, so only `new` takes memory.
#[derive(Drop)]
pub struct Queue<W> {
    entries: Vec<QueueEntry<W>>,
}

impl<W> Model for Queue<W> {
    ghost use Rattle.std.specs.Prelude.{◌≤◌, List, vec_capacity};
    ghost use Rattle.brd_queue.specs.Queue.{AreApart};
    ghost use Rattle.brd_queue.specs.declared.entry.QueueEntry.{QueueEntry};

    ghost Value = { List (QueueEntry W) };

    ghost view = { λ queue. queue.entries.items };

    ghost invariant = { λ queue. AreApart queue.entries.items × (256 ≤ vec_capacity queue.entries) };
}

impl<W: Same> Same for Queue<W> {
    fn same(&self, other: &Self) -> bool {
        same_slices(self.entries.as_slice(), other.entries.as_slice())
    }
}

impl<W: Copy> Clone for Queue<W> {
    ghost is_clone = { λ queue copy. copy ≡ queue };

    fn clone(&self) -> Result<Self, AllocError> {
        Ok(Queue {
            entries: copy_with_room(&self.entries, MOST_TASKS)?,
        })
    }
}

impl<W: Copy + Drop> Queue<W> {
    /// An empty queue.
    pub fn new(alloc: Global) -> Result<Self, NoMemory>
        ensures { IfOk result (λ queue. queue ≡ []) }
    {
        Ok(Queue {
            entries: Vec::with_capacity(alloc, MOST_TASKS)?,
        })
    }

    /// The entries in the order in which they are served.
    pub fn as_slice(&self) -> &[QueueEntry<W>]
        ensures { result.now ≡ self.now }
    {
        self.entries.as_slice()
    }

    /// Whether nobody stands in it.
    pub fn is_empty(&self) -> bool
        ensures { result ≡ is_empty self.now }
    {
        self.entries.is_empty()
    }

    /// The entry that is served next.
    pub fn first(&self) -> Option<QueueEntry<W>>
        ensures is { result ≡ first_of self.now }
        ensures small { IfSome result (λ entry. entry.id < 256) }
    {
        self.entries.as_slice().first().copied()
    }

    /// Whether a task stands in it.
    pub fn has(&self, id: u16) -> bool
        ensures { result ≡ has id self.now }
    {
        for entry in self.entries.as_slice() {
            if entry.id == id {
                return true;
            }
        }
        false
    }

    /// The entry of a task, where it stands in it.
    pub fn entry(&self, id: u16) -> Option<QueueEntry<W>>
        ensures is { result ≡ find (λ entry. entry.id == id) self.now }
        ensures small { IfSome result (λ entry. entry.id < 256) }
    {
        entry_of(self.entries.as_slice(), id)
    }

    /// Puts a task, which doesn't stand in it yet, where the order says. Answers before how many others it was put from
    /// the front.
    pub fn enter(&mut self, order: QueueOrder, entry: QueueEntry<W>) -> usize
        requires small { entry.id < 256 }
        requires new { has entry.id self.old ≡ false }
        ensures is { self.new ≡ entered order entry self.old }
        ensures place { self.new ≡ insert self.old result entry }
        ensures within { result ≤ length self.old }
        ensures few { length self.old < 256 }
    {
        let at = place_for(self.entries.as_slice(), order, entry);
        insert_within(&mut self.entries, at, entry);
        at
    }

    /// Serves the first entry, which leaves.
    pub fn serve(&mut self) -> Option<QueueEntry<W>>
        ensures is { self.new ≡ drop 1 self.old }
        ensures first { result ≡ first_of self.old }
        ensures small { IfSome result (λ entry. entry.id < 256) }
    {
        let first = self.first()?;
        let _ = self.entries.remove(0);
        Some(first)
    }

    /// Takes the entry at a place out.
    pub fn take(&mut self, at: usize) -> QueueEntry<W>
        requires { at < length self.old }
        ensures is { self.new ≡ remove self.old at }
        ensures entry { slice_get self.old at ≡ Some result }
        ensures small { result.id < 256 }
    {
        self.entries.remove(at)
    }

    /// Takes a task out, where it stands in it. Answers at which place it stood.
    pub fn leave(&mut self, id: u16) -> Option<usize>
        ensures is { self.new ≡ without id self.old }
        ensures gone { has id self.new ≡ false }
        ensures there { is_some result ≡ has id self.old }
        ensures stays { IfNone result (self.new ≡ self.old) }
        ensures place { IfSome result (λ at. (at < length self.old) × (self.new ≡ remove self.old at)) }
    {
        let at = place_with(self.entries.as_slice(), id)?;
        self.entries.remove(at);
        Some(at)
    }

    /// Puts a task where the order says; one that stands in it already leaves its old place.
    pub fn place(&mut self, order: QueueOrder, entry: QueueEntry<W>)
        requires { entry.id < 256 }
        ensures { self.new ≡ placed order entry self.old }
    {
        let _ = self.leave(entry.id);
        let _ = self.enter(order, entry);
    }

    /// Gives a task that stands in it a priority: by arrival it keeps its place, by priority it comes after its
    /// equals.
    pub fn reorder(&mut self, order: QueueOrder, id: u16, priority: u8)
        ensures { self.new ≡ reordered order id priority self.old }
    {
        match order {
            QueueOrder::Arrival => self.renumber(id, priority),
            QueueOrder::Priority => {
                let entry = with_priority(self.entry(id), priority);
                self.move_behind(entry);
            }
        }
    }

    /// Gives a task a priority at the place where it stands.
    fn renumber(&mut self, id: u16, priority: u8)
        ensures { self.new ≡ renumbered id priority self.old }
    {
        renumber(self.entries.as_mut_slice(), id, priority);
    }

    /// Puts the entry of a task, with a new priority perhaps, after its equals.
    fn move_behind(&mut self, entry: Option<QueueEntry<W>>)
        requires { IfSome entry (λ e. e.id < 256) }
        ensures { self.new ≡ moved_behind entry self.old }
    {
        if let Some(entry) = entry {
            self.place(QueueOrder::Priority, entry);
        }
    }
}

/// Gives a task a priority at the place where it stands.
fn renumber<W: Copy + Drop>(entries: &mut [QueueEntry<W>], id: u16, priority: u8)
    ensures { entries.new ≡ renumbered id priority entries.old }
{
    for entry in entries.iter_mut() {
        if entry.id == id {
            entry.priority = priority;
        }
    }
}

/// An entry, if there is one, with another priority.
fn with_priority<W: Copy + Drop>(
    entry: Option<QueueEntry<W>>,
    priority: u8,
) -> Option<QueueEntry<W>>
    ensures { result ≡ option_map (with_priority priority) entry }
{
    let entry = entry?;
    Some(QueueEntry { priority, ..entry })
}

/// The entry of a task.
fn entry_of<W: Copy + Drop>(entries: &[QueueEntry<W>], id: u16) -> Option<QueueEntry<W>>
    ensures { result ≡ find (λ entry. entry.id == id) entries.now }
{
    for entry in entries {
        if entry.id == id {
            return Some(*entry);
        }
    }
    None
}

/// How many entries stand before one that comes.
fn place_for<W: Copy + Drop>(
    entries: &[QueueEntry<W>],
    order: QueueOrder,
    entry: QueueEntry<W>,
) -> usize
    ensures within { result ≤ length entries.now }
    ensures is { insert entries.now result entry ≡ entered order entry entries.now }
{
    match order {
        QueueOrder::Arrival => entries.len(),
        QueueOrder::Priority => place_of(entries, entry),
    }
}

/// How many entries stand before one that comes by priority.
fn place_of<W: Copy + Drop>(entries: &[QueueEntry<W>], entry: QueueEntry<W>) -> usize
    ensures within { result ≤ length entries.now }
    ensures is { insert entries.now result entry ≡ behind_equals entry entries.now }
{
    for (i, other) in entries.iter().enumerate() {
        if entry.priority < other.priority {
            return i;
        }
    }
    entries.len()
}

/// The place of a task's entry.
fn place_with<W: Copy + Drop>(entries: &[QueueEntry<W>], id: u16) -> Option<usize>
    ensures within { IfSome result (λ at. at < length entries.now) }
    ensures is { IfSome result (λ at. AreApart entries.now → remove entries.now at ≡ without id entries.now) }
    ensures none { IfNone result (without id entries.now ≡ entries.now) }
    ensures there { is_some result ≡ has id entries.now }
{
    for (i, other) in entries.iter().enumerate() {
        if other.id == id {
            return Some(i);
        }
    }
    None
}
