//! The touches that are kept.

ghost use Rattle.std.specs.Prelude.{
  ◌≡◌,
  ◌≤◌,
  ◌<◌,
  ◌/◌,
  ◌%◌,
  ◌&&◌,
  ◌+◌,
  ℕ,
  [],
  length,
  Decides,
  IfSome,
  IfErr,
  IfOk,
  OnOk,
  Some,
  true,
};
ghost use Rattle.std.specs.List.{slice_get};
ghost use Rattle.brd_order.specs.declared.deed.Mark.{Mark as MarkOf};
ghost use Rattle.brd_order.specs.Races.{meets};
ghost use Rattle.brd_order.specs.Refusals.{MayRefuse};
ghost use Rattle.brd_order.specs.Marks.{AreLike, ComesIn, IsLast, IsUnknown, Replaces, TakesLater};
ghost use Rattle.brd_order.specs.Tables.{counts_of, marks_at, share_of};

use crate::clock::Clock;
use crate::deed::{Mark, Touch};
use crate::fault::OrderFault;
use brd_base::NoMemory;
use std::alloc::Global;

/// In how many shares the words are parted.
const SHARES: usize = 65_536;

/// How many touches are kept.
const MOST_MARKS: usize = 2_097_152;

/// The marks of some words.
#[derive(Drop)]
pub(crate) struct Share {
    pub(crate) marks: Vec<Mark>,
}

/// The marks of all words: of each strand and each kind of touch the last one.
#[derive(Drop)]
pub(crate) struct Marks {
    pub(crate) shares: Vec<Share>,
    pub(crate) count: usize,
}

impl Share {
    /// Puts a mark in the place of one that is like it, or at the end. Answers whether there is one more.
    fn put(&mut self, mark: Mark) -> Result<bool, NoMemory>
        ensures { OnOk result (Replaces mark self.old.marks.items self.new.marks.items) }
    {
        match find_like(self.marks.as_slice(), mark) {
            Some(i) => {
                self.marks[i] = mark;
                Ok(false)
            }
            None => {
                self.marks.push(mark)?;
                Ok(true)
            }
        }
    }
}

impl Marks {
    /// No word is touched.
    pub(crate) fn new(alloc: Global) -> Result<Marks, NoMemory>
        ensures none { IfOk result (λ marks. (word : ℕ) → marks_at marks.shares.items word ≡ []) }
        ensures count { IfOk result (λ marks. marks.count ≡ 0) }
        ensures shares { IfOk result (λ marks. length marks.shares.items ≡ 65536) }
    {
        let mut shares = Vec::new(alloc);
        for _ in 0..SHARES {
            shares.push(Share {
                marks: Vec::new(alloc),
            })?;
        }
        Ok(Marks { shares, count: 0 })
    }

    /// The last mark of a new one's word that meets it and isn't known to a clock.
    pub(crate) fn last_unknown(&self, clock: &Clock, new: Mark) -> Option<Mark>
        ensures { IsLast (counts_of clock.now) new (marks_at self.now.shares.items new.touch.word) result }
    {
        let share = share_of(new.touch.word);
        if share >= self.shares.len() {
            return None;
        }
        last_unknown(self.shares[share].marks.as_slice(), clock, new)
    }

    /// Puts a mark in the place of one that is like it, or with the others.
    pub(crate) fn put(&mut self, mark: Mark) -> Result<(), OrderFault>
        ensures comes { OnOk result (ComesIn mark (marks_at self.old.shares.items) (marks_at self.new.shares.items)) }
        ensures count { OnOk result (self.new.count ≤ self.old.count + 1) }
        ensures shares { OnOk result (length self.new.shares.items ≡ length self.old.shares.items) }
        ensures refuses { length self.old.shares.items ≡ 65536 → IfErr result (MayRefuse self.old.count) }
    {
        let share = share_of(mark.touch.word);
        if share >= self.shares.len() || self.count >= MOST_MARKS {
            return Err(OrderFault::TooManyTouches);
        }
        if self.shares[share].put(mark)? {
            self.count += 1;
        }
        Ok(())
    }
}

/// The share of a word.
fn share_of(word: u32) -> usize
    ensures { result ≡ share_of word }
{
    word as usize / 4 % SHARES
}

/// Whether two touches are of the same kind.
fn is_same(one: Touch, other: Touch) -> bool
    ensures { Decides result (one ≡ other) }
{
    one.word == other.word
        && one.from == other.from
        && one.to == other.to
        && one.stores == other.stores
        && one.synchronizes == other.synchronizes
}

/// The index of a mark that is like another one, if there is one.
fn find_like(marks: &[Mark], mark: Mark) -> Option<usize>
    ensures within { IfSome result (λ i. i < length marks.now) }
    ensures like { IfSome result (λ i. (m : MarkOf) → slice_get marks.now i ≡ Some m → AreLike m mark) }
{
    for i in 0..marks.len() {
        if marks[i].strand == mark.strand && is_same(marks[i].touch, mark.touch) {
            return Some(i);
        }
    }
    None
}

/// Whether two touches have a byte in common and one of them stores, unless both synchronize.
fn meets(one: Touch, other: Touch) -> bool
    ensures { result ≡ meets one other }
{
    one.word == other.word
        && one.from < other.to
        && other.from < one.to
        && (one.stores || other.stores)
        && !(one.synchronizes && other.synchronizes)
}

/// Whether a mark meets a new one and isn't known to a clock.
fn is_unknown(clock: &Clock, new: Mark, mark: Mark) -> bool
    ensures { Decides result (IsUnknown (counts_of clock.now) new mark) }
{
    meets(mark.touch, new.touch) && clock.count(mark.strand) <= mark.at
}

/// A mark in place of what was found, if it meets a new one, isn't known to a clock and is no earlier.
fn later_of(clock: &Clock, new: Mark, mark: Mark, found: Option<Mark>) -> Option<Mark>
    ensures { TakesLater (counts_of clock.now) new mark found result }
{
    if !is_unknown(clock, new, mark) {
        return found;
    }
    match found {
        Some(best) if mark.at < best.at => found,
        _ => Some(mark),
    }
}

/// Of some marks the last one that meets a new one and isn't known to a clock.
fn last_unknown(marks: &[Mark], clock: &Clock, new: Mark) -> Option<Mark>
    ensures { IsLast (counts_of clock.now) new marks.now result }
{
    let mut found = None;
    for i in 0..marks.len() {
        found = later_of(clock, new, marks[i], found);
    }
    found
}
