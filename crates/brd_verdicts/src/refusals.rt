//! Service calls that were answered with an error, counted by kind.

ghost use Rattle.std.specs.Prelude.{◌≡◌, [], OnOk};
ghost use Rattle.std.specs.List.{position};
ghost use Rattle.brd_verdicts.specs.Refusals.{counted, one_more, refused_by, same_call, same_kind};

use crate::answers::{Answered, call_in};
use crate::changed::{old_at, put_at};
use brd_base::NoMemory;
use brd_happening::AskedCall;
use std::alloc::Global;
use std::marker::Model;

/// Calls of one number, or of numbers that no call has, with one answer.
#[derive(Clone, Copy)]
pub struct Refused {
    /// The first of them.
    pub call: AskedCall,
    /// The answer.
    pub code: u32,
    /// Where the first one was made.
    pub place: u32,
    /// The position of the event in which the first one was answered.
    pub position: u64,
    /// How many there were.
    pub count: u64,
}

/// Calls that were refused, each kind once. Contracts see them as their list.
#[derive(Drop)]
pub struct Refusals {
    kinds: Vec<Refused>,
}

impl Model for Refusals {
    ghost use Rattle.std.specs.Prelude.{List as Items};
    ghost use Rattle.brd_verdicts.specs.declared.refusals.Refused.{Refused};

    ghost Value = { Items Refused };

    ghost view = { λ refusals. refusals.kinds.items };
}

impl Refusals {
    /// None.
    pub(crate) fn new(alloc: Global) -> Refusals
        ensures { result ≡ [] }
    {
        Refusals {
            kinds: Vec::new(alloc),
        }
    }

    /// The kinds, in the order of their first calls.
    pub fn as_slice(&self) -> &[Refused]
        ensures { result.now ≡ self.now }
    {
        self.kinds.as_slice()
    }

    /// Counts one more.
    pub(crate) fn count(&mut self, new: Refused) -> Result<(), NoMemory>
        ensures { OnOk result (self.new ≡ counted new self.old) }
    {
        let kinds = self.kinds.as_slice();
        let at = kind_of(kinds, new);
        let old = old_at(kinds, at, new);
        put_at(&mut self.kinds, at, new, one_more(old))
    }
}

/// The same kind, with one more.
fn one_more(kind: Refused) -> Refused
    ensures { result ≡ one_more kind }
{
    Refused {
        count: kind.count.saturating_add(1),
        ..kind
    }
}

/// Where among these that is of the same kind.
fn kind_of(kinds: &[Refused], new: Refused) -> Option<usize>
    ensures { result ≡ position (λ old. same_kind old new) kinds.now }
{
    kinds.iter().position(|old| same_kind(*old, new))
}

/// Whether two are of one kind.
fn same_kind(one: Refused, other: Refused) -> bool
    ensures { result ≡ same_kind one other }
{
    one.code == other.code && same_call(one.call, other.call)
}

/// Whether two calls have one number, or numbers that no call has.
fn same_call(one: AskedCall, other: AskedCall) -> bool
    ensures { result ≡ same_call one other }
{
    one.number == other.number || (call_in(one).is_none() && call_in(other).is_none())
}

/// One that was answered in the event of a position.
pub(crate) fn refused_by(position: u64, it: Answered) -> Refused
    ensures { result ≡ refused_by position it }
{
    Refused {
        call: it.call,
        code: it.code,
        place: it.place,
        position,
        count: 1,
    }
}
