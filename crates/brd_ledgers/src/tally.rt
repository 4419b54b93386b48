//! A tally, and what one thread has counted of it.

ghost use Rattle.std.specs.Prelude.{◌≡◌, ◌+◌, ◌<◌, ◌^◌};

use std::marker::Model;
use std::sync::ledger::{Blank, Book, Ledger, Share};

/// A count that lies with what several threads share.
#[derive(Drop)]
pub struct Tally<L: Ledger> {
    book: Book<L>,
    count: u64,
}

impl<L: Ledger> Model for Tally<L> {
    ghost use Rattle.std.specs.Prelude.{◌≡◌, ℕ};

    ghost Value = { ℕ };

    ghost view = { λ tally. tally.count };

    ghost invariant = { λ tally. tally.book.total ≡ tally.count };
}

/// The same count, as the thread keeps it that alone adds to the tally.
#[derive(Drop)]
pub struct Hold<L: Ledger> {
    share: Share<L>,
    count: u64,
}

impl<L: Ledger> Model for Hold<L> {
    ghost use Rattle.std.specs.Prelude.{◌≡◌, ℕ};

    ghost Value = { ℕ };

    ghost view = { λ hold. hold.count };

    ghost invariant = { λ hold. (hold.share.parts ≡ 1) × (hold.share.amount ≡ hold.count) };
}

/// A tally that has counted nothing, and its one hold.
pub fn opened<L: Ledger>(blank: Blank) -> (Tally<L>, Hold<L>)
    requires name { blank.name ≡ L.name }
    requires parts { (blank.parts ≡ 1) × (L.parts ≡ 1) }
    ensures tally { result.0 ≡ 0 }
    ensures hold { result.1 ≡ 0 }
{
    let (book, share) = blank.open::<L>();
    (Tally { book, count: 0 }, Hold { share, count: 0 })
}

impl<L: Ledger> Tally<L> {
    /// What it has counted.
    pub fn count(&self) -> u64
        ensures { result ≡ self.now }
    {
        self.count
    }

    /// Counts more, here and in its hold.
    pub fn add(&mut self, hold: &mut Hold<L>, more: u32)
        requires parts { L.parts ≡ 1 }
        requires room { self.old + more < 2 ^ 64 }
        ensures same { self.old ≡ hold.old }
        ensures tally { self.new ≡ self.old + more }
        ensures hold { hold.new ≡ hold.old + more }
    {
        self.book.audit(&mut hold.share);
        self.book.add(&mut hold.share, u64::from(more));
        self.count += u64::from(more);
        hold.count += u64::from(more);
    }

    /// Changes nothing, and shows that its hold has counted the same.
    pub fn audit(&mut self, hold: &mut Hold<L>)
        requires parts { L.parts ≡ 1 }
        ensures same { self.old ≡ hold.old }
        ensures tally { self.new ≡ self.old }
        ensures hold { hold.new ≡ hold.old }
    {
        self.book.audit(&mut hold.share);
    }
}

impl<L: Ledger> Hold<L> {
    /// What it has counted.
    pub fn count(&self) -> u64
        ensures { result ≡ self.now }
    {
        self.count
    }
}
