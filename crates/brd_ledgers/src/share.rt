//! A processor's share.

ghost use Rattle.std.specs.Prelude.{◌≡◌, ◌≤◌};

use crate::ledger::{Eighth, Fifth, First, Fourth, Race, Second, Seventh, Sixth, Third};
use crate::tally::Hold;
use std::marker::Model;

/// The hold of one of the eight tallies.
#[derive(Drop)]
pub(crate) enum ShareToken<K: Race> {
    First(Hold<First<K>>),
    Second(Hold<Second<K>>),
    Third(Hold<Third<K>>),
    Fourth(Hold<Fourth<K>>),
    Fifth(Hold<Fifth<K>>),
    Sixth(Hold<Sixth<K>>),
    Seventh(Hold<Seventh<K>>),
    Eighth(Hold<Eighth<K>>),
}

/// What one processor's thread has counted. There is one for each processor, and only with it does the count grow.
#[derive(Drop)]
pub struct Share<K: Race> {
    pub(crate) token: ShareToken<K>,
}

impl<K: Race> Model for Share<K> {
    ghost use Rattle.brd_ledgers.specs.Shares.{Counted, cpu_of, count_of};

    ghost Value = { Counted };

    ghost view = { λ share. record { cpu = cpu_of share.token; count = count_of share.token } };
}

impl<K: Race> Share<K> {
    /// Whose it is: the processor's number, from 1 to 8.
    pub fn cpu(&self) -> u8
        ensures is { result ≡ self.now.cpu }
        ensures within { (1 ≤ result) × (result ≤ 8) }
    {
        match &self.token {
            ShareToken::First(_) => 1,
            ShareToken::Second(_) => 2,
            ShareToken::Third(_) => 3,
            ShareToken::Fourth(_) => 4,
            ShareToken::Fifth(_) => 5,
            ShareToken::Sixth(_) => 6,
            ShareToken::Seventh(_) => 7,
            ShareToken::Eighth(_) => 8,
        }
    }

    /// What it has counted.
    pub fn count(&self) -> u64
        ensures { result ≡ self.now.count }
    {
        match &self.token {
            ShareToken::First(hold) => hold.count(),
            ShareToken::Second(hold) => hold.count(),
            ShareToken::Third(hold) => hold.count(),
            ShareToken::Fourth(hold) => hold.count(),
            ShareToken::Fifth(hold) => hold.count(),
            ShareToken::Sixth(hold) => hold.count(),
            ShareToken::Seventh(hold) => hold.count(),
            ShareToken::Eighth(hold) => hold.count(),
        }
    }
}
