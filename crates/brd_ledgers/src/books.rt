//! A station's books: a tally for each processor that there may be.

ghost use Rattle.std.specs.Prelude.{◌≡◌, ℕ, ◌+◌, ◌<◌, ◌≤◌, ◌^◌, ◌∷◌, [], length, slice_index_or, slice_set, vec_len};
ghost use Rattle.std.specs.Prelude.{Decides, IfOk};
ghost use Rattle.brd_ledgers.specs.Blanks.{AreOf};
ghost use Rattle.brd_ledgers.specs.Shares.{AreNew, IsOwn};

use crate::blanks::Blanks;
use crate::ledger::{Eighth, Fifth, First, Fourth, Race, Second, Seventh, Sixth, Third};
use crate::share::{Share, ShareToken};
use crate::tally::{Tally, opened};
use std::alloc::{AllocError, Global};
use std::marker::Model;

/// A tally for each processor that there may be. A contract sees it as the list of the counts, by the processors'
/// numbers.
#[derive(Drop)]
pub struct Books<K: Race> {
    first: Tally<First<K>>,
    second: Tally<Second<K>>,
    third: Tally<Third<K>>,
    fourth: Tally<Fourth<K>>,
    fifth: Tally<Fifth<K>>,
    sixth: Tally<Sixth<K>>,
    seventh: Tally<Seventh<K>>,
    eighth: Tally<Eighth<K>>,
}

impl<K: Race> Model for Books<K> {
    ghost use Rattle.std.specs.Prelude.{ℕ, List, [], ◌∷◌};

    ghost Value = { List ℕ };

    ghost view = { λ books. 0 ∷ books.first ∷ books.second ∷ books.third ∷ books.fourth ∷ books.fifth ∷ books.sixth
        ∷ books.seventh ∷ books.eighth ∷ [] };
}

/// Books that have counted nothing, and a share for each of the processors from 1 to `processors`.
pub fn open_books<K: Race>(
    alloc: Global,
    blanks: Blanks,
    processors: usize,
) -> Result<(Books<K>, Vec<Share<K>>), AllocError>
    requires blanks { AreOf K.names blanks }
    requires few { processors ≤ 8 }
    ensures books { IfOk result (λ r. (cpu : ℕ) → slice_index_or r.0 cpu 0 ≡ 0) }
    ensures len { IfOk result (λ r. vec_len r.1 ≡ processors) }
    ensures shares { IfOk result (λ r. AreNew r.1.items) }
{
    let Blanks {
        first,
        second,
        third,
        fourth,
        fifth,
        sixth,
        seventh,
        eighth,
    } = blanks;
    let (first, first_hold) = opened::<First<K>>(first);
    let (second, second_hold) = opened::<Second<K>>(second);
    let (third, third_hold) = opened::<Third<K>>(third);
    let (fourth, fourth_hold) = opened::<Fourth<K>>(fourth);
    let (fifth, fifth_hold) = opened::<Fifth<K>>(fifth);
    let (sixth, sixth_hold) = opened::<Sixth<K>>(sixth);
    let (seventh, seventh_hold) = opened::<Seventh<K>>(seventh);
    let (eighth, eighth_hold) = opened::<Eighth<K>>(eighth);
    let mut shares = Vec::with_capacity(alloc, 8)?;
    shares.push(Share {
        token: ShareToken::First(first_hold),
    })?;
    shares.push(Share {
        token: ShareToken::Second(second_hold),
    })?;
    shares.push(Share {
        token: ShareToken::Third(third_hold),
    })?;
    shares.push(Share {
        token: ShareToken::Fourth(fourth_hold),
    })?;
    shares.push(Share {
        token: ShareToken::Fifth(fifth_hold),
    })?;
    shares.push(Share {
        token: ShareToken::Sixth(sixth_hold),
    })?;
    shares.push(Share {
        token: ShareToken::Seventh(seventh_hold),
    })?;
    shares.push(Share {
        token: ShareToken::Eighth(eighth_hold),
    })?;
    shares.truncate(processors);
    let books = Books {
        first,
        second,
        third,
        fourth,
        fifth,
        sixth,
        seventh,
        eighth,
    };
    Ok((books, shares))
}

impl<K: Race> Books<K> {
    /// What has been counted for a processor: 0 where there may be none of that number.
    pub fn count(&self, cpu: u8) -> u64
        ensures { result ≡ slice_index_or self.now cpu 0 }
    {
        match cpu {
            1 => self.first.count(),
            2 => self.second.count(),
            3 => self.third.count(),
            4 => self.fourth.count(),
            5 => self.fifth.count(),
            6 => self.sixth.count(),
            7 => self.seventh.count(),
            8 => self.eighth.count(),
            _ => 0,
        }
    }

    /// How many numbers there are, with 0, for which nothing is counted.
    fn len(&self) -> u8
        ensures is { result ≡ length self.now }
        ensures first { (processors : ℕ) (cpu : ℕ) → cpu < 1 → IsOwn processors self.now cpu }
    {
        // For the proof alone: that what is counted for processor 0, which there is not, is 0.
        let _ = self.first.count();
        9
    }

    /// Whether nothing has been counted but for the processors from 1 to `processors`.
    pub fn are_of_first(&self, processors: usize) -> bool
        ensures { Decides result ((cpu : ℕ) → IsOwn processors self.now cpu) }
    {
        for cpu in 1..self.len() {
            if usize::from(cpu) > processors && self.count(cpu) > 0 {
                return false;
            }
        }
        true
    }

    /// Counts more for the processor whose share this is, here and in the share.
    pub fn add(&mut self, share: &mut Share<K>, more: u32)
        requires room { slice_index_or self.old share.old.cpu 0 + more < 2 ^ 64 }
        ensures same { slice_index_or self.old share.old.cpu 0 ≡ share.old.count }
        ensures books { self.new ≡ slice_set self.old share.old.cpu (slice_index_or self.old share.old.cpu 0 + more) }
        ensures within { share.old.cpu < length self.old }
        ensures share { share.new ≡ record share.old { count = share.old.count + more } }
    {
        match &mut share.token {
            ShareToken::First(hold) => self.first.add(hold, more),
            ShareToken::Second(hold) => self.second.add(hold, more),
            ShareToken::Third(hold) => self.third.add(hold, more),
            ShareToken::Fourth(hold) => self.fourth.add(hold, more),
            ShareToken::Fifth(hold) => self.fifth.add(hold, more),
            ShareToken::Sixth(hold) => self.sixth.add(hold, more),
            ShareToken::Seventh(hold) => self.seventh.add(hold, more),
            ShareToken::Eighth(hold) => self.eighth.add(hold, more),
        }
    }

    /// Changes nothing, and shows that a share has counted the same.
    pub fn audit(&mut self, share: &mut Share<K>)
        ensures same { slice_index_or self.old share.old.cpu 0 ≡ share.old.count }
        ensures books { self.new ≡ self.old }
        ensures share { share.new ≡ share.old }
    {
        match &mut share.token {
            ShareToken::First(hold) => self.first.audit(hold),
            ShareToken::Second(hold) => self.second.audit(hold),
            ShareToken::Third(hold) => self.third.audit(hold),
            ShareToken::Fourth(hold) => self.fourth.audit(hold),
            ShareToken::Fifth(hold) => self.fifth.audit(hold),
            ShareToken::Sixth(hold) => self.sixth.audit(hold),
            ShareToken::Seventh(hold) => self.seventh.audit(hold),
            ShareToken::Eighth(hold) => self.eighth.audit(hold),
        }
    }
}
