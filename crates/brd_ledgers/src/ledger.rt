//! Which ledgers count for a station: one for each processor that there may be.

use std::marker::{Brand, PhantomData};
use std::sync::ledger::Ledger;

/// The names of a station's ledgers, by processor.
pub trait Race {
    ghost use Rattle.std.specs.Prelude.{ℕ};

    ghost names: { ℕ → ℕ };
}

/// The names are any: whoever opens books of `Brand` chooses, in a proof, those of the blanks that it opens them of.
impl Race for Brand {
    ghost names = { λ _. 0 };
}

/// The ledger of processor 1.
pub struct First<K: Race> {
    of: PhantomData<K>,
}

impl<K: Race> Ledger for First<K> {
    ghost name = { K.names 1 };

    ghost parts = { 1 };
}

/// The ledger of processor 2.
pub struct Second<K: Race> {
    of: PhantomData<K>,
}

impl<K: Race> Ledger for Second<K> {
    ghost name = { K.names 2 };

    ghost parts = { 1 };
}

/// The ledger of processor 3.
pub struct Third<K: Race> {
    of: PhantomData<K>,
}

impl<K: Race> Ledger for Third<K> {
    ghost name = { K.names 3 };

    ghost parts = { 1 };
}

/// The ledger of processor 4.
pub struct Fourth<K: Race> {
    of: PhantomData<K>,
}

impl<K: Race> Ledger for Fourth<K> {
    ghost name = { K.names 4 };

    ghost parts = { 1 };
}

/// The ledger of processor 5.
pub struct Fifth<K: Race> {
    of: PhantomData<K>,
}

impl<K: Race> Ledger for Fifth<K> {
    ghost name = { K.names 5 };

    ghost parts = { 1 };
}

/// The ledger of processor 6.
pub struct Sixth<K: Race> {
    of: PhantomData<K>,
}

impl<K: Race> Ledger for Sixth<K> {
    ghost name = { K.names 6 };

    ghost parts = { 1 };
}

/// The ledger of processor 7.
pub struct Seventh<K: Race> {
    of: PhantomData<K>,
}

impl<K: Race> Ledger for Seventh<K> {
    ghost name = { K.names 7 };

    ghost parts = { 1 };
}

/// The ledger of processor 8.
pub struct Eighth<K: Race> {
    of: PhantomData<K>,
}

impl<K: Race> Ledger for Eighth<K> {
    ghost name = { K.names 8 };

    ghost parts = { 1 };
}
