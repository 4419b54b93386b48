//! Sets of addresses.

ghost use Rattle.std.specs.Prelude.{◌≡◌, ◌≤◌, Decides, Contains, [], length, take};
ghost use Rattle.brd_debug.specs.Marks.{most_addresses, is_marked, marked_within};

use brd_lanes::hits;
use std::marker::Model;

/// How many addresses a set has at most that come one by one (own choice).
pub const MOST_MARKS: usize = 64;

/// How many addresses a set has room for (own choice).
pub const MOST_ADDRESSES: usize = 512;

/// At most 512 addresses, to which none is added twice. They take no memory of their own.
#[derive(Drop)]
pub struct Marks {
    addresses: [u32; MOST_ADDRESSES],
    count: usize,
}

impl Model for Marks {
    ghost use Rattle.std.specs.Prelude.{ℕ, ◌≤◌, List, take};
    ghost use Rattle.brd_debug.specs.Marks.{most_addresses};

    ghost Value = { List ℕ };

    ghost view = { λ marks. take marks.count marks.addresses };

    ghost invariant = { λ marks. marks.count ≤ most_addresses };
}

impl Marks {
    /// No addresses.
    pub fn new() -> Marks
        ensures { result ≡ [] }
    {
        Marks {
            addresses: [0; MOST_ADDRESSES],
            count: 0,
        }
    }

    /// The addresses, in the order in which they came.
    pub fn as_slice(&self) -> &[u32]
        ensures is { result.now ≡ self.now }
        ensures few { length result.now ≤ most_addresses }
    {
        &self.addresses[..self.count]
    }

    /// Whether this address is one of them.
    pub fn has(&self, address: u32) -> bool
        ensures is { result ≡ is_marked self.now address }
        ensures has { Decides result (Contains self.now address) }
    {
        hits(self.as_slice(), address)
    }

    /// Adds an address, unless there are this many others. Answers whether it is one of them now.
    pub fn add(&mut self, address: u32, most: usize) -> bool
        requires { most ≤ most_addresses }
        ensures is { self.new ≡ marked_within most self.old address }
        ensures added { result ≡ is_marked self.new address }
    {
        if self.has(address) {
            return true;
        }
        if self.count >= most {
            return false;
        }
        self.addresses[self.count] = address;
        self.count += 1;
        true
    }
}
