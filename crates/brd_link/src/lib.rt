//! The links of LL and SC: which processor may still store by SC, and at which address.
//!
//! A set of links is a finite set of pairs of a processor and an address, at most one pair for
//! each of the processors 1 to 8. MD00086 says at LL and SC what a link is for and leaves to the
//! implementation how large the block is whose store by another processor ends it: here 16 bytes,
//! aligned, which is an own choice. Each call takes no memory and answers whatever the address is.
#![tactic(auto)]

ghost use Rattle.std.specs.Prelude.{◌≡◌, ◌≢◌, ℕ, ◌≤◌, ◌<◌, ◌↔◌, ◌==◌, if◌then◌else◌, IsTrue, Some, None, []};
ghost use Rattle.std.specs.Prelude.{slice_index};
ghost use Rattle.std.specs.Int.{bit_at};
ghost use Rattle.brd_link.specs.LinkSet.{IsLinkSet, is_linked, linked_address, without, with_link, after_store};
ghost use Rattle.brd_link.specs.LinkSet.{outside_block};

pub mod laws;

use brd_lanes::break_links;
use std::marker::Model;

const PROCESSORS: usize = 8;

/// The bytes of the block in which a store by another processor ends a link.
const BLOCK: u32 = 16;

/// The links of the processors 1 to 8, at most one for each.
///
/// Bit j of `mask` says whether processor j + 1 has one, to the address `addresses[j]`. The address of
/// a processor without a link is 0, so equal sets have equal fields.
#[derive(Clone, Copy)]
pub struct Links {
    addresses: [u32; PROCESSORS],
    mask: u8,
}

impl Model for Links {
    ghost use Rattle.brd_link.specs.LinkSet.{LinkSet};
    ghost use Rattle.brd_link.specs.Layout.{links_of, addresses_in, mask_in, IsLayout};
    ghost use Rattle.brd_link.specs.LayoutBack.{addresses_in-links_of, mask_in-links_of};

    ghost Value = { LinkSet };

    ghost view = { λ a. links_of a.addresses a.mask };

    ghost invariant = { λ a. IsLayout a.addresses a.mask };

    ghost inverse = { λ links. record { addresses = addresses_in links; mask = mask_in links } };

    ghost inverse_ok = { λ a is i. record {
      addresses = addresses_in-links_of a.addresses a.mask is i;
      mask = mask_in-links_of a.addresses a.mask is i;
    } };
}

impl PartialEq for Links {
    ghost use Rattle.std.proofs.Common.{rules};
    ghost use Rattle.std.specs.Cmp.Lexicographic.{pointwise, lists_per};
    ghost use Rattle.std.specs.Cmp.Rules.{comparing};
    ghost use Rattle.brd_link.specs.LinkSet.{is_same_link};

    ghost eq = { pointwise is_same_link };

    ghost laws = { lists_per (Prim.search (comparing, rules)) };

    /// Whether the sets are the same, that is, the link of each processor.
    fn eq(&self, other: &Links) -> bool
        ensures value { result ≡ pointwise is_same_link self.now other.now }
        ensures same { IsTrue result ↔ (self.now ≡ other.now) }
        ensures by_state { IsTrue result ↔
            ((cpu : ℕ) → linked_address self.now cpu ≡ linked_address other.now cpu) }
    {
        self.mask == other.mask && self.addresses == other.addresses
    }
}

impl Eq for Links {
    ghost use Rattle.std.proofs.Common.{rules};
    ghost use Rattle.std.specs.Cmp.Lexicographic.{lists_equiv};
    ghost use Rattle.std.specs.Cmp.Rules.{comparing};

    ghost laws = { lists_equiv (Prim.search (comparing, rules)) };
}

impl Links {
    /// No links.
    pub fn new() -> Self
        ensures { result ≡ [] }
    {
        Links {
            addresses: [0; PROCESSORS],
            mask: 0,
        }
    }

    /// The processor's link is now to `address`, as after an LL. Any address will do.
    pub fn set(&mut self, cpu: u8, address: u32)
        requires { (1 ≤ cpu) × (cpu ≤ 8) }
        ensures links { self.new ≡ with_link self.old cpu address }
        ensures own { linked_address self.new cpu ≡ Some address }
        ensures others { (other : ℕ) → other ≢ cpu →
            linked_address self.new other ≡ linked_address self.old other }
    {
        let index = cpu - 1;
        self.addresses[index as usize] = address;
        self.mask |= 1 << index;
    }

    /// Ends the processor's link, as an SC does, and says whether it was to `address`.
    pub fn take(&mut self, cpu: u8, address: u32) -> bool
        requires { (1 ≤ cpu) × (cpu ≤ 8) }
        ensures answer { result ≡ is_linked self.old cpu address }
        ensures links { self.new ≡ without self.old cpu }
        ensures own { linked_address self.new cpu ≡ None }
        ensures others { (other : ℕ) → other ≢ cpu →
            linked_address self.new other ≡ linked_address self.old other }
    {
        let link = self.state(cpu);
        self.end(cpu);
        link == Some(address)
    }

    /// Ends the processor's link, if it has one.
    pub fn end(&mut self, cpu: u8)
        requires { (1 ≤ cpu) × (cpu ≤ 8) }
        ensures links { self.new ≡ without self.old cpu }
        ensures own { linked_address self.new cpu ≡ None }
        ensures others { (other : ℕ) → other ≢ cpu →
            linked_address self.new other ≡ linked_address self.old other }
    {
        let index = cpu - 1;
        self.addresses[index as usize] = 0;
        self.mask &= !(1 << index);
    }

    /// A store of the processor to `address` ends each link of another processor to an address of the
    /// block of 16 bytes that holds `address`. A processor's own stores leave its link.
    pub fn stored(&mut self, cpu: u8, address: u32)
        requires { (1 ≤ cpu) × (cpu ≤ 8) }
        ensures links { self.new ≡ after_store self.old cpu address }
        ensures own { linked_address self.new cpu ≡ linked_address self.old cpu }
        ensures others { (other : ℕ) → other ≢ cpu →
            linked_address self.new other ≡ outside_block address (linked_address self.old other) }
    {
        if self.mask == 0 {
            return;
        }
        let kept = break_links(&self.addresses, self.mask, address / BLOCK * BLOCK, cpu - 1);
        if kept == self.mask {
            return;
        }
        erase_unless(&mut self.addresses, kept);
        self.mask = kept;
    }

    /// The address of the processor's link, if it has one.
    pub fn state(&self, cpu: u8) -> Option<u32>
        requires { (1 ≤ cpu) × (cpu ≤ 8) }
        ensures address { result ≡ linked_address self.now cpu }
        ensures pair { (address : ℕ) → IsTrue (is_linked self.now cpu address) ↔ (result ≡ Some address) }
        ensures ordered { IsLinkSet self.now }
    {
        let index = cpu - 1;
        if self.mask >> index & 1 == 0 {
            return None;
        }
        Some(self.addresses[index as usize])
    }
}

/// The addresses whose bit is set in `kept`, and 0 in place of the others.
fn erase_unless(addresses: &mut [u32; PROCESSORS], kept: u8)
    ensures { (j : ℕ) → j < 8 → slice_index addresses.new j ≡
        (if bit_at kept j == 1 then slice_index addresses.old j else 0) }
{
    for (index, address) in addresses.iter_mut().enumerate() {
        if kept >> index & 1 == 0 {
            *address = 0;
        }
    }
}
