//! Rings by their numbers.

ghost use Rattle.std.specs.Prelude.{◌≡◌, Decides, ◌<◌, ℕ, true, false, [], ◌∷◌, ◌++◌, IfOk, length, replicate};
ghost use Rattle.std.specs.Prelude.{slice_set};
ghost use Rattle.brd_rings.specs.Rings.{ring_at, has, without, turned, head_of, IsApart};
ghost use Rattle.brd_rings.specs.Layout.{loose, head_after};
ghost use Rattle.brd_rings.specs.declared.link.Ring.TheVariants.{Empty};

use crate::link::{Link, Ring, link_before, unlink};
use brd_base::{NoMemory, copy_with_room, same_slices};
use std::alloc::{AllocError, Global};
use std::marker::Model;

/// Rings of nodes below 256, no node in two places. Each has its head, and each node the nodes after and before it.
/// Only `new` takes memory.
#[derive(Drop)]
pub struct Rings {
    heads: Vec<Ring>,
    links: Vec<Link>,
}

impl Model for Rings {
    ghost use Rattle.std.specs.Prelude.{ℕ, List};
    ghost use Rattle.brd_rings.specs.Layout.{rings_of, IsLinked};

    ghost Value = { List (List ℕ) };

    ghost view = { λ t. rings_of t.heads.items t.links.items };

    ghost invariant = { λ t. IsLinked t.heads.items t.links.items (rings_of t.heads.items t.links.items) };
}

impl Clone for Rings {
    ghost is_clone = { λ rings copy. copy ≡ rings };

    fn clone(&self) -> Result<Self, AllocError> {
        Ok(Rings {
            heads: copy_with_room(&self.heads, 0)?,
            links: copy_with_room(&self.links, 0)?,
        })
    }
}

impl Rings {
    /// Some number of rings in which nobody is.
    pub fn new(alloc: Global, count: usize) -> Result<Rings, NoMemory>
        ensures { IfOk result (λ rings. rings ≡ replicate count []) }
    {
        Ok(Rings {
            heads: empty_rings(alloc, count)?,
            links: no_links(alloc)?,
        })
    }

    /// Whether both are equal.
    pub fn same(&self, other: &Rings) -> bool
        ensures { Decides result (self.now ≡ other.now) }
    {
        same_slices(self.heads.as_slice(), other.heads.as_slice())
            && same_slices(self.links.as_slice(), other.links.as_slice())
    }

    /// What is always true of rings, for the proofs of those that hold them.
    pub fn are_apart(&self)
        ensures { IsApart self.now }
    {
        let _ = &self.heads;
    }

    /// The head of a ring, if anybody is in it.
    pub fn head(&self, ring: usize) -> Option<u8>
        requires { ring < length self.now }
        ensures { result ≡ head_of (ring_at self.now ring) }
    {
        match self.heads[ring] {
            Ring::Empty => None,
            Ring::From(head) => Some(head),
        }
    }

    /// Puts a node, which is in no ring yet, at the end of one.
    pub fn enter(&mut self, ring: usize, node: u8)
        requires within { ring < length self.old }
        requires new { (other : ℕ) → has node (ring_at self.old other) ≡ false }
        ensures { self.new ≡ slice_set self.old ring (ring_at self.old ring ++ node ∷ []) }
    {
        match self.heads[ring] {
            Ring::Empty => {
                self.heads[ring] = Ring::From(node);
                self.links[node as usize] = Link {
                    next: node,
                    previous: node,
                };
            }
            Ring::From(head) => link_before(&mut self.links, head, node),
        }
    }

    /// Takes a node out of its ring.
    pub fn leave(&mut self, ring: usize, node: u8)
        requires { has node (ring_at self.old ring) ≡ true }
        ensures { self.new ≡ slice_set self.old ring (without node (ring_at self.old ring)) }
    {
        self.heads[ring] = head_without(self.heads[ring], node, self.links[node as usize].next);
        unlink(&mut self.links, node);
    }

    /// Puts the head of a ring at its end.
    pub fn rotate(&mut self, ring: usize)
        requires { ring < length self.old }
        ensures { self.new ≡ slice_set self.old ring (turned (ring_at self.old ring)) }
    {
        let Ring::From(head) = self.heads[ring] else {
            return
        };
        self.heads[ring] = Ring::From(self.links[head as usize].next);
    }
}

/// The head of a ring that a node leaves after which another comes.
fn head_without(ring: Ring, node: u8, next: u8) -> Ring
    ensures { result ≡ head_after ring node next }
{
    match ring {
        Ring::Empty => Ring::Empty,
        Ring::From(head) if head != node => ring,
        Ring::From(_) if next == node => Ring::Empty,
        Ring::From(_) => Ring::From(next),
    }
}

/// Rings in which nobody is.
fn empty_rings(alloc: Global, count: usize) -> Result<Vec<Ring>, NoMemory>
    ensures { IfOk result (λ heads. heads.items ≡ replicate count Empty) }
{
    let mut heads = Vec::new(alloc);
    for _ in 0..count {
        heads.push(Ring::Empty)?;
    }
    Ok(heads)
}

/// Nodes that are in no ring.
fn no_links(alloc: Global) -> Result<Vec<Link>, NoMemory>
    ensures { IfOk result (λ links. links.items ≡ replicate 256 loose) }
{
    let mut links = Vec::new(alloc);
    for _ in 0..256u16 {
        links.push(Link {
            next: 0,
            previous: 0,
        })?;
    }
    Ok(links)
}
