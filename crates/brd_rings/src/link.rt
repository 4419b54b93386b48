//! What is stored of a node and of a ring.

ghost use Rattle.std.specs.Prelude.{◌≡◌, length};
ghost use Rattle.brd_rings.specs.Layout.{with_next, with_previous, linked_before, unlinked};

use brd_base::Same;

/// The neighbours of a node in its ring; both are 0 where it is in none.
#[derive(Clone, Copy, PartialEq, Eq)]
pub struct Link {
    /// The node after it.
    pub next: u8,
    /// The node before it.
    pub previous: u8,
}

/// A ring by its head, from which the links lead to the others.
#[derive(Clone, Copy, PartialEq, Eq)]
pub enum Ring {
    /// Nobody is in it.
    Empty,
    /// This node is its head.
    From(u8),
}

impl Same for Link {
    fn same(&self, other: &Self) -> bool {
        *self == *other
    }
}

impl Same for Ring {
    fn same(&self, other: &Self) -> bool {
        *self == *other
    }
}

/// Links a node in before another, which after the last of a ring is its head.
pub fn link_before(links: &mut Vec<Link>, head: u8, node: u8)
    requires { length links.old.items ≡ 256 }
    ensures { links.new.items ≡ linked_before head node links.old.items }
{
    let last = links[head as usize].previous;
    set_next(links, last, node);
    set_previous(links, head, node);
    links[node as usize] = Link {
        next: head,
        previous: last,
    };
}

/// Links the neighbours of a node to each other, and the node to nobody.
pub fn unlink(links: &mut Vec<Link>, node: u8)
    requires { length links.old.items ≡ 256 }
    ensures { links.new.items ≡ unlinked node links.old.items }
{
    let Link { next, previous } = links[node as usize];
    set_next(links, previous, next);
    set_previous(links, next, previous);
    links[node as usize] = Link {
        next: 0,
        previous: 0,
    };
}

/// Another node comes after one.
fn set_next(links: &mut Vec<Link>, node: u8, next: u8)
    requires { length links.old.items ≡ 256 }
    ensures { links.new.items ≡ with_next node next links.old.items }
{
    let previous = links[node as usize].previous;
    links[node as usize] = Link { next, previous };
}

/// Another node comes before one.
fn set_previous(links: &mut Vec<Link>, node: u8, previous: u8)
    requires { length links.old.items ≡ 256 }
    ensures { links.new.items ≡ with_previous node previous links.old.items }
{
    let next = links[node as usize].next;
    links[node as usize] = Link { next, previous };
}
