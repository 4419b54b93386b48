//! Laws of the changes, over every set of links: what a theorem about a whole run goes by.
ghost use Rattle.std.specs.Prelude.{◌≡◌, ℕ, ◌≤◌, ◌==◌, ◌&&◌, ◌||◌, not, if◌then◌else◌, List};
ghost use Rattle.std.specs.List.{list_any};
ghost use Rattle.brd_link.specs.LinkSet.{LinkSet, IsLinkSet, is_linked, linked_address, without, without_all};
ghost use Rattle.brd_link.specs.LinkSet.{with_link, is_same_block, after_store};

/// Which processors are linked to which addresses after a change, by who was before it.
pub fn pairs_after_a_change()
    // An LL of `cpu` at `address`.
    ensures set { (links : LinkSet) → (cpu address other linked : ℕ) →
        is_linked (with_link links cpu address) other linked
        ≡ (if other == cpu then address == linked else is_linked links other linked) }
    // The end of the link of `cpu`.
    ensures ended { (links : LinkSet) → (cpu other linked : ℕ) →
        is_linked (without links cpu) other linked
        ≡ (not (other == cpu) && is_linked links other linked) }
    // The end of the links of several.
    ensures all_ended { (links : LinkSet) → (cpus : List ℕ) → (other linked : ℕ) →
        is_linked (without_all links cpus) other linked
        ≡ (not (list_any (λ cpu. other == cpu) cpus) && is_linked links other linked) }
    // A store of `cpu` to `address`.
    ensures stored { (links : LinkSet) → (cpu address other linked : ℕ) →
        is_linked (after_store links cpu address) other linked
        ≡ ((other == cpu || not (is_same_block linked address)) && is_linked links other linked) }
{}

/// There is one list for each set of links, and each change gives that of its set.
pub fn one_list_for_a_set()
    ensures same { (a b : LinkSet) → IsLinkSet a → IsLinkSet b →
        ((cpu : ℕ) → linked_address a cpu ≡ linked_address b cpu) → a ≡ b }
    ensures set { (links : LinkSet) → (cpu address : ℕ) → 1 ≤ cpu → cpu ≤ 8 →
        IsLinkSet links → IsLinkSet (with_link links cpu address) }
    ensures ended { (links : LinkSet) → (cpu : ℕ) → IsLinkSet links → IsLinkSet (without links cpu) }
    ensures all_ended { (links : LinkSet) → (cpus : List ℕ) →
        IsLinkSet links → IsLinkSet (without_all links cpus) }
    ensures stored { (links : LinkSet) → (cpu address : ℕ) →
        IsLinkSet links → IsLinkSet (after_store links cpu address) }
{}
