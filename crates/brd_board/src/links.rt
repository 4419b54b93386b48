//! Ending links.

ghost use Rattle.std.specs.Prelude.{◌≡◌, ◌≤◌, ◌-◌, ◌==◌, if◌then◌else◌, filter, ◌∷◌, []};
ghost use Rattle.std.specs.Int.{bit_at};
ghost use Rattle.brd_link.specs.LinkSet.{without, without_all};

use brd_link::Links;

/// Ends the link of each processor j + 1 whose bit j is set.
pub fn end_links(links: &mut Links, changed: u8)
    ensures { links.new
        ≡ without_all links.old (filter (λ cpu. bit_at changed (cpu - 1) == 1) (1 ∷ 2 ∷ 3 ∷ 4 ∷ 5 ∷ 6 ∷ 7 ∷ 8 ∷ [])) }
{
    for cpu in 1..9u8 {
        end_if(links, cpu, is_set(changed, cpu));
    }
}

/// Whether the bit of a processor is set: bit j is that of processor j + 1.
#[tactic(auto, using(std::proofs::lemmas::Nat::Bits::shr_and_one))]
fn is_set(changed: u8, cpu: u8) -> bool
    requires { (1 ≤ cpu) × (cpu ≤ 8) }
    ensures { result ≡ (bit_at changed (cpu - 1) == 1) }
{
    (changed >> (cpu - 1)) & 1 == 1
}

/// Ends the link of a processor, if its running task has become another.
fn end_if(links: &mut Links, cpu: u8, other: bool)
    requires { (1 ≤ cpu) × (cpu ≤ 8) }
    ensures { links.new ≡ (if other then without links.old cpu else links.old) }
{
    if other {
        links.end(cpu);
    }
}
