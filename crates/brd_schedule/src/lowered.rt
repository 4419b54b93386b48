//! Processors by priorities that are lowered at random places.

ghost use Rattle.std.specs.Prelude.{◌≡◌, ◌^◌, ◌-◌, ◌<◌, ◌≤◌, ◌+◌, ◌∷◌, [], length, map, min, nat_le, ◌&&◌, IfOk};
ghost use Rattle.rand.specs.Shuffle.{shuffled};
ghost use Rattle.brd_schedule.specs.Steps as step;
ghost use Rattle.brd_schedule.specs.Steps.{changes_of, lowered_by, priorities_at_first, words_of};

use crate::drawn::below;
use brd_base::NoMemory;
use rand::seq::SliceRandom;
use rand_core::SeedableRng;
use rand_pcg::Pcg32;
use std::alloc::Global;

/// The priorities of the processors, and the steps before which one is lowered.
#[derive(Drop)]
pub(crate) struct Lowered {
    /// That of processor 1 first; a higher number is a higher priority.
    priorities: [u32; 8],
    /// The steps, counted from 0. The change of place i lowers a priority to i, which no processor begins with.
    changes: Vec<u32>,
}

impl Lowered {
    /// Before the first of n steps, with m changes.
    pub(crate) fn new(alloc: Global, seed: u64, changes: u32, steps: u32) -> Result<Self, NoMemory>
        ensures changes { IfOk result (λ lowered. lowered.changes.items ≡ (changes_of seed changes steps).0) }
        ensures count { IfOk result (λ lowered. length lowered.changes.items ≡ changes) }
        ensures priorities { IfOk result (λ lowered. lowered.priorities ≡ priorities_at_first seed changes steps) }
    {
        let mut rng = Pcg32::seed_from_u64(seed);
        let places = numbers(alloc, &mut rng, steps.max(1), changes)?;
        let priorities = priorities(&mut rng, changes);
        Ok(Lowered {
            priorities,
            changes: places,
        })
    }

    /// The processor, one of m, of the step after n others.
    pub(crate) fn next(&mut self, cpus: u8, steps: u32) -> u8
        requires { length self.old.changes.items < 2 ^ 32 }
        ensures changes { self.new.changes ≡ self.old.changes }
        ensures priorities { self.new.priorities ≡ lowered_by cpus steps 0 self.old.changes.items self.old.priorities }
        ensures cpu { result ≡ step.highest cpus self.new.priorities }
    {
        lower(
            self.priorities.as_mut_slice(),
            self.changes.as_slice(),
            cpus,
            steps,
        );
        highest(self.priorities.as_slice(), cpus)
    }
}

/// At each of the changes that is due before the step after n others, gives the highest priority of m processors the
/// number of the change, counted from 0.
fn lower(priorities: &mut [u32], changes: &[u32], cpus: u8, steps: u32)
    requires eight { length priorities.old ≡ 8 }
    requires few { length changes.now < 2 ^ 32 }
    ensures { priorities.new ≡ lowered_by cpus steps 0 changes.now priorities.old }
{
    let mut number = 0u32;
    for at in changes {
        if *at == steps {
            let cpu = highest(priorities, cpus);
            priorities[cpu as usize - 1] = number;
        }
        number += 1;
    }
}

/// So many numbers below this one.
fn numbers(alloc: Global, rng: &mut Pcg32, end: u32, count: u32) -> Result<Vec<u32>, NoMemory>
    requires { 0 < end }
    ensures drawn { IfOk result (λ drawn. (drawn.items, words_of rng.new) ≡ step.numbers end count (words_of rng.old)) }
    ensures count { IfOk result (λ drawn. length drawn.items ≡ count) }
{
    let mut drawn = Vec::new(alloc);
    for _ in 0..count {
        drawn.push(below(rng, end))?;
    }
    Ok(drawn)
}

/// The priorities of eight processors at first, each above all to which one is lowered.
fn priorities(rng: &mut Pcg32, changes: u32) -> [u32; 8]
    ensures { result ≡ map (λ number. min (number + changes) (2 ^ 32 - 1))
        (shuffled (0 ∷ 1 ∷ 2 ∷ 3 ∷ 4 ∷ 5 ∷ 6 ∷ 7 ∷ []) 0 (words_of rng.old)).0 }
{
    let mut priorities = [0u32, 1, 2, 3, 4, 5, 6, 7];
    priorities.as_mut_slice().shuffle(rng);
    raise(&mut priorities, changes);
    priorities
}

/// Raises each priority by so much, at most to the greatest number of 32 bits.
fn raise(priorities: &mut [u32], by: u32)
    ensures { priorities.new ≡ map (λ number. min (number + by) (2 ^ 32 - 1)) priorities.old }
{
    for priority in priorities.iter_mut() {
        *priority = priority.saturating_add(by);
    }
}

/// The processor of the highest priority, counted from 1, of n; the last of several.
#[tactic(auto, unfolding(crate::specs::Steps::highest))]
fn highest(priorities: &[u32], cpus: u8) -> u8
    requires { length priorities.now ≡ 8 }
    ensures is { result ≡ step.highest cpus priorities.now }
    ensures least { 1 ≤ result }
    ensures most { result ≤ 8 }
{
    let mut best = 1u8;
    let mut most = 0u32;
    let mut cpu = 1u8;
    for priority in priorities {
        if is_as_high(cpu, cpus, *priority, most) {
            best = cpu;
            most = *priority;
        }
        cpu += 1;
    }
    best
}

/// Whether a processor is one of n, and its priority at least as high as another.
fn is_as_high(cpu: u8, cpus: u8, priority: u32, other: u32) -> bool
    ensures { result ≡ (nat_le cpu cpus && nat_le other priority) }
{
    cpu <= cpus && priority >= other
}
