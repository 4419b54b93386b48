//! Processors that are drawn by their weights.

ghost use Rattle.std.specs.Prelude.{◌≡◌, ◌^◌, ◌-◌, ◌<◌, ◌≤◌, length, min};
ghost use Rattle.std.specs.List.{sum};
ghost use Rattle.brd_schedule.specs.Steps as step;
ghost use Rattle.brd_schedule.specs.Steps.{drawn_on, state_of, words_from, words_of};

use rand::RngExt;
use rand_core::SeedableRng;
use rand_pcg::Pcg32;

/// Draws a processor, and keeps it for some steps.
#[derive(Drop)]
pub(crate) struct Drawn {
    rng: Pcg32,
    switch: u32,
    weights: [u32; 8],
    cpu: u8,
}

impl Drawn {
    /// Before the first step.
    pub(crate) fn new(seed: u64, switch: u32, weights: [u32; 8]) -> Self
        ensures state { state_of result ≡ step.drawn weights (words_from seed) }
        ensures switch { result.switch ≡ switch }
        ensures weights { result.weights ≡ weights }
    {
        let mut rng = Pcg32::seed_from_u64(seed);
        let cpu = draw(&mut rng, weights);
        Drawn {
            rng,
            switch,
            weights,
            cpu,
        }
    }

    /// The processor of the next step.
    #[tactic(auto, unfolding(crate::specs::Steps::drawn_on))]
    pub(crate) fn next(&mut self) -> u8
        ensures state { state_of self.new ≡ drawn_on self.old.switch self.old.weights (state_of self.old) }
        ensures switch { self.new.switch ≡ self.old.switch }
        ensures weights { self.new.weights ≡ self.old.weights }
        ensures cpu { result ≡ self.new.cpu }
    {
        if below(&mut self.rng, 1_000) < self.switch {
            self.cpu = draw(&mut self.rng, self.weights);
        }
        self.cpu
    }
}

/// A processor, counted from 1, by the weights of all.
#[tactic(auto, unfolding(crate::specs::Steps::drawn))]
fn draw(rng: &mut Pcg32, weights: [u32; 8]) -> u8
    ensures { (result, words_of rng.new) ≡ step.drawn weights (words_of rng.old) }
{
    let number = below(rng, total(weights.as_slice()).max(1));
    owner(weights.as_slice(), number)
}

/// The processor, counted from 1, to whose share of the weights a number belongs.
fn owner(weights: &[u32], number: u32) -> u8
    requires { length weights.now ≤ 8 }
    ensures { result ≡ step.owner 1 weights.now number }
{
    let mut left = number;
    let mut cpu = 1u8;
    for weight in weights {
        if left < *weight {
            return cpu;
        }
        left -= *weight;
        cpu += 1;
    }
    cpu
}

/// The sum of weights, or the greatest number of 32 bits where it is more.
fn total(weights: &[u32]) -> u32
    ensures { result ≡ min (sum weights.now) (2 ^ 32 - 1) }
{
    let mut total = 0u32;
    for weight in weights {
        total = total.saturating_add(*weight);
    }
    total
}

/// A number below this one, each as likely as each other.
#[tactic(auto, unfolding(crate::specs::Steps::below))]
pub(crate) fn below(rng: &mut Pcg32, end: u32) -> u32
    requires { 0 < end }
    ensures within { result < end }
    ensures drawn { (result, words_of rng.new) ≡ step.below end (words_of rng.old) }
{
    rng.random_range(0..end)
}
