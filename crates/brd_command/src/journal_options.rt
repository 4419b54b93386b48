//! The options of `journal`.

ghost use Rattle.std.specs.Prelude.{◌≡◌, ◌<◌, ◌≤◌, ◌==◌, ◌∷◌, length, option_map, replicate, IfSome, MatchResult};
ghost use Rattle.std.specs.List.{list_all, list_any, position_or_len};
ghost use Rattle.brd_command.specs.JournalCommand.{AreOfOneWay, IsOfRaises, IsOfRule, IsOfWeights, IsRule};
ghost use Rattle.brd_command.specs.JournalTexts as texts;
ghost use Rattle.brd_command.specs.JournalTexts.{SaysRaises, SaysWeights, eight};

use brd_inputs::ScheduleFault;
use brd_schedule::{MOST_CHANGES, Raise, Rule};
use brd_text::{parted, piece, plain_decimal};
use brd_word::Order;
use std::alloc::Global;

/// The highest number of an interrupt line.
const MOST_LINE: u64 = 255;

/// The greatest number of an event.
const MOST_EVENTS: u64 = 4_294_967_295;

/// The greatest weight.
const MOST_WEIGHT: u64 = 1_000_000;

/// Which journal is asked for, beside how many processors and events it has.
#[derive(Clone, Copy)]
pub struct JournalOptions<'a> {
    /// The byte order of the boards that it is for; None where what was given names none.
    pub order: Option<Order>,
    /// How many steps each processor takes in its turn.
    pub turn: Option<u32>,
    /// The seed of a journal that is drawn.
    pub seed: Option<u32>,
    /// The chance in a thousand that a processor is drawn before a step.
    pub switch: Option<u32>,
    /// The weights with which processors are drawn, with commas between them.
    pub weights: Option<&'a str>,
    /// How many changes of priorities there are.
    pub changes: Option<u32>,
    /// Each event whose number is a multiple of this is a tick; 0 for none.
    pub tick_every: u32,
    /// The lines that are raised, as `LINE@EVENT`, with commas between them.
    pub raises: Option<&'a str>,
}

/// How likely it is in a thousand that a processor is drawn before a step, unless it is said.
const USUAL_SWITCH: u32 = 500;

/// Who takes the steps of n processors.
pub(crate) fn rule_of(cpus: u8, options: &JournalOptions) -> Result<Rule, ScheduleFault>
    requires { cpus ≤ 8 }
    ensures { MatchResult result (λ rule. AreOfOneWay options.now × IsRule cpus options.now rule)
        (IsOfRule cpus options.now) }
{
    let is_drawn = options.switch.is_some() || options.weights.is_some();
    let Some(seed) = options.seed else {
        if is_drawn || options.changes.is_some() {
            return Err(ScheduleFault::NoSeed);
        }
        let each = options.turn.unwrap_or(1);
        return Ok(Rule::InTurns { each });
    };
    if options.turn.is_some() || (is_drawn && options.changes.is_some()) {
        return Err(ScheduleFault::Both);
    }
    let seed = seed as u64;
    if let Some(changes) = options.changes {
        if changes > MOST_CHANGES {
            return Err(ScheduleFault::Changes);
        }
        return Ok(Rule::Lowered { seed, changes });
    }
    let switch = options.switch.unwrap_or(USUAL_SWITCH);
    if switch > 1_000 {
        return Err(ScheduleFault::Switch);
    }
    match weights_of(cpus, options.weights) {
        Ok(weights) => Ok(Rule::Drawn {
            seed,
            switch,
            weights,
        }),
        Err(fault) => Err(fault),
    }
}

/// The weights of n processors that a text says: each 1 where there is none.
fn weights_of(cpus: u8, text: Option<&str>) -> Result<[u32; 8], ScheduleFault>
    requires { cpus ≤ 8 }
    ensures { MatchResult result (SaysWeights cpus (option_map (λ it. it.now) text.entry))
        (IsOfWeights cpus (option_map (λ it. it.now) text.entry)) }
{
    match text {
        Some(text) => weights_in(cpus, text.as_bytes()),
        None => Ok(alike(cpus)),
    }
}

/// The same weight for each of n processors.
fn alike(cpus: u8) -> [u32; 8]
    requires { cpus ≤ 8 }
    ensures { result ≡ eight cpus (replicate cpus 1) }
{
    let mut weights = [0u32; 8];
    for place in 0..cpus as usize {
        weights[place] = 1;
    }
    weights
}

/// The weights of n processors that a text says.
fn weights_in(cpus: u8, text: &[u8]) -> Result<[u32; 8], ScheduleFault>
    requires { cpus ≤ 8 }
    ensures { MatchResult result (SaysWeights cpus (Some text.now)) (IsOfWeights cpus (Some text.now)) }
{
    let mut weights = [0u32; 8];
    let mut rest = Some(text);
    for place in 0..cpus as usize {
        let Some(left) = rest else {
            return Err(ScheduleFault::Weights);
        };
        let (number, after) = piece(left);
        let Some(weight) = plain_decimal(number, MOST_WEIGHT) else {
            return Err(ScheduleFault::Weights);
        };
        weights[place] = weight as u32;
        rest = after;
    }
    if rest.is_some() || are_zero(weights.as_slice()) {
        return Err(ScheduleFault::Weights);
    }
    Ok(weights)
}

/// Whether each weight is 0.
fn are_zero(weights: &[u32]) -> bool
    ensures { result ≡ list_all (λ weight. weight == 0) weights.now }
{
    for weight in weights {
        if *weight != 0 {
            return false;
        }
    }
    true
}

/// The raises that a text says.
pub(crate) fn raises_of(alloc: Global, text: Option<&str>) -> Result<Vec<Raise>, ScheduleFault>
    ensures { MatchResult result (λ raises. SaysRaises (option_map (λ it. it.now) text.entry) raises.items)
        (IsOfRaises (option_map (λ it. it.now) text.entry)) }
{
    match text {
        Some(text) => raises_in(alloc, text.as_bytes()),
        None => Ok(Vec::new(alloc)),
    }
}

/// The raises that a text says.
fn raises_in(alloc: Global, text: &[u8]) -> Result<Vec<Raise>, ScheduleFault>
    ensures { MatchResult result (λ raises. SaysRaises (Some text.now) raises.items) (IsOfRaises (Some text.now)) }
{
    let mut raises = Vec::new(alloc);
    let mut rest = text;
    'pieces: loop {
        let (word, after) = piece(rest);
        let Some(raise) = raise_of(word) else {
            return Err(ScheduleFault::Raise);
        };
        if is_raised(raises.as_slice(), raise.at) {
            return Err(ScheduleFault::Raise);
        }
        let Ok(()) = raises.push(raise) else {
            return Err(ScheduleFault::NoMemory);
        };
        let Some(left) = after else {
            return Ok(raises);
        };
        rest = left;
    }
}

/// Whether a line is raised as the event of this number.
fn is_raised(raises: &[Raise], at: u32) -> bool
    ensures { result ≡ list_any (λ raise. raise.at == at) raises.now }
{
    for raise in raises {
        if raise.at == at {
            return true;
        }
    }
    false
}

/// The raise that `LINE@EVENT` says.
#[tactic(auto, unfolding(crate::specs::JournalTexts::raise_of))]
fn raise_of(word: &[u8]) -> Option<Raise>
    ensures { result ≡ texts.raise_of word.now }
{
    let (line, Some(event)) = parted(word, b'@') else {
        return None;
    };
    let Some(line) = plain_decimal(line, MOST_LINE) else {
        return None;
    };
    let Some(at) = plain_decimal(event, MOST_EVENTS) else {
        return None;
    };
    if at == 0 {
        return None;
    }
    Some(Raise {
        line: line as u8,
        at: at as u32,
    })
}
