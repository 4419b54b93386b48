//! The inputs of a command over a board, of which one fails, or never ends.

use super::fakes::{Busy, Bytewise};
use brd_inputs::Inputs;

/// Inputs of which the one of this place fails at the read of this number; none where that is 0.
pub fn failing<'a>(inputs: [&'a [u8]; 3], place: usize, fails_at: usize) -> Inputs<Bytewise<'a>> {
    let [image, config, last] = inputs;
    let mut image = Bytewise::new(image);
    let mut config = Bytewise::new(config);
    let mut last = Bytewise::new(last);
    match place {
        0 => image.fails_at = fails_at,
        1 => config.fails_at = fails_at,
        _ => last.fails_at = fails_at,
    }
    Inputs {
        image,
        config,
        last,
    }
}

/// Inputs of which the one of this place never ends.
pub fn endless<'a>(inputs: [&'a [u8]; 3], place: usize) -> Inputs<Busy<'a>> {
    let [image, config, last] = inputs;
    Inputs {
        image: Busy::new(image, place != 0),
        config: Busy::new(config, place != 1),
        last: Busy::new(last, place != 2),
    }
}

/// How often the input of this place was read.
pub fn reads_of(inputs: &Inputs<Busy<'_>>, place: usize) -> u32 {
    match place {
        0 => inputs.image.reads,
        1 => inputs.config.reads,
        _ => inputs.last.reads,
    }
}
