//! The inputs of the benchmark.
use crate::plain;
use brd_lanes::{break_links, first_match, hits, next_due, same_words};
use std::io;

pub(crate) const MOST: usize = 256;

/// Inputs on which no scan of the whole finds anything.
#[derive(Drop)]
pub(crate) struct Bed {
    /// Waits for all of the bits 3 and for some of the bits 2 in turn.
    pub(crate) pats: [u32; MOST],
    pub(crate) or_modes: [u32; MOST],
    pub(crate) dues: [u64; MOST],
    pub(crate) words: [u32; MOST],
    pub(crate) copy: [u32; MOST],
    pub(crate) second_copy: [u32; MOST],
    pub(crate) links: [u32; 8],
}

impl Bed {
    pub(crate) fn new() -> Bed {
        let mut bed = Bed {
            pats: [3; MOST],
            or_modes: [0; MOST],
            dues: [1 << 62; MOST],
            words: [0; MOST],
            copy: [0; MOST],
            second_copy: [0; MOST],
            links: [0x8000_1000; 8],
        };
        for i in 0..MOST {
            if i % 2 == 1 {
                bed.pats[i] = 2;
                bed.or_modes[i] = 1;
            }
            bed.words[i] = i as u32;
            bed.copy[i] = i as u32;
            bed.second_copy[i] = i as u32;
        }
        bed
    }
}

/// Prints what each scan and its plain loop answer, of 255 elements of which the last is the only hit.
pub(crate) fn print_answers(rt: &impl Print) -> io::Result<()> {
    let mut bed = Bed::new();
    bed.pats[254] = 4;
    bed.dues[254] = 7;
    bed.words[254] = 0x8000_0000;
    let pats = &bed.pats[..255];
    let or_modes = &bed.or_modes[..255];
    let dues = &bed.dues[..255];
    let words = &bed.words[..255];
    let copy = &bed.copy[..255];
    let lanes = first_match(pats, or_modes, 4, 0);
    println!(rt;
        "first_match {lanes:?}, plain {:?}",
        plain::first_match(pats, or_modes, 4, 0)
    )?;
    let lanes = next_due(dues, 7, 0);
    println!(rt;
        "next_due {lanes:?}, plain {:?}",
        plain::next_due(dues, 7, 0)
    )?;
    let lanes = break_links(&bed.links, 0xff, 0x8000_1000, 3);
    let alone = plain::break_links(&bed.links, 0xff, 0x8000_1000, 3);
    println!(rt; "break_links {lanes}, plain {alone}")?;
    let lanes = same_words(words, copy);
    println!(rt;
        "same_words {lanes}, plain {}",
        plain::same_words(words, copy)
    )?;
    let lanes = hits(words, 0x8000_0000);
    println!(rt; "hits {lanes}, plain {}", plain::hits(words, 0x8000_0000))
}
