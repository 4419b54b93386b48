//! How long long sources take. `bench_asm` alone says what it finds in short ones; `bench_asm time` assembles a source
//! of 1 MiB, 16 MiB of zeros, 65,534 segments in ascending and in descending order, 100,000 names, and 50,000 labels as
//! they come and 50,000 chosen to be found slowly, and prints times too.
#![tactic(auto)]

use brd_asm::{AsmFault, assemble};
use brd_mem::Image;
use std::alloc::{AllocError, Global};
use std::hash::{FoldHasher, Hasher};
use std::time::Instant;
use std::{env, io};

/// Instructions with names, comments and numbers, of about n bytes.
fn instructions(alloc: Global, size: usize) -> Result<String, AllocError> {
    let mut text = String::from_str(alloc, "_start:\n")?;
    for i in 0..size {
        if text.len() >= size {
            break;
        }
        let block = format!(in alloc;
            "l{i}: lui $t0, %hi(l{i})\n\taddiu $t0, $t0, %lo(l{i})  # its address\n\tbne $t0, $zero, l{i}\n\tnop\n\t.word {i}, l{i}+4\n"
        )?;
        text.push_str(block.as_str())?;
    }
    Ok(text)
}

/// How many words there are at most: as many as an object file can have segments.
const MOST_WORDS: u32 = 65_534;

/// As many words, each apart from the others: eight bytes apart, upward, or from the last one down.
fn islands(alloc: Global, count: u32, downward: bool) -> Result<String, AllocError> {
    let mut text = String::from_str(alloc, ".equ ram, 0x80000000\n")?;
    for i in 0..count.min(MOST_WORDS) {
        let place = if downward { MOST_WORDS - i } else { i };
        let line = format!(in alloc; ".org ram+{}\n.word {i}\n", 8 * place)?;
        text.push_str(line.as_str())?;
    }
    Ok(text)
}

/// As many names, each with the value of the one before it and one more.
fn chain(alloc: Global, count: u32) -> Result<String, AllocError> {
    let mut text = String::from_str(alloc, ".equ n0, 0\n")?;
    for i in 1..count {
        let line = format!(in alloc; ".equ n{i}, n{}+1\n", i - 1)?;
        text.push_str(line.as_str())?;
    }
    Ok(text)
}

/// A label without its last letter, as a number says: its first letter comes from the last digit.
fn front(number: u32) -> [u8; 7] {
    let mut letters = [b'a'; 7];
    let mut left = number;
    for letter in letters.iter_mut() {
        *letter = b'a' + (left % 26) as u8;
        left /= 26;
    }
    letters
}

/// The hash of what a map by std's usual hasher, whose seed is fixed, hashes of a label, up to its last letter.
fn front_hash(letters: &[u8]) -> FoldHasher {
    let mut hasher = FoldHasher::default();
    hasher.write_usize(letters.len() + 1);
    for letter in letters {
        hasher.write_u8(*letter);
    }
    hasher
}

/// Whether that map would look for a label from the first of its 8,192 groups on.
fn is_chosen(front: FoldHasher, letter: u8) -> bool {
    let mut hasher = front;
    hasher.write_u8(letter);
    let hash = hasher.finish();
    (hash ^ (hash >> 32)) % 8192 == 0
}

/// Puts a line with a label.
fn put_label(text: &mut String, front: &[u8], last: u8) -> Result<(), AllocError> {
    for letter in front {
        text.push(char::from(*letter))?;
    }
    text.push(char::from(last))?;
    text.push_str(":\n")
}

/// Puts the labels that begin as a number says, all or the chosen ones, as long as the text is shorter than `size`.
fn put_labels(text: &mut String, number: u32, size: usize, chosen: bool) -> Result<(), AllocError> {
    let letters = front(number);
    let hash = front_hash(&letters);
    for last in b'a'..=b'z' {
        if text.len() < size && (!chosen || is_chosen(hash, last)) {
            put_label(text, &letters, last)?;
        }
    }
    Ok(())
}

/// As many labels of eight letters: all as they come, or those that a map with a fixed seed would look for in turn.
fn labels(alloc: Global, count: u32, chosen: bool) -> Result<String, AllocError> {
    let size = 10 * (count as usize);
    let mut text = String::new(alloc);
    for number in 0..u32::MAX {
        if text.len() >= size {
            break;
        }
        put_labels(&mut text, number, size, chosen)?;
    }
    Ok(text)
}

fn report(
    rt: &impl Print,
    name: &str,
    size: usize,
    answer: &Result<Image, AsmFault>,
) -> io::Result<()> {
    match answer {
        Ok(image) => {
            let segments = image.segments.as_slice().len();
            let symbols = image.symbols.as_slice().len();
            println!(rt; "{name}, {size} bytes: {segments} segments, {symbols} symbols")
        }
        Err(fault) => println!(rt; "{name}, {size} bytes: {fault}"),
    }
}

fn run(
    rt: &(impl Print + AllocGlobal + std::rt::Clock),
    name: &str,
    text: &str,
    timed: bool,
) -> io::Result<()> {
    let start = Instant::now(rt)?;
    let answer = assemble(rt.alloc(), text.as_bytes());
    let took = start.elapsed(rt)?.as_micros();
    report(rt, name, text.len(), &answer)?;
    if timed {
        println!(rt; "{took} microseconds")?;
    }
    Ok(())
}

fn all(rt: &(impl Print + AllocGlobal + std::rt::Clock), timed: bool) -> io::Result<()> {
    let size = if timed { 1 << 20 } else { 1 << 12 };
    let count = if timed { 65_534 } else { 64 };
    let text = instructions(rt.alloc(), size)?;
    run(rt, "instructions", text.as_str(), timed)?;
    run(rt, "zeros", ".space 16777216\n", timed)?;
    let text = islands(rt.alloc(), count, false)?;
    run(rt, "upward", text.as_str(), timed)?;
    let text = islands(rt.alloc(), count, true)?;
    run(rt, "downward", text.as_str(), timed)?;
    let text = chain(rt.alloc(), if timed { 100_000 } else { 64 })?;
    run(rt, "names", text.as_str(), timed)?;
    let count = if timed { 50_000 } else { 64 };
    let text = labels(rt.alloc(), count, false)?;
    run(rt, "labels", text.as_str(), timed)?;
    let text = labels(rt.alloc(), count, true)?;
    run(rt, "chosen labels", text.as_str(), timed)
}

fn main(rt: HostRuntime) -> io::Result<()> {
    let mut timed = false;
    for argument in env::args(&rt)? {
        timed = argument.as_str() == "time";
    }
    all(&rt, timed)
}
