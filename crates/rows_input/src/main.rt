//! Tries the rows on standard input (docs/dev/GATE.md, "Rows"): prints those that are answered otherwise than they say,
//! and how many there are. What a scene has said holds up to the next one.
//!
//! - `= NAME` begins a scene;
//! - `front TEXT` is what stands before the text of each configuration;
//! - `config ANSWER | TEXT` is a configuration, which is answered by `ok`, or by its fault and the fault's line;
//! - `journal ANSWER | LIMIT TEXT` is a journal of at most so many runs, which is answered by its byte order and its
//!   runs, each after a comma and a space, or by its fault. It is also written and read again, and made once more event
//!   by event and run by run;
//! - `s LINE` is a line of assembler source, `c LINE` one of the configuration;
//! - `build ANSWER` makes the board of both, and does 100 steps of processor 1. The answer has a letter for each (r
//!   `Ran`, c `Called`, o `Off`, - any other), and after a space the console, in which `\n` is a newline;
//! - `load ANSWER` does the same on a copy of the board that is loaded from the source's object file;
//! - `span FROM TO`, `lane processor|task NAME`, `slice LANE FROM TO KIND LABEL`, `mark LANE AT KIND LABEL`, `tick AT`,
//!   `first TICK`, `lock ID`, `hold LOCK CPU FROM TO`, `spin LANE ID FROM TO` and `turn CPU FROM TO` are parts of a
//!   timeline. KIND is a number, in the order in which the kinds are declared, LANE the number of a lane from 0 on, and
//!   LOCK that of a lock;
//! - `json` and `svg` print the picture of the timeline.
#![tactic(auto)]

mod config;
mod image;
mod journal;
mod timeline;

use anyhow::{Result, bail};
use brd_timeline::Timeline;
use config::config_answer;
use image::{built_answer, loaded_answer};
use journal::journal_answer;
use std::alloc::{AllocError, Global};
use std::io;
use std::io::{BufRead, BufReader, Write};
use test_help::{put_line, put_unescaped, row_of};
use timeline::{add, empty, picture};

/// What the rows of a scene have said so far.
#[derive(Drop)]
struct Scene {
    front: Vec<u8>,
    source: Vec<u8>,
    config: Vec<u8>,
    timeline: Timeline,
}

/// A scene that nothing is said of.
fn begun(alloc: Global) -> Scene {
    Scene {
        front: Vec::new(alloc),
        source: Vec::new(alloc),
        config: Vec::new(alloc),
        timeline: empty(alloc),
    }
}

/// What stands before each text from now on.
fn put_front(front: &mut Vec<u8>, text: &str) -> Result<(), AllocError> {
    front.clear();
    put_unescaped(front, text)
}

/// Takes what a row says of its scene. Answers whether it says something of it.
fn took(alloc: Global, scene: &mut Scene, word: &str, text: &str) -> Result<bool, AllocError> {
    match word {
        "=" => *scene = begun(alloc),
        "front" => put_front(&mut scene.front, text)?,
        "s" => put_line(&mut scene.source, text)?,
        "c" => put_line(&mut scene.config, text)?,
        _ => return add(alloc, &mut scene.timeline, word, text),
    }
    Ok(true)
}

/// What a row is answered. `None` where it asks nothing.
fn answer_to(alloc: Global, scene: &Scene, word: &str, text: &str) -> Result<Option<String>> {
    match word {
        "config" => Ok(Some(config_answer(alloc, &scene.front, text)?)),
        "journal" => Ok(journal_answer(alloc, text)?),
        "build" => Ok(Some(built_answer(alloc, &scene.source, &scene.config)?)),
        "load" => Ok(Some(loaded_answer(alloc, &scene.source, &scene.config)?)),
        _ => Ok(None),
    }
}

/// Prints a row's answer where it is another one than it says.
fn compare(
    rt: &(impl Print + AllocGlobal),
    scene: &Scene,
    word: &str,
    text: &str,
    line: &str,
) -> Result<()> {
    let (wanted, asked) = text.split_once(" | ").unwrap_or((text, ""));
    match answer_to(rt.alloc(), scene, word, asked)? {
        None => bail!("no row: {line}"),
        Some(answer) if answer.as_str() == wanted => Ok(()),
        Some(answer) => Ok(println!(rt; "{answer}, not {line}")?),
    }
}

/// Heeds a line. Answers whether it is a row that asks something.
fn heed(rt: &(impl Print + AllocGlobal), scene: &mut Scene, line: &str) -> Result<bool> {
    let Some((word, text)) = row_of(line) else {
        return Ok(false);
    };
    if took(rt.alloc(), scene, word, text)? {
        return Ok(false);
    }
    if word == "svg" || word == "json" {
        let shown = picture(rt.alloc(), &scene.timeline, word)?;
        io::writer(rt).write_all(&shown)?;
    } else {
        compare(rt, scene, word, text, line)?;
    }
    Ok(true)
}

/// Heeds each line of standard input.
fn heed_all(rt: &(impl Input + Print + AllocGlobal), scene: &mut Scene) -> Result<()> {
    let mut rows = 0u32;
    for line in BufReader::new(rt.alloc(), rt.reader())?.lines(rt.alloc()) {
        let line = line?;
        if heed(rt, scene, line.as_str())? {
            rows = rows.wrapping_add(1);
        }
    }
    Ok(println!(rt; "{rows} rows")?)
}

fn run(rt: &(impl Input + Print + AllocGlobal)) -> Result<()> {
    let mut scene = begun(rt.alloc());
    heed_all(rt, &mut scene)
}

fn main(rt: HostRuntime) -> Result<()> {
    run(&rt)
}
