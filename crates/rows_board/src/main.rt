//! Prints what boards do. Standard input has rows (docs/dev/GATE.md, "Rows") of firmware and events, and is printed,
//! without source and configuration, with what each board shows:
//!
//! - `= NAME` begins anew, without source and configuration;
//! - `s LINE` is a line of assembler source, `c LINE` one of the configuration;
//! - `e EVENTS` boots the board, if it isn't yet, and does events, a byte each: a digit is a step of that processor, T
//!   a tick, `a` to `z` are raises of lines 0 to 25. After it stand the reports, a byte each (r `Ran`, c `Called`, f
//!   `Faulted`, i `Idle`, s `Stopped`, o `Off`, n `NoSuch`, t `Ticked`, O `TimeOver`, a `Accepted`, R `Raised`), and
//!   what the board shows;
//! - `t EVENTS` does the same, and after the letter of a report stands its address or its line, where it has one;
//! - `l CPU` boots the board, if it isn't yet, and has it lend a processor, in place of what it lent before; tells
//!   `lent` or `none`;
//! - `r LIMIT` does instructions under the lease, at most n, and tells how many they are, and how many in all;
//! - `k` commits the lease; tells how many steps that is, or `stale`, and what the board shows;
//! - `p ID` boots the board, if it isn't yet, and tells who holds a spin lock;
//! - `m ADDRESS` tells the word at an address of eight hexadecimal digits;
//! - `f LINE` boots a board with the configuration so far and this line, and tells the fault;
//! - `d` boots the board, if it isn't yet, appends events of every kind to a journal, and moves a debugger to and fro
//!   over them; tells how many runs the journal has, and where each move leads.
#![tactic(auto)]

mod debugger;
mod events;
mod scene;
mod shown;

use anyhow::{Result, bail};
use scene::{Scene, begun, committed, debugged, fault_of, holder, leased, lent, played, word_at};
use std::alloc::{AllocError, Global};
use std::io::{BufRead, BufReader};
use test_help::{put_line, row_of};

/// Takes a line of source or configuration into a scene. Answers whether it was one.
fn took(scene: &mut Scene, word: &str, text: &str) -> Result<bool, AllocError> {
    match word {
        "s" => put_line(&mut scene.source, text)?,
        "c" => put_line(&mut scene.config, text)?,
        _ => return Ok(false),
    }
    Ok(true)
}

/// What is told of a row that asks something. `None` where a row has another word.
fn told(alloc: Global, scene: &mut Scene, word: &str, text: &str) -> Result<Option<String>> {
    Ok(Some(match word {
        "e" => played(alloc, scene, text, false)?,
        "t" => played(alloc, scene, text, true)?,
        "l" => String::from_str(alloc, lent(alloc, scene, text)?)?,
        "r" => leased(alloc, scene, text)?,
        "k" => committed(alloc, scene)?,
        "p" => holder(alloc, scene, text)?,
        "m" => word_at(alloc, scene, text)?,
        "f" => String::from_str(alloc, fault_of(alloc, scene, text)?)?,
        "d" => debugged(alloc, scene)?,
        _ => return Ok(None),
    }))
}

/// Does what a row says, and prints what that shows.
fn do_row(
    rt: &(impl Print + AllocGlobal),
    scene: &mut Scene,
    word: &str,
    text: &str,
) -> Result<()> {
    if word == "=" {
        *scene = begun(rt.alloc());
        return Ok(());
    }
    match told(rt.alloc(), scene, word, text)? {
        Some(shown) => Ok(println!(rt; "  {shown}")?),
        None => bail!("no row: {word} {text}"),
    }
}

/// Takes a line of source or configuration. Prints any other line, and does what it says if it is a row.
fn heed(rt: &(impl Print + AllocGlobal), scene: &mut Scene, line: &str) -> Result<()> {
    let Some((word, text)) = row_of(line) else {
        return Ok(println!(rt; "{line}")?);
    };
    if took(scene, word, text)? {
        return Ok(());
    }
    println!(rt; "{line}")?;
    do_row(rt, scene, word, text)
}

/// Heeds each line of standard input.
fn heed_all(rt: &(impl Input + Print + AllocGlobal), scene: &mut Scene) -> Result<()> {
    let alloc = rt.alloc();
    for line in BufReader::new(alloc, rt.reader())?.lines(alloc) {
        let line = line?;
        heed(rt, scene, line.as_str())?;
    }
    Ok(())
}

fn run(rt: &(impl Input + Print + AllocGlobal)) -> Result<()> {
    let mut scene = begun(rt.alloc());
    heed_all(rt, &mut scene)
}

fn main(rt: HostRuntime) -> Result<()> {
    run(&rt)
}
