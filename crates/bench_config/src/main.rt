//! How long the configuration of a long text takes. `bench_config` alone says what it finds in a text of 4 KiB;
//! `bench_config MEBIBYTES`, 1 to 64, prints times too.
#![tactic(auto)]

use brd_config::{Config, ConfigFault, parse};
use std::alloc::{AllocError, Global};
use std::time::Instant;
use std::{env, io};

const BOARD: &str = "BOARD(8, 0x100000); // the board\n";

/// As often as it is wanted: a class of comments and blanks, in which a comment has 100 bytes.
const CLASS: &str =
    "CLASS(TCL_8) { /* a comment that is read and left out, as are the blanks and the tabs \
                     around it    \t    */ }\n";

/// A text of about n bytes: a board, every object once for each ID, then classes and comments.
fn text_of(alloc: Global, size: usize) -> Result<Vec<u8>, AllocError> {
    let mut text = String::from_str(alloc, BOARD)?;
    for id in 1..=255u32 {
        if text.len() + 400 > size {
            break;
        }
        let task = format!(in alloc;
            "CRE_TSK({id}, {{TA_ACT | TA_HLNG, {id}, task_{id}, 1, 0x100, NULL}});\n"
        )?;
        text.push_str(task.as_str())?;
        let semaphore = format!(in alloc; "CRE_SEM({id}, {{TA_TPRI, 0, {id}}});\n")?;
        text.push_str(semaphore.as_str())?;
        let flag = format!(in alloc; "CRE_FLG({id}, {{TA_WMUL | TA_CLR, {id}}});\n")?;
        text.push_str(flag.as_str())?;
        let queue = format!(in alloc; "CRE_DTQ({id}, {{TA_TFIFO, 256, NULL}});\n")?;
        text.push_str(queue.as_str())?;
    }
    for _ in 0..size {
        if text.len() >= size {
            break;
        }
        text.push_str(CLASS)?;
    }
    Vec::from_slice(alloc, text.as_bytes())
}

fn report(rt: &impl Print, size: usize, answer: &Result<Config, ConfigFault>) -> io::Result<()> {
    match answer {
        Ok(config) => {
            let tasks = config.tasks.len();
            let queues = config.queues.len();
            println!(rt; "{size} bytes: {tasks} tasks, {queues} queues")
        }
        Err(fault) => println!(rt; "{size} bytes: {fault}"),
    }
}

fn small(rt: &(impl Print + AllocGlobal)) -> io::Result<()> {
    let text = text_of(rt.alloc(), 4096)?;
    report(rt, text.len(), &parse(rt.alloc(), text.as_slice()))
}

/// How many bytes a text of n mebibytes has, of no more than 64.
fn size_of(mebibytes: usize) -> usize {
    1_048_576 * mebibytes.min(64)
}

fn timed(rt: &(impl Print + AllocGlobal + std::rt::Clock), mebibytes: usize) -> io::Result<()> {
    let text = text_of(rt.alloc(), size_of(mebibytes))?;
    let start = Instant::now(rt)?;
    let answer = parse(rt.alloc(), text.as_slice());
    let took = start.elapsed(rt)?.as_micros();
    report(rt, text.len(), &answer)?;
    println!(rt; "{took} microseconds")
}

fn main(rt: HostRuntime) -> io::Result<()> {
    let mut mebibytes = None;
    for argument in env::args(&rt)? {
        mebibytes = argument.as_str().parse::<usize>().ok();
    }
    match mebibytes {
        None => small(&rt),
        Some(mebibytes) => timed(&rt, mebibytes),
    }
}
