//! A scene: its source, its configuration, and the board that it boots.

use crate::debugger::told_of_debugger;
use crate::events::play;
use crate::shown::show;
use anyhow::Result;
use brd_asm::{AsmFault, assemble};
use brd_board::{Board, BootFault, Lease, Spin};
use brd_config::{ConfigFault, parse};
use brd_mem::laws::plain_images_are_loadable;
use brd_text::hex_word;
use std::alloc::{AllocError, Global};
use test_help::put_unescaped;

/// The board of a source and a configuration, or in words why there is none. That memory ran out is no answer.
fn board_of(
    alloc: Global,
    source: &[u8],
    config: &[u8],
) -> Result<Result<Board, &'static str>, AllocError> {
    plain_images_are_loadable();
    let image = match assemble(alloc, source) {
        Ok(image) => image,
        Err(AsmFault::NoMemory) => return Err(AllocError),
        Err(_) => return Ok(Err("the source has a fault")),
    };
    let config = match parse(alloc, config) {
        Ok(config) => config,
        Err(ConfigFault::NoMemory) => return Err(AllocError),
        Err(_) => return Ok(Err("the configuration has a fault")),
    };
    match Board::boot(alloc, &image, &config) {
        Ok(board) => Ok(Ok(board)),
        Err(BootFault::NoMemory) => Err(AllocError),
        Err(BootFault::UnknownSymbol) => Ok(Err("unknown symbol")),
        Err(BootFault::Outside) => Ok(Err("outside")),
    }
}

/// A scene so far.
#[derive(Drop)]
pub struct Scene {
    pub source: Vec<u8>,
    pub config: Vec<u8>,
    board: Option<Board>,
    lease: Option<Lease>,
}

/// A scene without source and configuration.
pub fn begun(alloc: Global) -> Scene {
    Scene {
        source: Vec::new(alloc),
        config: Vec::new(alloc),
        board: None,
        lease: None,
    }
}

/// Boots the board of a scene, if it isn't yet. Tells the fault, if there is one.
fn boot(alloc: Global, scene: &mut Scene) -> Result<Option<&'static str>, AllocError> {
    if scene.board.is_none() {
        match board_of(alloc, &scene.source, &scene.config)? {
            Ok(board) => scene.board = Some(board),
            Err(fault) => return Ok(Some(fault)),
        }
    }
    Ok(None)
}

/// Does events on the board of a scene, which is booted first if it isn't yet. Tells the reports, also their places if
/// these are wanted, and what the board shows.
pub fn played(
    alloc: Global,
    scene: &mut Scene,
    events: &str,
    with_places: bool,
) -> Result<String, AllocError> {
    if let Some(fault) = boot(alloc, scene)? {
        return String::from_str(alloc, fault);
    }
    let Some(board) = &mut scene.board else {
        return Ok(String::new(alloc));
    };
    let mut text = play(alloc, board, events.as_bytes(), with_places)?;
    show(&mut text, board)?;
    Ok(text)
}

/// Has the board of a scene, which is booted first if it isn't yet, lend a processor. Tells whether it did.
pub fn lent(alloc: Global, scene: &mut Scene, cpu: &str) -> Result<&'static str, AllocError> {
    if let Some(fault) = boot(alloc, scene)? {
        return Ok(fault);
    }
    let Some(board) = &scene.board else {
        return Ok("");
    };
    scene.lease = board.lend(cpu.parse::<u8>().unwrap_or(0));
    Ok(if scene.lease.is_some() {
        "lent"
    } else {
        "none"
    })
}

/// Does instructions under the lease of a scene. Tells how many they are, and how many were done in all.
pub fn leased(alloc: Global, scene: &mut Scene, limit: &str) -> Result<String, AllocError> {
    let mut text = String::new(alloc);
    if let Some(lease) = &mut scene.lease {
        let done = lease.run(limit.parse::<u32>().unwrap_or(0));
        let (cpu, len) = (lease.cpu(), lease.len());
        write!(text, "{done}, in all {len} of processor {cpu}")?;
    }
    Ok(text)
}

/// Commits the lease of a scene. Tells how many steps that is, or that it is stale, and what the board shows.
pub fn committed(alloc: Global, scene: &mut Scene) -> Result<String, AllocError> {
    let mut text = String::new(alloc);
    let Some(lease) = scene.lease.take() else {
        return Ok(text);
    };
    let Some(board) = &mut scene.board else {
        return Ok(text);
    };
    let is_stale = board.is_stale(&lease);
    match board.commit(lease) {
        Ok(steps) => write!(text, "{steps}, stale before: {is_stale}")?,
        Err(_) => write!(text, "stale, stale before: {is_stale}")?,
    }
    show(&mut text, board)?;
    Ok(text)
}

/// Tells where a debugger over the board of a scene, which is booted first if it isn't yet, moves to. The scene has no
/// board then.
pub fn debugged(alloc: Global, scene: &mut Scene) -> Result<String> {
    if let Some(fault) = boot(alloc, scene)? {
        return Ok(String::from_str(alloc, fault)?);
    }
    match scene.board.take() {
        Some(board) => told_of_debugger(alloc, board),
        None => Ok(String::new(alloc)),
    }
}

/// Tells who holds a spin lock of the board of a scene, which is booted first if it isn't yet.
pub fn holder(alloc: Global, scene: &mut Scene, id: &str) -> Result<String, AllocError> {
    if let Some(fault) = boot(alloc, scene)? {
        return String::from_str(alloc, fault);
    }
    let mut text = String::new(alloc);
    let Some(board) = &scene.board else {
        return Ok(text);
    };
    match board.spin(id.parse::<u8>().unwrap_or(0)) {
        None => text.push_str("none")?,
        Some(Spin::Free) => text.push_str("free")?,
        Some(Spin::Held(cpu)) => write!(text, "held by {cpu}")?,
    }
    Ok(text)
}

/// The four bytes from an address on of the board of a scene, as hexadecimal digits.
pub fn word_at(alloc: Global, scene: &Scene, address: &str) -> Result<String, AllocError> {
    let mut text = String::new(alloc);
    let (Some(board), Some(address)) = (&scene.board, hex_word(address.as_bytes())) else {
        return Ok(text);
    };
    for at in 0..4u32 {
        match board.memory(address.wrapping_add(at)) {
            Some(byte) => write!(text, "{byte:02x}")?,
            None => text.push_str("--")?,
        }
    }
    Ok(text)
}

/// The fault of a board whose configuration has one more line.
pub fn fault_of(alloc: Global, scene: &Scene, line: &str) -> Result<&'static str, AllocError> {
    let mut config = Vec::from_slice(alloc, &scene.config)?;
    put_unescaped(&mut config, line)?;
    match board_of(alloc, &scene.source, &config)? {
        Ok(_) => Ok("boots"),
        Err(fault) => Ok(fault),
    }
}
