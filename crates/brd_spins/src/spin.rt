//! A processor that spins.

ghost use Rattle.std.specs.Prelude.{◌≡◌, ◌≤◌, length, Contains, Decides};
ghost use Rattle.brd_spins.specs.Since.{IsInside};
ghost use Rattle.brd_spins.specs.Spins.{IsLeastPlace};

use brd_base::{List, Same};
use brd_board::Standing;
use brd_exec::Context;

/// What a processor does that spins.
#[derive(Clone, Copy, PartialEq, Eq)]
pub enum SpinKind {
    /// It executes so many instructions, which change nothing, again and again.
    Loop(u32),
    /// Its task or handler asks for this spin lock, which is held, again and again.
    Lock(u32),
}

/// A processor that spins.
#[derive(Clone, Copy)]
pub struct Spin {
    /// Which.
    pub cpu: u8,
    /// The position from which on who executes there did nothing else.
    pub since: u64,
    /// The least address of the instructions.
    pub place: u32,
    /// What it does.
    pub what: SpinKind,
}

/// What a processor does, if it spins: who executes there, and its registers before each of the instructions.
pub(crate) struct Turning {
    pub what: Option<SpinKind>,
    pub who: Option<Standing>,
    pub states: List<Context>,
}

/// Written out, so that a function that lets one go is proved with a call, and not with the end of each part.
impl Drop for Turning {
    fn drop(self) {
        let Turning {
            what: _,
            who: _,
            states: _,
        } = self;
    }
}

/// Whether these registers are some of those before an instruction.
pub(crate) fn is_inside(states: &[Context], registers: &Option<Context>) -> bool
    ensures { Decides result (IsInside states.now registers.now) }
{
    match registers {
        Some(registers) => has(states, registers),
        None => false,
    }
}

/// Whether these registers are some of those.
fn has(states: &[Context], registers: &Context) -> bool
    ensures { Decides result (Contains states.now registers.now) }
{
    for i in 0..states.len() {
        if is_same(&states[i], registers) {
            return true;
        }
    }
    false
}

/// Whether both are the same registers. Mostly the address of the next instruction tells them apart.
fn is_same(one: &Context, other: &Context) -> bool
    ensures { Decides result (one.now ≡ other.now) }
{
    if one.pc() != other.pc() {
        return false;
    }
    one.same(other)
}

/// The least address at which a processor goes on with some of these registers.
pub(crate) fn least_place(states: &[Context]) -> u32
    ensures { 1 ≤ length states.now → IsLeastPlace states.now result }
{
    let mut least = u32::MAX;
    for i in 0..states.len() {
        least = least.min(states[i].pc());
    }
    least
}
