//! Regions of instructions, inside which one processor may preempt another, and lines may be raised.

ghost use Rattle.std.specs.Prelude.{◌≡◌, ◌==◌, ◌||◌, length};
ghost use Rattle.std.specs.List.{list_any};
ghost use Rattle.brd_board.specs.Board.{registers_of};
ghost use Rattle.brd_only.specs.Only.{are_none, is_in, is_inside, keeps_to, leaves_inside, some_are_inside};

use brd_base::List;
use brd_board::{Board, Event};

/// The instructions from one address up to another one, which isn't among them.
#[derive(Clone, Copy, Debug, PartialEq, Eq)]
pub struct Region {
    /// The address of the first one.
    pub from: u32,
    /// The address behind the last one.
    pub upto: u32,
}

/// The regions to which schedules keep. Where there are none of a kind, its events may come anywhere.
#[derive(Drop)]
pub struct Regions {
    /// In which the next instruction of a processor lies that is preempted.
    pub switches: List<Region>,
    /// In which the next instruction of some processor lies while a line is raised.
    pub raises: List<Region>,
}

impl Regions {
    /// Whether there are none of either kind.
    pub fn are_none(&self) -> bool
        ensures { result ≡ are_none self.now }
    {
        self.switches.len() == 0 && self.raises.len() == 0
    }
}

/// Whether an event keeps to regions: a step preempts nobody, or somebody inside; a line is raised while somebody is
/// inside; or there are no regions for events of its kind. A step of another processor than `last` preempts that.
pub(crate) fn keeps_to(regions: &Regions, board: &Board, last: Option<u8>, event: Event) -> bool
    ensures { result ≡ keeps_to regions.now board.now last event }
{
    match event {
        Event::Step(cpu) => may_leave(regions.switches.as_slice(), board, last, cpu),
        Event::Tick => true,
        Event::Raise(_) => may_raise(regions.raises.as_slice(), board),
    }
}

/// Whether a step of a processor preempts nobody, or somebody whose next instruction lies in one of the regions, if
/// there are any.
fn may_leave(regions: &[Region], board: &Board, last: Option<u8>, cpu: u8) -> bool
    ensures { result ≡ (length regions.now == 0 || leaves_inside regions.now board.now last cpu) }
{
    regions.is_empty() || leaves_inside(regions, board, last, cpu)
}

/// Whether lines may be raised: the next instruction of some processor lies in one of the regions, if there are any.
fn may_raise(regions: &[Region], board: &Board) -> bool
    ensures { result ≡ (length regions.now == 0 || some_are_inside regions.now board.now) }
{
    regions.is_empty() || some_are_inside(regions, board)
}

/// Whether somebody executes on some processor, and the next instruction there lies in one of the regions.
fn some_are_inside(regions: &[Region], board: &Board) -> bool
    ensures { result ≡ some_are_inside regions.now board.now }
{
    for cpu in 0..9u8 {
        if is_inside(regions, board, cpu) {
            return true;
        }
    }
    false
}

/// Whether a step of a processor preempts nobody, or somebody whose next instruction lies in one of the regions.
fn leaves_inside(regions: &[Region], board: &Board, last: Option<u8>, cpu: u8) -> bool
    ensures { result ≡ leaves_inside regions.now board.now last cpu }
{
    match last {
        Some(last) => last == cpu || is_inside(regions, board, last),
        None => true,
    }
}

/// Whether somebody executes on a processor, and the next instruction there lies in one of the regions.
fn is_inside(regions: &[Region], board: &Board, cpu: u8) -> bool
    ensures { result ≡ is_inside regions.now (registers_of board.now cpu) }
{
    match board.registers(cpu) {
        Some(context) => is_in_some(regions, context.pc()),
        None => false,
    }
}

/// Whether an address lies in one of the regions.
fn is_in_some(regions: &[Region], address: u32) -> bool
    ensures { result ≡ list_any (λ region. is_in address region) regions.now }
{
    regions
        .iter()
        .any(|region| region.from <= address && address < region.upto)
}
