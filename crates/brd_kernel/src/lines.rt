//! The interrupt lines.

ghost use Rattle.std.specs.Prelude.{◌≡◌, ◌≤◌, ◌<◌, ◌↔◌, false, IfSome, IsTrue, length};
ghost use Rattle.brd_kernel.specs.Kernel.{
  is_handled_by,
  pending_from,
  entry_of,
  cyclic_place,
  alarm_place,
  timer_line,
};
ghost use Rattle.brd_kernel.specs.Always.{AreQuiet};

use crate::processor::{Handler, InterruptLine};
use brd_exec::Context;

/// The first line of those that the kernel raises itself: that of the time handler at place 0.
pub const FIRST_TIMER: u8 = 32;

/// The line of the cyclic handler of an ID.
pub fn cyclic_line(id: u16) -> u8
    requires { id ≤ 64 }
    ensures { result ≡ timer_line (cyclic_place id) }
{
    (2 * id).saturating_sub(2) as u8 + FIRST_TIMER
}

/// The line of the alarm handler of an ID.
pub fn alarm_line(id: u16) -> u8
    requires { id ≤ 64 }
    ensures { result ≡ timer_line (alarm_place id) }
{
    (2 * id).saturating_sub(1) as u8 + FIRST_TIMER
}

/// The lowest line that is pending for a processor.
#[inline(never)]
pub fn first_pending(lines: &[InterruptLine], cpu: u8) -> Option<u8>
    requires { length lines.now ≤ 160 }
    ensures is { result ≡ pending_from cpu 0 lines.now }
    ensures within { IfSome result (λ line. line < length lines.now) }
{
    for (n, line) in lines.iter().enumerate() {
        if line.pending && is_handled_by(line.handler, cpu) {
            return Some(n as u8);
        }
    }
    None
}

/// Whether no line is pending.
pub fn are_quiet(lines: &[InterruptLine]) -> bool
    ensures { IsTrue result ↔ AreQuiet lines.now }
{
    lines.iter().all(is_quiet)
}

/// Whether a line isn't pending.
fn is_quiet(line: &InterruptLine) -> bool
    ensures { IsTrue result ↔ (line.now.pending ≡ false) }
{
    !line.pending
}

/// The context in which the handler of a line starts: at its address, all registers 0 but its argument in $a0.
pub fn entry_of(line: u8, handler: Option<Handler>) -> Context
    ensures { result ≡ entry_of line handler }
{
    match handler {
        Some(handler) => Context::opening(handler.address, handler.argument, 0),
        None => Context::opening(0, line as u32, 0),
    }
}

/// Whether a processor handles the interrupts of a line with this handler.
fn is_handled_by(handler: Option<Handler>, cpu: u8) -> bool
    ensures { result ≡ is_handled_by cpu handler }
{
    match handler {
        Some(handler) => handler.cpu == cpu,
        None => false,
    }
}
