//! The interrupt lines of a configuration's cyclic handlers and alarm handlers.

ghost use Rattle.std.specs.Prelude.{◌≡◌, ◌≤◌, All};
ghost use Rattle.brd_mem.specs.Memory.{size_of};
ghost use Rattle.brd_board.specs.Setup as setup;
ghost use Rattle.brd_board.specs.Setup.{Boots};

use crate::boot::BootFault;
use crate::setup::{handler_address, value_of};
use bitflags::Flags;
use brd_base::List;
use brd_config::{AlarmConfig, CyclicAttributes, CyclicConfig};
use brd_kernel::{Handler, LineSetup, alarm_line, cyclic_line};
use brd_mem::{Ram, Symbol};
use brd_timers::{Course, Cycle};
use std::alloc::Global;

/// The times of a cyclic handler.
fn cycle_of(cyclic: &CyclicConfig) -> Cycle
    ensures { result ≡ setup.cycle_of cyclic.now }
{
    Cycle {
        period: cyclic.period,
        phase: cyclic.phase,
        starts: cyclic.attributes.contains(CyclicAttributes::TA_STA),
        keeps: cyclic.attributes.contains(CyclicAttributes::TA_PHS),
    }
}

/// The line of a cyclic handler, which starts at its address with its argument in $a0.
#[tactic(auto, unfolding(crate::specs::Setup::placed_cyclic))]
fn placed_cyclic(
    ram: &Ram,
    symbols: &[Symbol],
    cyclic: &CyclicConfig,
) -> Result<LineSetup, BootFault>
    requires { cyclic.now.id ≤ 64 }
    ensures { result ≡ setup.placed_cyclic (size_of ram.now) symbols.now cyclic.now }
{
    let argument = value_of(symbols, &cyclic.exinf)?;
    let address = handler_address(ram, symbols, &cyclic.address)?;
    Ok(LineSetup {
        line: cyclic_line(cyclic.id),
        handler: Handler {
            cpu: cyclic.processor,
            address,
            argument,
        },
        course: Some(Course::Cyclic(cycle_of(cyclic))),
    })
}

/// The lines of the cyclic handlers, in the order of their statements.
pub fn cyclics_of(
    alloc: Global,
    ram: &Ram,
    symbols: &[Symbol],
    cyclics: &[CyclicConfig],
) -> Result<List<LineSetup>, BootFault>
    requires { All (λ cyclic. cyclic.id ≤ 64) cyclics.now }
    ensures { Boots (setup.cyclics_of (size_of ram.now) symbols.now cyclics.now) result }
{
    let mut lines = List::new(alloc);
    for cyclic in cyclics {
        let line = placed_cyclic(ram, symbols, cyclic)?;
        lines.push(line)?;
    }
    Ok(lines)
}

/// The line of an alarm handler, which starts at its address with its argument in $a0.
#[tactic(auto, unfolding(crate::specs::Setup::placed_alarm))]
fn placed_alarm(ram: &Ram, symbols: &[Symbol], alarm: &AlarmConfig) -> Result<LineSetup, BootFault>
    requires { alarm.now.id ≤ 64 }
    ensures { result ≡ setup.placed_alarm (size_of ram.now) symbols.now alarm.now }
{
    let argument = value_of(symbols, &alarm.exinf)?;
    let address = handler_address(ram, symbols, &alarm.address)?;
    Ok(LineSetup {
        line: alarm_line(alarm.id),
        handler: Handler {
            cpu: alarm.processor,
            address,
            argument,
        },
        course: Some(Course::Alarm),
    })
}

/// The lines of the alarm handlers, in the order of their statements.
pub fn alarms_of(
    alloc: Global,
    ram: &Ram,
    symbols: &[Symbol],
    alarms: &[AlarmConfig],
) -> Result<List<LineSetup>, BootFault>
    requires { All (λ alarm. alarm.id ≤ 64) alarms.now }
    ensures { Boots (setup.alarms_of (size_of ram.now) symbols.now alarms.now) result }
{
    let mut lines = List::new(alloc);
    for alarm in alarms {
        let line = placed_alarm(ram, symbols, alarm)?;
        lines.push(line)?;
    }
    Ok(lines)
}
