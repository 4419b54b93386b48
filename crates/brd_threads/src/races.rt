//! Races: all threads of a station, from their start to what is answered.

ghost use Rattle.std.specs.Prelude.{◌≡◌, ◌≤◌, length, IfOk};
ghost use Rattle.brd_journal.specs.Journal.{most_runs};
ghost use Rattle.brd_ledgers.specs.Blanks.{AreOf};
ghost use Rattle.brd_threads.specs.Processors.{processors_of};
ghost use Rattle.brd_threads.specs.Races.{HasRaced, RaceEnds};

use crate::ended::all_ended;
use crate::fault::RaceFault;
use crate::gate::Gate;
use crate::outer::Outer;
use crate::station::Station;
use brd_board::Board;
use brd_ledgers::{Blanks, Race};
use std::alloc::Global;
use std::sync::Wait;
use std::thread::Threads;

/// Lets a thread work for each processor, until that has done as many steps as its quota, and one for the script, and
/// waits until all of them have ended. Of their faults it answers that of the lowest processor, and that of the
/// script's thread only where no processor's has one. Then it looks at what they left, and answers `Broken` where that
/// is of another boot or script, where its journal has more runs than `limit` or a step of a processor that isn't
/// there, or where something is undone though the board is on.
pub fn race<K: Race + Send + Sync, G: Gate + Sync, R: Threads + Wait + Sync>(
    rt: &R,
    alloc: Global,
    boot: &Board,
    script: &[Outer],
    quotas: &[u64],
    limit: u32,
    gate: &G,
    blanks: Blanks,
) -> Result<Station<K>, RaceFault>
    requires limit { limit ≤ most_runs }
    requires each { length quotas.now ≡ processors_of boot.now }
    requires blanks { AreOf K.names blanks }
    ensures left { IfOk result (HasRaced boot.now script.now quotas.now limit) }
    ensures ends { RaceEnds boot.now script.now quotas.now limit result }
{
    let (station, shares) = Station::<K>::new(alloc, boot, script, limit, blanks)?;
    let ended = all_ended(rt, alloc, station, quotas, gate, shares)?;
    ended.answer(boot, script, quotas, limit)
}
