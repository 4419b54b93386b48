//! Which processors spin.

ghost use Rattle.std.specs.Prelude.{◌≡◌, ◌≤◌, [], false, length, IfOk};
ghost use Rattle.brd_journal.specs.Playing.{IsPlayed};
ghost use Rattle.brd_spins.specs.Since.{AreAscending, AreFound, AreListed, AreSpins, since_by};

use crate::looping::turnings_of;
use crate::spin::{Spin, Turning, least_place};
use crate::watching::Watching;
use brd_base::{List, NoMemory};
use brd_board::Board;
use brd_journal::{Journal, Playback};
use std::alloc::Global;

/// Which processors spin on a board that has played the first events of a journal, by rising number. `boot` is the
/// board before these events.
pub fn spins(
    alloc: Global,
    boot: Board,
    journal: &Journal,
    playback: &Playback,
) -> Result<List<Spin>, NoMemory>
    requires { IsPlayed boot journal.now.events playback.now }
    ensures { IfOk result (λ spins. AreSpins boot journal.now.events playback.now.at spins) }
{
    let turnings = turnings_of(alloc, &playback.board)?;
    let turnings = turnings.as_slice();
    if !some_spins(turnings) {
        return Ok(List::new(alloc));
    }
    let mut watching = Watching::new(boot, turnings);
    watching.watch(journal, turnings, playback.at);
    listed(alloc, turnings, &watching.lefts)
}

/// Whether a processor spins.
fn some_spins(turnings: &[Turning]) -> bool
    ensures { result ≡ false → AreFound turnings.now (length turnings.now) [] }
{
    for i in 0..turnings.len() {
        if turnings[i].what.is_some() {
            return true;
        }
    }
    false
}

/// The processors that spin, since when.
fn listed(
    alloc: Global,
    turnings: &[Turning],
    lefts: &[Option<u64>; 8],
) -> Result<List<Spin>, NoMemory>
    requires { length turnings.now ≤ 8 }
    ensures each { IfOk result (λ spins. AreListed turnings.now lefts.now spins) }
    ensures all { IfOk result (λ spins. AreFound turnings.now (length turnings.now) spins) }
    ensures ascending { IfOk result (λ spins. AreAscending spins) }
{
    let mut spins = List::new(alloc);
    for i in 0..turnings.len() {
        let Some(what) = turnings[i].what else {
            continue;
        };
        let place = least_place(turnings[i].states.as_slice());
        spins.push(Spin {
            cpu: i as u8 + 1,
            since: since_by(lefts[i]),
            place,
            what,
        })?;
    }
    Ok(spins)
}

/// The position from which on a processor was in its loop, by the last one at which it wasn't.
fn since_by(left: Option<u64>) -> u64
    ensures { result ≡ since_by left }
{
    match left {
        Some(left) => left.saturating_add(1),
        None => 0,
    }
}
