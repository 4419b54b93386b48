//! What a thread does: a processor's worker, and the driver of the script.

ghost use Rattle.std.specs.Prelude.{◌≡◌, ◌+◌, ◌<◌, ◌≤◌, true, false, None, Some, Ok, IfOk, OnErr};
ghost use Rattle.brd_board.specs.Lease.{IsFresh, most_lent};
ghost use Rattle.brd_threads.specs.declared.workers.Turn.TheVariants as Turn;
ghost use Rattle.brd_threads.specs.Leases.{CountsTurn, IsLent, IsNewFor, run_in};
ghost use Rattle.brd_threads.specs.Races.{Drives, HasWorked};
ghost use Rattle.brd_threads.specs.Station.{board_of, next_entry};

use crate::fault::{CommitFault, RaceFault, StationFault};
use crate::gate::Gate;
use crate::station::Station;
use brd_board::{Decoded, Lease, MOST_LENT};
use brd_ledgers::{Race, Share};
use std::alloc::Global;
use std::sync::{Mutex, Wait};

/// What a worker has for its next turn.
#[derive(Clone, Copy, PartialEq, Eq)]
enum Turn {
    /// A lease.
    Leased,
    /// No lease.
    Unleased,
    /// The board is off, so there is no turn.
    Off,
}

/// Takes turns until the share counts the quota, and answers true then, or until the board is off, and answers false.
/// A turn lends under the lock, runs the lease with no lock held, between the calls of the gate and within what remains
/// of the quota, and then commits it under the lock. Without a lease, with nothing done under it, or where it is stale,
/// the turn does one step under the lock. What it ends with and what the next one begins with are done under one
/// holding of the lock. At its end the gate is told how many steps it was. (Today only the journal asks for memory, by
/// the allocator that it was made with.) All turns have one lease, and what they have decoded is kept from one to the
/// next.
#[tactic(auto, unfolding(crate::specs::Races::HasWorked))]
pub fn worker<K: Race, G: Gate, R: Wait>(
    rt: &R,
    _alloc: Global,
    station: &Mutex<Station<K>>,
    quota: u64,
    gate: &G,
    share: Share<K>,
) -> (Share<K>, Result<bool, RaceFault>)
    requires { share.count ≡ 0 }
    ensures { HasWorked share.cpu quota result }
{
    let mut share = share;
    let cpu = share.cpu();
    let mut decoded = Decoded::new();
    let mut lease = Lease::blank(cpu);
    let mut turn = lend(&station.lock(rt), cpu, &mut lease);
    while share.count() < quota {
        if turn == Turn::Off {
            return (share, Ok(false));
        }
        let left = quota - share.count();
        run_apart(gate, cpu, left, turn, &mut lease, &mut decoded);
        let mut guard = station.lock(rt);
        let steps = match commit_or_step(&mut guard, cpu, turn, &lease, &mut share) {
            Ok(steps) => steps,
            Err(fault) => return (share, Err(RaceFault::from(fault))),
        };
        turn = lend(&guard, cpu, &mut lease);
        drop(guard);
        gate.count(cpu, steps);
    }
    (share, Ok(true))
}

/// Lends what there is for a processor's next turn.
fn lend<K: Race>(station: &Station<K>, cpu: u8, lease: &mut Lease) -> Turn
    ensures is { IsLent station.now cpu lease.old result lease.new }
    ensures new { result ≡ Turn.Leased → IsNewFor cpu lease.new }
{
    if station.board().is_off() {
        return Turn::Off;
    }
    if station.lend_into(cpu, lease) {
        Turn::Leased
    } else {
        Turn::Unleased
    }
}

/// Runs the lease of a turn, if it has one, between the calls of the gate, up to `left` instructions.
fn run_apart<G: Gate>(
    gate: &G,
    cpu: u8,
    left: u64,
    turn: Turn,
    lease: &mut Lease,
    decoded: &mut Decoded,
)
    requires { turn ≡ Turn.Leased → IsNewFor cpu lease.old }
    ensures { turn ≡ Turn.Leased →
        (lease.new.cpu ≡ cpu) × (lease.new.len ≤ left) × (lease.new.len ≤ most_lent) }
{
    if turn != Turn::Leased {
        gate.enter(cpu, None);
        gate.leave(cpu, None);
        return;
    }
    gate.enter(cpu, Some(&*lease));
    lease.run_by(decoded, left.min(MOST_LENT as u64) as u32);
    gate.leave(cpu, Some(&*lease));
}

/// Commits what was done under the lease of a turn. Without a lease, with nothing done under it, or where it is stale,
/// does one step. Answers how many steps the share counts more.
fn commit_or_step<K: Race>(
    station: &mut Station<K>,
    cpu: u8,
    turn: Turn,
    lease: &Lease,
    share: &mut Share<K>,
) -> Result<u64, StationFault>
    requires mine { cpu ≡ share.old.cpu }
    requires lease { turn ≡ Turn.Leased → lease.now.cpu ≡ cpu }
    ensures share { IfOk result (λ steps. share.new ≡ record share.old { count = share.old.count + steps }) }
    ensures turn { IfOk result (CountsTurn (run_in turn lease.now)) }
    ensures err { OnErr result (share.new ≡ share.old) }
{
    if turn == Turn::Leased && is_committed(station, lease, share)? {
        return Ok(u64::from(lease.len()));
    }
    station.step(cpu, share)?;
    Ok(1)
}

/// Commits what was done under a lease. False, and nothing changes, where nothing was done under it or it is stale.
fn is_committed<K: Race>(
    station: &mut Station<K>,
    lease: &Lease,
    share: &mut Share<K>,
) -> Result<bool, StationFault>
    requires mine { lease.now.cpu ≡ share.old.cpu }
    ensures done { result ≡ Ok true →
        (0 < lease.now.len) × (share.new ≡ record share.old { count = share.old.count + lease.now.len }) }
    ensures not { result ≡ Ok false → share.new ≡ share.old }
    ensures stale { (IsFresh (board_of station.old) lease.now → ⊥) → result ≡ Ok false }
    ensures err { OnErr result (share.new ≡ share.old) }
{
    if lease.len() == 0 {
        return Ok(false);
    }
    match station.carry_over(lease, share) {
        Ok(_) => Ok(true),
        Err(CommitFault::Stale) => Ok(false),
        Err(CommitFault::NoMemory) => Err(StationFault::NoMemory),
        Err(CommitFault::JournalFull) => Err(StationFault::JournalFull),
    }
}

/// Takes the script's entries one by one, each under the lock, until it is used up or the board is off.
pub fn driver<K: Race, R: Wait>(
    rt: &R,
    _alloc: Global,
    station: &Mutex<Station<K>>,
) -> Result<(), StationFault> {
    for _ in rt.forever() {
        if let Some(ended) = driven(&mut station.lock(rt)) {
            return ended;
        }
    }
    unreachable!()
}

/// Takes the script's next entry. Where the board is off, the script is used up, or it can't, it answers how the driver
/// has ended.
fn driven<K: Race>(station: &mut Station<K>) -> Option<Result<(), StationFault>>
    ensures { Drives (board_of station.old).kernel.off (next_entry station.old) station.old result station.new }
{
    if station.board().is_off() {
        return Some(Ok(()));
    }
    match station.script_next() {
        Ok(Some(_)) => None,
        Ok(None) => Some(Ok(())),
        Err(fault) => Some(Err(fault)),
    }
}
