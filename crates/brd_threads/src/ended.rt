//! The threads of a race: their start, what they give back, and what they leave.

ghost use Rattle.std.specs.Prelude.{◌≡◌, ◌≢◌, ◌+◌, ◌≤◌, ◌==◌, true, false, length, take};
ghost use Rattle.std.specs.Prelude.{vec_len, Decides, IfOk};
ghost use Rattle.brd_journal.specs.Runs.{runs_of};
ghost use Rattle.brd_ledgers.specs.Shares.{AreNew};
ghost use Rattle.brd_threads.specs.Outers.{outers, steps};
ghost use Rattle.brd_threads.specs.Station.{AreOfFirst, board_of};
ghost use Rattle.brd_threads.specs.Races.{Answers, AnswersLeft, AreCounted, AreMet, HasRaced, HasWorked, HaveWorked};
ghost use Rattle.brd_threads.specs.Races.{first_fault};

use crate::fault::{RaceFault, StationFault};
use crate::gate::Gate;
use crate::outer::Outer;
use crate::station::Station;
use crate::workers::{driver, worker};
use brd_board::Board;
use brd_ledgers::{Race, Share};
use std::alloc::{AllocError, Global};
use std::sync::{Mutex, Wait};
use std::thread;
use std::thread::{Promise, Scope, Threads};

/// What a worker gives back.
type Worked<K> = (Share<K>, Result<bool, RaceFault>);

/// What the worker of a processor promises.
#[derive(Drop)]
struct Quota {
    cpu: u8,
    quota: u64,
}

impl<K: Race> Promise<Worked<K>> for Quota {
    ghost use Rattle.brd_threads.specs.Races.{HasWorked};

    ghost kept_by = { λ promise worked. HasWorked promise.cpu promise.quota worked };
}

/// What the threads of a race gave back, and the station that they left. Only `all_ended` makes one, and only `answer`
/// takes it apart.
pub struct Ended<K: Race> {
    workers: Vec<Worked<K>>,
    driver: Result<(), StationFault>,
    station: Station<K>,
}

/// Starts all threads, and waits for their ends.
pub fn all_ended<K: Race + Send + Sync, G: Gate + Sync, R: Threads + Wait + Sync>(
    rt: &R,
    alloc: Global,
    station: Station<K>,
    quotas: &[u64],
    gate: &G,
    shares: Vec<Share<K>>,
) -> Result<Ended<K>, AllocError>
    requires each { vec_len shares ≡ length quotas.now }
    requires new { AreNew shares.items }
    ensures each { IfOk result (λ ended. vec_len ended.workers ≡ length quotas.now) }
    ensures worked { IfOk result (λ ended. HaveWorked quotas.now ended.workers.items) }
{
    let shared = Mutex::new(station);
    let (workers, driver) = given_back(rt, alloc, &shared, quotas, gate, shares)?;
    Ok(Ended {
        workers,
        driver,
        station: shared.into_inner(),
    })
}

/// What all threads give back.
fn given_back<K: Race + Send + Sync, G: Gate + Sync, R: Threads + Wait + Sync>(
    rt: &R,
    alloc: Global,
    station: &Mutex<Station<K>>,
    quotas: &[u64],
    gate: &G,
    shares: Vec<Share<K>>,
) -> Result<(Vec<Worked<K>>, Result<(), StationFault>), AllocError>
    requires each { vec_len shares ≡ length quotas.now }
    requires new { AreNew shares.items }
    ensures len { IfOk result (λ r. vec_len r.0 ≡ length quotas.now) }
    ensures each { IfOk result (λ r. HaveWorked quotas.now r.0.items) }
{
    thread::scope(
        thread::scope_env(),
        rt,
        |scope| -> Result<(Vec<Worked<K>>, Result<(), StationFault>), AllocError>
            requires each { vec_len shares ≡ length quotas.now }
            requires new { AreNew shares.items }
            ensures len { IfOk result (λ r. vec_len r.0 ≡ length quotas.entry.now) }
            ensures each { IfOk result (λ r. HaveWorked quotas.entry.now r.0.items) }
        {
            let driving = scope.spawn(move || driver(rt, alloc, station))?;
            let workers = started(scope, rt, alloc, station, quotas, gate, shares)?;
            Ok((workers, driving.join(rt)))
        },
    )
}

/// Starts a worker for each share, from the last to the first, and waits for their ends.
fn started<'s, E, K: Race + Send + Sync, G: Gate + Sync, R: Threads + Wait + Sync>(
    scope: &Scope<'s, E>,
    rt: &'s R,
    alloc: Global,
    station: &'s Mutex<Station<K>>,
    quotas: &[u64],
    gate: &'s G,
    mut shares: Vec<Share<K>>,
) -> Result<Vec<Worked<K>>, AllocError>
    requires few { vec_len shares ≤ length quotas.now }
    requires new { AreNew shares.items }
    ensures len { IfOk result (λ workers. vec_len workers ≡ vec_len shares) }
    ensures each { IfOk result (λ workers. HaveWorked quotas.now workers.items) }
{
    let Some(share) = shares.pop() else {
        return Ok(Vec::new(alloc));
    };
    let cpu = share.cpu();
    let quota = quotas[cpu as usize - 1];
    let working = scope.spawn_with(
        Quota { cpu, quota },
        move || worker(rt, alloc, station, quota, gate, share),
    )?;
    let mut workers = started(scope, rt, alloc, station, quotas, gate, shares)?;
    workers.push(working.join(rt))?;
    Ok(workers)
}

impl<K: Race> Ended<K> {
    /// What a race answers.
    pub fn answer(
        self,
        boot: &Board,
        script: &[Outer],
        quotas: &[u64],
        limit: u32,
    ) -> Result<Station<K>, RaceFault>
        requires each { vec_len self.workers ≡ length quotas.now }
        requires worked { HaveWorked quotas.now self.workers.items }
        ensures { Answers (first_fault self.workers.items self.driver) self.workers.items self.station
            (HasRaced boot.now script.now quotas.now limit) result }
    {
        let Ended {
            workers,
            driver,
            station,
        } = self;
        match first_fault(workers.as_slice(), driver) {
            Some(fault) => Err(fault),
            None => left(station, workers, boot, script, quotas, limit),
        }
    }
}

/// What a race answers of whose threads none had a fault.
fn left<K: Race>(
    station: Station<K>,
    workers: Vec<Worked<K>>,
    boot: &Board,
    script: &[Outer],
    quotas: &[u64],
    limit: u32,
) -> Result<Station<K>, RaceFault>
    requires each { vec_len workers ≡ length quotas.now }
    requires worked { HaveWorked quotas.now workers.items }
    ensures { AnswersLeft workers.items station (HasRaced boot.now script.now quotas.now limit) result }
{
    let mut station = station;
    let met = are_met(&mut station, quotas, workers);
    let is_own = is_of(&station, boot, script, quotas.len(), limit);
    if is_own && is_over(&station, met) {
        Ok(station)
    } else {
        Err(RaceFault::Broken)
    }
}

/// The fault of the first worker that has one, else the driver's.
fn first_fault<K: Race>(
    workers: &[Worked<K>],
    driver: Result<(), StationFault>,
) -> Option<RaceFault>
    ensures { result ≡ first_fault workers.now driver }
{
    for worked in workers {
        if let Err(fault) = worked.1 {
            return Some(fault);
        }
    }
    match driver {
        Ok(()) => None,
        Err(fault) => Some(RaceFault::from(fault)),
    }
}

/// Whether each worker's share counts its quota. The station changes nothing, and knows by the shares how many steps
/// each processor has done.
fn are_met<K: Race>(station: &mut Station<K>, quotas: &[u64], mut workers: Vec<Worked<K>>) -> bool
    requires each { HaveWorked quotas.now workers.items }
    requires len { vec_len workers ≡ length quotas.now }
    ensures same { station.new ≡ station.old }
    ensures counted { AreCounted workers.items station.old }
    ensures met { Decides result (AreMet quotas.now station.old) }
{
    let mut met = true;
    while let Some(worked) = workers.pop() {
        let quota = quotas[workers.len()];
        met = is_met(station, quota, worked) && met;
    }
    met
}

/// Whether a worker's share counts this quota. The station changes nothing.
fn is_met<K: Race>(station: &mut Station<K>, quota: u64, worked: Worked<K>) -> bool
    ensures same { station.new ≡ station.old }
    ensures counted { steps worked.0.cpu station.old.journal.events ≡ worked.0.count }
    ensures met { result ≡ (worked.0.count == quota) }
{
    let (mut share, _) = worked;
    station.audit(&mut share);
    share.count() == quota
}

/// Whether a station is of this boot and script, its journal has no more runs than the limit, and each step in it is of
/// one of so many processors.
fn is_of<K: Race>(
    station: &Station<K>,
    boot: &Board,
    script: &[Outer],
    processors: usize,
    limit: u32,
) -> bool
    ensures { Decides result (((station.now.boot ≡ boot.now) × (station.now.script ≡ script.now))
        × ((length (runs_of station.now.journal.events) ≤ limit) × AreOfFirst processors station.now)) }
{
    let is_within = is_within(station, processors, limit);
    station.is_of(boot, script) && is_within
}

/// Whether a station's journal has no more runs than the limit, and each step in it is of one of so many processors.
fn is_within<K: Race>(station: &Station<K>, processors: usize, limit: u32) -> bool
    ensures { Decides result ((length (runs_of station.now.journal.events) ≤ limit)
        × AreOfFirst processors station.now) }
{
    let is_own = station.are_of_first(processors);
    is_short(station, limit) && is_own
}

/// Whether a station's journal has no more runs than the limit.
fn is_short<K: Race>(station: &Station<K>, limit: u32) -> bool
    ensures { Decides result (length (runs_of station.now.journal.events) ≤ limit) }
{
    station.journal().runs().len() <= limit as usize
}

/// Whether nothing is left to do: the quotas are met and the script is used up, or the board is off.
fn is_over<K: Race>(station: &Station<K>, met: bool) -> bool
    ensures over { result ≡ true → (board_of station.now).kernel.off ≡ false →
        (met ≡ true) × (outers station.now.journal.events ≡ station.now.script) }
    ensures not { result ≡ false → ((board_of station.now).kernel.off ≡ false)
        × (met ≡ true → outers station.now.journal.events ≢ station.now.script) }
    ensures taken { outers station.now.journal.events ≡ take station.now.taken station.now.script }
    ensures order { station.now.journal.order ≡ station.now.boot.memory.order }
{
    // For the proof alone: its contract says of which part of the script the journal has the entries.
    let _ = station.journal();
    station.board().is_off() || (met && station.is_done())
}
