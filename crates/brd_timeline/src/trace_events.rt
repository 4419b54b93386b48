//! A timeline in the trace event format, as an object of JSON. One event of the board is one microsecond.

ghost use Rattle.std.specs.Prelude.{◌≡◌, ◌++◌, OnOk, IfOk, List, [], ◌∷◌, codes};
ghost use Rattle.std.specs.Fmt.{decimal};
ghost use Rattle.brd_timeline.specs.Ends.{EndsWith};
ghost use Rattle.brd_timeline.specs.Escapes.{json_string};
ghost use Rattle.brd_timeline.specs.Events as events;

use crate::escape::{put_json, put_json_bytes};
use crate::timeline::{
    Group, Hold, Lane, Mark, Owning, Slice, Spinning, Timeline, Turn, kind_name, label_or, lane_at,
    mark_name,
};
use brd_base::NoMemory;
use brd_text::{put, put_decimal};

/// The processes that stand for the groups of lanes, for the ticks, the spin locks, the turns and the mutexes.
const PROCESSORS: u64 = 1;

const TASKS: u64 = 2;

const TICKS: u64 = 3;

const LOCKS: u64 = 4;

const TURNS: u64 = 5;

const MUTEXES: u64 = 6;

/// Where an event is shown.
#[derive(Clone, Copy)]
pub(crate) struct Track {
    /// The process.
    pub process: u64,
    /// The thread of this process.
    pub thread: u64,
}

/// Puts a timeline at the end in the trace event format ("Trace Event Format", Google): a process for the processors,
/// for the tasks, for the ticks, for the spin locks, for the mutexes and for the turns, a thread for each lane, complete
/// events for slices, and instants for marks and ticks. If memory runs out, a front of it may be there.
pub fn json(timeline: &Timeline, to: &mut Vec<u8>) -> Result<(), NoMemory>
    ensures text { OnOk result (to.new.items ≡ to.old.items ++ events.json_text timeline.now) }
    ensures ends { IfOk result (λ _. EndsWith (codes "\n]}\n") to.new.items) }
{
    put(to, "{\"displayTimeUnit\":\"ms\",\"traceEvents\":[\n")?;
    put_processes(to)?;
    put_lanes(to, timeline)?;
    put_slices(to, timeline)?;
    put_marks(to, timeline)?;
    put_ticks(to, timeline)?;
    put_locks(to, timeline)?;
    put_mutexes(to, timeline)?;
    put_turns(to, timeline)?;
    put(to, "\n]}\n")
}

/// The track of a lane at a place of the list.
fn track_of(lane: &Lane, place: usize) -> Track
    ensures { result ≡ events.track_of lane.now place }
{
    let process = match lane.group {
        Group::Processor => PROCESSORS,
        Group::Task => TASKS,
    };
    Track {
        process,
        thread: thread_of(place),
    }
}

/// The number of the thread that stands for a place of a list.
fn thread_of(place: usize) -> u64
    ensures { result ≡ events.thread_of place }
{
    (place as u64).saturating_add(1)
}

/// The one thread of the ticks, and that of the turns.
fn only_track(process: u64) -> Track
    ensures { result ≡ events.only_track process }
{
    Track { process, thread: 1 }
}

/// The track of the spin lock at a place of the list.
fn lock_track(place: usize) -> Track
    ensures { result ≡ events.lock_track place }
{
    Track {
        process: LOCKS,
        thread: thread_of(place),
    }
}

/// The track of the mutex at a place of the list.
fn mutex_track(place: usize) -> Track
    ensures { result ≡ events.mutex_track place }
{
    Track {
        process: MUTEXES,
        thread: thread_of(place),
    }
}

/// Puts the names of the processes at the end that are always there, and that of the thread of the ticks.
fn put_processes(to: &mut Vec<u8>) -> Result<(), NoMemory>
    ensures { OnOk result (to.new.items ≡ to.old.items ++ events.joined events.processes) }
{
    put_process_name(to, PROCESSORS, "processors")?;
    put_process(to, TASKS, "tasks")?;
    put_process(to, TICKS, "ticks")?;
    put_thread(to, only_track(TICKS), b"ticks")
}

/// Puts the threads of the lanes at the end.
fn put_lanes(to: &mut Vec<u8>, timeline: &Timeline) -> Result<(), NoMemory>
    ensures { OnOk result (to.new.items ≡ to.old.items ++ events.behind (events.lanes_of timeline.now)) }
{
    for (place, lane) in timeline.lanes.iter().enumerate() {
        put_lane(to, place, lane)?;
    }
    Ok(())
}

/// Puts the slices at the end.
fn put_slices(to: &mut Vec<u8>, timeline: &Timeline) -> Result<(), NoMemory>
    ensures { OnOk result (to.new.items ≡ to.old.items ++ events.behind (events.slices_of timeline.now)) }
{
    for slice in timeline.slices.iter() {
        put_slice(to, timeline, slice)?;
    }
    Ok(())
}

/// Puts the marks at the end.
fn put_marks(to: &mut Vec<u8>, timeline: &Timeline) -> Result<(), NoMemory>
    ensures { OnOk result (to.new.items ≡ to.old.items ++ events.behind (events.marks_of timeline.now)) }
{
    for mark in timeline.marks.iter() {
        put_mark(to, timeline, mark)?;
    }
    Ok(())
}

/// Puts the ticks at the end, each with its number.
fn put_ticks(to: &mut Vec<u8>, timeline: &Timeline) -> Result<(), NoMemory>
    ensures { OnOk result (to.new.items ≡ to.old.items ++ events.behind (events.ticks_of timeline.now)) }
{
    for (place, at) in timeline.ticks.iter().enumerate() {
        put_tick(to, timeline.first_tick.saturating_add(place as u64), *at)?;
    }
    Ok(())
}

/// Puts the spin locks at the end, if there are any: their threads, who holds them, and who asks for them.
fn put_locks(to: &mut Vec<u8>, timeline: &Timeline) -> Result<(), NoMemory>
    ensures { OnOk result (to.new.items ≡ to.old.items ++ events.behind (events.lock_events timeline.now)) }
{
    if timeline.locks.is_empty() {
        return Ok(());
    }
    put_process(to, LOCKS, "spin locks")?;
    put_lock_threads(to, timeline)?;
    put_holds(to, timeline)?;
    put_spins(to, timeline)
}

/// Puts the threads of the spin locks at the end.
fn put_lock_threads(to: &mut Vec<u8>, timeline: &Timeline) -> Result<(), NoMemory>
    ensures { OnOk result (to.new.items ≡ to.old.items ++ events.behind (events.locks_of timeline.now)) }
{
    for (place, lock) in timeline.locks.iter().enumerate() {
        put_lock_thread(to, place, *lock)?;
    }
    Ok(())
}

/// Puts at the end who holds the spin locks.
fn put_holds(to: &mut Vec<u8>, timeline: &Timeline) -> Result<(), NoMemory>
    ensures { OnOk result (to.new.items ≡ to.old.items ++ events.behind (events.holds_of timeline.now)) }
{
    for hold in timeline.holds.iter() {
        put_hold(to, *hold)?;
    }
    Ok(())
}

/// Puts at the end who asks for the spin locks.
fn put_spins(to: &mut Vec<u8>, timeline: &Timeline) -> Result<(), NoMemory>
    ensures { OnOk result (to.new.items ≡ to.old.items ++ events.behind (events.spins_of timeline.now)) }
{
    for spinning in timeline.spins.iter() {
        put_spinning(to, timeline, *spinning)?;
    }
    Ok(())
}

/// Puts the mutexes at the end, if there are any: their threads, and who has them.
fn put_mutexes(to: &mut Vec<u8>, timeline: &Timeline) -> Result<(), NoMemory>
    ensures { OnOk result (to.new.items ≡ to.old.items ++ events.behind (events.mutex_events timeline.now)) }
{
    if timeline.mutexes.is_empty() {
        return Ok(());
    }
    put_process(to, MUTEXES, "mutexes")?;
    put_mutex_threads(to, timeline)?;
    put_owned(to, timeline)
}

/// Puts the threads of the mutexes at the end.
fn put_mutex_threads(to: &mut Vec<u8>, timeline: &Timeline) -> Result<(), NoMemory>
    ensures { OnOk result (to.new.items ≡ to.old.items ++ events.behind (events.mutexes_of timeline.now)) }
{
    for (place, mutex) in timeline.mutexes.iter().enumerate() {
        put_mutex_thread(to, place, *mutex)?;
    }
    Ok(())
}

/// Puts at the end who has the mutexes.
fn put_owned(to: &mut Vec<u8>, timeline: &Timeline) -> Result<(), NoMemory>
    ensures { OnOk result (to.new.items ≡ to.old.items ++ events.behind (events.owned_of timeline.now)) }
{
    for owning in timeline.owned.iter() {
        put_owning(to, *owning)?;
    }
    Ok(())
}

/// Puts the turns at the end, if there are any, and their thread.
fn put_turns(to: &mut Vec<u8>, timeline: &Timeline) -> Result<(), NoMemory>
    ensures { OnOk result (to.new.items ≡ to.old.items ++ events.behind (events.turn_events timeline.now)) }
{
    if timeline.turns.is_empty() {
        return Ok(());
    }
    put_process(to, TURNS, "turns")?;
    put_thread(to, only_track(TURNS), b"turn")?;
    put_each_turn(to, timeline)
}

/// Puts each turn at the end.
fn put_each_turn(to: &mut Vec<u8>, timeline: &Timeline) -> Result<(), NoMemory>
    ensures { OnOk result (to.new.items ≡ to.old.items ++ events.behind (events.turns_of timeline.now)) }
{
    for turn in timeline.turns.iter() {
        put_turn(to, *turn)?;
    }
    Ok(())
}

/// Puts the name of a lane's thread at the end, and its place among the others.
fn put_lane(to: &mut Vec<u8>, place: usize, lane: &Lane) -> Result<(), NoMemory>
    ensures { OnOk result (to.new.items ≡ to.old.items ++ events.behind (events.lane_events (place, lane.now))) }
{
    let track = track_of(lane, place);
    put_thread(to, track, &lane.name)?;
    put_order(to, track)
}

/// Puts a slice at the end, where it has a lane.
fn put_slice(to: &mut Vec<u8>, timeline: &Timeline, slice: &Slice) -> Result<(), NoMemory>
    ensures { OnOk result
        (to.new.items ≡ to.old.items ++ events.behind (events.slice_events timeline.now.lanes.items slice.now)) }
{
    let Some(lane) = lane_at(timeline, slice.lane) else {
        return Ok(());
    };
    let name = kind_name(slice.kind);
    put_stretch(to, track_of(lane, slice.lane), (slice.from, slice.to), name)?;
    put_name(to, label_or(&slice.label, name))
}

/// Puts a mark at the end, where it has a lane.
fn put_mark(to: &mut Vec<u8>, timeline: &Timeline, mark: &Mark) -> Result<(), NoMemory>
    ensures { OnOk result
        (to.new.items ≡ to.old.items ++ events.behind (events.mark_events timeline.now.lanes.items mark.now)) }
{
    let Some(lane) = lane_at(timeline, mark.lane) else {
        return Ok(());
    };
    let name = mark_name(mark.kind);
    put_instant(to, track_of(lane, mark.lane), mark.at, name)?;
    put_name(to, label_or(&mark.label, name))
}

/// Puts a tick at the end.
fn put_tick(to: &mut Vec<u8>, number: u64, at: u64) -> Result<(), NoMemory>
    ensures { OnOk result (to.new.items ≡ to.old.items ++ events.behind (events.numbered_tick number at ∷ [])) }
{
    put_instant(to, only_track(TICKS), at, "tick")?;
    put_numbered(to, "tick ", number)
}

/// Puts the thread of a spin lock at the end.
fn put_lock_thread(to: &mut Vec<u8>, place: usize, lock: u8) -> Result<(), NoMemory>
    ensures { OnOk result (to.new.items ≡ to.old.items ++ events.behind (events.lock_event (place, lock) ∷ [])) }
{
    put_head(to, "M", lock_track(place))?;
    put(to, ",\"name\":\"thread_name\",\"args\":{\"name\":")?;
    put_numbered(to, "lock ", u64::from(lock))?;
    put(to, "}")
}

/// Puts at the end that a processor holds a spin lock.
fn put_hold(to: &mut Vec<u8>, hold: Hold) -> Result<(), NoMemory>
    ensures { OnOk result (to.new.items ≡ to.old.items ++ events.behind (events.hold_event hold ∷ [])) }
{
    put_stretch(to, lock_track(hold.lock), (hold.from, hold.to), "held")?;
    put_numbered(to, "held by cpu ", u64::from(hold.cpu))
}

/// Puts at the end that a task or a handler asks for a spin lock again and again, where it has a lane.
fn put_spinning(to: &mut Vec<u8>, timeline: &Timeline, it: Spinning) -> Result<(), NoMemory>
    ensures { OnOk result
        (to.new.items ≡ to.old.items ++ events.behind (events.spin_events timeline.now.lanes.items it)) }
{
    let Some(lane) = lane_at(timeline, it.lane) else {
        return Ok(());
    };
    put_stretch(to, track_of(lane, it.lane), (it.from, it.to), "spins")?;
    put_numbered(to, "spins for lock ", u64::from(it.lock))
}

/// Puts the thread of a mutex at the end.
fn put_mutex_thread(to: &mut Vec<u8>, place: usize, mutex: u8) -> Result<(), NoMemory>
    ensures { OnOk result (to.new.items ≡ to.old.items ++ events.behind (events.mutex_event (place, mutex) ∷ [])) }
{
    put_head(to, "M", mutex_track(place))?;
    put(to, ",\"name\":\"thread_name\",\"args\":{\"name\":")?;
    put_numbered(to, "mutex ", u64::from(mutex))?;
    put(to, "}")
}

/// Puts at the end that a task has a mutex.
fn put_owning(to: &mut Vec<u8>, owning: Owning) -> Result<(), NoMemory>
    ensures { OnOk result (to.new.items ≡ to.old.items ++ events.behind (events.owning_event owning ∷ [])) }
{
    put_stretch(
        to,
        mutex_track(owning.mutex),
        (owning.from, owning.to),
        "held",
    )?;
    put_numbered(to, "held by task ", u64::from(owning.task))
}

/// Puts a turn at the end.
fn put_turn(to: &mut Vec<u8>, turn: Turn) -> Result<(), NoMemory>
    ensures { OnOk result (to.new.items ≡ to.old.items ++ events.behind (events.turn_event turn ∷ [])) }
{
    put_stretch(to, only_track(TURNS), (turn.from, turn.to), "turn")?;
    put_numbered(to, "cpu ", u64::from(turn.cpu))
}

/// Puts the name of a process at the end, behind the event before it.
fn put_process(to: &mut Vec<u8>, process: u64, name: &str) -> Result<(), NoMemory>
    ensures { OnOk result (to.new.items ≡ to.old.items ++ events.behind (events.ProcessName process name.now ∷ [])) }
{
    put(to, ",\n")?;
    put_process_name(to, process, name)
}

/// Puts the name of a process at the end.
fn put_process_name(to: &mut Vec<u8>, process: u64, name: &str) -> Result<(), NoMemory>
    ensures { OnOk result
        (to.new.items ≡ to.old.items ++ events.event_text (events.ProcessName process name.now)) }
{
    put(to, "{\"ph\":\"M\",\"pid\":")?;
    put_decimal(to, process)?;
    put(to, ",\"name\":\"process_name\",\"args\":{\"name\":")?;
    put_json(to, name.as_bytes())?;
    put(to, "}}")
}

/// Puts the name of a thread at the end.
fn put_thread(to: &mut Vec<u8>, track: Track, name: &[u8]) -> Result<(), NoMemory>
    ensures { OnOk result (to.new.items ≡ to.old.items ++ events.behind (events.ThreadName track name.now ∷ [])) }
{
    put_head(to, "M", track)?;
    put(to, ",\"name\":\"thread_name\",\"args\":{\"name\":")?;
    put_json(to, name)?;
    put(to, "}}")
}

/// Puts the place of a thread among the others of its process at the end: its number.
fn put_order(to: &mut Vec<u8>, track: Track) -> Result<(), NoMemory>
    ensures { OnOk result (to.new.items ≡ to.old.items ++ events.behind (events.ThreadOrder track ∷ [])) }
{
    put_head(to, "M", track)?;
    put(
        to,
        ",\"name\":\"thread_sort_index\",\"args\":{\"sort_index\":",
    )?;
    put_decimal(to, track.thread)?;
    put(to, "}}")
}

/// Puts the beginning of a stretch at the end, up to its name.
fn put_stretch(
    to: &mut Vec<u8>,
    track: Track,
    span: (u64, u64),
    category: &str,
) -> Result<(), NoMemory>
    ensures { OnOk result
        (to.new.items ≡ to.old.items ++ codes ",\n" ++ events.complete_text track span.0 span.1 category.now) }
{
    put_head(to, "X", track)?;
    put(to, ",\"dur\":")?;
    put_decimal(to, span.1.saturating_sub(span.0))?;
    put_start(to, span.0, category)
}

/// Puts the beginning of a point at the end, up to its name.
fn put_instant(to: &mut Vec<u8>, track: Track, at: u64, category: &str) -> Result<(), NoMemory>
    ensures { OnOk result
        (to.new.items ≡ to.old.items ++ codes ",\n" ++ events.instant_text track at category.now) }
{
    put_head(to, "i", track)?;
    put(to, ",\"s\":\"t\"")?;
    put_start(to, at, category)
}

/// Puts the beginning of an event at the end, behind the one before it: its phase, and its track.
fn put_head(to: &mut Vec<u8>, phase: &str, track: Track) -> Result<(), NoMemory>
    ensures { OnOk result (to.new.items ≡ to.old.items ++ codes ",\n" ++ events.head_text phase.now track) }
{
    put(to, ",\n{\"ph\":\"")?;
    put(to, phase)?;
    put(to, "\",\"pid\":")?;
    put_decimal(to, track.process)?;
    put(to, ",\"tid\":")?;
    put_decimal(to, track.thread)
}

/// Puts the middle of an event at the end: where it begins, and of which category it is.
fn put_start(to: &mut Vec<u8>, at: u64, category: &str) -> Result<(), NoMemory>
    ensures { OnOk result (to.new.items ≡ to.old.items ++ events.start_text at category.now) }
{
    put(to, ",\"ts\":")?;
    put_decimal(to, at)?;
    put(to, ",\"cat\":\"")?;
    put(to, category)?;
    put(to, "\",\"name\":")
}

/// Puts a name at the end, and the end of its object.
fn put_name(to: &mut Vec<u8>, name: &[u8]) -> Result<(), NoMemory>
    ensures { OnOk result (to.new.items ≡ to.old.items ++ json_string name.now ++ codes "}") }
{
    put_json(to, name)?;
    put(to, "}")
}

/// Puts a name with a number at the end, and the end of its object.
fn put_numbered(to: &mut Vec<u8>, name: &str, number: u64) -> Result<(), NoMemory>
    ensures { OnOk result (to.new.items ≡ to.old.items ++ json_string (name.now ++ decimal number) ++ codes "}") }
{
    put(to, "\"")?;
    put_json_bytes(to, name.as_bytes())?;
    put_decimal(to, number)?;
    put(to, "\"}")
}
