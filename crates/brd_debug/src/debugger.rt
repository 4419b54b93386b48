//! The debugger.

ghost use Rattle.std.specs.Prelude.{◌≡◌, ◌+◌, ◌<◌, ◌≤◌, ◌^◌, length, take, slice_get, Decides, is_some, OnOk, OnErr};
ghost use Rattle.std.specs.Prelude.{Some, IfOk, IfSome};
ghost use Rattle.brd_board.specs.Board.{after};
ghost use Rattle.brd_debug.specs.Debugger.{shown, Goes, went, sought, SeesAhead};
ghost use Rattle.brd_journal.specs.Playing.{IsPlayed};
ghost use Rattle.brd_debug.specs.Kept.{AreKept};
ghost use Rattle.brd_debug.specs.Marks.{most_addresses, is_marked, marked, marked_within};
ghost use Rattle.brd_debug.specs.Stops.{no_stops, IsStop, IsLeast, IsGreatest};

use crate::fault::DebugFault;
use crate::look::Look;
use crate::marks::{MOST_ADDRESSES, MOST_MARKS};
use crate::search::{go_back, next_stop, play_near, played_to, stop_before, stop_from};
use crate::snapshots::Snapshots;
use crate::spare::{any_board, board_here};
use crate::stops::{Only, Stepper, Stops};
use brd_base::NoMemory;
use brd_board::{Board, Event};
use brd_journal::{Journal, Playback};
use brd_progress::{Progress, Quiet};
use std::alloc::Global;
use std::marker::Model;
use std::mem;

/// A debugger: shows the board after n events of a journal, and finds the events at which it stops.
pub struct Debugger {
    boot: Board,
    journal: Journal,
    stops: Stops,
    shown: Playback,
    /// A board beside the one that is shown, if there is one: looks and searches play on it, so that they copy no RAM.
    spare: Option<Playback>,
    snapshots: Snapshots,
}

impl Model for Debugger {
    ghost use Rattle.std.specs.Prelude.{IfSome};
    ghost use Rattle.brd_debug.specs.Debugger.{DebuggerState};
    ghost use Rattle.brd_journal.specs.Playing.{IsPlayed};
    ghost use Rattle.brd_debug.specs.Kept.{AreKept};

    ghost Value = { DebuggerState };

    ghost view = { λ d. record { boot = d.boot; events = d.journal.events; position = d.shown.at; stops = d.stops } };

    ghost invariant = { λ d. IsPlayed d.boot d.journal.events d.shown
        × AreKept d.boot d.journal.events d.snapshots.kept
        × IfSome d.spare (IsPlayed d.boot d.journal.events) };
}

/// Written out, so that a function that lets one go is proved with a call, and not with the end of each part.
impl Drop for Debugger {
    fn drop(self) {
        let Debugger {
            boot: _,
            journal: _,
            stops: _,
            shown: _,
            spare: _,
            snapshots: _,
        } = self;
    }
}

impl Debugger {
    /// A debugger of this boot and journal, which have the same byte order, before the first event and without stops.
    pub fn new(alloc: Global, boot: Board, journal: Journal) -> Result<Debugger, NoMemory>
        requires orders { boot.memory.order ≡ journal.order }
        ensures { IfOk result
            (λ d. d ≡ record {
              boot = boot;
              events = journal.events;
              position = 0;
              stops = no_stops;
            }) }
    {
        let board = boot.try_copy()?;
        Ok(Debugger {
            boot,
            journal,
            stops: Stops::new(),
            shown: Playback { board, at: 0 },
            spare: None,
            snapshots: Snapshots::new(alloc),
        })
    }

    /// How many events have happened to the board that it shows.
    pub fn position(&self) -> u64
        ensures is { result ≡ self.now.position }
        ensures within { result ≤ length self.now.events }
    {
        self.shown.at
    }

    /// The board after the first events of the journal, as many as its position says.
    pub fn show(&self) -> &Board
        ensures is { result.now ≡ shown self.now }
        ensures after { result.now ≡ after self.now.boot (take self.now.position self.now.events) }
    {
        &self.shown.board
    }

    /// Stops from now on where an instruction at this address is executed, unless 64 others are set. Answers whether
    /// that is set now.
    pub fn add_break(&mut self, address: u32) -> bool
        ensures is { self.new
            ≡ record self.old { stops = record self.old.stops { breaks = marked self.old.stops.breaks address } } }
        ensures set { result ≡ is_marked self.new.stops.breaks address }
    {
        self.stops.breaks.add(address, MOST_MARKS)
    }

    /// Stops from now on where the byte at this address changes, unless 64 others are watched. Answers whether it is
    /// watched now. Where RAM has no byte nothing changes.
    pub fn add_watch(&mut self, address: u32) -> bool
        ensures is { self.new
            ≡ record self.old { stops = record self.old.stops { watches = marked self.old.stops.watches address } } }
        ensures set { result ≡ is_marked self.new.stops.watches address }
    {
        self.stops.watches.add(address, MOST_MARKS)
    }

    /// Stops at no break, at no watch, at no instruction that is stepped, and at no exception; of every processor.
    pub fn clear_stops(&mut self)
        ensures { self.new ≡ record self.old { stops = no_stops } }
    {
        self.stops = Stops::new();
    }

    /// Stops from now on where an instruction at this address is executed, unless 512 others are set. Answers whether
    /// that is set now.
    pub fn stop_at(&mut self, address: u32) -> bool
        ensures is { self.new ≡ record self.old {
          stops = record self.old.stops { breaks = marked_within most_addresses self.old.stops.breaks address };
        } }
        ensures set { result ≡ is_marked self.new.stops.breaks address }
    {
        self.stops.breaks.add(address, MOST_ADDRESSES)
    }

    /// Stops from now on where the byte at this address changes, unless 512 others are watched. Answers whether it is
    /// watched now.
    pub fn watch_byte(&mut self, address: u32) -> bool
        ensures is { self.new ≡ record self.old {
          stops = record self.old.stops { watches = marked_within most_addresses self.old.stops.watches address };
        } }
        ensures set { result ≡ is_marked self.new.stops.watches address }
    {
        self.stops.watches.add(address, MOST_ADDRESSES)
    }

    /// Stops from now on where an instruction reads the byte at this address, unless 512 others are set. Answers
    /// whether that is set now.
    pub fn stop_at_read(&mut self, address: u32) -> bool
        ensures is { self.new ≡ record self.old {
          stops = record self.old.stops { reads = marked_within most_addresses self.old.stops.reads address };
        } }
        ensures set { result ≡ is_marked self.new.stops.reads address }
    {
        self.stops.reads.add(address, MOST_ADDRESSES)
    }

    /// Stops from now on where an instruction reads or writes the byte at this address, unless 512 others are set.
    /// Answers whether that is set now.
    pub fn stop_at_access(&mut self, address: u32) -> bool
        ensures is { self.new ≡ record self.old {
          stops = record self.old.stops { accesses = marked_within most_addresses self.old.stops.accesses address };
        } }
        ensures set { result ≡ is_marked self.new.stops.accesses address }
    {
        self.stops.accesses.add(address, MOST_ADDRESSES)
    }

    /// Whether it stops where an instruction at this address is executed.
    pub fn has_break(&self, address: u32) -> bool
        ensures { result ≡ is_marked self.now.stops.breaks address }
    {
        self.stops.breaks.has(address)
    }

    /// Stops from now on at these events alone.
    pub fn set_only(&mut self, only: Only)
        ensures { self.new ≡ record self.old { stops = record self.old.stops { only = only } } }
    {
        self.stops.only = only;
    }

    /// Stops from now on where somebody is stepped, or at no such place.
    pub fn set_stepper(&mut self, stepper: Option<Stepper>)
        ensures { self.new ≡ record self.old { stops = record self.old.stops { stepper = stepper } } }
    {
        self.stops.stepper = stepper;
    }

    /// Who is stepped, if somebody is.
    pub fn stepper(&self) -> Option<Stepper>
        ensures { result ≡ self.now.stops.stepper }
    {
        self.stops.stepper
    }

    /// Stops from now on at exceptions, or not.
    pub fn set_faults(&mut self, faults: bool)
        ensures { self.new ≡ record self.old { stops = record self.old.stops { faults = faults } } }
    {
        self.stops.faults = faults;
    }

    /// How many events the journal has, which is the last position.
    pub fn len(&self) -> u64
        ensures is { result ≡ length self.now.events }
        ensures bound { result < 2 ^ 54 }
    {
        self.journal.len()
    }

    /// The event of its position; None at the last position.
    pub fn event_here(&self) -> Option<Event>
        ensures { result ≡ slice_get self.now.events self.now.position }
    {
        self.journal.event_at(self.shown.at)
    }

    /// What the event of its position does; None at the last position. It stays where it is. What is seen may be given
    /// back, by `keep`, so that the next look copies no RAM.
    pub fn look(&mut self) -> Result<Option<Look>, NoMemory>
        ensures sees { IfOk result (SeesAhead self.old) }
        ensures stays { self.new ≡ self.old }
    {
        let Some(event) = self.journal.event_at(self.shown.at) else {
            return Ok(None);
        };
        let ahead = board_here(&self.journal, &mut self.spare, &self.shown)?;
        let mut board = ahead.board;
        let report = board.event_apart(event);
        Ok(Some(Look {
            event,
            report,
            stepped: self
                .stops
                .is_stepped(&self.shown.board, event, report, &board),
            breaks: self.stops.is_break(report),
            faults: self.stops.is_fault(report),
            touches: self
                .stops
                .are_touched(&self.shown.board, event, report, &board),
            board,
        }))
    }

    /// Takes back what was seen of the event of its position: the board after it is the one beside it from now on.
    pub fn keep(&mut self, look: Look)
        requires { SeesAhead self.old (Some look) }
        ensures { self.new ≡ self.old }
    {
        // For the proof alone: its contract says how few events there can be.
        let _ = self.journal.len();
        let at = self.shown.at + 1;
        self.spare = Some(Playback {
            board: look.into_board(),
            at,
        });
    }

    /// What the event of its position does, where that is a stop; None where it is none. It stays where it is.
    pub fn stop_here(&mut self) -> Result<Option<Look>, NoMemory>
        ensures ahead { IfOk result (λ found. IfSome found (λ look. SeesAhead self.old (Some look))) }
        ensures stop { IfOk result (λ found.
            Decides (is_some found) (IsStop self.old.stops self.old.boot self.old.events self.old.position)) }
        ensures stays { self.new ≡ self.old }
    {
        let Some(look) = self.look()? else {
            return Ok(None);
        };
        if self.stops.meet(&self.shown.board, &look) {
            return Ok(Some(look));
        }
        self.keep(look);
        Ok(None)
    }

    /// Goes to a position: shows the board after n events. An `Err` leaves it where it is.
    pub fn goto(&mut self, position: u64) -> Result<(), DebugFault>
        ensures goes { Goes self.old position result }
        ensures ok { OnOk result (self.new ≡ record self.old { position = position }) }
        ensures err { OnErr result (self.new ≡ self.old) }
    {
        self.goto_telling(position, &mut Quiet)
    }

    /// Goes to a position as `goto` does, and tells on the way how many of the events from where it begins it has done.
    pub fn goto_telling<P: Progress>(
        &mut self,
        position: u64,
        progress: &mut P,
    ) -> Result<(), DebugFault>
        ensures goes { Goes self.old position result }
        ensures ok { OnOk result (self.new ≡ record self.old { position = position }) }
        ensures err { OnErr result (self.new ≡ self.old) }
    {
        let len = self.journal.len();
        if position > len {
            return Err(DebugFault::Past { len });
        }
        self.show_at(position, progress)?;
        Ok(())
    }

    /// Goes to the first stop after its position, and answers that. None, and no move, where there is none. An `Err`
    /// leaves it where it is.
    pub fn next_stop(&mut self) -> Result<Option<u64>, NoMemory>
        ensures least { IfOk result
            (IsLeast (IsStop self.old.stops self.old.boot self.old.events) (self.old.position + 1)
            (length self.old.events)) }
        ensures moved { IfOk result (λ found. self.new ≡ went self.old found) }
        ensures err { OnErr result (self.new ≡ self.old) }
    {
        self.next_stop_telling(&mut Quiet)
    }

    /// Goes to the first stop after its position as `next_stop` does, and tells on the way how many of the events up to
    /// the journal's end it has looked at.
    pub fn next_stop_telling<P: Progress>(
        &mut self,
        progress: &mut P,
    ) -> Result<Option<u64>, NoMemory>
        ensures least { IfOk result
            (IsLeast (IsStop self.old.stops self.old.boot self.old.events) (self.old.position + 1)
            (length self.old.events)) }
        ensures moved { IfOk result (λ found. self.new ≡ went self.old found) }
        ensures err { OnErr result (self.new ≡ self.old) }
    {
        let mut playback = board_here(&self.journal, &mut self.spare, &self.shown)?;
        let found = next_stop(
            &self.boot,
            &self.journal,
            &self.stops,
            &mut self.snapshots,
            &mut playback,
            progress,
        )?;
        self.spare = Some(playback);
        if let Some(position) = found {
            self.show_at(position, progress)?;
        }
        Ok(found)
    }

    /// Goes back to the last stop before its position, and answers that. None, and no move, where there is none. An
    /// `Err` leaves it where it is.
    pub fn last_stop(&mut self) -> Result<Option<u64>, NoMemory>
        ensures greatest { IfOk result
            (IsGreatest (IsStop self.old.stops self.old.boot self.old.events) 0 self.old.position) }
        ensures moved { IfOk result (λ found. self.new ≡ went self.old found) }
        ensures err { OnErr result (self.new ≡ self.old) }
    {
        self.last_stop_telling(&mut Quiet)
    }

    /// Goes back to the last stop before its position as `last_stop` does, and tells on the way how many of the events
    /// before its position it has looked at.
    pub fn last_stop_telling<P: Progress>(
        &mut self,
        progress: &mut P,
    ) -> Result<Option<u64>, NoMemory>
        ensures greatest { IfOk result
            (IsGreatest (IsStop self.old.stops self.old.boot self.old.events) 0 self.old.position) }
        ensures moved { IfOk result (λ found. self.new ≡ went self.old found) }
        ensures err { OnErr result (self.new ≡ self.old) }
    {
        let mut playback = any_board(&mut self.spare, &self.shown)?;
        let found = stop_before(
            &self.boot,
            &self.journal,
            &self.stops,
            &self.snapshots,
            &mut playback,
            0,
            self.shown.at,
            progress,
        )?;
        self.spare = Some(playback);
        if let Some(position) = found {
            self.show_at(position, progress)?;
        }
        Ok(found)
    }

    /// Goes to the first stop from its position on, before another position, and answers that; where there is none, it
    /// goes to this other one. An `Err` leaves it where it is.
    pub fn seek(&mut self, end: u64) -> Result<Option<u64>, NoMemory>
        requires on { self.old.position ≤ end }
        requires within { end ≤ length self.old.events }
        ensures least { IfOk result
            (IsLeast (IsStop self.old.stops self.old.boot self.old.events) self.old.position end) }
        ensures moved { IfOk result (λ found. self.new ≡ sought self.old end found) }
        ensures err { OnErr result (self.new ≡ self.old) }
    {
        let mut playback = board_here(&self.journal, &mut self.spare, &self.shown)?;
        let found = stop_from(
            &self.boot,
            &self.journal,
            &self.stops,
            &mut self.snapshots,
            &mut playback,
            end,
            &mut Quiet,
        )?;
        match found {
            Some(position) => {
                self.spare = Some(playback);
                self.show_at(position, &mut Quiet)?;
            }
            None => self.spare = Some(mem::replace(&mut self.shown, playback)),
        }
        Ok(found)
    }

    /// Goes back to the last stop before its position, from another position on, and answers that; where there is none,
    /// it goes to this other one. An `Err` leaves it where it is.
    pub fn seek_back(&mut self, begin: u64) -> Result<Option<u64>, NoMemory>
        requires back { begin ≤ self.old.position }
        ensures greatest { IfOk result
            (IsGreatest (IsStop self.old.stops self.old.boot self.old.events) begin self.old.position) }
        ensures moved { IfOk result (λ found. self.new ≡ sought self.old begin found) }
        ensures err { OnErr result (self.new ≡ self.old) }
    {
        let mut playback = any_board(&mut self.spare, &self.shown)?;
        let found = stop_before(
            &self.boot,
            &self.journal,
            &self.stops,
            &self.snapshots,
            &mut playback,
            begin,
            self.shown.at,
            &mut Quiet,
        )?;
        self.spare = Some(playback);
        match found {
            Some(position) => self.show_at(position, &mut Quiet)?,
            None => self.show_at(begin, &mut Quiet)?,
        }
        Ok(found)
    }

    /// Shows the board after n events. It goes on in place where no snapshot lies between or may be due on the way, and
    /// else begins at the last snapshot, in place where none may be due from there on.
    fn show_at<P: Progress>(&mut self, position: u64, progress: &mut P) -> Result<(), NoMemory>
        requires { position ≤ length self.old.events }
        ensures ok { OnOk result (self.new ≡ record self.old { position = position }) }
        ensures err { OnErr result (self.new ≡ self.old) }
    {
        let len = self.journal.len();
        if position == self.shown.at {
            return Ok(());
        }
        let goes_on = position > self.shown.at
            && self.snapshots.last_before(position) <= self.shown.at;
        if goes_on && position <= self.snapshots.next(self.shown.at) {
            return play_near(
                &self.boot,
                &self.journal,
                &mut self.snapshots,
                &mut self.shown,
                position,
            );
        }
        if !goes_on && self.is_near_snapshot(position) {
            return go_back(
                &self.boot,
                &self.journal,
                &self.snapshots,
                &mut self.shown,
                position,
            );
        }
        self.shown = played_to(
            &self.boot,
            &self.journal,
            &mut self.snapshots,
            &self.shown,
            position,
            progress,
        )?;
        Ok(())
    }

    /// Whether no snapshot may be due between the last one at or before a position, or the boot, and the position.
    fn is_near_snapshot(&self, position: u64) -> bool
        requires { position ≤ length self.now.events }
    {
        // For the proof alone: its contract says how few events there can be.
        let _ = self.journal.len();
        position <= self.snapshots.next(self.snapshots.last_before(position))
    }
}
