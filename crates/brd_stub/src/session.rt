//! A session with GDB.

ghost use Rattle.std.specs.Prelude.{◌≡◌, ◌≤◌, [], length, slice_index_or, is_some, true, false, if◌then◌else◌, IfOk};
ghost use Rattle.brd_gdb.specs.Receiving.{packet_size};
ghost use Rattle.brd_debug.specs.Debugger.{shown};
ghost use Rattle.brd_stub.specs.Answers.{
  Answers,
  Begins,
  Reads,
  Becomes,
  Says,
  Shows,
  console_text,
  Stops,
  MovesForward,
  name_in,
  may_move,
  at_stop,
  marked_at,
  marked_here,
  named_here,
  gone_to_name,
  gone_to,
  named_in,
  whose_of,
  with_threads,
};
ghost use Rattle.brd_stub.specs.Halting.{halt_text, current_text, fitting, done_text, end_text, note_text};
ghost use Rattle.brd_stub.specs.Moving.{stepping, of_all, GoesForward, GoesBack};
ghost use Rattle.brd_stub.specs.Points.{may_set, with_point, without_point};
ghost use Rattle.brd_stub.specs.Selecting.{stepping_of, selected_by, asked_by};
ghost use Rattle.brd_stub.specs.Stepping.{stepper_on, stepper_back, stepped_by};
ghost use Rattle.brd_stub.specs.Threads.{thread_for};

use crate::answer::Answer;
use crate::halt::{Halt, Reason, Stop, Told};
use crate::marks::Marks;
use crate::moves::{Origin, backward, forward};
use crate::points::{Point, Points, load};
use crate::selection::Selection;
use crate::stepping::{Stepped, stepped_alone, stepper_back, stepper_on};
use crate::telling::{current_text, halt_text, plain, short, text};
use crate::threads::{Thread, Whose, executing, first_of, may_show, switched, thread_named};
use brd_base::NoMemory;
use brd_board::Board;
use brd_debug::{DebugFault, Debugger, Only, Stepper};
use brd_gdb::{MarkName, Monitor, Move, Request, ThreadId, ThreadKind};
use brd_journal::Journal;
use brd_progress::Progress;
use std::alloc::Global;

/// How many marks there are (own choice).
pub const MARKS: usize = 10;

/// A session with GDB: a debugger of a boot and a journal, and what GDB has set.
pub struct Session {
    /// The debugger.
    pub debugger: Debugger,
    /// The points at which GDB wants to stop.
    pub points: Points,
    /// What was told last.
    pub told: Told,
    /// Why the board stands where it is.
    pub halt: Halt,
    /// What threads are.
    pub kind: ThreadKind,
    /// Which threads requests are of.
    pub selection: Selection,
    /// At which positions the marks stand.
    pub marks: [u64; MARKS],
    /// Those with names.
    pub named: Marks,
}

/// Written out, so that a function that lets one go is proved with a call, and not with the end of each part.
impl Drop for Session {
    fn drop(self) {
        let Session {
            debugger: _,
            points: _,
            told: _,
            halt: _,
            kind: _,
            selection: _,
            marks: _,
            named: _,
        } = self;
    }
}

impl Session {
    /// A session with a debugger of this boot and journal, which have the same byte order, before the first event.
    pub fn new(alloc: Global, boot: Board, journal: Journal) -> Result<Session, NoMemory>
        requires orders { boot.memory.order ≡ journal.order }
        ensures { IfOk result (Begins boot journal.events) }
    {
        let first = first_of(&boot);
        Ok(Session {
            debugger: Debugger::new(alloc, boot, journal)?,
            points: Points::new(alloc),
            told: Told::Nothing,
            halt: Halt {
                thread: first.thread,
                reason: Reason::Done,
            },
            kind: first.kind,
            selection: Selection::new(first.thread),
            marks: [0; MARKS],
            named: Marks::new(alloc),
        })
    }

    /// Does what is asked. How far a move is, is told on the way.
    pub fn answer<P: Progress>(
        &mut self,
        alloc: Global,
        request: Request,
        progress: &mut P,
    ) -> Result<Answer, NoMemory>
        ensures answers { IfOk result (λ answer. Answers self.old request answer.reply.items self.new) }
        ensures shows { IfOk result (λ answer. Shows self.old request self.new answer.console.items) }
    {
        self.answered(alloc, request, progress)
    }

    /// Does what is asked.
    fn answered<P: Progress>(
        &mut self,
        alloc: Global,
        request: Request,
        progress: &mut P,
    ) -> Result<Answer, NoMemory>
        ensures reads { IfOk result (λ answer.
            Reads (shown self.old.debugger) self.old.selection.reading request answer.reply.items) }
        ensures becomes { IfOk result (λ _. Becomes self.old request self.new) }
        ensures says { IfOk result (λ answer. Says self.old request self.new answer.reply.items) }
        ensures shows { IfOk result (λ answer. Shows self.old request self.new answer.console.items) }
        ensures short { IfOk result (λ answer. length answer.reply.items ≤ packet_size) }
    {
        match request {
            Request::Forward(how) => self.go_forward(alloc, how, progress),
            Request::BackwardContinue => self.go_back(alloc, None, progress),
            Request::BackwardStep => {
                let stepper = stepper_back(self.debugger.show(), self.selection.stepping());
                self.go_back(alloc, Some(stepper), progress)
            }
            Request::Monitor(Monitor::Goto(position)) => self.go_to(alloc, position, progress),
            Request::Monitor(Monitor::Threads(kind)) => self.show_threads(alloc, kind),
            Request::Monitor(Monitor::Mark(number)) => self.mark(alloc, number),
            Request::Monitor(Monitor::Back(number)) => {
                let position = self.mark_at(number);
                self.go_to(alloc, position, progress)
            }
            Request::Monitor(Monitor::MarkByName(name)) => self.mark_by_name(alloc, name),
            Request::Monitor(Monitor::GotoName(name)) => self.go_to_name(alloc, name, progress),
            Request::SetThread { moves, thread } => self.set_thread(alloc, moves, thread),
            Request::SetPoint {
                kind,
                address,
                length,
            } => self.set(
                alloc,
                Point {
                    kind,
                    address,
                    length,
                },
            ),
            Request::ClearPoint {
                kind,
                address,
                length,
            } => self.clear(
                alloc,
                Point {
                    kind,
                    address,
                    length,
                },
            ),
            Request::IsAlive(thread) => self.ask(alloc, thread),
            Request::StopReason => self.tell_stop(alloc),
            Request::CurrentThread => self.tell_thread(alloc),
            Request::Monitor(command) => self.show_monitor(alloc, command),
            other => {
                let reply = self.tell(alloc, other)?;
                Ok(plain(alloc, reply))
            }
        }
    }

    /// Goes on to the next stop, and tells it, unless the thread that the move names isn't there.
    fn go_forward<P: Progress>(
        &mut self,
        alloc: Global,
        how: Move,
        progress: &mut P,
    ) -> Result<Answer, NoMemory>
        ensures becomes { IfOk result (λ _. MovesForward self.old how self.new) }
        ensures says { IfOk result (λ answer. answer.reply.items
            ≡ (if may_move self.old how then fitting (halt_text self.new.halt) else done_text false)) }
        ensures shows { IfOk result (λ answer. answer.console.items
            ≡ (if may_move self.old how then console_text self.new else [])) }
        ensures short { IfOk result (λ answer. length answer.reply.items ≤ packet_size) }
    {
        if !self.may_move(how) {
            return error(alloc);
        }
        let stepped = self.stepped_by(how);
        self.go_on(alloc, stepped, progress)
    }

    /// Whether the thread that a move names is there.
    fn may_move(&self, how: Move) -> bool
        ensures { result ≡ may_move self.now how }
    {
        self.named(name_in(how)).is_some()
    }

    /// Whom a move steps, if it steps somebody, and whether he moves alone.
    fn stepped_by(&self, how: Move) -> Stepped
        ensures { result ≡ stepped_by self.now.kind (shown self.now.debugger) (stepping_of self.now.selection) how }
    {
        match how {
            Move::Continue => Stepped {
                stepper: None,
                only: Only::All,
            },
            Move::Step(thread) => Stepped {
                stepper: Some(self.stepper(thread, 0, 0)),
                only: Only::All,
            },
            Move::Range { thread, start, end } => Stepped {
                stepper: Some(self.stepper(thread, start, end)),
                only: Only::All,
            },
            Move::Alone(number) => {
                let thread = self.thread(ThreadId::One(number));
                stepped_alone(thread)
            }
        }
    }

    /// How a thread is stepped within a range.
    fn stepper(&self, thread: ThreadId, start: u32, end: u32) -> Stepper
        ensures { result ≡ stepper_on (shown self.now.debugger)
            (thread_for self.now.kind (shown self.now.debugger) thread (stepping_of self.now.selection)) start end }
    {
        stepper_on(self.debugger.show(), self.thread(thread), start, end)
    }

    /// The thread of a name that steps.
    fn thread(&self, thread: ThreadId) -> Thread
        ensures { result
            ≡ thread_for self.now.kind (shown self.now.debugger) thread (stepping_of self.now.selection) }
    {
        let other = self.selection.stepping();
        match thread_named(self.kind, self.debugger.show(), thread, other) {
            Some(thread) => thread,
            None => other,
        }
    }

    /// What threads are, and the one that steps where none is named.
    fn whose(&self) -> Whose
        ensures { result ≡ whose_of self.now }
    {
        Whose {
            kind: self.kind,
            thread: self.selection.stepping(),
        }
    }

    /// Lets other things be threads from now on, if they may be, and says so on GDB's console.
    fn show_threads(&mut self, alloc: Global, kind: ThreadKind) -> Result<Answer, NoMemory>
        ensures becomes { IfOk result (λ _. self.new ≡ with_threads self.old kind) }
        ensures short { IfOk result (λ answer. length answer.reply.items ≤ packet_size) }
    {
        let may = self.switch_threads(kind);
        let console: &[u8] = match kind {
            ThreadKind::Processors => b"threads are the processors\n",
            ThreadKind::Tasks => {
                if may {
                    b"threads are the tasks, and the handlers that run\n"
                } else {
                    b"there is no task\n"
                }
            }
        };
        Ok(Answer {
            console: text(alloc, console)?,
            reply: text(alloc, b"OK")?,
        })
    }

    /// Lets other things be threads from now on, if they may be. Answers whether they may.
    fn switch_threads(&mut self, kind: ThreadKind) -> bool
        ensures { self.new ≡ with_threads self.old kind }
    {
        let board = self.debugger.show();
        if !may_show(kind, board) {
            return false;
        }
        let thread = switched(kind, board, self.halt.thread);
        let selection = self.selection.switching(kind, board);
        self.kind = kind;
        self.halt.thread = thread;
        self.selection = selection;
        true
    }

    /// Lets a mark stand at the position, and says so on GDB's console.
    fn mark(&mut self, alloc: Global, number: u8) -> Result<Answer, NoMemory>
        ensures becomes { IfOk result (λ _. self.new ≡ marked_here self.old number) }
        ensures short { IfOk result (λ answer. length answer.reply.items ≤ packet_size) }
    {
        let position = self.debugger.position();
        self.set_mark(number, position);
        let console = format!(in alloc; "mark {number} stands at {position}\n")?;
        Ok(Answer {
            console: text(alloc, console.as_bytes())?,
            reply: text(alloc, b"OK")?,
        })
    }

    /// Lets a mark with a name stand at the position, and says on GDB's console whether it does.
    fn mark_by_name(&mut self, alloc: Global, name: MarkName) -> Result<Answer, NoMemory>
        ensures becomes { IfOk result (λ _. self.new ≡ named_here self.old name) }
        ensures short { IfOk result (λ answer. length answer.reply.items ≤ packet_size) }
    {
        let position = self.debugger.position();
        let console = if self.named.set(name, position)? {
            format!(in alloc; "the mark stands at {position}\n")?
        } else {
            format!(in alloc; "64 other marks have names\n")?
        };
        Ok(Answer {
            console: text(alloc, console.as_bytes())?,
            reply: text(alloc, b"OK")?,
        })
    }

    /// Goes to where the mark of a name stands, and says on GDB's console where it is, or that there is none.
    fn go_to_name<P: Progress>(
        &mut self,
        alloc: Global,
        name: MarkName,
        progress: &mut P,
    ) -> Result<Answer, NoMemory>
        ensures becomes { IfOk result (λ _. self.new ≡ gone_to_name self.old name) }
        ensures short { IfOk result (λ answer. length answer.reply.items ≤ packet_size) }
    {
        match self.named.position_of(name) {
            Some(position) => self.go_to(alloc, position, progress),
            None => Ok(Answer {
                console: text(
                    alloc,
                    b"no mark has this name; `monitor marks` lists them\n",
                )?,
                reply: text(alloc, b"OK")?,
            }),
        }
    }

    /// Lets a mark stand at a position; one that isn't there stands nowhere.
    fn set_mark(&mut self, number: u8, position: u64)
        ensures { self.new ≡ record self.old { marks = marked_at self.old.marks number position } }
    {
        let place = usize::from(number);
        if place < MARKS {
            self.marks[place] = position;
        }
    }

    /// Where a mark stands; one that isn't there, at the beginning.
    fn mark_at(&self, number: u8) -> u64
        ensures { result ≡ slice_index_or self.now.marks number 0 }
    {
        let place = usize::from(number);
        if place < MARKS {
            return self.marks[place];
        }
        0
    }

    /// The thread of a name, and of any that of the last stop.
    fn named(&self, thread: ThreadId) -> Option<Thread>
        ensures { result ≡ named_in self.now thread }
    {
        thread_named(self.kind, self.debugger.show(), thread, self.halt.thread)
    }

    /// Selects the thread that is read, or that moves.
    fn set_thread(
        &mut self,
        alloc: Global,
        moves: bool,
        thread: ThreadId,
    ) -> Result<Answer, NoMemory>
        ensures becomes { IfOk result (λ _. self.new
            ≡ record self.old {
              selection = selected_by moves (named_in self.old thread) thread self.old.selection;
            }) }
        ensures says { IfOk result (λ answer.
            answer.reply.items ≡ done_text (is_some (named_in self.old thread))) }
        ensures short { IfOk result (λ answer. length answer.reply.items ≤ packet_size) }
    {
        let Some(found) = self.named(thread) else {
            return error(alloc);
        };
        self.selection = if moves {
            self.selection.naming(thread, found)
        } else {
            self.selection.choosing(found)
        };
        okay(alloc)
    }

    /// Sets a point.
    fn set(&mut self, alloc: Global, point: Point) -> Result<Answer, NoMemory>
        ensures becomes { IfOk result (λ _. self.new
            ≡ record self.old { points = with_point self.old.points point }) }
        ensures says { IfOk result (λ answer. answer.reply.items ≡ done_text (may_set self.old.points point)) }
        ensures short { IfOk result (λ answer. length answer.reply.items ≤ packet_size) }
    {
        if !self.points.set(point)? {
            return error(alloc);
        }
        okay(alloc)
    }

    /// Takes a point away.
    fn clear(&mut self, alloc: Global, point: Point) -> Result<Answer, NoMemory>
        ensures becomes { IfOk result (λ _. self.new
            ≡ record self.old { points = without_point self.old.points point }) }
        ensures says { IfOk result (λ answer. answer.reply.items ≡ done_text true) }
        ensures short { IfOk result (λ answer. length answer.reply.items ≤ packet_size) }
    {
        self.points.clear(point);
        okay(alloc)
    }

    /// Answers whether there is a thread, which is chosen then.
    fn ask(&mut self, alloc: Global, thread: ThreadId) -> Result<Answer, NoMemory>
        ensures becomes { IfOk result (λ _. self.new
            ≡ record self.old {
              selection = asked_by self.old.kind (shown self.old.debugger) thread self.old.selection;
            }) }
        ensures says { IfOk result (λ answer.
            answer.reply.items ≡ done_text (is_some (named_in self.old thread))) }
        ensures short { IfOk result (λ answer. length answer.reply.items ≤ packet_size) }
    {
        let found = self.named(thread);
        let board = self.debugger.show();
        self.selection = self.selection.asking(self.kind, board, thread);
        match found {
            Some(_) => okay(alloc),
            None => error(alloc),
        }
    }

    /// Lets the debugger stop at the points that are set, at exceptions, and where this is stepped.
    fn prepare(&mut self, stepped: Stepped)
        ensures { self.new ≡ record self.old { debugger = stepping self.old.points stepped self.old.debugger } }
    {
        load(&mut self.debugger, self.points.as_slice());
        self.debugger.set_stepper(stepped.stepper);
        self.debugger.set_only(stepped.only);
    }

    /// Goes on to the next stop, and tells it.
    fn go_on<P: Progress>(
        &mut self,
        alloc: Global,
        stepped: Stepped,
        progress: &mut P,
    ) -> Result<Answer, NoMemory>
        ensures becomes { IfOk result (λ _. Stops
            (GoesForward self.old.points (whose_of self.old) self.old.told
            (stepping self.old.points stepped self.old.debugger)) self.old self.new) }
        ensures says { IfOk result (λ answer. answer.reply.items ≡ fitting (halt_text self.new.halt)) }
        ensures shows { IfOk result (λ answer. answer.console.items ≡ console_text self.new) }
        ensures short { IfOk result (λ answer. length answer.reply.items ≤ packet_size) }
    {
        self.prepare(stepped);
        let last = self.whose();
        let origin = Origin {
            points: self.points.as_slice(),
            last,
            told: self.told,
        };
        let stop = forward(&mut self.debugger, origin, progress)?;
        self.stopped(alloc, stop)
    }

    /// Goes back to the last stop, and tells it.
    fn go_back<P: Progress>(
        &mut self,
        alloc: Global,
        stepper: Option<Stepper>,
        progress: &mut P,
    ) -> Result<Answer, NoMemory>
        ensures becomes { IfOk result (λ _. Stops
            (GoesBack self.old.points (whose_of self.old) self.old.told
            (stepping self.old.points (of_all stepper) self.old.debugger)) self.old self.new) }
        ensures says { IfOk result (λ answer. answer.reply.items ≡ fitting (halt_text self.new.halt)) }
        ensures shows { IfOk result (λ answer. answer.console.items ≡ console_text self.new) }
        ensures short { IfOk result (λ answer. length answer.reply.items ≤ packet_size) }
    {
        self.prepare(Stepped {
            stepper,
            only: Only::All,
        });
        let last = self.whose();
        let origin = Origin {
            points: self.points.as_slice(),
            last,
            told: self.told,
        };
        let stop = backward(&mut self.debugger, origin, progress)?;
        self.stopped(alloc, stop)
    }

    /// Tells why the board stands where it is.
    fn tell_stop(&self, alloc: Global) -> Result<Answer, NoMemory>
        ensures says { IfOk result (λ answer. answer.reply.items ≡ fitting (halt_text self.now.halt)) }
        ensures short { IfOk result (λ answer. length answer.reply.items ≤ packet_size) }
    {
        let reply = halt_text(alloc, self.halt)?;
        Ok(plain(alloc, short(reply)))
    }

    /// Tells in which thread it stands there.
    fn tell_thread(&self, alloc: Global) -> Result<Answer, NoMemory>
        ensures says { IfOk result (λ answer.
            answer.reply.items ≡ fitting (current_text self.now.halt.thread)) }
        ensures short { IfOk result (λ answer. length answer.reply.items ≤ packet_size) }
    {
        let reply = current_text(alloc, self.halt.thread)?;
        Ok(plain(alloc, short(reply)))
    }

    /// Keeps how a move has ended, and tells why the board stands where it is, and at the end of the journal what it
    /// does there.
    fn stopped(&mut self, alloc: Global, stop: Stop) -> Result<Answer, NoMemory>
        ensures becomes { self.new ≡ at_stop self.old (record { debugger = self.old.debugger; stop = stop }) }
        ensures says { IfOk result (λ answer. answer.reply.items ≡ fitting (halt_text self.new.halt)) }
        ensures shows { IfOk result (λ answer. answer.console.items ≡ console_text self.new) }
        ensures short { IfOk result (λ answer. length answer.reply.items ≤ packet_size) }
    {
        self.halt = stop.halt;
        self.told = stop.told;
        self.selection = self.selection.choosing(stop.halt.thread);
        let console = text(alloc, note_text(self.debugger.show(), stop.halt.reason))?;
        let reply = halt_text(alloc, stop.halt)?;
        Ok(Answer {
            console,
            reply: short(reply),
        })
    }

    /// Goes to a position, and says so on GDB's console.
    fn go_to<P: Progress>(
        &mut self,
        alloc: Global,
        position: u64,
        progress: &mut P,
    ) -> Result<Answer, NoMemory>
        ensures becomes { IfOk result (λ _. self.new ≡ gone_to self.old position) }
        ensures says { IfOk result (λ answer. answer.reply.items ≡ done_text true) }
        ensures short { IfOk result (λ answer. length answer.reply.items ≤ packet_size) }
    {
        let console = match self.debugger.goto_telling(position, progress) {
            Ok(()) => format!(in alloc; "at {position}\n")?,
            Err(DebugFault::Past { len }) => format!(in alloc; "past {len}\n")?,
            Err(DebugFault::NoMemory) => return Err(NoMemory),
        };
        self.told = Told::Nothing;
        Ok(Answer {
            console: text(alloc, console.as_bytes())?,
            reply: text(alloc, b"OK")?,
        })
    }
}

/// The thread that a move names.
fn name_in(how: Move) -> ThreadId
    ensures { result ≡ name_in how }
{
    match how {
        Move::Continue => ThreadId::Any,
        Move::Step(thread) => thread,
        Move::Alone(number) => ThreadId::One(number),
        Move::Range { thread, .. } => thread,
    }
}

/// What GDB's console shows where a move has ended for a reason.
fn note_text(board: &Board, reason: Reason) -> &'static [u8]
    ensures { result.now ≡ note_text reason board.now }
{
    match reason {
        Reason::End => end_text(board),
        Reason::WatchedBreak(_) => b"The watch was met by the instruction at this break.\n",
        Reason::Done
        | Reason::Break(_)
        | Reason::Exception(_)
        | Reason::Watch(_, _)
        | Reason::Interrupt
        | Reason::Begin => b"",
    }
}

/// What a board does at the end of a journal.
fn end_text(board: &Board) -> &'static [u8]
    ensures { result.now ≡ end_text board.now }
{
    if board.is_off() {
        b"The journal ends here: the board is off.\n"
    } else if board.registers(executing(board, 1)).is_some() {
        b"The journal ends here.\n"
    } else {
        b"The journal ends here: no processor executes anything.\n"
    }
}

/// The answer that all went well.
fn okay(alloc: Global) -> Result<Answer, NoMemory>
    ensures says { IfOk result (λ answer. answer.reply.items ≡ done_text true) }
    ensures short { IfOk result (λ answer. length answer.reply.items ≤ packet_size) }
{
    let reply = text(alloc, b"OK")?;
    Ok(plain(alloc, reply))
}

/// The answer that a request is refused.
fn error(alloc: Global) -> Result<Answer, NoMemory>
    ensures says { IfOk result (λ answer. answer.reply.items ≡ done_text false) }
    ensures shows { IfOk result (λ answer. answer.console.items ≡ []) }
    ensures short { IfOk result (λ answer. length answer.reply.items ≤ packet_size) }
{
    let reply = text(alloc, b"E01")?;
    Ok(plain(alloc, reply))
}
