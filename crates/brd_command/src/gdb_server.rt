//! GDB's remote protocol, byte by byte: what is answered to what GDB sends.

ghost use Rattle.std.specs.Prelude.{◌≡◌, ◌++◌, [], false, codes, IfOk, OnOk};
ghost use Rattle.brd_command.specs.Serving as serving;
ghost use Rattle.brd_gdb.specs.Packets.{framed};
ghost use Rattle.brd_gdb.specs.Reading.{request_of as request_of_packet};

use crate::gdb_history::History;
use brd_base::NoMemory;
use brd_gdb::{Arrival, Receiver, Request, put_output, put_packet, request_of};
use brd_inputs::Start;
use brd_progress::Progress;
use brd_stub::Session;
use std::alloc::Global;

/// A server of GDB: what it has received, a session, what has happened before, and whether it still acknowledges
/// packets.
pub struct Server {
    /// What it has received.
    pub receiver: Receiver,
    /// The session.
    pub session: Session,
    /// What has happened up to a position.
    pub history: History,
    /// Whether it acknowledges packets.
    pub acknowledges: bool,
}

/// Written out, so that a function that lets one go is proved with a call, and not with the end of each part.
impl Drop for Server {
    fn drop(self) {
        let Server {
            receiver: _,
            session: _,
            history: _,
            acknowledges: _,
        } = self;
    }
}

/// What a server answers to a byte.
#[derive(Drop)]
pub struct Served {
    /// The answer.
    pub bytes: Vec<u8>,
    /// Whether it was the last.
    pub is_over: bool,
}

impl Server {
    /// A server with a session of a board and journal, which have the same byte order, before the first byte.
    pub fn new(alloc: Global, start: Start) -> Result<Server, NoMemory>
        requires orders { start.board.memory.order ≡ start.journal.order }
        ensures { IfOk result (serving.IsReady start.board start.journal.events) }
    {
        let Start {
            board,
            image,
            config,
            journal,
        } = start;
        let history = History::new(alloc, &board, &journal, image, &config)?;
        let receiver = Receiver::new(alloc)?;
        let session = Session::new(alloc, board, journal)?;
        Ok(Server {
            receiver,
            session,
            history,
            acknowledges: true,
        })
    }

    /// Takes a byte, and answers what has come with it. How far a move is, is told on the way.
    pub fn serve<P: Progress>(
        &mut self,
        alloc: Global,
        byte: u8,
        progress: &mut P,
    ) -> Result<Served, NoMemory>
        ensures { IfOk result (λ served. serving.Serves self.old byte served.bytes.items served.is_over self.new) }
    {
        match self.receiver.take(byte)? {
            Some(Arrival::Packet) => self.packet(alloc, progress),
            Some(Arrival::TooLong) => self.too_long(alloc),
            Some(Arrival::Damaged) => self.damaged(alloc),
            Some(Arrival::Accepted) => Ok(nothing(alloc)),
            Some(Arrival::Refused) => Ok(nothing(alloc)),
            Some(Arrival::Interrupt) => Ok(nothing(alloc)),
            None => Ok(nothing(alloc)),
        }
    }

    /// Answers a packet.
    fn packet<P: Progress>(&mut self, alloc: Global, progress: &mut P) -> Result<Served, NoMemory>
        ensures { IfOk result (λ served. serving.AnswersPacket (request_of_packet self.old.receiver.payload) self.old
            served.bytes.items served.is_over self.new) }
    {
        let request = request_of(alloc, self.receiver.payload())?;
        let mut bytes = self.accepted(alloc)?;
        match request {
            Request::StartNoAckMode => {
                self.acknowledges = false;
                put_packet(&mut bytes, b"OK")?;
                Ok(Served {
                    bytes,
                    is_over: false,
                })
            }
            Request::Detach | Request::KillProcess => {
                put_packet(&mut bytes, b"OK")?;
                Ok(Served {
                    bytes,
                    is_over: true,
                })
            }
            Request::Kill => Ok(Served {
                bytes,
                is_over: true,
            }),
            other => {
                self.request(alloc, other, &mut bytes, progress)?;
                Ok(Served {
                    bytes,
                    is_over: false,
                })
            }
        }
    }

    /// Puts the session's answer to a request at the end: what is shown on the console, and the reply. A trace and a
    /// summary are shown in the place of what the session says to them.
    fn request<P: Progress>(
        &mut self,
        alloc: Global,
        request: Request,
        bytes: &mut Vec<u8>,
        progress: &mut P,
    ) -> Result<(), NoMemory>
        ensures { OnOk result (serving.AddsAnswer request self.old self.new bytes.old.items bytes.new.items) }
    {
        progress.begin();
        let answer = self.session.answer(alloc, request, progress)?;
        let position = self.session.debugger.position();
        let shown = self
            .history
            .console(alloc, request, position, &answer.console, progress)?;
        progress.hide();
        put_output(bytes, &shown)?;
        put_packet(bytes, &answer.reply)
    }

    /// Answers a packet that is too long.
    fn too_long(&self, alloc: Global) -> Result<Served, NoMemory>
        ensures { IfOk result (λ served.
            (served.bytes.items ≡ serving.accepted self.now ++ framed (codes "E07")) × (served.is_over ≡ false)) }
    {
        let mut bytes = self.accepted(alloc)?;
        put_packet(&mut bytes, b"E07")?;
        Ok(Served {
            bytes,
            is_over: false,
        })
    }

    /// Answers a packet that is damaged.
    fn damaged(&self, alloc: Global) -> Result<Served, NoMemory>
        ensures { IfOk result (λ served.
            (served.bytes.items ≡ serving.refused self.now) × (served.is_over ≡ false)) }
    {
        let mut bytes = Vec::new(alloc);
        if self.acknowledges {
            bytes.push(b'-')?;
        }
        Ok(Served {
            bytes,
            is_over: false,
        })
    }

    /// That a packet was received.
    fn accepted(&self, alloc: Global) -> Result<Vec<u8>, NoMemory>
        ensures { IfOk result (λ bytes. bytes.items ≡ serving.accepted self.now) }
    {
        let mut bytes = Vec::new(alloc);
        if self.acknowledges {
            bytes.push(b'+')?;
        }
        Ok(bytes)
    }
}

/// No answer.
fn nothing(alloc: Global) -> Served
    ensures { (result.bytes.items ≡ []) × (result.is_over ≡ false) }
{
    Served {
        bytes: Vec::new(alloc),
        is_over: false,
    }
}
