//! What is told without anything being changed.

ghost use Rattle.std.specs.Prelude.{◌≡◌, ◌≤◌, [], length, IfOk};
ghost use Rattle.brd_debug.specs.Debugger.{shown};
ghost use Rattle.brd_gdb.specs.Receiving.{packet_size};
ghost use Rattle.brd_stub.specs.Answers.{Reads};
ghost use Rattle.brd_stub.specs.BadAddress.{bad_address};
ghost use Rattle.brd_stub.specs.Halting.{halt_text, current_text, fitting};
ghost use Rattle.brd_stub.specs.Reading.{IsMemoryText};
ghost use Rattle.brd_stub.specs.Registers.{context_or_rest, registers_text, register_text};
ghost use Rattle.brd_stub.specs.Threads.{context_at, fault_at};

use crate::answer::Answer;
use crate::exceptions::bad_address;
use crate::halt::{Halt, show_halt};
use crate::memory::show_memory;
use crate::registers::{context_of, show_register, show_registers};
use crate::session::Session;
use crate::thread_texts::{show_thread, thread_document, thread_list, thread_text};
use crate::threads::{Thread, fault_at, thread_named};
use brd_base::NoMemory;
use brd_board::Board;
use brd_gdb::{PACKET_SIZE, Request, ThreadId, ThreadKind, features, put_hex, put_slice};
use std::alloc::Global;

/// What a session can do, by the names of GDB's protocol.
const SUPPORTED: &[u8] =
    b"PacketSize=4000;QStartNoAckMode+;vContSupported+;swbreak+;hwbreak+;ReverseStep+;ReverseContinue+;\
    qXfer:features:read+;qXfer:threads:read+";

impl Session {
    /// What is replied to a request that changes nothing.
    pub(crate) fn tell(&self, alloc: Global, request: Request) -> Result<Vec<u8>, NoMemory>
        ensures reads { IfOk result
            (λ reply. Reads (shown self.now.debugger) self.now.selection.reading request reply.items) }
        ensures short { IfOk result (λ reply. length reply.items ≤ packet_size) }
    {
        let board = self.debugger.show();
        match request {
            Request::ReadRegisters => registers(alloc, board, self.selection.reading),
            Request::ReadRegister(number) => register(alloc, board, self.selection.reading, number),
            Request::ReadMemory { address, length } => memory(alloc, board, address, length),
            Request::Write => text(alloc, b"E01"),
            other => {
                let reply = self.say(alloc, other)?;
                Ok(short(reply))
            }
        }
    }

    /// The same, of what says nothing of registers and memory.
    fn say(&self, alloc: Global, request: Request) -> Result<Vec<u8>, NoMemory> {
        let board = self.debugger.show();
        match request {
            Request::Supported => text(alloc, SUPPORTED),
            Request::StartNoAckMode | Request::Detach | Request::Kill | Request::KillProcess =>
                text(alloc, b"OK"),
            Request::FirstThreads => thread_list(alloc, self.kind, board),
            Request::OtherThreads => text(alloc, b"l"),
            Request::ThreadInfo(thread) => self.info(alloc, thread),
            Request::ReadFeatures { offset, length } => part(alloc, features(), offset, length),
            Request::ReadThreads { offset, length } => {
                threads(alloc, self.kind, board, offset, length)
            }
            Request::MoveKinds => text(alloc, b"vCont;c;C;s;S;r"),
            Request::IsAttached => text(alloc, b"0"),
            _ => text(alloc, b""),
        }
    }

    /// What there is to say of a thread.
    fn info(&self, alloc: Global, thread: ThreadId) -> Result<Vec<u8>, NoMemory> {
        let board = self.debugger.show();
        let Some(thread) = thread_named(self.kind, board, thread, self.selection.reading) else {
            return text(alloc, b"E01");
        };
        let bytes = thread_text(alloc, board, thread)?;
        let mut reply = Vec::new(alloc);
        put_hex(&mut reply, &bytes)?;
        Ok(reply)
    }
}

/// These bytes.
pub fn text(alloc: Global, bytes: &[u8]) -> Result<Vec<u8>, NoMemory>
    ensures { IfOk result (λ reply. reply.items ≡ bytes.now) }
{
    let mut reply = Vec::new(alloc);
    reply.extend_from_slice(bytes)?;
    Ok(reply)
}

/// The front of a reply that a packet has room for.
pub fn short(reply: Vec<u8>) -> Vec<u8>
    ensures fitting { result.items ≡ fitting reply.items }
    ensures short { length result.items ≤ packet_size }
{
    let mut reply = reply;
    reply.truncate(PACKET_SIZE);
    reply
}

/// The answer of this reply, with nothing for the console.
pub fn plain(alloc: Global, reply: Vec<u8>) -> Answer
    ensures reply { result.reply ≡ reply }
    ensures console { result.console.items ≡ [] }
{
    Answer {
        console: Vec::new(alloc),
        reply,
    }
}

/// All registers of a thread.
fn registers(alloc: Global, board: &Board, thread: Thread) -> Result<Vec<u8>, NoMemory>
    ensures is { IfOk result
        (λ reply. reply.items ≡ registers_text board.now.memory.order (context_or_rest (context_at board.now thread))
        (fault_at board.now thread) (bad_address board.now thread)) }
    ensures short { IfOk result (λ reply. length reply.items ≤ packet_size) }
{
    let mut reply = Vec::new(alloc);
    let fault = fault_at(board, thread);
    let bad = bad_address(board, thread);
    show_registers(
        &mut reply,
        board.order(),
        &context_of(board, thread),
        fault,
        bad,
    )?;
    Ok(reply)
}

/// One register of a thread.
fn register(alloc: Global, board: &Board, thread: Thread, number: u32) -> Result<Vec<u8>, NoMemory>
    ensures is { IfOk result
        (λ reply. reply.items ≡ register_text board.now.memory.order (context_or_rest (context_at board.now thread))
        (fault_at board.now thread) (bad_address board.now thread) number) }
    ensures short { IfOk result (λ reply. length reply.items ≤ packet_size) }
{
    let mut reply = Vec::new(alloc);
    let fault = fault_at(board, thread);
    let bad = bad_address(board, thread);
    show_register(
        &mut reply,
        board.order(),
        &context_of(board, thread),
        fault,
        bad,
        number,
    )?;
    Ok(reply)
}

/// Memory from an address on.
fn memory(alloc: Global, board: &Board, address: u32, most: u32) -> Result<Vec<u8>, NoMemory>
    ensures is { IfOk result (λ reply. IsMemoryText board.now.memory address most reply.items) }
    ensures short { IfOk result (λ reply. length reply.items ≤ packet_size) }
{
    show_memory(alloc, board, address, most)
}

/// Why the board stands where it is.
pub fn halt_text(alloc: Global, halt: Halt) -> Result<Vec<u8>, NoMemory>
    ensures { IfOk result (λ reply. reply.items ≡ halt_text halt) }
{
    let mut reply = Vec::new(alloc);
    show_halt(&mut reply, halt)?;
    Ok(reply)
}

/// The thread of the last stop.
pub fn current_text(alloc: Global, thread: Thread) -> Result<Vec<u8>, NoMemory>
    ensures { IfOk result (λ reply. reply.items ≡ current_text thread) }
{
    let mut reply = Vec::new(alloc);
    reply.extend_from_slice(b"QC")?;
    show_thread(&mut reply, thread)?;
    Ok(reply)
}

/// A part of the list of threads.
fn threads(
    alloc: Global,
    kind: ThreadKind,
    board: &Board,
    offset: u32,
    length: u32,
) -> Result<Vec<u8>, NoMemory> {
    let document = thread_document(alloc, kind, board)?;
    part(alloc, &document, offset, length)
}

/// A part of a document.
fn part(alloc: Global, document: &[u8], offset: u32, length: u32) -> Result<Vec<u8>, NoMemory> {
    let mut reply = Vec::new(alloc);
    put_slice(&mut reply, document, offset, length)?;
    Ok(reply)
}
