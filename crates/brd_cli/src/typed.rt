//! Standard input. In a dialogue with GDB a thread reads it ahead, so that long work sees whether it is to stop.

ghost use Rattle.std.specs.Prelude.{◌≤◌, length, IfOk};

use std::alloc::{AllocError, Global};
use std::io::{self, BufReader, ErrorKind, Read};
use std::sync::{Arc, Condvar, Mutex, Wait};
use std::thread::{self, Threads};

/// The byte with which GDB asks that the program stop.
const INTERRUPT: u8 = 3;

/// How many bytes are read ahead at most (own choice).
const ROOM: usize = 4_096;

/// What was read ahead.
#[derive(Drop)]
struct Ahead {
    /// The bytes.
    bytes: Vec<u8>,
    /// How many of them were taken.
    taken: usize,
    /// Whether nothing comes after them.
    has_ended: bool,
    /// Why, where that is no end of the input.
    error: Option<io::Error>,
}

impl Ahead {
    /// The bytes that weren't taken yet.
    fn rest(&self) -> &[u8] {
        self.bytes.get(self.taken..).unwrap_or(&[])
    }

    /// Takes bytes, as many as there are or have room. Answers how many.
    fn take(&mut self, buf: &mut [u8]) -> usize
        ensures { result ≤ length buf.new }
    {
        let rest = self.rest();
        let count = rest.len().min(buf.len());
        buf[..count].copy_from_slice(&rest[..count]);
        self.taken = self.taken.saturating_add(count);
        count
    }

    /// Keeps what was read, where the bytes before were taken.
    fn keep(&mut self, read: io::Result<&[u8]>) {
        self.bytes.clear();
        self.taken = 0;
        match read {
            Ok(bytes) => {
                self.has_ended = bytes.is_empty() || self.bytes.extend_from_slice(bytes).is_err();
            }
            Err(error) => {
                self.has_ended = true;
                self.error = Some(error);
            }
        }
    }
}

/// Where a thread leaves what it reads ahead.
#[derive(Drop)]
pub struct Inbox {
    ahead: Mutex<Ahead>,
    changes: Condvar,
}

impl Inbox {
    /// Nothing was read yet.
    fn new(alloc: Global) -> Result<Inbox, AllocError> {
        Ok(Inbox {
            ahead: Mutex::new(Ahead {
                bytes: Vec::with_capacity(alloc, ROOM)?,
                taken: 0,
                has_ended: false,
                error: None,
            }),
            changes: Condvar::new(),
        })
    }

    /// Whether the byte that is taken next asks that the program stop. It waits for none.
    pub fn is_interrupt_next(&self) -> bool {
        match self.ahead.try_lock() {
            Some(ahead) => ahead.rest().first() == Some(&INTERRUPT),
            None => false,
        }
    }

    /// Leaves what was read, once all before was taken.
    fn put<T: Wait>(&self, rt: &T, read: io::Result<&[u8]>) {
        let mut ahead = self.ahead.lock(rt);
        for _ in rt.forever() {
            if ahead.rest().is_empty() {
                break;
            }
            ahead = self.changes.wait(rt, ahead);
        }
        ahead.keep(read);
        drop(ahead);
        self.changes.notify_all();
    }

    /// Takes bytes, once there are some; none once nothing comes any more.
    fn take<T: Wait>(&self, rt: &T, buf: &mut [u8]) -> io::Result<usize>
        ensures { IfOk result (λ count. count ≤ length buf.new) }
    {
        let mut ahead = self.ahead.lock(rt);
        for _ in rt.forever() {
            if ahead.has_ended || !ahead.rest().is_empty() {
                break;
            }
            ahead = self.changes.wait(rt, ahead);
        }
        if let Some(error) = ahead.error.take() {
            return Err(error);
        }
        let count = ahead.take(buf);
        let is_empty = ahead.rest().is_empty();
        drop(ahead);
        if is_empty {
            self.changes.notify_all();
        }
        Ok(count)
    }

    /// Leaves here all that comes of a reader.
    fn fill<T: Wait, R: Read>(&self, rt: &T, reader: &mut R) {
        let mut place = [0u8; ROOM];
        for _ in rt.forever() {
            match reader.read(&mut place) {
                Ok(0) => {
                    self.put(rt, Ok(&[]));
                    return;
                }
                Ok(count) => self.put(rt, Ok(&place[..count])),
                Err(error) if error.kind() == ErrorKind::Interrupted => {}
                Err(error) => {
                    self.put(rt, Err(error));
                    return;
                }
            }
        }
    }
}

/// Who reads standard input.
#[derive(Drop)]
pub enum Typed<'a, T, R> {
    /// The command alone.
    Alone(BufReader<R>),
    /// A thread, which nobody joins: it may wait for more when the program ends.
    Ahead(&'a T, Arc<Inbox, Global>),
}

impl<'a, T: Wait, R: Read + Drop> Typed<'a, T, R> {
    /// Where what comes next is seen, if it is.
    pub fn inbox(&self) -> Option<Arc<Inbox, Global>> {
        match self {
            Typed::Alone(_) => None,
            Typed::Ahead(_, inbox) => Arc::try_clone(inbox).ok(),
        }
    }
}

/// A reader that a command reads alone.
pub fn read_alone<'a, T: Wait, R: Read + Drop>(
    alloc: Global,
    reader: R,
) -> io::Result<Typed<'a, T, R>> {
    Ok(Typed::Alone(BufReader::new(alloc, reader)?))
}

/// A reader that a thread reads ahead, which begins here.
pub fn read_ahead<'a, T, R>(
    rt: &'a T,
    alloc: Global,
    mut reader: R,
) -> Result<Typed<'a, T, R>, AllocError>
where
    T: Threads + Wait + Copy + Send + 'static,
    R: Read + Drop + Send + 'static,
{
    let host = *rt;
    let inbox = Arc::new(alloc, Inbox::new(alloc)?)?;
    let theirs = Arc::try_clone(&inbox)?;
    thread::spawn(rt, move || theirs.fill(&host, &mut reader))?;
    Ok(Typed::Ahead(rt, inbox))
}

impl<'a, T: Wait, R: Read + Drop> Read for Typed<'a, T, R> {
    fn read(&mut self, buf: &mut [u8]) -> io::Result<usize> {
        match self {
            Typed::Alone(reader) => reader.read(buf),
            Typed::Ahead(rt, inbox) => inbox.take(*rt, buf),
        }
    }
}
