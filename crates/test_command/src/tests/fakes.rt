//! Readers and writers that go a byte at a time, count, and fail where they are told to.

use std::alloc::Global;
use std::io::{self, ErrorKind, Read, Write};

/// Gives a byte a read. The read of this number fails, with this kind; or each read is interrupted once before it gives
/// something.
#[derive(Drop)]
pub struct Bytewise<'a> {
    pub left: &'a [u8],
    pub reads: usize,
    pub fails_at: usize,
    pub kind: ErrorKind,
    pub interrupts: bool,
}

impl<'a> Bytewise<'a> {
    pub fn new(left: &'a [u8]) -> Self {
        Bytewise {
            left,
            reads: 0,
            fails_at: 0,
            kind: ErrorKind::ConnectionReset,
            interrupts: false,
        }
    }
}

impl<'a> Read for Bytewise<'a> {
    fn read(&mut self, buf: &mut [u8]) -> io::Result<usize> {
        self.reads = self.reads.wrapping_add(1);
        if self.reads == self.fails_at {
            return Err(io::Error::new(self.kind, "the reader's own words"));
        }
        if self.interrupts && self.reads % 2 == 1 {
            return Err(io::Error::from(ErrorKind::Interrupted));
        }
        match (self.left.split_first(), buf.first_mut()) {
            (Some((byte, rest)), Some(place)) => {
                *place = *byte;
                self.left = rest;
                Ok(1)
            }
            _ => Ok(0),
        }
    }
}

/// Gives a byte a read, and then ends, or interrupts each. It counts them.
#[derive(Drop)]
pub struct Busy<'a> {
    pub left: &'a [u8],
    pub ends: bool,
    pub reads: u32,
}

impl<'a> Busy<'a> {
    pub fn new(left: &'a [u8], ends: bool) -> Self {
        Busy {
            left,
            ends,
            reads: 0,
        }
    }
}

impl<'a> Read for Busy<'a> {
    fn read(&mut self, buf: &mut [u8]) -> io::Result<usize> {
        self.reads = self.reads.wrapping_add(1);
        match (self.left.split_first(), buf.first_mut()) {
            (Some((byte, rest)), Some(place)) => {
                *place = *byte;
                self.left = rest;
                Ok(1)
            }
            _ if self.ends => Ok(0),
            _ => Err(io::Error::from(ErrorKind::Interrupted)),
        }
    }
}

/// Takes a byte a write. The write of this number fails, with this kind, or takes nothing; or each write is interrupted
/// once before it takes something. A flush counts as a write.
#[derive(Drop)]
pub struct Taking {
    pub taken: Vec<u8>,
    pub writes: usize,
    pub fails_at: usize,
    pub kind: ErrorKind,
    pub is_full: bool,
    pub interrupts: bool,
}

impl Taking {
    pub fn new(alloc: Global) -> Self {
        Taking {
            taken: Vec::new(alloc),
            writes: 0,
            fails_at: 0,
            kind: ErrorKind::BrokenPipe,
            is_full: false,
            interrupts: false,
        }
    }

    /// Whether a write failed after n bytes of an output, and was the last one.
    pub fn has_failed_after(&self, output: &[u8], count: usize) -> bool {
        self.writes == self.fails_at
            && self.taken.len() == count
            && output.starts_with(self.taken.as_slice())
    }

    /// Whether an output was taken a byte a write, and flushed.
    pub fn has_flushed(&self, output: &[u8]) -> bool {
        self.writes == output.len().saturating_add(1) && self.taken.as_slice() == output
    }

    /// Whether this stands somewhere in what was taken.
    pub fn has(&self, part: &[u8]) -> bool {
        for start in 0..self.taken.len() {
            if self.taken.as_slice()[start..].starts_with(part) {
                return true;
            }
        }
        false
    }

    /// One more write, or flush.
    fn count(&mut self) -> io::Result<()> {
        self.writes = self.writes.wrapping_add(1);
        if self.writes == self.fails_at {
            return Err(io::Error::new(self.kind, "the writer's own words"));
        }
        Ok(())
    }
}

impl Write for Taking {
    fn write(&mut self, buf: &[u8]) -> io::Result<usize> {
        self.count()?;
        if self.is_full {
            return Ok(0);
        }
        if self.interrupts && self.writes % 2 == 1 {
            return Err(io::Error::from(ErrorKind::Interrupted));
        }
        match buf.first() {
            Some(byte) => {
                self.taken.push(*byte)?;
                Ok(1)
            }
            None => Ok(0),
        }
    }

    fn flush(&mut self) -> io::Result<()> {
        self.count()
    }
}
