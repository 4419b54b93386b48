//! Which files are opened, and in which order.

use super::is_fault;
use brd_command::{
    Files, Looks, Quiet, Request, SearchOptions, ShrinkOptions, Sizes, asm_files, perform,
};
use std::alloc::{AllocError, Global};
use std::cell::RefCell;
use std::io::{self, ErrorKind, Read, Write};
use std::sync::Wait;
use std::test::Fail;
use std::thread::Threads;
use test_help::none_wrong;

/// Files that note what is done with them, one thing after the other. All that are read hold the same; of a name that
/// begins with `no `, none can be opened or created.
#[derive(Drop)]
struct Noted<'a> {
    notes: &'a RefCell<String>,
    text: &'static [u8],
    kind: ErrorKind,
}

/// Notes that something was done.
fn note(notes: &RefCell<String>, done: &str, name: &str) -> io::Result<()> {
    if let Ok(mut notes) = notes.try_borrow_mut() {
        notes.push_str(done)?;
        notes.push_str(name)?;
        notes.push_str("; ")?;
    }
    Ok(())
}

impl<'a> Noted<'a> {
    /// Notes a call, and refuses what can't be.
    fn call(&mut self, done: &str, name: &str) -> io::Result<()> {
        note(self.notes, done, name)?;
        if name.starts_with("no ") {
            return Err(io::Error::new(self.kind, "the files' own words"));
        }
        Ok(())
    }
}

impl<'a> Files for Noted<'a> {
    type Input = NotedInput<'a>;

    type Output = NotedOutput<'a>;

    fn open(&mut self, name: &str) -> io::Result<NotedInput<'a>> {
        self.call("open ", name)?;
        Ok(NotedInput {
            notes: self.notes,
            left: self.text,
        })
    }

    fn create(&mut self, name: &str) -> io::Result<NotedOutput<'a>> {
        self.call("create ", name)?;
        Ok(NotedOutput { notes: self.notes })
    }

    fn close(&mut self, _output: NotedOutput<'a>) {
        let _ = note(self.notes, "close", "");
    }
}

#[derive(Drop)]
struct NotedInput<'a> {
    notes: &'a RefCell<String>,
    left: &'static [u8],
}

impl<'a> Read for NotedInput<'a> {
    fn read(&mut self, buf: &mut [u8]) -> io::Result<usize> {
        note(self.notes, "read", "")?;
        self.left.read(buf)
    }
}

#[derive(Drop)]
struct NotedOutput<'a> {
    notes: &'a RefCell<String>,
}

impl<'a> Write for NotedOutput<'a> {
    fn write(&mut self, buf: &[u8]) -> io::Result<usize> {
        note(self.notes, "write", "")?;
        Ok(buf.len())
    }

    fn flush(&mut self) -> io::Result<()> {
        note(self.notes, "flush", "")
    }
}

/// Whether no file of this name can be opened, and the fault says so.
fn cannot_be_opened(alloc: Global, name: &str, text: &str) -> bool {
    let notes = RefCell::new(String::new(alloc));
    let mut files = Noted {
        notes: &notes,
        text: b"",
        kind: ErrorKind::NotFound,
    };
    let ended = asm_files(alloc, &mut files, name, "out", &mut Quiet);
    is_fault(alloc, &ended, text, 4)
}

/// Puts a front, n times ten digits, and an end at the end.
fn put_digits(text: &mut String, front: &str, tens: u8, end: &str) -> Result<(), AllocError> {
    text.push_str(front)?;
    for _ in 0..tens {
        text.push_str("0123456789")?;
    }
    text.push_str(end)
}

/// Whether a name of 303 bytes is shown by its front.
fn is_cut_off(alloc: Global) -> bool {
    let mut name = String::new(alloc);
    let mut text = String::new(alloc);
    put_digits(&mut name, "no ", 30, "").is_ok()
        && put_digits(&mut text, "can't open no ", 25, "01: the files' own words").is_ok()
        && cannot_be_opened(alloc, name.as_str(), text.as_str())
}

/// Whatever a file's name holds, its fault is one line.
#[test]
fn names_of_files(rt: HostRuntime) {
    let name = "no \n\tname\u{1b}[31m\u{e4}\r\u{7f}~ #";
    let text = "can't open no ? name?[31m????~ #: the files' own words";
    assert!(rt; cannot_be_opened(rt.alloc(), name, text) && is_cut_off(rt.alloc()));
}

/// What a request does with files that hold `nop`, how much it leaves of a standard input of eight bytes, and what it
/// writes to standard output.
struct Done {
    request: Request<'static>,
    notes: &'static str,
    is_ok: bool,
    left: usize,
    written: &'static [u8],
}

/// What is looked for where nothing is said.
const LOOKS: Looks<'static> = Looks {
    exception: false,
    deadlock: false,
    on: false,
    words: None,
    console: None,
    reach: None,
    never: None,
};

/// The options of a search of schedules of one event.
const SEARCH: SearchOptions<'static> = SearchOptions {
    sizes: Sizes {
        events: 1,
        preemptions: 0,
        ticks: 0,
        fair: 0,
    },
    raises: None,
    lines: None,
    looks: LOOKS,
    shortest: false,
    shard: None,
    remember: 0,
    time: 0,
    threads: 0,
    places: 0,
    livelock: false,
    finals: false,
    lazy: 0,
    memory: 0,
    values: None,
    only: None,
    raises_at: None,
};

/// The options of a journal that is made shorter.
const SHRINK: ShrinkOptions<'static> = ShrinkOptions {
    looks: LOOKS,
    fair: 0,
};

const REQUESTS: &[Done] = &[
    Done {
        request: Request::Words { steps: 1 },
        notes: "",
        is_ok: true,
        left: 0,
        written: b"pc 80000004\n$8 00000005\n$29 80010000\n",
    },
    Done {
        request: Request::Asm {
            source: "a",
            out: "b",
        },
        notes: "open a; create b; read; read; write; flush; close; ",
        is_ok: true,
        left: 8,
        written: b"",
    },
    Done {
        request: Request::Run {
            image: "a",
            config: "b",
            journal: "c",
        },
        notes: "open a; open b; open c; read; read; read; read; read; read; ",
        is_ok: false,
        left: 8,
        written: b"",
    },
    Done {
        request: Request::Race {
            image: "a",
            config: "b",
            script: "c",
            quota: 1,
            out: "d",
        },
        notes: "open a; open b; open c; create d; read; read; read; read; read; read; close; ",
        is_ok: false,
        left: 8,
        written: b"",
    },
    Done {
        request: Request::Race {
            image: "a",
            config: "b",
            script: "no c",
            quota: 1,
            out: "d",
        },
        notes: "open a; open b; open no c; ",
        is_ok: false,
        left: 8,
        written: b"",
    },
    Done {
        request: Request::Race {
            image: "a",
            config: "b",
            script: "c",
            quota: 1,
            out: "no d",
        },
        notes: "open a; open b; open c; create no d; ",
        is_ok: false,
        left: 8,
        written: b"",
    },
    Done {
        request: Request::Gdb {
            image: "a",
            config: "b",
            journal: "c",
        },
        notes: "open a; open b; open c; read; read; read; read; read; read; ",
        is_ok: false,
        left: 8,
        written: b"",
    },
    Done {
        request: Request::Explore {
            image: "a",
            config: "b",
            options: SEARCH,
            out: Some("c"),
        },
        notes: "open a; open b; read; read; read; read; ",
        is_ok: false,
        left: 8,
        written: b"",
    },
    Done {
        request: Request::Shrink {
            image: "a",
            config: "b",
            journal: "c",
            options: SHRINK,
            out: Some("d"),
        },
        notes: "open a; open b; open c; read; read; read; read; read; read; ",
        is_ok: false,
        left: 8,
        written: b"",
    },
];

/// Whether these are the notes.
fn are_noted(notes: &RefCell<String>, wanted: &str) -> bool {
    match notes.try_borrow() {
        Ok(notes) => notes.as_str() == wanted,
        Err(_) => false,
    }
}

/// Whether a request uses standard input and output as it should, over files that make these notes.
fn is_performed<T: Threads + Wait + Sync>(
    rt: &T,
    alloc: Global,
    notes: &RefCell<String>,
    row: &Done,
) -> bool {
    let mut files = Noted {
        notes,
        text: b"nop",
        kind: ErrorKind::NotFound,
    };
    let mut input = b"24080005".as_slice();
    let mut output = Vec::new(alloc);
    perform(
        rt,
        alloc,
        &mut files,
        &mut input,
        &mut output,
        &mut Quiet,
        row.request,
    )
    .is_ok()
        == row.is_ok
        && input.len() == row.left
        && output.as_slice() == row.written
}

/// Whether a request does what it should.
fn is_done<T: Threads + Wait + Sync>(rt: &T, alloc: Global, row: &Done) -> bool {
    let notes = RefCell::new(String::new(alloc));
    is_performed(rt, alloc, &notes, row) && are_noted(&notes, row.notes)
}

/// The first of `REQUESTS` that does something else.
fn first_wrong_request<T: Threads + Wait + Sync>(rt: &T, alloc: Global) -> Option<usize> {
    REQUESTS.iter().position(|row| !is_done(rt, alloc, row))
}

/// `words` touches no file, `asm` neither standard input nor output, `run`, `race`, `explore` and `shrink` no standard
/// input. (The files hold a source, so that these read all of them, and then refuse the object file: a file for a
/// journal that is found is created only later.)
#[test]
fn requests(rt: HostRuntime) -> Result<(), Fail> {
    none_wrong(first_wrong_request(&rt, rt.alloc()))
}
