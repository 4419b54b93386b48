//! The text of a script.

use brd_threads::{Outer, ScriptFault, read_script};
use std::alloc::Global;

/// A text, and the line of its fault; 0 where it has none.
const TEXTS: &[(&str, usize)] = &[
    ("", 0),
    ("T 2\nR 4 1\n", 0),
    ("T 2\nR 4 1", 2),
    ("T 1\n\n", 2),
    ("S 1 1\n", 1),
    ("board-journal 1\nT 1\n", 1),
    ("R 255 1\nR 256 1\n", 2),
    ("T 0\n", 1),
    ("T 01\n", 1),
    ("T  1\n", 1),
    ("T 1\r\n", 1),
    ("T 1000000\n", 0),
    ("T 1000000\nR 4 1\n", 2),
    ("T 1000001\n", 1),
    ("T 4294967296\n", 1),
];

/// The line of a text's fault, 0 where it has none. None where memory ran out.
fn faulty_line(alloc: Global, text: &str) -> Option<usize> {
    match read_script(alloc, text.as_bytes()) {
        Ok(_) => Some(0),
        Err(ScriptFault::Syntax { line }) => Some(line),
        Err(ScriptFault::NoMemory) => None,
    }
}

#[test]
fn faulty_lines(rt: HostRuntime) {
    for (text, line) in TEXTS {
        let found = faulty_line(rt.alloc(), text);
        assert!(rt; found == Some(*line), "{text}: {found:?}");
    }
}

/// Whether a text says these entries.
fn says(alloc: Global, text: &str, entries: &[Outer]) -> bool {
    match read_script(alloc, text.as_bytes()) {
        Ok(script) => script.as_slice() == entries,
        Err(_) => false,
    }
}

#[test]
fn entries(rt: HostRuntime) {
    assert!(rt;
        says(
            rt.alloc(),
            "T 2\nR 4 1\n",
            &[Outer::Tick, Outer::Tick, Outer::Raise(4)]
        )
    );
}
