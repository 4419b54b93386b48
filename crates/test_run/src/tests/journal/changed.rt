use brd_journal::{JournalFault, read_text};
use std::alloc::Global;
use std::test::Fail;
use test_help::{has_line, none_wrong, put_byte};

const TEXT: &[u8] = b"board-journal 2 little\nS 1 10\nT 1\nT 4294967295\nR 255 7\nS 0 9\n";

/// Whether a text is read as a journal.
fn is_journal(alloc: Global, text: &[u8]) -> bool {
    read_text(alloc, text, 9).is_ok()
}

/// Whether a text is read as a journal, or has a fault of a line that there is.
fn is_right(alloc: Global, text: &[u8]) -> bool {
    match read_text(alloc, text, 9) {
        Ok(_) => true,
        Err(JournalFault::Syntax { line }) => has_line(text, line),
        Err(_) => false,
    }
}

/// The first front of a text that is answered wrongly: each is a fault, but where it ends with a line.
fn first_wrong_front(alloc: Global) -> Option<usize> {
    for len in 0..=TEXT.len() {
        let text = &TEXT[..len];
        let is_whole = text.last() == Some(&b'\n');
        if is_journal(alloc, text) != is_whole || !is_right(alloc, text) {
            return Some(len);
        }
    }
    None
}

#[test]
fn cut(rt: HostRuntime) -> Result<(), Fail> {
    none_wrong(first_wrong_front(rt.alloc()))
}

/// Whether a text is answered rightly with any byte in this place. The last one stays there.
fn is_right_at(alloc: Global, text: &mut [u8], place: usize) -> bool {
    for byte in 0..=255u8 {
        put_byte(text, place, byte);
        if !is_right(alloc, text) {
            return false;
        }
    }
    true
}

/// The first place of `TEXT`, of which this is a copy, where some byte is answered wrongly.
fn first_wrong_place(alloc: Global, copy: &mut [u8]) -> Option<usize> {
    for (place, byte) in TEXT.iter().enumerate() {
        if !is_right_at(alloc, copy, place) {
            return Some(place);
        }
        put_byte(copy, place, *byte);
    }
    None
}

/// Each byte as each other byte.
#[test]
fn replaced(rt: HostRuntime) -> Result<(), Fail> {
    let mut copy = Vec::from_slice(rt.alloc(), TEXT)?;
    none_wrong(first_wrong_place(rt.alloc(), copy.as_mut_slice()))
}
