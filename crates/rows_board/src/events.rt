//! Events as letters, and their reports.

use brd_board::{Board, Event, Report};
use std::alloc::{AllocError, Global};

/// The event that a byte stands for.
fn event_of(byte: u8) -> Event {
    match byte {
        b'T' => Event::Tick,
        b'a'..=b'z' => Event::Raise(byte - b'a'),
        _ => Event::Step(byte.wrapping_sub(b'0')),
    }
}

/// The byte that stands for a report.
fn letter_of(report: Report) -> char {
    match report {
        Report::Ran(_) => 'r',
        Report::Called(_) => 'c',
        Report::Faulted(_) => 'f',
        Report::Idle => 'i',
        Report::Stopped => 's',
        Report::Off => 'o',
        Report::NoSuch => 'n',
        Report::Ticked => 't',
        Report::TimeOver => 'O',
        Report::Accepted(_) => 'a',
        Report::Raised => 'R',
    }
}

/// Tells the address or the line that a report has.
fn tell_place(text: &mut String, report: Report) -> Result<(), AllocError> {
    match report {
        Report::Ran(at) | Report::Called(at) | Report::Faulted(at) => write!(text, "({at:08x})"),
        Report::Accepted(line) => write!(text, "({line})"),
        _ => Ok(()),
    }
}

/// Does events, and tells their reports, also the places that these have if they are wanted.
pub fn play(
    alloc: Global,
    board: &mut Board,
    events: &[u8],
    with_places: bool,
) -> Result<String, AllocError> {
    let mut reports = String::new(alloc);
    for byte in events {
        let report = board.event(event_of(*byte));
        reports.push(letter_of(report))?;
        if with_places {
            tell_place(&mut reports, report)?;
        }
    }
    Ok(reports)
}
