//! Boards that are built, and their events one by one.

use super::runs::{REPORTS, SHOWN};
use super::{ONE_LETTER, ONE_TASK, shows};
use brd_board::{Board, Event, Report};
use brd_image::build;
use std::alloc::Global;

/// What a test does with a board.
#[derive(Clone, Copy)]
enum Scene {
    Letter,
    Handlers,
    Words,
}

/// Whether a board does in a scene what it should.
fn does(alloc: Global, board: &mut Board, scene: Scene) -> bool {
    match scene {
        Scene::Letter => reports_each(board, REPORTS) && shows(board, &SHOWN),
        Scene::Handlers => wrong_line(board).is_none(),
        Scene::Words => is_of_words(alloc, board),
    }
}

/// Whether the board of a source and a configuration does what it should. (Only this function and `is_of_words` own a
/// board.)
fn goes_well(alloc: Global, source: &str, config: &str, scene: Scene) -> bool {
    match build(alloc, source.as_bytes(), config.as_bytes()) {
        Ok(mut board) => does(alloc, &mut board, scene),
        Err(_) => false,
    }
}

/// Whether steps of processor 1, one by one, report this.
fn reports_each(board: &mut Board, reports: &[Report]) -> bool {
    for report in reports {
        if board.event(Event::Step(1)) != *report {
            return false;
        }
    }
    true
}

/// The same as of `runs` by a board that was built, and its events one by one.
#[test]
fn a_letter_by_events(rt: HostRuntime) {
    assert!(rt; goes_well(rt.alloc(), ONE_LETTER, ONE_TASK, Scene::Letter));
}

/// Lines 3 and 5 are those of processor 1, line 31 that of processor 2.
const WITH_HANDLERS: &str = "BOARD(2, 0x10000);
    DEF_INH(5, {TA_HLNG, 0x80000008}); DEF_INH(3, {TA_ASM, 0x80000008});
    CLASS(TCL_2) { DEF_INH(31, {TA_HLNG, 0x80000008}); }";

/// The first line that doesn't report what it should.
fn wrong_line(board: &mut Board) -> Option<u8> {
    for line in 0..=255u8 {
        let report = if line == 3 || line == 5 || line == 31 {
            Report::Raised
        } else {
            Report::NoSuch
        };
        if board.event(Event::Raise(line)) != report {
            return Some(line);
        }
    }
    None
}

/// Only the lines of DEF_INH have a handler.
#[test]
fn lines_without_a_handler(rt: HostRuntime) {
    assert!(rt; goes_well(rt.alloc(), "", WITH_HANDLERS, Scene::Handlers));
}

/// Whether a board is that of two words.
fn is_of_words(alloc: Global, board: &Board) -> bool {
    match Board::from_words(alloc, &[0x3c08_1234, 0x0000_000c]) {
        Ok(other) => board.same(&other),
        Err(_) => false,
    }
}

/// A board of words is the board of a source of them and of a configuration.
#[test]
fn words_are_an_image(rt: HostRuntime) {
    let source = ".word 0x3c081234\n.word 0x0000000c\n";
    let config = "BOARD(1, 0x10000); CRE_TSK(1, {TA_ACT, 0, 0x80000000, 1, 256, NULL});";
    assert!(rt; goes_well(rt.alloc(), source, config, Scene::Words));
}
