//! Boards that tests race on.

use brd_board::Board;
use brd_config::parse;
use brd_mem::Image;
use std::alloc::Global;

/// A loop that never ends: a branch to itself, and its slot.
pub const LOOP: &[u32] = &[0x1000_ffff, 0];

/// Two processors with a task each, at the first word.
pub const TWO: &str = "BOARD(2, 0x10000);
CRE_TSK(1, {TA_ACT, 0, 0x80000000, 1, 256, NULL});
CLASS(TCL_2) { CRE_TSK(2, {TA_ACT, 0, 0x80000000, 1, 256, NULL}); }
";

/// The board of words and a configuration.
pub fn board_of(alloc: Global, words: &[u32], config: &str) -> Option<Board> {
    let Ok(image) = Image::from_words(alloc, words) else {
        return None;
    };
    let Ok(config) = parse(alloc, config.as_bytes()) else {
        return None;
    };
    match Board::boot(alloc, &image, &config) {
        Ok(board) => Some(board),
        Err(_) => None,
    }
}
