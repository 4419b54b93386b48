//! Words of memory by whose values places are told from each other at first sight.

use brd_base::{List, NoMemory};
use brd_board::{Board, Event};
use std::alloc::Global;

/// How often each event comes on the way that shows which words change (own choice).
const TURNS: u32 = 2_000;

/// How many words there are at most (own choice).
const MOST_WORDS: usize = 128;

/// Where RAM begins.
const RAM: u32 = 0x8000_0000;

/// How many bytes a page has, of which a RAM has some.
const PAGE: u32 = 4_096;

/// How many pages a RAM has at most.
const PAGES: u32 = 4_096;

/// The addresses of words that change on a way on which each event comes in turn.
pub(crate) fn busy_words(
    alloc: Global,
    board: &Board,
    among: &[Event],
) -> Result<List<u32>, NoMemory> {
    let mut other = board.try_copy()?;
    for _ in 0..TURNS {
        other.play(among);
    }
    let mut words = List::new(alloc);
    for page in 0..PAGES {
        add_changed(board, &other, RAM + page * PAGE, &mut words)?;
    }
    Ok(words)
}

/// Adds the addresses of the words of a page in which two boards differ.
fn add_changed(
    one: &Board,
    other: &Board,
    page: u32,
    words: &mut List<u32>,
) -> Result<(), NoMemory> {
    if page > RAM + PAGES * PAGE || one.memory(page).is_none() {
        return Ok(());
    }
    for word in 0..PAGE / 4 {
        let address = page + word * 4;
        if words.len() < MOST_WORDS && one.aligned_word(address) != other.aligned_word(address) {
            words.push(address)?;
        }
    }
    Ok(())
}
