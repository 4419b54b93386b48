use brd_board::Event;
use brd_journal::{Journal, JournalFault, MOST_RUNS, read_text};
use brd_word::Order;
use std::alloc::Global;
use std::test::Fail;

/// How many events these runs have together.
const LEN: u64 = 16_777_216_000_000_000;

/// Appends as many runs as a journal can have, each another event than the one before.
fn fill(journal: &mut Journal) -> Result<(), JournalFault> {
    for n in 0..MOST_RUNS {
        let event = if n % 2 == 0 {
            Event::Step(255)
        } else {
            Event::Raise(200)
        };
        journal.push_run(event, 4_000_000_000)?;
    }
    Ok(())
}

/// Whether a text is read as a journal of n runs, and refused where there is room for one less.
fn is_read_again(alloc: Global, text: &[u8]) -> bool {
    match read_text(alloc, text, MOST_RUNS) {
        Ok(again) => again.len() == LEN && is_full_one_below(alloc, text),
        Err(_) => false,
    }
}

fn is_full_one_below(alloc: Global, text: &[u8]) -> bool {
    match read_text(alloc, text, MOST_RUNS - 1) {
        Ok(_) => false,
        Err(fault) => fault == JournalFault::Full,
    }
}

/// Whether a full journal takes no further event.
fn is_full(journal: &mut Journal) -> bool {
    match journal.push(Event::Tick) {
        Ok(()) => false,
        Err(fault) => fault == JournalFault::Full && journal.len() == LEN,
    }
}

/// As many runs as a journal can have.
#[test]
fn large(rt: HostRuntime) -> Result<(), Fail> {
    let alloc = rt.alloc();
    let mut journal = Journal::new(alloc, MOST_RUNS, Order::Big);
    fill(&mut journal)?;
    let text = journal.write_text(alloc)?;
    assert!(rt;
        is_full(&mut journal) && text.len() == 20 + 17 * 4_194_304 && is_read_again(alloc, &text)
    );
    Ok(())
}
