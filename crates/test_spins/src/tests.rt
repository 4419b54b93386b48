//! What is told of processors that spin: scenes that were worked out by hand.

use brd_asm::assemble;
use brd_image::build;
use brd_journal::{Playback, read_text};
use brd_mem::Symbol;
use brd_spins::{put_spins, spins};
use std::alloc::Global;
use std::test::Fail;
use test_help::none_wrong;

/// How many runs a journal may have.
const MOST_RUNS: u32 = 100;

/// What is told after so many events.
struct Case {
    source: &'static str,
    config: &'static str,
    journal: &'static str,
    to: u64,
    /// The processor of which it is, if of one alone.
    asked: Option<u8>,
    told: &'static str,
}

/// A task on each of two processors.
const TWO: &str = "BOARD(2, 0x10000);
CRE_SPN(1, {TA_NULL});
CRE_TSK(1, {TA_ACT, 0, one, 1, 256, NULL});
CLASS(TCL_2) { CRE_TSK(2, {TA_ACT, 0, two, 1, 256, NULL}); }
";

/// A task on the first of two processors, and a handler.
const ONE: &str = "BOARD(2, 0x10000);
CRE_TSK(1, {TA_ACT, 0, one, 1, 256, NULL});
DEF_INH(4, {TA_HLNG, handler});
";

/// Processor 1 polls a word until processor 2 has written it, and then branches to itself. Processor 2 counts then.
const POLLS: &str = "
one:    lui     $t0, 0x8000
        ori     $t0, $t0, 0x100
wait:   lw      $t1, 0($t0)
        beq     $t1, $0, wait
        nop
done:   b       done
        nop
two:    lui     $t0, 0x8000
        addiu   $t1, $0, 1
        sw      $t1, 0x100($t0)
more:   addiu   $t2, $t2, 1
        b       more
        nop
";

const POLLED: &str = "board-journal 2 big
S 1 8
S 2 2
S 1 4
S 2 1
S 1 10
S 2 9
";

/// A loop with a store, and one that is entered in its midst and whose load is LL.
const STORES: &str = "
one:    lui     $t0, 0x8000
next:   sw      $0, 0x100($t0)
        b       next
        nop
two:    lui     $t0, 0x8000
        b       test
        nop
again:  ll      $t1, 0x100($t0)
test:   beq     $t1, $0, again
        nop
        b       two
        nop
";

const STORED: &str = "board-journal 2 big
S 1 20
S 2 6
S 1 1
S 2 4
S 1 1
";

/// Processor 1 holds the spin lock for which processor 2 asks.
const LOCKS: &str = "
one:    addiu   $a0, $0, 1
        addiu   $v0, $0, 60
        syscall
        nop
        addiu   $v0, $0, 62
        syscall
        break
two:    addiu   $a0, $0, 1
        addiu   $v0, $0, 60
        syscall
        addiu   $v0, $0, 62
        syscall
        b       two
        nop
";

const LOCKED: &str = "board-journal 2 big
S 1 3
S 2 4
S 1 1
S 2 3
S 1 2
S 2 1
S 1 1
";

/// A task that branches to itself, and a handler that polls a word.
const HANDLED: &str = "
one:    b       one
        nop
handler: lui    $t0, 0x8000
poll:   lw      $t1, 0x100($t0)
        beq     $t1, $0, poll
        nop
        addiu   $v0, $0, 63
        syscall
";

const RAISED: &str = "board-journal 2 big
S 1 5
T 2
R 4 1
S 1 6
S 2 3
";

/// Task 1 starts task 2 on processor 2, where it branches to itself, ends it and starts it again. Then a handler does
/// that there.
const STARTS: &str = "
one:    addiu   $a0, $0, 2
        addiu   $v0, $0, 1
        syscall
        addiu   $v0, $0, 4
        syscall
        addiu   $v0, $0, 1
        syscall
done:   b       done
        nop
two:    b       two
        nop
handler: b      handler
        nop
";

/// A task on each of two processors, of which the second one isn't started, and a handler on the second.
const LATE: &str = "BOARD(2, 0x10000);
CRE_TSK(1, {TA_ACT, 0, one, 1, 256, NULL});
CLASS(TCL_2) { CRE_TSK(2, {TA_NULL, 0, two, 1, 256, NULL}); DEF_INH(4, {TA_HLNG, handler}); }
";

const STARTED: &str = "board-journal 2 big
S 1 7
R 4 1
S 2 2
";

const CASES: &[Case] = &[
    Case {
        source: POLLS,
        config: TWO,
        journal: POLLED,
        to: 1,
        asked: None,
        told: "",
    },
    Case {
        source: POLLS,
        config: TWO,
        journal: POLLED,
        to: 2,
        asked: None,
        told: "cpu 1 spins since event 2 at wait (80000008): 3 instructions that change nothing\n",
    },
    Case {
        source: POLLS,
        config: TWO,
        journal: POLLED,
        to: 14,
        asked: None,
        told: "cpu 1 spins since event 2 at wait (80000008): 3 instructions that change nothing\n",
    },
    // The word that it has loaded is still 0, and the one that it will load is not.
    Case {
        source: POLLS,
        config: TWO,
        journal: POLLED,
        to: 15,
        asked: None,
        told: "",
    },
    Case {
        source: POLLS,
        config: TWO,
        journal: POLLED,
        to: 34,
        asked: None,
        told: "cpu 1 spins since event 20 at done (80000014): 2 instructions that change nothing\n",
    },
    Case {
        source: STORES,
        config: TWO,
        journal: STORED,
        to: 32,
        asked: None,
        told: "cpu 2 spins since event 23 at again (8000001c): 3 instructions that change nothing\n",
    },
    Case {
        source: LOCKS,
        config: TWO,
        journal: LOCKED,
        to: 5,
        asked: None,
        told: "cpu 2 spins since event 5 at two+0x8 (80000024): asks for lock 1\n",
    },
    Case {
        source: LOCKS,
        config: TWO,
        journal: LOCKED,
        to: 12,
        asked: None,
        told: "cpu 2 spins since event 5 at two+0x8 (80000024): asks for lock 1\n",
    },
    Case {
        source: LOCKS,
        config: TWO,
        journal: LOCKED,
        to: 15,
        asked: None,
        told: "",
    },
    Case {
        source: HANDLED,
        config: ONE,
        journal: RAISED,
        to: 7,
        asked: None,
        told: "cpu 1 spins since the start at one (80000000): 2 instructions that change nothing\n",
    },
    // It is about to accept the interrupt.
    Case {
        source: HANDLED,
        config: ONE,
        journal: RAISED,
        to: 8,
        asked: None,
        told: "",
    },
    Case {
        source: HANDLED,
        config: ONE,
        journal: RAISED,
        to: 17,
        asked: None,
        told: "cpu 1 spins since event 10 at poll (8000000c): 3 instructions that change nothing\n",
    },
    // Who spins has executed there since it was started, and since it was started anew, whoever makes steps.
    Case {
        source: STARTS,
        config: LATE,
        journal: STARTED,
        to: 3,
        asked: Some(2),
        told: "cpu 2 spins since event 3 at two (80000024): 2 instructions that change nothing\n",
    },
    Case {
        source: STARTS,
        config: LATE,
        journal: STARTED,
        to: 4,
        asked: Some(2),
        told: "cpu 2 spins since event 3 at two (80000024): 2 instructions that change nothing\n",
    },
    Case {
        source: STARTS,
        config: LATE,
        journal: STARTED,
        to: 5,
        asked: Some(2),
        told: "",
    },
    Case {
        source: STARTS,
        config: LATE,
        journal: STARTED,
        to: 7,
        asked: Some(2),
        told: "cpu 2 spins since event 7 at two (80000024): 2 instructions that change nothing\n",
    },
    Case {
        source: STARTS,
        config: LATE,
        journal: STARTED,
        to: 9,
        asked: Some(2),
        told: "cpu 2 spins since event 9 at handler (8000002c): 2 instructions that change nothing\n",
    },
    // Processor 1 is asked for, and processor 2 spins.
    Case {
        source: LOCKS,
        config: TWO,
        journal: LOCKED,
        to: 12,
        asked: Some(1),
        told: "",
    },
    Case {
        source: LOCKS,
        config: TWO,
        journal: LOCKED,
        to: 12,
        asked: Some(2),
        told: "cpu 2 spins since event 5 at two+0x8 (80000024): asks for lock 1\n",
    },
];

/// Whether this is told.
fn is_told(alloc: Global, case: &Case) -> bool {
    let Ok(image) = assemble(alloc, case.source.as_bytes()) else {
        return false;
    };
    let symbols = image.symbols.as_slice();
    match told(alloc, case, symbols) {
        Some(text) => text.as_slice() == case.told.as_bytes(),
        None => false,
    }
}

/// What is told.
fn told(alloc: Global, case: &Case, symbols: &[Symbol]) -> Option<Vec<u8>> {
    let Ok(board) = build(alloc, case.source.as_bytes(), case.config.as_bytes()) else {
        return None;
    };
    let Ok(journal) = read_text(alloc, case.journal.as_bytes(), MOST_RUNS) else {
        return None;
    };
    if case.to > journal.len() {
        return None;
    }
    let Ok(copy) = board.try_copy() else {
        return None;
    };
    let mut playback = Playback { board: copy, at: 0 };
    playback.play_to(&journal, case.to, case.to);
    let Ok(spins) = spins(alloc, board, &journal, &playback) else {
        return None;
    };
    let mut text = Vec::new(alloc);
    match put_spins(alloc, symbols, case.asked, spins.as_slice(), &mut text) {
        Ok(()) => Some(text),
        Err(_) => None,
    }
}

/// The first case of which something else is told.
fn first_wrong(alloc: Global) -> Option<usize> {
    for i in 0..CASES.len() {
        if !is_told(alloc, &CASES[i]) {
            return Some(i);
        }
    }
    None
}

#[test]
fn told_of_scenes(rt: HostRuntime) -> Result<(), Fail> {
    none_wrong(first_wrong(rt.alloc()))
}
