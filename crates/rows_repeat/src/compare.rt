//! A board that does steps by `repeat`, beside one that does them one by one.

ghost use Rattle.std.specs.Prelude.{◌≡◌, IfOk};

use crate::random::Random;
use crate::seen::Seen;
use brd_base::NoMemory;
use brd_board::{Board, Event};

/// How many counts are tried from a boot: 0, 1, and so on.
pub const COUNTS: u32 = 97;

/// How many turns are taken in a row.
pub const TURNS: u32 = 48;

/// How many steps a turn may have.
const STEPS: [u32; 12] = [0, 1, 1, 2, 3, 4, 5, 8, 17, 64, 65, 200];

/// After this many steps at once a board has a table of decoded instructions, and does many steps by it.
const LONG: u32 = 0x4000;

/// A board as `boot` is that has such a table: it has done many steps, and become that board again.
fn with_table(boot: &Board) -> Result<Board, NoMemory>
    ensures { IfOk result (λ board. board ≡ boot.now) }
{
    let mut many = boot.try_copy()?;
    let _ = agrees(boot, boot, &mut many, LONG)?;
    Ok(many)
}

/// The first count after which a board that is as `boot` at first differs from one that did n single steps.
pub fn first_other_count(boot: &Board, seen: &mut Seen) -> Result<Option<u32>, NoMemory> {
    let mut single = boot.try_copy()?;
    let mut many = with_table(boot)?;
    first_other_count_on(boot, &mut single, &mut many, seen)
}

fn first_other_count_on(
    boot: &Board,
    single: &mut Board,
    many: &mut Board,
    seen: &mut Seen,
) -> Result<Option<u32>, NoMemory>
    requires { many.old ≡ boot.now }
{
    for count in 0..COUNTS {
        if !agrees(boot, single, many, count)? {
            return Ok(Some(count));
        }
        seen.event(single, Event::Step(1));
    }
    Ok(None)
}

/// Whether a board that is as `boot` is as another one after n steps of processor 1 at once. It is as `boot` again
/// then.
fn agrees(boot: &Board, single: &Board, many: &mut Board, count: u32) -> Result<bool, NoMemory>
    requires { many.old ≡ boot.now }
    ensures { IfOk result (λ _. many.new ≡ boot.now) }
{
    many.repeat(Event::Step(1), count);
    let agrees = many.same(single);
    many.copy_from(boot)?;
    Ok(agrees)
}

/// The first turn after which two boards that are as `boot` at first differ: processors take turns on both, on one by
/// `repeat` and on the other step by step. Between turns a tick may pass or an interrupt may be raised.
pub fn first_other_turn(
    boot: &Board,
    random: Random,
    seen: &mut Seen,
) -> Result<Option<u32>, NoMemory> {
    let mut single = boot.try_copy()?;
    let mut many = with_table(boot)?;
    Ok(first_other_turn_on(&mut single, &mut many, random, seen))
}

fn first_other_turn_on(
    single: &mut Board,
    many: &mut Board,
    mut random: Random,
    seen: &mut Seen,
) -> Option<u32> {
    for turn in 0..TURNS {
        let (event, count) = turn_of(&mut random);
        do_singly(single, event, count, seen);
        many.repeat(event, count);
        if !many.same(single) {
            return Some(turn);
        }
    }
    None
}

/// A turn at random: what happens, and how often.
fn turn_of(random: &mut Random) -> (Event, u32) {
    let event = match random.below(16) {
        0 => Event::Tick,
        1 => Event::Raise(4),
        2..=5 => Event::Step(2),
        _ => Event::Step(1),
    };
    (event, STEPS[random.below(12) as usize])
}

/// Does one event n times, one by one.
fn do_singly(board: &mut Board, event: Event, count: u32, seen: &mut Seen) {
    for _ in 0..count {
        seen.event(board, event);
    }
}
