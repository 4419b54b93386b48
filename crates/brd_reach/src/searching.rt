//! The search through all places.

ghost use Rattle.std.specs.Prelude.{◌≡◌, IfOk, List as ListOf};
ghost use Rattle.brd_blocks.specs.Owning.{StayShared, sharing_of};
ghost use Rattle.brd_reach.specs.Reaching.{AreGuarded, AreSharedTerms, IsGuarded, IsSharedCondition, IsSharedTerm};
ghost use Rattle.brd_reach.specs.Reaching.{AreSharedWords, IsSharedWord, ReachedSo};

use crate::held::{Held, what_holds};
use crate::round::{Round, visit_all};
use crate::unknown::Unknown;
use crate::ways::Ways;
use brd_base::{BASE, List, NoMemory};
use brd_blocks::{Owner, Sharing};
use brd_board::{Board, Event};
use brd_explore::{Condition, Failure, Term, Wanted};
use brd_places::{Left, Places};
use std::alloc::Global;

/// What a search through all places came to.
#[derive(Drop)]
pub enum Reached {
    /// No schedule fails.
    Holds(Held),
    /// These events lead to a board that fails.
    Fails(List<Event>),
    /// It isn't known.
    Unknown(Unknown),
}

/// How often a search begins anew at most (own choice).
const MOST_ROUNDS: u32 = 10_000;

/// Searches all places of a board to which events lead, however many there are, with so many ticks and raises: for one
/// that fails, or to find that none does. It visits so many places at most. Ends are told from each other by the console
/// and the words at some addresses.
pub fn reach(
    alloc: Global,
    start: &Board,
    left: Left,
    among: &[Event],
    wanted: &Wanted,
    words: &[u32],
    most: usize,
) -> Result<Reached, NoMemory>
    ensures { IfOk result (ReachedSo start.now left among.now wanted.now) }
{
    if wanted.rounds != 0 {
        return Ok(Reached::Unknown(Unknown::Fair));
    }
    let size = ram_len(start);
    let mut sharing = guarded_with(alloc, size, wanted, words)?;
    for _ in 0..MOST_ROUNDS {
        let owned = owned_words(alloc, &sharing, size)?;
        let mut places = Places::new(alloc, start, left)?;
        let mut ways = Ways::new(alloc, words)?;
        match visit_all(
            alloc,
            &mut places,
            &mut ways,
            &sharing,
            owned.as_slice(),
            among,
            wanted,
            most,
        )? {
            Round::Holds => return Ok(Reached::Holds(what_holds(alloc, &places, &ways)?)),
            Round::Fails(at) => return Ok(Reached::Fails(places.path(at)?)),
            Round::Strays(at, cpu, count) => {
                let board = places.board(at)?;
                learn(&mut sharing, board, cpu, count, among);
            }
            Round::Unknown(why) => return Ok(Reached::Unknown(why)),
        }
    }
    Ok(Reached::Unknown(Unknown::Rounds))
}

/// How many bytes a page has, of which a RAM has some.
const PAGE: u32 = 4_096;

/// How many pages a RAM has at most.
const PAGES: u32 = 4_096;

/// How many bytes of RAM a board has, in whole pages.
pub fn ram_len(board: &Board) -> u32 {
    for page in 0..PAGES {
        if board.memory(BASE + page * PAGE).is_none() {
            return page * PAGE;
        }
    }
    PAGES * PAGE
}

/// Who may touch which word of a RAM of this size: all what failures watch and the words at some addresses, and nobody's
/// else.
fn guarded_with(
    alloc: Global,
    size: u32,
    wanted: &Wanted,
    words: &[u32],
) -> Result<Sharing, NoMemory>
    ensures guarded { IfOk result (λ sharing. AreGuarded (sharing_of sharing) wanted.now.failures) }
    ensures shared { IfOk result (λ sharing. AreSharedWords (sharing_of sharing) words.now) }
{
    let mut sharing = guarded(alloc, size, wanted)?;
    guard_words(&mut sharing, words);
    Ok(sharing)
}

/// Who may touch which word of a RAM of this size: all what failures watch, and nobody's else.
pub fn guarded(alloc: Global, size: u32, wanted: &Wanted) -> Result<Sharing, NoMemory>
    ensures { IfOk result (λ sharing. AreGuarded (sharing_of sharing) wanted.now.failures) }
{
    let mut sharing = Sharing::new(alloc, size)?;
    for failure in wanted.failures.as_slice() {
        guard(&mut sharing, failure);
    }
    Ok(sharing)
}

/// All may touch what a failure watches of memory, from now on.
fn guard(sharing: &mut Sharing, failure: &Failure)
    ensures stays { StayShared sharing.old sharing.new }
    ensures guarded { IsGuarded (sharing_of sharing.new) failure.now }
{
    match failure {
        Failure::Word { address, .. } | Failure::Outside { address, .. } => {
            guard_word(sharing, *address);
        }
        Failure::Holds(condition) => guard_condition(sharing, condition),
        Failure::Exception | Failure::Deadlock | Failure::Console(_) => {}
        Failure::Unlisted { words, .. } => guard_words(sharing, words.as_slice()),
        Failure::On | Failure::Ended | Failure::At { .. } => {}
    }
}

/// All may touch the words of a condition, from now on.
fn guard_condition(sharing: &mut Sharing, condition: &Condition)
    ensures stays { StayShared sharing.old sharing.new }
    ensures guarded { IsSharedCondition (sharing_of sharing.new) condition.now }
{
    guard_terms(sharing, condition.left.as_slice());
    guard_terms(sharing, condition.right.as_slice());
}

/// All may touch the words of terms, from now on.
fn guard_terms(sharing: &mut Sharing, terms: &[Term])
    ensures stays { StayShared sharing.old sharing.new }
    ensures guarded { AreSharedTerms (sharing_of sharing.new) terms.now }
{
    for term in terms {
        guard_term(sharing, *term);
    }
}

/// All may touch the word of a term, from now on.
fn guard_term(sharing: &mut Sharing, term: Term)
    ensures stays { StayShared sharing.old sharing.new }
    ensures guarded { IsSharedTerm (sharing_of sharing.new) term }
{
    if let Term::Word(address) = term {
        guard_word(sharing, address);
    }
}

/// All may touch the words at some addresses, from now on.
fn guard_words(sharing: &mut Sharing, words: &[u32])
    ensures stays { StayShared sharing.old sharing.new }
    ensures guarded { AreSharedWords (sharing_of sharing.new) words.now }
{
    for address in words {
        guard_word(sharing, *address);
    }
}

/// All may touch the word at an address, from now on.
fn guard_word(sharing: &mut Sharing, address: u32)
    ensures stays { StayShared sharing.old sharing.new }
    ensures guarded { IsSharedWord (sharing_of sharing.new) address }
{
    sharing.share(address);
    sharing.share(address.wrapping_add(1));
    sharing.share(address.wrapping_add(2));
    sharing.share(address.wrapping_add(3));
}

/// The addresses of the words that somebody may store to, or did.
pub fn owned_words(alloc: Global, sharing: &Sharing, size: u32) -> Result<Vec<u32>, NoMemory> {
    let mut words = Vec::new(alloc);
    for at in 0..size / 4 {
        let address = BASE.wrapping_add(at.wrapping_mul(4));
        if sharing.owner(address) != Owner::Nobody {
            words.push(address)?;
        }
    }
    Ok(words)
}

/// How many turns processors take while it is learned who touches which words and who is mortal, and of how many steps
/// (own choices).
const TURNS: u32 = 256;

const TURN: u32 = 16;

/// Learns who touches which words and who is mortal from a place on: first at the step of a processor after so many.
pub fn learn(sharing: &mut Sharing, board: Board, cpu: u8, count: u32, among: &[Event])
    ensures { StayShared sharing.old sharing.new }
{
    let mut board = board;
    board.repeat(Event::Step(cpu), count);
    let _ = sharing.learn(&board, cpu);
    for _ in 0..TURNS {
        learn_turns(sharing, &mut board, among);
    }
}

/// Learns while each processor takes its turn.
fn learn_turns(sharing: &mut Sharing, board: &mut Board, among: &[Event])
    ensures { StayShared sharing.old sharing.new }
{
    for event in among {
        if let Event::Step(cpu) = *event {
            learn_turn(sharing, board, cpu);
        }
    }
}

/// Learns while a processor takes its turn.
fn learn_turn(sharing: &mut Sharing, board: &mut Board, cpu: u8)
    ensures { StayShared sharing.old sharing.new }
{
    for _ in 0..TURN {
        let _ = sharing.learn(board, cpu);
        let _ = board.event_apart(Event::Step(cpu));
    }
}
