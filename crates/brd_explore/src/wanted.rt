//! What of a board is a failure, by now or at the end.

ghost use Rattle.std.specs.Prelude.{◌≡◌, ◌⊎◌, true, false, not, option_map, IfOk, OnOk};
ghost use Rattle.std.specs.List.{list_any};
ghost use Rattle.brd_board.specs.Board.{after};
ghost use Rattle.brd_explore.specs.Failures.{
  nobody_goes,
  is_at_rest,
  is_end,
  is_cut,
  goes_fairly,
  lacks,
  fails_fairly,
  fails_at,
  last_of,
  is_stuck,
  some_below,
  some_are_due,
  waits,
  has_due,
  is_due,
  word_of,
  is_value,
  is_at,
  is_between,
  begins_with,
  has_fault,
  fails_by_now,
  fails_at_last,
  are_values,
  is_ending,
  ended,
  fails_now,
  first_so,
  shown_failure,
};
ghost use Rattle.brd_board.specs.Board.{registers_of, task_of};
ghost use Rattle.brd_explore.specs.Shrinking.{fails_after};

use crate::asleep::executes;
use crate::bounds::{Bounds, did_nothing};
use crate::condition::Condition;
use brd_base::{List, NoMemory};
use brd_board::{Board, Event, TaskId};
use brd_exec::Context;
use brd_word::word_of;
use std::alloc::Global;

/// Something that is not to happen.
#[derive(Drop)]
pub enum Failure {
    /// An exception has ended a task, or stopped a processor.
    Exception,
    /// A task waits, and nothing but an interrupt or a call from elsewhere could ever end that: nobody executes, no
    /// interrupt is accepted, no wait has a tick at which it ends, and no time handler one at which it is due.
    Deadlock,
    /// The console no longer begins as this, or at the end isn't this.
    Console(List<u8>),
    /// At the end the word at an address has another value than this, or there is no such word.
    Word {
        /// Its address.
        address: u32,
        /// The value that is wanted.
        value: u32,
    },
    /// The word at an address is less or more than it may be, or there is no such word.
    Outside {
        /// Its address.
        address: u32,
        /// The least that it may be.
        least: u32,
        /// The most that it may be.
        most: u32,
    },
    /// A condition holds, or one of its words isn't there.
    Holds(Condition),
    /// At the end the board is on.
    On,
    /// There is an end.
    Ended,
    /// At the end the console and the words at these addresses are none of these.
    Unlisted {
        /// The addresses of the words.
        words: List<u32>,
        /// What an end may be.
        finals: List<Ending>,
    },
    /// The instruction at an address is the next one of who executes on some processor.
    At {
        /// The address.
        address: u32,
    },
}

/// What an end may be.
#[derive(Drop)]
pub struct Ending {
    /// Its console.
    pub console: List<u8>,
    /// The values of some words, in their order.
    pub values: List<u32>,
}

/// What is not to happen, and how a schedule goes on after its end, before its end is judged.
#[derive(Drop)]
pub struct Wanted {
    /// What is not to happen.
    pub failures: List<Failure>,
    /// The events of a round of the fair end.
    pub round: List<Event>,
    /// How many rounds the fair end has, to which a schedule goes on that is cut short. 0: of that nothing is said.
    pub rounds: u32,
}

impl Wanted {
    /// Whether a board shows a failure.
    #[tactic(auto, unfolding(crate::specs::Failures::fails_now))]
    pub fn fails_now(&self, board: &Board) -> Result<bool, NoMemory>
        ensures { IfOk result (λ fails. fails ≡ fails_now self.now board.now) }
    {
        for failure in self.failures.as_slice() {
            if failure.shows(board)? {
                return Ok(true);
            }
        }
        Ok(false)
    }

    /// Whether a schedule fails that has led to a board, with so much left of the bounds.
    #[tactic(auto, unfolding(crate::specs::Failures::fails_at))]
    pub fn fails_at(&self, board: &Board, left: Bounds) -> Result<bool, NoMemory>
        ensures { IfOk result (λ fails. fails ≡ fails_at self.now board.now left) }
    {
        if self.fails_now(board)? {
            return Ok(true);
        }
        if self.lacks(board) && is_end(board, left)? {
            return Ok(true);
        }
        if self.goes_fairly(board, left)? {
            return self.fails_fairly(board);
        }
        Ok(false)
    }

    /// Whether a schedule goes on to a fair end.
    #[tactic(auto, unfolding(crate::specs::Failures::goes_fairly))]
    fn goes_fairly(&self, board: &Board, left: Bounds) -> Result<bool, NoMemory>
        ensures { IfOk result (λ goes. goes ≡ goes_fairly self.now board.now left) }
    {
        if self.rounds == 0 || left.owed > 0 {
            return Ok(false);
        }
        is_cut(board, left)
    }

    /// Whether the fair end of a board fails.
    fn fails_fairly(&self, board: &Board) -> Result<bool, NoMemory>
        ensures { IfOk result (λ fails. fails ≡ fails_fairly self.now board.now) }
    {
        let mut copy = board.try_copy()?;
        self.ends_badly(&mut copy)
    }

    /// Lets a board go on to its fair end. Answers whether that fails.
    #[tactic(auto, unfolding(crate::specs::Failures::fails_fairly))]
    fn ends_badly(&self, board: &mut Board) -> Result<bool, NoMemory>
        ensures fails { IfOk result (λ fails. fails ≡ fails_fairly self.now board.old) }
        ensures board { board.new ≡ ended self.now board.old }
    {
        self.play_fairly(board);
        if self.fails_now(board)? {
            return Ok(true);
        }
        Ok(self.lacks(board))
    }

    /// The first failure that the last board of a list that fails shows. If it shows none, the board becomes the one by
    /// which the end is judged: it goes on to the fair end, unless it is at rest.
    #[tactic(auto, unfolding(crate::specs::Failures::shown_failure))]
    pub fn shown(&self, board: &mut Board) -> Result<Option<&Failure>, NoMemory>
        ensures { IfOk result
            (λ found. option_map (λ failure. failure.now) found ≡ shown_failure self.now board.old) }
    {
        let now = self.shown_now(board)?;
        if now.is_some() {
            return Ok(now);
        }
        self.go_to_last(board)?;
        let now = self.shown_now(board)?;
        if now.is_some() {
            return Ok(now);
        }
        Ok(self.shown_at_last(board))
    }

    /// The first failure that a board shows.
    fn shown_now(&self, board: &Board) -> Result<Option<&Failure>, NoMemory>
        ensures { IfOk result
            (λ found. option_map (λ failure. failure.now) found
            ≡ first_so (fails_by_now board.now) self.now.failures) }
    {
        for failure in self.failures.as_slice() {
            if failure.shows(board)? {
                return Ok(Some(failure));
            }
        }
        Ok(None)
    }

    /// The first failure that a last board shows.
    fn shown_at_last(&self, board: &Board) -> Option<&Failure>
        ensures { option_map (λ failure. failure.now) result
            ≡ first_so (fails_at_last board.now) self.now.failures }
    {
        for failure in self.failures.as_slice() {
            if failure.shows_at_last(board) {
                return Some(failure);
            }
        }
        None
    }

    /// Lets a list's last board become the one by which the list's end is judged.
    #[tactic(auto, unfolding(crate::specs::Failures::last_of))]
    fn go_to_last(&self, board: &mut Board) -> Result<(), NoMemory>
        ensures { OnOk result (board.new ≡ last_of self.now board.old) }
    {
        if !is_at_rest(board)? {
            self.play_fairly(board);
        }
        Ok(())
    }

    /// Whether a list's last board shows a failure, or the list's end does. The board may go on to its fair end.
    #[tactic(auto, unfolding(crate::specs::Shrinking::fails_after))]
    pub(crate) fn fails_after(&self, board: &mut Board) -> Result<bool, NoMemory>
        ensures fails { IfOk result (λ fails. fails ≡ fails_after self.now board.old) }
        ensures board { (board.new ≡ board.old) ⊎ (board.new ≡ ended self.now board.old) }
    {
        if self.fails_now(board)? {
            return Ok(true);
        }
        if is_at_rest(board)? {
            return Ok(self.lacks(board));
        }
        if self.rounds == 0 {
            return Ok(false);
        }
        self.ends_badly(board)
    }

    /// Lets a board go on to its fair end.
    #[tactic(auto, unfolding(crate::specs::Failures::ended))]
    fn play_fairly(&self, board: &mut Board)
        ensures { board.new ≡ ended self.now board.old }
    {
        for _ in 0..self.rounds {
            board.play(self.round.as_slice());
        }
    }

    /// Whether a last board shows a failure of last boards.
    fn lacks(&self, board: &Board) -> bool
        ensures { result ≡ lacks self.now board.now }
    {
        for failure in self.failures.as_slice() {
            if failure.shows_at_last(board) {
                return true;
            }
        }
        false
    }
}

impl Failure {
    /// Whether a board shows it, at whatever point of a schedule.
    #[tactic(auto, unfolding(crate::specs::Failures::fails_by_now))]
    fn shows(&self, board: &Board) -> Result<bool, NoMemory>
        ensures { IfOk result (λ shows. shows ≡ fails_by_now board.now self.now) }
    {
        match self {
            Failure::Exception => Ok(has_fault(board)),
            Failure::Deadlock => is_stuck(board),
            Failure::Console(text) => Ok(!text.as_slice().starts_with(board.console())),
            Failure::Outside {
                address,
                least,
                most,
            } => Ok(!is_between(*least, *most, word_at(board, *address))),
            Failure::Holds(condition) => Ok(condition.holds(board)),
            Failure::At { address } => Ok(some_are_at(board, *address)),
            Failure::Word { .. } | Failure::On => Ok(false),
            Failure::Ended | Failure::Unlisted { .. } => Ok(false),
        }
    }

    /// Whether a board shows it where it is the last one.
    #[tactic(auto, unfolding(crate::specs::Failures::fails_at_last))]
    fn shows_at_last(&self, board: &Board) -> bool
        ensures { result ≡ fails_at_last board.now self.now }
    {
        match self {
            Failure::Exception | Failure::Deadlock => false,
            Failure::Outside { .. } | Failure::Holds(_) | Failure::At { .. } => false,
            Failure::Console(text) => !board.console().starts_with(text.as_slice()),
            Failure::Word { address, value } => !is_value(*value, word_at(board, *address)),
            Failure::On => !board.is_off(),
            Failure::Ended => true,
            Failure::Unlisted { words, finals } => {
                !is_listed(board, words.as_slice(), finals.as_slice())
            }
        }
    }
}

impl Ending {
    /// A copy of it.
    pub fn try_copy(&self, alloc: Global) -> Result<Ending, NoMemory>
        ensures { IfOk result (λ copy. copy ≡ self.now) }
    {
        let console = List::from_slice(alloc, self.console.as_slice())?;
        let values = List::from_slice(alloc, self.values.as_slice())?;
        Ok(Ending { console, values })
    }

    /// Whether a board is such an end: the console is this, and the words at these addresses have these values.
    fn is_of(&self, board: &Board, words: &[u32]) -> bool
        ensures { result ≡ is_ending board.now words.now self.now }
    {
        board.console() == self.console.as_slice()
            && are_values(board, words, self.values.as_slice())
    }
}

/// Whether a board is one of some ends, by its console and the words at some addresses.
fn is_listed(board: &Board, words: &[u32], finals: &[Ending]) -> bool
    ensures { result ≡ list_any (is_ending board.now words.now) finals.now }
{
    for ending in finals {
        if ending.is_of(board, words) {
            return true;
        }
    }
    false
}

/// Whether the words at some addresses have these values, each in its place.
fn are_values(board: &Board, words: &[u32], values: &[u32]) -> bool
    ensures { result ≡ are_values board.now words.now values.now }
{
    let mut rest = words;
    let mut left = values;
    'words: while let Some((address, others)) = rest.split_first() {
        let Some((value, more)) = left.split_first() else {
            return false;
        };
        if !is_value(*value, word_at(board, *address)) {
            return false;
        }
        rest = others;
        left = more;
    }
    left.is_empty()
}

/// Whether an exception was kept of some processor.
fn has_fault(board: &Board) -> bool
    ensures { result ≡ has_fault board.now }
{
    for cpu in 0..9u8 {
        if board.last_fault(cpu).is_some() {
            return true;
        }
    }
    false
}

/// Whether the instruction at an address is the next one of who executes on some processor.
fn some_are_at(board: &Board, address: u32) -> bool
    ensures { result ≡ some_below 9 (λ cpu. is_at address (registers_of board.now cpu)) }
{
    for cpu in 0..9u8 {
        if is_at(address, board.registers(cpu)) {
            return true;
        }
    }
    false
}

/// Whether the instruction at an address is the next one in a context.
fn is_at(address: u32, context: Option<Context>) -> bool
    ensures { result ≡ is_at address context }
{
    match context {
        Some(context) => context.pc() == address,
        None => false,
    }
}

/// Whether a board is on, some task waits, and nothing that the board does by itself ends that.
fn is_stuck(board: &Board) -> Result<bool, NoMemory>
    ensures { IfOk result (λ stuck. stuck ≡ is_stuck board.now) }
{
    if board.is_off() || !some_wait(board) || some_are_due(board) {
        return Ok(false);
    }
    nobody_goes(board)
}

/// Whether some task waits.
fn some_wait(board: &Board) -> bool
    ensures { result ≡ some_below 256 (λ id. waits (task_of board.now id)) }
{
    for id in 0..256u16 {
        if waits(board, id) {
            return true;
        }
    }
    false
}

/// Whether some wait ends by a tick, or some time handler is due at one.
pub fn some_are_due(board: &Board) -> bool
    ensures { result ≡ some_are_due board.now }
{
    some_waits_end(board) || some_handlers_are_due(board)
}

/// Whether some wait ends by a tick.
fn some_waits_end(board: &Board) -> bool
    ensures { result ≡ some_below 256 (λ id. has_due (task_of board.now id)) }
{
    for id in 0..256u16 {
        if has_due(board, id) {
            return true;
        }
    }
    false
}

/// Whether some time handler is due at a tick.
fn some_handlers_are_due(board: &Board) -> bool
    ensures { result ≡ some_below 128 (is_due board.now) }
{
    for place in 0..128u8 {
        if is_due(board, place) {
            return true;
        }
    }
    false
}

/// Whether the time handler at a place is due at a tick.
fn is_due(board: &Board, place: u8) -> bool
    ensures { result ≡ is_due board.now place }
{
    board.timer_due(place).is_some()
}

/// Whether a task waits.
fn waits(board: &Board, id: TaskId) -> bool
    ensures { result ≡ waits (task_of board.now id) }
{
    match board.task(id) {
        Some(task) => task.waiting.is_some(),
        None => false,
    }
}

/// Whether a task's wait ends by a tick.
fn has_due(board: &Board, id: TaskId) -> bool
    ensures { result ≡ has_due (task_of board.now id) }
{
    match board.task(id) {
        Some(task) => task.due.is_some(),
        None => false,
    }
}

/// Whether a board is at rest: it is off, or nobody goes, no wait ends by a tick, and no time handler is due at one.
#[tactic(auto, unfolding(crate::specs::Failures::is_at_rest))]
pub fn is_at_rest(board: &Board) -> Result<bool, NoMemory>
    ensures { IfOk result (λ rests. rests ≡ is_at_rest board.now) }
{
    if board.is_off() {
        return Ok(true);
    }
    Ok(nobody_goes(board)? && !some_are_due(board))
}

/// Whether a schedule that has led to a board, with so much left of the bounds, has come to an end.
#[tactic(auto, unfolding(crate::specs::Failures::is_end))]
pub fn is_end(board: &Board, left: Bounds) -> Result<bool, NoMemory>
    ensures { IfOk result (λ ends. ends ≡ is_end board.now left) }
{
    if board.is_off() {
        return Ok(true);
    }
    if left.owed > 0 {
        return Ok(false);
    }
    is_at_rest(board)
}

/// Whether such a schedule is cut short: it isn't at an end, and no event is left; or nobody goes, and the tick that
/// would end a wait, or at which a time handler would be due, isn't left.
#[tactic(auto, unfolding(crate::specs::Failures::is_cut))]
pub fn is_cut(board: &Board, left: Bounds) -> Result<bool, NoMemory>
    ensures { IfOk result (λ cut. cut ≡ is_cut board.now left) }
{
    if is_end(board, left)? {
        return Ok(false);
    }
    if left.events == 0 {
        return Ok(true);
    }
    if left.ticks > 0 {
        return Ok(false);
    }
    Ok(nobody_goes(board)? && some_are_due(board))
}

/// Whether no step of a processor does anything.
fn nobody_goes(board: &Board) -> Result<bool, NoMemory>
    ensures { IfOk result (λ none. none ≡ nobody_goes board.now) }
{
    if somebody_executes(board) {
        return Ok(false);
    }
    let mut copy = board.try_copy()?;
    Ok(!somebody_goes(&mut copy))
}

/// Whether somebody executes on some processor.
fn somebody_executes(board: &Board) -> bool
    ensures { result ≡ true → nobody_goes board.now ≡ false }
{
    for cpu in 0..9u8 {
        if executes(board, cpu) {
            return true;
        }
    }
    false
}

/// Whether some step of a processor does something. It is done then.
fn somebody_goes(board: &mut Board) -> bool
    ensures { nobody_goes board.old ≡ not result }
{
    for cpu in 0..9u8 {
        if !did_nothing(board.event_apart(Event::Step(cpu))) {
            return true;
        }
    }
    false
}

/// The word at an address, where RAM has its four bytes.
#[tactic(auto, unfolding(crate::specs::Failures::word_of))]
pub(crate) fn word_at(board: &Board, address: u32) -> Option<u32>
    ensures { result ≡ word_of board.now address }
{
    let bytes = [
        board.memory(address)?,
        board.memory(address.wrapping_add(1))?,
        board.memory(address.wrapping_add(2))?,
        board.memory(address.wrapping_add(3))?,
    ];
    Some(word_of(bytes, board.order()))
}

/// Whether a word is there and has this value.
fn is_value(value: u32, word: Option<u32>) -> bool
    ensures { result ≡ is_value value word }
{
    match word {
        Some(word) => word == value,
        None => false,
    }
}

/// Whether a word is there and lies in a range.
fn is_between(least: u32, most: u32, word: Option<u32>) -> bool
    ensures { result ≡ is_between least most word }
{
    match word {
        Some(word) => least <= word && word <= most,
        None => false,
    }
}
