//! A text to a configuration, statement by statement.

ghost use Rattle.std.specs.Prelude.{◌≡◌, ◌<◌, false, IsTrue, IfOk, length, None, Ok};
ghost use Rattle.brd_text.specs.Turns.{flow_of};
ghost use Rattle.brd_text.specs.Tokens.{seen, tokens_of};
ghost use Rattle.brd_config.specs.Faults.{Gives};
ghost use Rattle.brd_config.specs.Meaning as meaning;
ghost use Rattle.brd_config.specs.Configuration.{Configuration, IsConfiguration};
ghost use Rattle.brd_config.specs.Grammar.{Says};
ghost use Rattle.brd_config.specs.View.{view, drafted, state_of};

use crate::checks;
use crate::config::Config;
use crate::draft::Draft;
use crate::fault::ConfigFault;
use crate::statement::Statement;
use crate::statements::{board, statement};
use brd_base::{List, is_ram_size};
use brd_text::{Scanner, Token};
use std::alloc::Global;

/// What `BOARD`, which begins on this line, says, with the profile or without.
#[tactic(auto, unfolding(crate::specs::Meaning::board_of))]
fn begun(
    alloc: Global,
    standard: bool,
    line: usize,
    processors: u32,
    ram: u32,
) -> Result<Draft, ConfigFault>
    ensures read { Gives drafted result (meaning.board_of standard line processors ram) }
    ensures class { IfOk result (λ d. d.class ≡ None) }
{
    let processors = checks::within(processors, 1, 8, ConfigFault::BadProcessor { line })?;
    if !is_ram_size(ram) {
        return Err(ConfigFault::BadCount { line });
    }
    Ok(Draft {
        standard,
        processors: processors as u8,
        ram,
        tasks: List::new(alloc),
        semaphores: List::new(alloc),
        flags: List::new(alloc),
        queues: List::new(alloc),
        spin_locks: List::new(alloc),
        mutexes: List::new(alloc),
        pools: List::new(alloc),
        mailboxes: List::new(alloc),
        cyclics: List::new(alloc),
        alarms: List::new(alloc),
        handlers: List::new(alloc),
        class: None,
    })
}

/// Adds what one more statement, which begins on this line, says.
#[tactic(auto, unfolding(crate::specs::Meaning::added))]
fn add(draft: &mut Draft, line: usize, statement: Statement) -> Result<(), ConfigFault>
    ensures { Gives (λ _. state_of draft.new) result (meaning.added line (state_of draft.old) statement) }
{
    match statement {
        Statement::Board(processors, _) => {
            checks::within(processors, 1, 8, ConfigFault::BadProcessor { line })?;
            return Err(ConfigFault::Duplicate { line });
        }
        Statement::Class(number) => {
            let most = draft.processors as u32;
            let processor = checks::within(number, 1, most, ConfigFault::BadProcessor { line })?;
            draft.class = Some(processor as u8);
        }
        Statement::ClassEnd => draft.class = None,
        Statement::Task(task) => {
            let processor = draft.class.unwrap_or(1);
            let task = checks::task(line, draft.tasks.as_slice(), processor, task)?;
            draft.tasks.push(task)?;
        }
        Statement::Semaphore(semaphore) => {
            let semaphore = checks::semaphore(line, draft.semaphores.as_slice(), semaphore)?;
            draft.semaphores.push(semaphore)?;
        }
        Statement::Flag(flag) => {
            let flag = checks::flag(line, draft.flags.as_slice(), flag)?;
            draft.flags.push(flag)?;
        }
        Statement::Queue(queue) => {
            let queue = checks::queue(line, draft.queues.as_slice(), queue)?;
            draft.queues.push(queue)?;
        }
        Statement::SpinLock(spin_lock) => {
            let spin_lock = checks::spin_lock(line, draft.spin_locks.as_slice(), spin_lock)?;
            draft.spin_locks.push(spin_lock)?;
        }
        Statement::Mutex(mutex) => {
            let mutex = checks::mutex(line, draft.mutexes.as_slice(), mutex)?;
            draft.mutexes.push(mutex)?;
        }
        Statement::Pool(pool) => {
            let ram = draft.ram;
            let pool = checks::pool(line, ram, draft.pools.as_slice(), pool)?;
            draft.pools.push(pool)?;
        }
        Statement::Mailbox(mailbox) => {
            let mailbox = checks::mailbox(line, draft.mailboxes.as_slice(), mailbox)?;
            draft.mailboxes.push(mailbox)?;
        }
        Statement::Cyclic(cyclic) => {
            let processor = draft.class.unwrap_or(1);
            let cyclic = checks::cyclic(line, draft.cyclics.as_slice(), processor, cyclic)?;
            draft.cyclics.push(cyclic)?;
        }
        Statement::Alarm(alarm) => {
            let processor = draft.class.unwrap_or(1);
            let alarm = checks::alarm(line, draft.alarms.as_slice(), processor, alarm)?;
            draft.alarms.push(alarm)?;
        }
        Statement::Handler(handler) => {
            let processor = draft.class.unwrap_or(1);
            let handler = checks::handler(line, draft.handlers.as_slice(), processor, handler)?;
            draft.handlers.push(handler)?;
        }
    }
    Ok(())
}

/// Takes one more statement, and says whether there was one: else the text ends here.
#[tactic(auto, unfolding(crate::specs::Meaning::statement_step, crate::specs::Meaning::one_more, crate::specs::Statements::statement_at))]
pub fn read_statement(
    alloc: Global,
    draft: &mut Draft,
    tokens: &mut Scanner,
) -> Result<bool, ConfigFault>
    ensures read { Gives (λ more. flow_of more (state_of draft.new, tokens.new) (drafted draft.new)) result
        (meaning.statement_step (state_of draft.old, tokens.old)) }
    ensures shorter { IfOk result (λ more. IsTrue more → length tokens.new.tokens < length tokens.old.tokens) }
{
    let (token, line) = tokens.next();
    let in_class = draft.class.is_some();
    if !in_class && matches!(token, Token::End) {
        return Ok(false);
    }
    let statement = statement(alloc, draft.standard, in_class, token, line, tokens)?;
    add(draft, line, statement)?;
    Ok(true)
}

/// Takes the statements up to the end of the text.
#[tactic(auto, unfolding(crate::specs::Meaning::statements_from))]
fn finished(alloc: Global, mut draft: Draft, tokens: &mut Scanner) -> Result<Draft, ConfigFault>
    ensures { Gives drafted result (meaning.statements_from (state_of draft, tokens.old)) }
{
    'statements: loop {
        match read_statement(alloc, &mut draft, tokens) {
            Ok(more) => {
                if more {
                    continue;
                }
                return Ok(draft);
            }
            Err(fault) => return Err(fault),
        }
    }
}

/// Takes the first statement, which is `BOARD`, with the profile or without.
#[tactic(auto, unfolding(crate::specs::Meaning::first_statement, crate::specs::Meaning::first_board))]
pub fn read_board(alloc: Global, standard: bool, tokens: &mut Scanner) -> Result<Draft, ConfigFault>
    ensures { Gives (λ d. (state_of d, tokens.new)) result (meaning.first_statement standard tokens.old) }
{
    let (token, line) = tokens.next();
    let Token::Run(run) = token else {
        return Err(ConfigFault::Syntax { line });
    };
    if run != b"BOARD".as_slice() {
        return Err(ConfigFault::Syntax { line });
    }
    let (processors, ram) = board(tokens)?;
    begun(alloc, standard, line, processors, ram)
}

/// Whether a token is this word.
fn is_word(token: Token, word: &[u8]) -> bool
    ensures { result ≡ meaning.is_word word.now (seen token.entry) }
{
    match token {
        Token::Run(run) => run == word,
        _ => false,
    }
}

/// Whether a token is this mark.
fn is_mark(token: Token, mark: u8) -> bool
    ensures { result ≡ meaning.is_mark mark (seen token.entry) }
{
    match token {
        Token::Mark(found) => found == mark,
        _ => false,
    }
}

/// Takes five tokens, and says whether they are `PROFILE(STANDARD);`.
#[tactic(auto, unfolding(crate::specs::Meaning::has_profile))]
fn profile(tokens: &mut Scanner) -> bool
    ensures is { result ≡ meaning.has_profile tokens.old }
    ensures behind { tokens.new ≡ meaning.behind_profile tokens.old }
{
    let (keyword, _) = tokens.next();
    let (opening, _) = tokens.next();
    let (name, _) = tokens.next();
    let (closing, _) = tokens.next();
    let (end, _) = tokens.next();
    is_word(keyword, b"PROFILE")
        && is_mark(opening, b'(')
        && is_word(name, b"STANDARD")
        && is_mark(closing, b')')
        && is_mark(end, b';')
}

/// Whether a text begins with `PROFILE(STANDARD);`, and its tokens from `BOARD` on.
#[tactic(auto, unfolding(crate::specs::Meaning::opened))]
pub fn open(text: &[u8]) -> (bool, Scanner<'_>)
    ensures { result ≡ meaning.opened (tokens_of text.now) }
{
    let mut tokens = Scanner::new(text);
    if profile(&mut tokens) {
        return (true, tokens);
    }
    (false, Scanner::new(text))
}

/// What a text says.
#[tactic(auto, unfolding(crate::specs::Meaning::config_of, crate::specs::Meaning::config_from))]
fn read(alloc: Global, text: &[u8]) -> Result<Draft, ConfigFault>
    ensures { Gives drafted result (meaning.config_of text.now) }
{
    let (standard, mut tokens) = open(text);
    let draft = read_board(alloc, standard, &mut tokens)?;
    finished(alloc, draft, &mut tokens)
}

/// A draft whose values are within their limits is a configuration.
fn whole(draft: Draft) -> Config
    requires { IsConfiguration (drafted draft) }
    ensures { view result ≡ drafted draft }
{
    Config {
        standard: draft.standard,
        processors: draft.processors,
        ram: draft.ram,
        tasks: draft.tasks,
        semaphores: draft.semaphores,
        flags: draft.flags,
        queues: draft.queues,
        spin_locks: draft.spin_locks,
        mutexes: draft.mutexes,
        pools: draft.pools,
        mailboxes: draft.mailboxes,
        cyclics: draft.cyclics,
        alarms: draft.alarms,
        handlers: draft.handlers,
    }
}

/// What a text says, as a configuration.
fn parsed(alloc: Global, text: &[u8]) -> Result<Config, ConfigFault>
    ensures { Gives view result (meaning.config_of text.now) }
{
    let draft = read(alloc, text)?;
    Ok(whole(draft))
}

/// The configuration that a text says, in the language of docs/CONFIGURATION.md.
///
/// # Errors
///
/// The fault of the first faulty statement: `Syntax` with the line on which the text fails, the others with the line of
/// the statement's first token. Of the faults of one statement the first in this order: `Syntax`, `BadProcessor`,
/// `BadId`, `Duplicate`, `BadAttribute`, `BadPriority`, `BadCount`. `NoMemory` where memory runs out, at whatever
/// point.
pub fn parse(alloc: Global, text: &[u8]) -> Result<Config, ConfigFault>
    // What the text says, or its first fault.
    ensures meaning { Gives view result (meaning.config_of text.now) }
    // A text that doesn't begin with PROFILE(STANDARD); says what it says without any profile, and has its fault.
    ensures plain { meaning.has_profile (tokens_of text.now) ≡ false →
        Gives view result (meaning.plain_config_of text.now) }
    // What spells valid statements, in their forms and with any blanks and comments, says what they say.
    ensures grammar { (c : Configuration) → Says text.now c → Gives view result (Ok c) }
    // Each value is within its limits, and IDs of one kind are distinct.
    ensures valid { IfOk result (λ c. IsConfiguration (view c)) }
{
    parsed(alloc, text)
}
