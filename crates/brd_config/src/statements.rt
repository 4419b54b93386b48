//! Statements at the front of a text.

ghost use Rattle.std.specs.Prelude.{◌≡◌, ◌<◌, ◌≤◌, length, OnOk};
ghost use Rattle.brd_text.specs.Tokens.{seen};
ghost use Rattle.brd_config.specs.Faults.{Gives};
ghost use Rattle.brd_config.specs.Statements as statements;

use crate::fault::ConfigFault;
use crate::objects::Stack;
use crate::reading::{
    area, class_number, find, head, listed_number, listed_operand, mark, null, number, operand,
    protocol, stack, tail,
};
use crate::statement::{
    AlarmStatement, AttributeNames, CyclicStatement, FlagStatement, HandlerStatement, Keyword,
    MailboxStatement, MutexStatement, PoolStatement, QueueStatement, SemaphoreStatement,
    SpinLockStatement, Statement, TaskStatement,
};
use brd_text::{Scanner, Token};
use std::alloc::Global;

/// The keyword of each kind of statement.
pub const KEYWORDS: &[(&[u8], Keyword)] = &[
    (b"BOARD", Keyword::Board),
    (b"CLASS", Keyword::Class),
    (b"CRE_TSK", Keyword::Task),
    (b"CRE_SEM", Keyword::Semaphore),
    (b"CRE_FLG", Keyword::Flag),
    (b"CRE_DTQ", Keyword::Queue),
    (b"CRE_SPN", Keyword::SpinLock),
    (b"CRE_MTX", Keyword::Mutex),
    (b"CRE_MPF", Keyword::Pool),
    (b"CRE_MBX", Keyword::Mailbox),
    (b"CRE_CYC", Keyword::Cyclic),
    (b"CRE_ALM", Keyword::Alarm),
    (b"DEF_INH", Keyword::Handler),
];

/// The keyword that a run is.
#[tactic(auto, unfolding(crate::specs::Statements::keyword_of))]
pub fn keyword_of(run: &[u8]) -> Option<Keyword>
    ensures { result ≡ statements.keyword_of run.now }
{
    find(KEYWORDS, run)
}

/// Takes what follows `BOARD`: the number of processors and the size of RAM.
#[tactic(auto, unfolding(crate::specs::Statements::board_at))]
pub(crate) fn board(tokens: &mut Scanner) -> Result<(u32, u32), ConfigFault>
    ensures read { Gives (λ x. (x.0, x.1, tokens.new)) result (statements.board_at tokens.old) }
    ensures shorter { OnOk result (length tokens.new.tokens < length tokens.old.tokens) }
{
    mark(tokens, b'(')?;
    let processors = listed_number(tokens)?;
    let ram = number(tokens)?;
    mark(tokens, b')')?;
    mark(tokens, b';')?;
    Ok((processors, ram))
}

/// Takes what follows `CLASS`.
#[tactic(auto, unfolding(crate::specs::Statements::class_at))]
fn class(tokens: &mut Scanner) -> Result<Statement, ConfigFault>
    ensures read { Gives (λ s. (s, tokens.new)) result (statements.class_at tokens.old) }
    ensures shorter { OnOk result (length tokens.new.tokens < length tokens.old.tokens) }
{
    mark(tokens, b'(')?;
    let processor = class_number(tokens)?;
    mark(tokens, b')')?;
    mark(tokens, b'{')?;
    Ok(Statement::Class(processor))
}

/// Takes the end of `CRE_TSK`, `itskpri, stksz, stk});`: a task's priority, the size of its stack, and the stack.
#[tactic(auto, unfolding(crate::specs::Statements::task_tail_at))]
fn task_tail(alloc: Global, tokens: &mut Scanner) -> Result<(u32, u32, Stack), ConfigFault>
    ensures read { Gives (λ x. (x.0, x.1, x.2, tokens.new)) result (statements.task_tail_at tokens.old) }
    ensures shorter { OnOk result (length tokens.new.tokens < length tokens.old.tokens) }
{
    let priority = listed_number(tokens)?;
    let stack_size = listed_number(tokens)?;
    let stack = stack(alloc, tokens)?;
    tail(tokens)?;
    Ok((priority, stack_size, stack))
}

/// Takes what follows `CRE_TSK`.
#[tactic(auto, unfolding(crate::specs::Statements::task_at))]
fn task(alloc: Global, tokens: &mut Scanner) -> Result<Statement, ConfigFault>
    ensures read { Gives (λ s. (s, tokens.new)) result (statements.task_at tokens.old) }
    ensures shorter { OnOk result (length tokens.new.tokens < length tokens.old.tokens) }
{
    let (id, attributes) = head(tokens, AttributeNames::Common, b',')?;
    let exinf = listed_operand(alloc, tokens)?;
    let address = listed_operand(alloc, tokens)?;
    let (priority, stack_size, stack) = task_tail(alloc, tokens)?;
    Ok(Statement::Task(TaskStatement {
        id,
        attributes,
        exinf,
        address,
        priority,
        stack_size,
        stack,
    }))
}

/// Takes what follows `CRE_SEM`.
#[tactic(auto, unfolding(crate::specs::Statements::semaphore_at))]
fn semaphore(tokens: &mut Scanner) -> Result<Statement, ConfigFault>
    ensures read { Gives (λ s. (s, tokens.new)) result (statements.semaphore_at tokens.old) }
    ensures shorter { OnOk result (length tokens.new.tokens < length tokens.old.tokens) }
{
    let (id, attributes) = head(tokens, AttributeNames::Common, b',')?;
    let initial = listed_number(tokens)?;
    let maximum = number(tokens)?;
    tail(tokens)?;
    Ok(Statement::Semaphore(SemaphoreStatement {
        id,
        attributes,
        initial,
        maximum,
    }))
}

/// Takes what follows `CRE_FLG`.
#[tactic(auto, unfolding(crate::specs::Statements::flag_at))]
fn flag(tokens: &mut Scanner) -> Result<Statement, ConfigFault>
    ensures read { Gives (λ s. (s, tokens.new)) result (statements.flag_at tokens.old) }
    ensures shorter { OnOk result (length tokens.new.tokens < length tokens.old.tokens) }
{
    let (id, attributes) = head(tokens, AttributeNames::Common, b',')?;
    let pattern = number(tokens)?;
    tail(tokens)?;
    Ok(Statement::Flag(FlagStatement {
        id,
        attributes,
        pattern,
    }))
}

/// Takes what follows `CRE_DTQ`.
#[tactic(auto, unfolding(crate::specs::Statements::queue_at))]
fn queue(tokens: &mut Scanner) -> Result<Statement, ConfigFault>
    ensures read { Gives (λ s. (s, tokens.new)) result (statements.queue_at tokens.old) }
    ensures shorter { OnOk result (length tokens.new.tokens < length tokens.old.tokens) }
{
    let (id, attributes) = head(tokens, AttributeNames::Common, b',')?;
    let capacity = listed_number(tokens)?;
    area(tokens)?;
    tail(tokens)?;
    Ok(Statement::Queue(QueueStatement {
        id,
        attributes,
        capacity,
    }))
}

/// Takes what follows `CRE_SPN`.
#[tactic(auto, unfolding(crate::specs::Statements::spin_lock_at))]
fn spin_lock(tokens: &mut Scanner) -> Result<Statement, ConfigFault>
    ensures read { Gives (λ s. (s, tokens.new)) result (statements.spin_lock_at tokens.old) }
    ensures shorter { OnOk result (length tokens.new.tokens < length tokens.old.tokens) }
{
    let (id, attributes) = head(tokens, AttributeNames::Common, b'}')?;
    mark(tokens, b')')?;
    mark(tokens, b';')?;
    Ok(Statement::SpinLock(SpinLockStatement { id, attributes }))
}

/// Takes what follows `CRE_MTX`.
#[tactic(auto, unfolding(crate::specs::Statements::mutex_at))]
fn mutex(tokens: &mut Scanner) -> Result<Statement, ConfigFault>
    ensures read { Gives (λ s. (s, tokens.new)) result (statements.mutex_at tokens.old) }
    ensures shorter { OnOk result (length tokens.new.tokens < length tokens.old.tokens) }
{
    mark(tokens, b'(')?;
    let id = listed_number(tokens)?;
    mark(tokens, b'{')?;
    let protocol = protocol(tokens)?;
    mark(tokens, b',')?;
    let ceiling = number(tokens)?;
    tail(tokens)?;
    Ok(Statement::Mutex(MutexStatement {
        id,
        protocol,
        ceiling,
    }))
}

/// Takes what follows `CRE_MPF`.
#[tactic(auto, unfolding(crate::specs::Statements::pool_at))]
fn pool(alloc: Global, tokens: &mut Scanner) -> Result<Statement, ConfigFault>
    ensures read { Gives (λ s. (s, tokens.new)) result (statements.pool_at tokens.old) }
    ensures shorter { OnOk result (length tokens.new.tokens < length tokens.old.tokens) }
{
    let (id, attributes) = head(tokens, AttributeNames::Common, b',')?;
    let count = listed_number(tokens)?;
    let size = listed_number(tokens)?;
    let area = stack(alloc, tokens)?;
    tail(tokens)?;
    Ok(Statement::Pool(PoolStatement {
        id,
        attributes,
        count,
        size,
        area,
    }))
}

/// Takes what follows `CRE_MBX`.
#[tactic(auto, unfolding(crate::specs::Statements::mailbox_at))]
fn mailbox(tokens: &mut Scanner) -> Result<Statement, ConfigFault>
    ensures read { Gives (λ s. (s, tokens.new)) result (statements.mailbox_at tokens.old) }
    ensures shorter { OnOk result (length tokens.new.tokens < length tokens.old.tokens) }
{
    let (id, attributes) = head(tokens, AttributeNames::Mailbox, b',')?;
    let priorities = listed_number(tokens)?;
    null(tokens)?;
    tail(tokens)?;
    Ok(Statement::Mailbox(MailboxStatement {
        id,
        attributes,
        priorities,
    }))
}

/// Takes what follows `CRE_CYC`.
#[tactic(auto, unfolding(crate::specs::Statements::cyclic_at))]
fn cyclic(alloc: Global, tokens: &mut Scanner) -> Result<Statement, ConfigFault>
    ensures read { Gives (λ s. (s, tokens.new)) result (statements.cyclic_at tokens.old) }
    ensures shorter { OnOk result (length tokens.new.tokens < length tokens.old.tokens) }
{
    let (id, attributes) = head(tokens, AttributeNames::Cyclic, b',')?;
    let exinf = listed_operand(alloc, tokens)?;
    let address = listed_operand(alloc, tokens)?;
    let period = listed_number(tokens)?;
    let phase = number(tokens)?;
    tail(tokens)?;
    Ok(Statement::Cyclic(CyclicStatement {
        id,
        attributes,
        exinf,
        address,
        period,
        phase,
    }))
}

/// Takes what follows `CRE_ALM`.
#[tactic(auto, unfolding(crate::specs::Statements::alarm_at))]
fn alarm(alloc: Global, tokens: &mut Scanner) -> Result<Statement, ConfigFault>
    ensures read { Gives (λ s. (s, tokens.new)) result (statements.alarm_at tokens.old) }
    ensures shorter { OnOk result (length tokens.new.tokens < length tokens.old.tokens) }
{
    let (id, attributes) = head(tokens, AttributeNames::Common, b',')?;
    let exinf = listed_operand(alloc, tokens)?;
    let address = operand(alloc, tokens)?;
    tail(tokens)?;
    Ok(Statement::Alarm(AlarmStatement {
        id,
        attributes,
        exinf,
        address,
    }))
}

/// Takes what follows `DEF_INH`.
#[tactic(auto, unfolding(crate::specs::Statements::handler_at))]
fn handler(alloc: Global, tokens: &mut Scanner) -> Result<Statement, ConfigFault>
    ensures read { Gives (λ s. (s, tokens.new)) result (statements.handler_at tokens.old) }
    ensures shorter { OnOk result (length tokens.new.tokens < length tokens.old.tokens) }
{
    let (line, attributes) = head(tokens, AttributeNames::Common, b',')?;
    let address = operand(alloc, tokens)?;
    tail(tokens)?;
    Ok(Statement::Handler(HandlerStatement {
        line,
        attributes,
        address,
    }))
}

/// Takes what follows a keyword on this line.
#[tactic(auto, unfolding(crate::specs::Statements::behind_keyword))]
fn behind_keyword(
    alloc: Global,
    standard: bool,
    in_class: bool,
    line: usize,
    keyword: Keyword,
    tokens: &mut Scanner,
) -> Result<Statement, ConfigFault>
    ensures read { Gives (λ s. (s, tokens.new)) result
        (statements.behind_keyword standard in_class line keyword tokens.old) }
    ensures shorter { OnOk result (length tokens.new.tokens < length tokens.old.tokens) }
{
    match keyword {
        Keyword::Board => {
            let (processors, ram) = board(tokens)?;
            Ok(Statement::Board(processors, ram))
        }
        Keyword::Class => {
            if in_class {
                return Err(ConfigFault::Syntax { line });
            }
            class(tokens)
        }
        Keyword::Task => task(alloc, tokens),
        Keyword::Semaphore => semaphore(tokens),
        Keyword::Flag => flag(tokens),
        Keyword::Queue => queue(tokens),
        Keyword::SpinLock => spin_lock(tokens),
        Keyword::Mutex => {
            if !standard {
                return Err(ConfigFault::Syntax { line });
            }
            mutex(tokens)
        }
        Keyword::Pool => {
            if !standard {
                return Err(ConfigFault::Syntax { line });
            }
            pool(alloc, tokens)
        }
        Keyword::Mailbox => {
            if !standard {
                return Err(ConfigFault::Syntax { line });
            }
            mailbox(tokens)
        }
        Keyword::Cyclic => {
            if !standard {
                return Err(ConfigFault::Syntax { line });
            }
            cyclic(alloc, tokens)
        }
        Keyword::Alarm => {
            if !standard {
                return Err(ConfigFault::Syntax { line });
            }
            alarm(alloc, tokens)
        }
        Keyword::Handler => handler(alloc, tokens),
    }
}

/// Takes the rest of the statement that begins with this token.
pub(crate) fn statement(
    alloc: Global,
    standard: bool,
    in_class: bool,
    token: Token,
    line: usize,
    tokens: &mut Scanner,
) -> Result<Statement, ConfigFault>
    ensures read { Gives (λ s. (s, tokens.new)) result
        (statements.statement_by standard in_class (seen token.entry) line tokens.old) }
    ensures shorter { OnOk result (length tokens.new.tokens ≤ length tokens.old.tokens) }
{
    match token {
        Token::Run(run) => {
            let Some(keyword) = keyword_of(run) else {
                return Err(ConfigFault::Syntax { line });
            };
            behind_keyword(alloc, standard, in_class, line, keyword, tokens)
        }
        Token::Mark(b'}') if in_class => Ok(Statement::ClassEnd),
        _ => Err(ConfigFault::Syntax { line }),
    }
}
