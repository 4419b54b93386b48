//! The configuration language of the board's kernel.
#![tactic(auto)]

mod attributes;
mod checks;
mod config;
mod draft;
mod fault;
pub mod laws;
mod objects;
mod parser;
mod reading;
mod statement;
mod statements;

pub use attributes::{
    CyclicAttributes, FlagAttributes, MailboxAttributes, PoolAttributes, QueueAttributes,
    SemaphoreAttributes, TaskAttributes,
};
pub use brd_base::List;
pub use config::Config;
pub use draft::Draft;
pub use fault::ConfigFault;
pub use objects::{
    AlarmConfig, CyclicConfig, FlagConfig, HandlerConfig, MailboxConfig, MutexConfig, Operand,
    PoolConfig, Protocol, QueueConfig, SemaphoreConfig, SpinLockConfig, Stack, TaskConfig,
};
pub use parser::{open, parse, read_board, read_statement};
pub use reading::{
    attribute_named, class_of, cyclic_attribute_named, mailbox_attribute_named, protocol_named,
};
pub use statement::Keyword;
pub use statements::{KEYWORDS, keyword_of};
