//! What configurations are answered.

use brd_config::{ConfigFault, parse};
use std::alloc::{AllocError, Global};
use test_help::put_unescaped;

/// The name and the line of a fault. That the program ran out of memory has none.
fn name_of(fault: ConfigFault) -> Option<(&'static str, usize)> {
    match fault {
        ConfigFault::NoMemory => None,
        ConfigFault::Syntax { line } => Some(("Syntax", line)),
        ConfigFault::Duplicate { line } => Some(("Duplicate", line)),
        ConfigFault::BadId { line } => Some(("BadId", line)),
        ConfigFault::BadAttribute { line } => Some(("BadAttribute", line)),
        ConfigFault::BadPriority { line } => Some(("BadPriority", line)),
        ConfigFault::BadCount { line } => Some(("BadCount", line)),
        ConfigFault::BadProcessor { line } => Some(("BadProcessor", line)),
    }
}

/// A fault as a row has it. That the program ran out of memory is no answer.
fn shown(alloc: Global, fault: ConfigFault) -> Result<String, AllocError> {
    match name_of(fault) {
        Some((name, line)) => format!(in alloc; "{name} {line}"),
        None => Err(AllocError),
    }
}

/// What a configuration is answered, which has these bytes in front of a row's text.
pub fn config_answer(alloc: Global, front: &[u8], text: &str) -> Result<String, AllocError> {
    let mut bytes = Vec::from_slice(alloc, front)?;
    put_unescaped(&mut bytes, text)?;
    match parse(alloc, &bytes) {
        Ok(_) => String::from_str(alloc, "ok"),
        Err(fault) => shown(alloc, fault),
    }
}
