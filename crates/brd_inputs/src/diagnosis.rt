//! The diagnosis of each fault.

use brd_hints::{FaultHint, boot_hint, config_hint, object_file_hint, script_hint};
use brd_image::BuildFault;
use brd_threads::ScriptFault;
use std::alloc::Global;

/// The diagnosis of what an object file and a configuration make no board by.
pub(crate) fn build_hint(
    alloc: Global,
    fault: BuildFault,
    image: &[u8],
    config: &[u8],
) -> FaultHint {
    match fault {
        BuildFault::Elf(fault) => object_file_hint(image, fault),
        BuildFault::Config(fault) => config_hint(alloc, config, fault),
        BuildFault::Boot(_) => boot_hint(alloc, image, config),
        BuildFault::NoMemory | BuildFault::Asm(_) => FaultHint::none(),
    }
}

/// The diagnosis of a script's fault.
pub(crate) fn script_fault_hint(fault: ScriptFault, text: &[u8]) -> FaultHint {
    match fault {
        ScriptFault::Syntax { line } => script_hint(text, line),
        ScriptFault::NoMemory => FaultHint::none(),
    }
}
