//! Tests of what reads its input: brd_asm with brd_source below it, brd_config, brd_elf.
#![tactic(auto)]

#[cfg(test)]
mod tests;
