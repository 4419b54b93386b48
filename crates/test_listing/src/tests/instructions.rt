//! Instructions that are written, and assembled again: every mnemonic, each field with its ends. The words are all
//! those that the decoder takes of the ones that `words` lists.

use brd_asm::assemble;
use brd_isa::{Insn, decode, encode};
use brd_listing::write_instruction;
use brd_mem::Image;
use std::alloc::{AllocError, Global};
use std::test::Fail;
use test_help::none_wrong;

/// The ends of a register, a shift's amount and a hint, and a value between them.
const FIELDS: [u32; 3] = [0, 8, 31];

/// The ends of sixteen bits, as signed and as unsigned ones, and values between them.
const HALVES: [u32; 6] = [0, 1, 0x1234, 0x7fff, 0x8000, 0xffff];

/// The opcodes whose instruction the function field names.
const BY_FUNCTION: [u32; 2] = [0x00, 0x1c];

/// Puts the words with these high fields at the end, with each function and the ends of rd and sa.
fn put_functions(words: &mut Vec<u32>, high: u32) -> Result<(), AllocError> {
    for rd in FIELDS {
        for sa in FIELDS {
            for funct in 0..64u32 {
                words.push(high | (rd << 11) | (sa << 6) | funct)?;
            }
        }
    }
    Ok(())
}

/// Puts the words of the opcodes whose instruction the function field names at the end.
fn put_by_function(words: &mut Vec<u32>) -> Result<(), AllocError> {
    for opcode in BY_FUNCTION {
        for rs in FIELDS {
            for rt in FIELDS {
                put_functions(words, (opcode << 26) | (rs << 21) | (rt << 16))?;
            }
        }
    }
    Ok(())
}

/// Puts a word with each low half at the end.
fn put_halves(words: &mut Vec<u32>, high: u32) -> Result<(), AllocError> {
    for low in HALVES {
        words.push(high | low)?;
    }
    Ok(())
}

/// Puts the words of the other opcodes at the end, with each rt, which names the instruction under REGIMM.
fn put_others(words: &mut Vec<u32>) -> Result<(), AllocError> {
    for opcode in 1..64u32 {
        for rs in FIELDS {
            for rt in 0..32u32 {
                put_halves(words, (opcode << 26) | (rs << 21) | (rt << 16))?;
            }
        }
    }
    Ok(())
}

/// The words that stand for an instruction.
fn insns(alloc: Global) -> Result<Vec<Insn>, AllocError> {
    let mut words = Vec::new(alloc);
    put_by_function(&mut words)?;
    put_others(&mut words)?;
    let mut insns = Vec::new(alloc);
    for word in words.iter() {
        if let Some(insn) = decode(*word) {
            insns.push(insn)?;
        }
    }
    Ok(insns)
}

/// The source that has these instructions from an address on.
fn source_of(alloc: Global, insns: &[Insn], base: u32) -> Result<Vec<u8>, AllocError> {
    let mut text = Vec::new(alloc);
    text.extend_from_slice(format!(in alloc; ".org {base}\n")?.as_bytes())?;
    let mut address = base;
    for insn in insns {
        if write_instruction(insn, address, &mut text).is_err() {
            return Err(AllocError);
        }
        text.push(b'\n')?;
        address = address.wrapping_add(4);
    }
    Ok(text)
}

/// The number of the first of these instructions whose word isn't in its place.
fn first_wrong_word(bytes: &[u8], insns: &[Insn]) -> Option<usize> {
    let mut rest = bytes;
    for (row, insn) in insns.iter().enumerate() {
        let [a, b, c, d, after @ ..] = rest else {
            return Some(row);
        };
        if u32::from_be_bytes([*a, *b, *c, *d]) != encode(*insn) {
            return Some(row);
        }
        rest = after;
    }
    None
}

/// The number of the first of these instructions that isn't in an image as its only segment, from an address on.
fn first_wrong(image: &Image, insns: &[Insn], base: u32) -> Option<usize> {
    match image.segments.as_slice() {
        [segment] if segment.address == base => first_wrong_word(segment.bytes.as_slice(), insns),
        _ => Some(0),
    }
}

/// The number of the first of these instructions that the assembler doesn't read as it is written.
fn first_unread(alloc: Global, insns: &[Insn], base: u32) -> Option<usize> {
    let Ok(source) = source_of(alloc, insns, base) else {
        return Some(0);
    };
    match assemble(alloc, &source) {
        Ok(image) => first_wrong(&image, insns, base),
        Err(_) => Some(0),
    }
}

/// The number of the first that is read wrongly, at the first addresses of RAM or at the last ones.
fn first_unread_anywhere(alloc: Global) -> Option<usize> {
    let Ok(insns) = insns(alloc) else {
        return Some(0);
    };
    let bytes = insns.len().min(0x10_0000) as u32 * 4;
    first_unread(alloc, &insns, 0x8000_0000).or(first_unread(alloc, &insns, 0x8100_0000 - bytes))
}

#[test]
fn written_instructions_are_read(rt: HostRuntime) -> Result<(), Fail> {
    none_wrong(first_unread_anywhere(rt.alloc()))
}

/// Words, where they stand, and how they are written.
const TEXTS: &[(u32, u32, &str)] = &[
    (0x8fa80008, 0x80000000, "lw $t0, 8($sp)"),
    (0xafbffffc, 0x80000000, "sw $ra, -4($sp)"),
    (0x1100000f, 0x80000000, "beq $t0, $zero, 0x80000040"),
    (0x1000ffff, 0x80000010, "beq $zero, $zero, 0x80000010"),
    (0x15098000, 0x80800000, "bne $t0, $t1, 0x807e0004"),
    (0x04117fff, 0x80000000, "bgezal $zero, 0x80020000"),
    (0x0c000010, 0x80000000, "jal 0x80000040"),
    (0x0bffffff, 0x80000000, "j 0x8ffffffc"),
    (0x08000000, 0x8ffffffc, "j 0x90000000"),
    (0x03e00008, 0x80000000, "jr $ra"),
    (0x0320f809, 0x80000000, "jalr $ra, $t9"),
    (0x00000000, 0x80000000, "nop"),
    (0x00000040, 0x80000000, "sll $zero, $zero, 1"),
    (0x00084080, 0x80000000, "sll $t0, $t0, 2"),
    (0x00854020, 0x80000000, "add $t0, $a0, $a1"),
    (0x2508ffff, 0x80000000, "addiu $t0, $t0, -1"),
    (0x3508ff00, 0x80000000, "ori $t0, $t0, 0xff00"),
    (0x35080000, 0x80000000, "ori $t0, $t0, 0x0"),
    (0x3c088001, 0x80000000, "lui $t0, 0x8001"),
    (0x0000000c, 0x80000000, "syscall"),
    (0x0048d14c, 0x80000000, "syscall 74565"),
    (0x0000000d, 0x80000000, "break"),
    (0x0000000f, 0x80000000, "sync"),
    (0x01090034, 0x80000000, "teq $t0, $t1"),
    (0x0109fff4, 0x80000000, "teq $t0, $t1, 1023"),
    (0x01090018, 0x80000000, "mult $t0, $t1"),
    (0x00004010, 0x80000000, "mfhi $t0"),
    (0x71284020, 0x80000000, "clz $t0, $t1"),
    (0xcd3ffffc, 0x80000000, "pref 31, -4($t1)"),
];

/// Whether a word is written so at an address.
fn is_written(alloc: Global, word: u32, address: u32, wanted: &str) -> bool {
    let mut text = Vec::new(alloc);
    match decode(word) {
        None => false,
        Some(insn) => {
            write_instruction(&insn, address, &mut text).is_ok()
                && text.as_slice() == wanted.as_bytes()
        }
    }
}

/// The first of `TEXTS` that is written otherwise.
fn first_wrong_text(alloc: Global) -> Option<usize> {
    for (row, (word, address, wanted)) in TEXTS.iter().enumerate() {
        if !is_written(alloc, *word, *address, *wanted) {
            return Some(row);
        }
    }
    None
}

#[test]
fn instructions_are_written_so(rt: HostRuntime) -> Result<(), Fail> {
    none_wrong(first_wrong_text(rt.alloc()))
}
