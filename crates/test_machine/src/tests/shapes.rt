//! The shapes of instructions beside what is done, over words of each opcode: what isn't read says nothing, what isn't
//! written stays, and an instruction leads where its shape says.

use brd_exec::{Context, ExceptionCode, Outcome, run};
use brd_isa::{Flow, Reads, Register, Shape, Writes, decode, shape_of};
use brd_link::Links;
use brd_mem::Ram;
use brd_word::Order;
use std::test::Fail;
use test_help::none_wrong;

/// Where each instruction stands.
const CODE: u32 = 0x8000_0000;

/// How many words are tried.
const WORDS: u32 = 64 * 64 * 32;

/// What lies where an instruction accesses memory.
const THERE: u32 = 0x89ab_cdef;

/// The word of a number: its opcode, its function or low half, and which of its registers aren't 0. Under REGIMM the
/// field rt is a code.
fn word_of(n: u32) -> u32 {
    let opcode = n % 64;
    let funct = n / 64 % 64;
    let rs = 9 * (n / 0x1000 % 2);
    let rt = if opcode == 1 {
        funct % 32
    } else {
        10 * (n / 0x2000 % 2)
    };
    let rd = match n / 0x4000 % 4 {
        0 => 0,
        1 => 11,
        2 => 10,
        _ => 31,
    };
    let sa = 3 * (n / 0x1_0000 % 2);
    (opcode << 26) + (rs << 21) + (rt << 16) + (rd << 11) + (sa << 6) + funct
}

/// Registers that hold addresses in RAM, each another one.
fn context() -> Context {
    let mut context = Context::opening(CODE, 0, 0);
    for number in 1..32u8 {
        context.put(number, 0x8000_2000 + 0x40 * u32::from(number));
    }
    with_product(&context, 0x1234_5678_9abc_def0)
}

/// A context with other words in HI and LO.
fn with_product(context: &Context, product: u64) -> Context {
    let mut other = *context;
    other.set_product(product);
    other.go_to(CODE, CODE + 4, false);
    other
}

/// What an instruction leaves.
#[derive(Clone, Copy, PartialEq, Eq)]
struct Left {
    /// How it ends.
    outcome: Outcome,
    /// The registers.
    context: Context,
    /// The aligned word where it accesses memory, if it does.
    there: Option<u32>,
}

/// The aligned word that an instruction accesses with these registers.
fn place_of(shape: &Shape, context: &Context) -> Option<u32> {
    let access = shape.access?;
    let address = context.address(access.base, access.offset);
    Some(address - address % 4)
}

/// Does a word of this shape.
fn done(ram: &mut Ram, shape: &Shape, before: &Context) -> Left {
    let place = place_of(shape, before);
    if let Some(place) = place {
        let _ = ram.store32(place, THERE);
    }
    let mut context = *before;
    let outcome = run(&mut context, 1, ram, &mut Links::new());
    let there = match place {
        Some(place) => ram.load32(place).ok(),
        None => None,
    };
    Left {
        outcome,
        context,
        there,
    }
}

/// Whether a field names this register.
fn names(field: Option<Register>, number: u8) -> bool {
    match field {
        Some(register) => register.number() == number,
        None => false,
    }
}

/// Whether an instruction reads this register.
fn is_read(reads: &Reads, number: u8) -> bool {
    names(reads.rs, number) || names(reads.rt, number) || names(reads.rd, number)
}

/// What an instruction of this shape writes that ends so: nothing, unless it is done.
fn written(shape: &Shape, outcome: Outcome) -> Writes {
    if outcome == Outcome::Done {
        return shape.writes;
    }
    Writes {
        register: None,
        hi: false,
        lo: false,
    }
}

/// Whether what isn't written stays.
fn keeps(writes: &Writes, before: &Context, after: &Context) -> bool {
    for number in 1..32u8 {
        if !names(writes.register, number) && before.word(number) != after.word(number) {
            return false;
        }
    }
    (writes.hi || before.hi() == after.hi()) && (writes.lo || before.lo() == after.lo())
}

/// Whether two instructions leave the same, but for what they don't write.
fn leave_alike(writes: &Writes, one: &Left, other: &Left) -> bool {
    let (first, second) = (&one.context, &other.context);
    for number in 1..32u8 {
        if names(writes.register, number) && first.word(number) != second.word(number) {
            return false;
        }
    }
    (!writes.hi || first.hi() == second.hi())
        && (!writes.lo || first.lo() == second.lo())
        && first.pc() == second.pc()
        && first.npc() == second.npc()
        && first.slot() == second.slot()
        && one.outcome == other.outcome
        && one.there == other.there
}

/// Whether an instruction of this shape does with other registers what it does with these.
fn does_alike(ram: &mut Ram, shape: &Shape, left: &Left, other: &Context) -> bool {
    let again = done(ram, shape, other);
    let writes = written(shape, left.outcome);
    keeps(&writes, other, &again.context) && leave_alike(&writes, left, &again)
}

/// Whether each register that isn't read says nothing.
fn is_unread_silent(ram: &mut Ram, shape: &Shape, before: &Context, left: &Left) -> bool {
    for number in 1..32u8 {
        let mut other = *before;
        other.put(number, before.word(number) ^ 0x0055_0010);
        if !is_read(&shape.reads, number) && !does_alike(ram, shape, left, &other) {
            return false;
        }
    }
    is_product_silent(ram, shape, before, left)
}

/// Whether each of HI and LO says nothing that isn't read.
fn is_product_silent(ram: &mut Ram, shape: &Shape, before: &Context, left: &Left) -> bool {
    let high = with_product(before, 0x7_9abc_def0);
    let low = with_product(before, 0x1234_5678_0000_0007);
    (shape.reads.hi || does_alike(ram, shape, left, &high))
        && (shape.reads.lo || does_alike(ram, shape, left, &low))
}

/// Whether an instruction leads where its shape says.
fn leads(shape: &Shape, before: &Context, left: &Left) -> bool {
    let goes = left.outcome == Outcome::Done;
    let in_slot = goes && left.context.slot();
    let on = goes && !in_slot && left.context.pc() == before.npc();
    match shape.flow {
        Flow::Next => on || shape.access.is_some() && raises_for_memory(left.outcome),
        Flow::NextUnlessRaised => on || raises_for_words(left.outcome),
        Flow::Branch | Flow::BranchAndLink => goes,
        Flow::Jump | Flow::JumpAndLink | Flow::Return => in_slot,
        Flow::ServiceCall => left.outcome == Outcome::Syscall,
        Flow::Exception => is_break(left.outcome),
    }
}

/// Whether an access to memory raises.
fn raises_for_memory(outcome: Outcome) -> bool {
    match outcome {
        Outcome::Exception { code, .. } => matches!(
            code,
            ExceptionCode::AdEL | ExceptionCode::AdES | ExceptionCode::DBE
        ),
        _ => false,
    }
}

/// Whether an overflow or a trap raises.
fn raises_for_words(outcome: Outcome) -> bool {
    match outcome {
        Outcome::Exception { code, .. } => matches!(code, ExceptionCode::Ov | ExceptionCode::Tr),
        _ => false,
    }
}

/// Whether a BREAK raises.
fn is_break(outcome: Outcome) -> bool {
    match outcome {
        Outcome::Exception { code, .. } => matches!(code, ExceptionCode::Bp),
        _ => false,
    }
}

/// Whether the instruction of a word is as its shape says; a word of none is.
fn is_of_its_shape(ram: &mut Ram, before: &Context, word: u32) -> bool {
    let Some(insn) = decode(word) else {
        return true;
    };
    if ram.store32(CODE, word).is_err() {
        return false;
    }
    let shape = shape_of(&insn);
    let left = done(ram, &shape, before);
    keeps(&written(&shape, left.outcome), before, &left.context)
        && leads(&shape, before, &left)
        && is_unread_silent(ram, &shape, before, &left)
}

/// The first word whose instruction isn't as its shape says.
fn first_wrong(ram: &mut Ram) -> Option<u32> {
    let before = context();
    for n in 0..WORDS {
        if !is_of_its_shape(ram, &before, word_of(n)) {
            return Some(word_of(n));
        }
    }
    None
}

#[test]
fn instructions_are_of_their_shapes(rt: HostRuntime) -> Result<(), Fail> {
    let mut ram = Ram::new(rt.alloc(), 0x1_0000, Order::Big)?;
    none_wrong(first_wrong(&mut ram))
}
