//! Loads and stores.

ghost use Rattle.std.specs.Prelude.{◌≡◌, ◌<◌};
ghost use Rattle.brd_mem.specs.Access.{Stores};
ghost use Rattle.brd_exec.specs.Step.{load_gives, store_gives};
ghost use Rattle.brd_exec.specs.Unaligned.{
  aligned,
  bytes_above,
  left_loaded,
  right_loaded,
  left_stored,
  right_stored,
  loaded_left,
  loaded_right,
  stored_left,
  stored_right,
};

use brd_isa::{LoadOp, StoreOp};
use brd_mem::{Exc, Ram};
use brd_word::{Order, sign8, sign16};

/// What a load finds, for a register that was `old`.
#[inline(always)]
pub fn load(op: LoadOp, ram: &Ram, address: u32, old: u32) -> Result<u32, Exc>
    ensures { result ≡ load_gives op ram.now address old }
{
    match op {
        LoadOp::Lb => Ok(sign8(ram.load8(address)?)),
        LoadOp::Lh => Ok(sign16(ram.load16(address)?)),
        LoadOp::Lwl => load_left(ram, address, old),
        LoadOp::Lw => ram.load32(address),
        LoadOp::Lbu => Ok(u32::from(ram.load8(address)?)),
        LoadOp::Lhu => Ok(u32::from(ram.load16(address)?)),
        LoadOp::Lwr => load_right(ram, address, old),
    }
}

/// The address of the aligned word that holds an address.
fn aligned(address: u32) -> u32
    ensures { result ≡ aligned address }
{
    address - address % 4
}

/// How many bytes of the aligned word that holds an address are more significant than the one at the address.
fn bytes_above(order: Order, address: u32) -> u32
    ensures is { result ≡ bytes_above order address }
    ensures few { result < 4 }
{
    match order {
        Order::Big => address % 4,
        Order::Little => 3 - address % 4,
    }
}

/// What LWL finds.
fn load_left(ram: &Ram, address: u32, old: u32) -> Result<u32, Exc>
    ensures { result ≡ loaded_left ram.now address old }
{
    let word = ram.load32(aligned(address))?;
    Ok(left_loaded(bytes_above(ram.order(), address), word, old))
}

/// What LWR finds.
fn load_right(ram: &Ram, address: u32, old: u32) -> Result<u32, Exc>
    ensures { result ≡ loaded_right ram.now address old }
{
    let word = ram.load32(aligned(address))?;
    Ok(right_loaded(bytes_above(ram.order(), address), word, old))
}

/// A word without its `above` high bytes, followed by as many low bytes of `old`.
fn left_loaded(above: u32, word: u32, old: u32) -> u32
    requires { above < 4 }
    ensures { result ≡ left_loaded above word old }
{
    match above {
        0 => word,
        1 => (word << 8) + old % 0x100,
        2 => (word << 16) + old % 0x1_0000,
        _ => (word << 24) + old % 0x100_0000,
    }
}

/// The `above` + 1 high bytes of a word, after the other high ones of `old`.
fn right_loaded(above: u32, word: u32, old: u32) -> u32
    requires { above < 4 }
    ensures { result ≡ right_loaded above word old }
{
    match above {
        0 => (word >> 24) + ((old >> 8) << 8),
        1 => (word >> 16) + ((old >> 16) << 16),
        2 => (word >> 8) + ((old >> 24) << 24),
        _ => word,
    }
}

/// Does a store of a register's word.
#[inline(always)]
pub fn store(op: StoreOp, ram: &mut Ram, address: u32, word: u32) -> Result<(), Exc>
    ensures { Stores (store_gives op ram.old address word) ram.old result ram.new }
{
    match op {
        StoreOp::Sb => ram.store8(address, (word % 0x100) as u8),
        StoreOp::Sh => ram.store16(address, (word % 0x1_0000) as u16),
        StoreOp::Swl => store_left(ram, address, word),
        StoreOp::Sw => ram.store32(address, word),
        StoreOp::Swr => store_right(ram, address, word),
    }
}

/// Does an SWL.
fn store_left(ram: &mut Ram, address: u32, register: u32) -> Result<(), Exc>
    ensures { Stores (stored_left ram.old address register) ram.old result ram.new }
{
    let start = aligned(address);
    let word = ram.load32(start)?;
    let stored = left_stored(bytes_above(ram.order(), address), word, register);
    ram.store32(start, stored)
}

/// Does an SWR.
fn store_right(ram: &mut Ram, address: u32, register: u32) -> Result<(), Exc>
    ensures { Stores (stored_right ram.old address register) ram.old result ram.new }
{
    let start = aligned(address);
    let word = ram.load32(start)?;
    let stored = right_stored(bytes_above(ram.order(), address), word, register);
    ram.store32(start, stored)
}

/// A word's `above` high bytes, followed by the high ones of the register.
fn left_stored(above: u32, word: u32, register: u32) -> u32
    requires { above < 4 }
    ensures { result ≡ left_stored above word register }
{
    match above {
        0 => register,
        1 => (register >> 8) + ((word >> 24) << 24),
        2 => (register >> 16) + ((word >> 16) << 16),
        _ => (register >> 24) + ((word >> 8) << 8),
    }
}

/// The `above` + 1 low bytes of the register, followed by a word's other low ones.
fn right_stored(above: u32, word: u32, register: u32) -> u32
    requires { above < 4 }
    ensures { result ≡ right_stored above word register }
{
    match above {
        0 => (register << 24) + word % 0x100_0000,
        1 => (register << 16) + word % 0x1_0000,
        2 => (register << 8) + word % 0x100,
        _ => register,
    }
}
