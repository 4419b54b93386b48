//! The ELF header.

ghost use Rattle.std.specs.Prelude.{◌≡◌, ◌≤◌, length};
ghost use Rattle.brd_elf.specs.Faults.{Gives};
ghost use Rattle.brd_elf.specs.Header.{header_at, header_of, order_of, unsupported_at};

use crate::fault::ElfFault;
use crate::fields::{half_at, word_at};
use brd_word::Order;

/// The first bytes of each ELF file.
const MAGIC: [u8; 4] = [0x7f, b'E', b'L', b'F'];

/// How many bytes the header has.
const LEN: usize = 52;

/// A table of headers in a file.
#[derive(Clone, Copy)]
pub struct Table {
    /// Where it lies.
    pub offset: u32,
    /// How many bytes one header has.
    pub entry_size: u16,
    /// How many headers it has.
    pub count: u16,
}

/// What the ELF header says.
#[derive(Clone, Copy)]
pub struct Header {
    /// In which order the bytes of the file's numbers lie.
    pub order: Order,
    /// The address at which the program starts.
    pub entry: u32,
    /// The program headers.
    pub programs: Table,
    /// The section headers.
    pub sections: Table,
}

/// The header of a file, or its first fault.
#[tactic(auto, unfolding(crate::specs::Header::header_of))]
pub fn header_of(file: &[u8]) -> Result<Header, ElfFault>
    ensures { Gives (λ header. header) result (header_of file.now) }
{
    if !file.starts_with(&MAGIC) {
        return Err(ElfFault::NotElf);
    }
    if file.len() < LEN {
        return Err(ElfFault::Truncated { at: 0 });
    }
    let order = order_of(file);
    match unsupported_at(file, order) {
        Some(at) => Err(ElfFault::Unsupported { at }),
        None => Ok(header_at(file, order)),
    }
}

/// In which order the bytes of the file's numbers lie, by its e_ident alone.
#[tactic(auto, unfolding(crate::specs::Header::order_of))]
pub fn order_of(file: &[u8]) -> Order
    requires { 52 ≤ length file.now }
    ensures { result ≡ order_of file.now }
{
    if file[5] == 1 {
        return Order::Little;
    }
    Order::Big
}

/// The first field with a value that isn't supported, by its offset.
#[tactic(auto, unfolding(crate::specs::Header::unsupported_at))]
fn unsupported_at(file: &[u8], order: Order) -> Option<usize>
    requires { 52 ≤ length file.now }
    ensures { result ≡ unsupported_at order file.now }
{
    if file[4] != 1 {
        return Some(4);
    }
    if file[5] != 1 && file[5] != 2 {
        return Some(5);
    }
    if file[6] != 1 {
        return Some(6);
    }
    if half_at(file, 16, order) != 2 {
        return Some(16);
    }
    if half_at(file, 18, order) != 8 {
        return Some(18);
    }
    if word_at(file, 20, order) != 1 {
        return Some(20);
    }
    if half_at(file, 44, order) == 0xffff {
        return Some(44);
    }
    None
}

/// What the header's fields say.
fn header_at(file: &[u8], order: Order) -> Header
    requires { 52 ≤ length file.now }
    ensures { result ≡ header_at order file.now }
{
    Header {
        order,
        entry: word_at(file, 24, order),
        programs: Table {
            offset: word_at(file, 28, order),
            entry_size: half_at(file, 42, order),
            count: half_at(file, 44, order),
        },
        sections: Table {
            offset: word_at(file, 32, order),
            entry_size: half_at(file, 46, order),
            count: half_at(file, 48, order),
        },
    }
}
