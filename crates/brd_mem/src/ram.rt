//! The RAM.

ghost use Rattle.std.specs.Prelude.{◌≡◌, Decides, ℕ, ◌+◌, ◌-◌, ◌*◌, ◌%◌, ◌^◌, ◌<◌, ◌≤◌, ◌↔◌, ◌++◌, length, bytes_eq};
ghost use Rattle.std.specs.Prelude.{true, Ok, OnOk, IfOk, IsErrOf};
ghost use Rattle.brd_base.specs.Space.{base, IsRamSize};
ghost use Rattle.brd_word.specs.Words.{bytes_of_word};
ghost use Rattle.brd_mem.specs.Memory.{Memory, memory_of_bytes, size_of, zeros, contains, bytes_at, with_bytes, copied};
ghost use Rattle.brd_mem.specs.Memory.{byte_at};
ghost use Rattle.brd_mem.specs.Access.{
  place_of,
  fetched,
  read_raw,
  loaded8,
  loaded16,
  loaded32,
  stored8,
  stored16,
  stored32,
  storable32,
  Stores,
};
ghost use Rattle.brd_mem.specs.Window.{words_at, window_at};
ghost use Rattle.brd_mem.specs.Pages.{page_size, page_of, with_pages, differing_at, differing, LieWithin};
ghost use Rattle.brd_mem.specs.Marks.{AreMarked};

mod saving;

use crate::fault::{Exc, RamFault};
use crate::pages::{PAGE_SIZE, Pages};
use brd_base::{BASE, NoMemory, copy_with_room, is_ram_size};
use brd_word::{Order, bytes_of, half_bytes_of, half_of, word_of};
use std::alloc::Global;
use std::marker::Model;

/// 64 KiB to 16 MiB of bytes from `BASE` upward, and the order in which the bytes of its halfwords and words lie.
pub struct Ram {
    bytes: Vec<u8>,
    /// For each page, whether it may hold anything but zeros.
    marks: Vec<bool>,
    order: Order,
}

impl Model for Ram {
    ghost Value = { Memory };

    ghost view = { λ ram. memory_of_bytes ram.order ram.bytes.items };

    ghost invariant = { λ ram. IsRamSize (length ram.bytes.items) × AreMarked ram.bytes.items ram.marks.items };
}

/// Written out, so that a function that lets one go is proved with a call, and not with the end of each part.
impl Drop for Ram {
    fn drop(self) {
        let Ram {
            bytes: _,
            marks: _,
            order: _,
        } = self;
    }
}

impl Ram {
    /// RAM of this many bytes, all zero, with words in this order.
    pub fn new(alloc: Global, size: u32, order: Order) -> Result<Ram, RamFault>
        ensures zero { IfOk result (λ ram. ram ≡ zeros order size) }
        ensures fits { IfOk result (λ _. IsRamSize size) }
        ensures bad_size { IsErrOf result RamFault.BadSize ↔ ¬ (IsRamSize size) }
    {
        if !is_ram_size(size) {
            return Err(RamFault::BadSize);
        }
        let size = size as usize;
        let bytes = vec![in alloc; 0; size].map_err(|_| RamFault::NoMemory)?;
        let marks = vec![in alloc; false; size / PAGE_SIZE].map_err(|_| RamFault::NoMemory)?;
        Ok(Ram {
            bytes,
            marks,
            order,
        })
    }

    /// An equal RAM.
    pub fn try_copy(&self) -> Result<Ram, NoMemory>
        ensures { IfOk result (λ copy. copy ≡ self.now) }
    {
        Ok(Ram {
            bytes: copy_with_room(&self.bytes, 0)?,
            marks: copy_with_room(&self.marks, 0)?,
            order: self.order,
        })
    }

    /// Whether both have the same bytes and order.
    pub fn same(&self, other: &Ram) -> bool
        ensures { Decides result (self.now ≡ other.now) }
    {
        self.order == other.order
            && self.bytes.len() == other.bytes.len()
            && self.has_same_pages(other)
    }

    /// Whether both have the same bytes in all pages.
    fn has_same_pages(&self, other: &Ram) -> bool
        requires sizes { size_of self.now ≡ size_of other.now }
        requires orders { self.now.order ≡ other.now.order }
        ensures { Decides result (self.now ≡ other.now) }
    {
        for number in 0..self.bytes.len() / PAGE_SIZE {
            if !self.has_alike(number, other) {
                return false;
            }
        }
        true
    }

    /// In which order the bytes of its halfwords and words lie.
    pub fn order(&self) -> Order
        ensures { result ≡ self.now.order }
    {
        self.order
    }

    /// How many bytes it has.
    pub fn size(&self) -> usize
        ensures is { result ≡ size_of self.now }
        ensures fits { IsRamSize result }
    {
        self.bytes.len()
    }

    /// Whether the `len` addresses from this one on are all in RAM.
    pub fn contains(&self, address: u32, len: usize) -> bool
        ensures { result ≡ contains (size_of self.now) address len }
    {
        let size = self.bytes.len();
        address >= BASE && len <= size && (address - BASE) as usize <= size - len
    }

    /// The byte at an address, where RAM has one.
    pub fn byte(&self, address: u32) -> Option<u8>
        ensures { result ≡ byte_at self.now address }
    {
        if address < BASE {
            return None;
        }
        self.bytes.get((address - BASE) as usize).copied()
    }

    /// The instruction word at an address: AdEL where it isn't aligned, then IBE where it isn't in RAM.
    pub fn fetch(&self, address: u32) -> Result<u32, Exc>
        ensures { result ≡ fetched self.now address }
    {
        let at = self.place(address, 4, Exc::AdEL, Exc::IBE)?;
        Ok(word_of(self.bytes_at(at), self.order))
    }

    /// The four bytes of an instruction word at an aligned address in RAM, given by its place (how many bytes lie
    /// before it), as one number: the little-endian word of them, in either order of RAM.
    #[inline(always)]
    pub fn raw_at(&self, at: usize) -> u32
        requires aligned { at % 4 ≡ 0 }
        requires inside { at + 4 ≤ size_of self.now }
        ensures { fetched self.now (base + at) ≡ Ok (read_raw self.now.order result) }
    {
        word_of(self.bytes_at(at), Order::Little)
    }

    /// The 64 words of the aligned 256 bytes round an address; None where these don't lie in RAM.
    pub fn window(&self, address: u32) -> Option<[u32; 64]>
        ensures { result ≡ window_at self.now address }
    {
        let start = address - address % 256;
        if !self.contains(start, 256) {
            return None;
        }
        Some(self.words_at((start - BASE) as usize))
    }

    /// The 64 words from a place on.
    #[tactic(auto, unfolding(crate::specs::Window::words_at))]
    fn words_at(&self, at: usize) -> [u32; 64]
        requires { at + 256 ≤ size_of self.now }
        ensures { result ≡ words_at self.now at 64 }
    {
        let bytes = &self.bytes[at..at + 256];
        let mut words = [0; 64];
        for i in 0..64usize {
            let first = 4 * i;
            let four = [
                bytes[first],
                bytes[first + 1],
                bytes[first + 2],
                bytes[first + 3],
            ];
            words[i] = word_of(four, self.order);
        }
        words
    }

    /// The data byte at an address: DBE where it isn't in RAM.
    pub fn load8(&self, address: u32) -> Result<u8, Exc>
        ensures { result ≡ loaded8 self.now address }
    {
        let at = self.place(address, 1, Exc::AdEL, Exc::DBE)?;
        Ok(self.bytes[at])
    }

    /// The data halfword at an address: AdEL where it isn't aligned, then DBE where it isn't in RAM.
    pub fn load16(&self, address: u32) -> Result<u16, Exc>
        ensures { result ≡ loaded16 self.now address }
    {
        let at = self.place(address, 2, Exc::AdEL, Exc::DBE)?;
        Ok(half_of(self.bytes_at(at), self.order))
    }

    /// The data word at an address: AdEL where it isn't aligned, then DBE where it isn't in RAM.
    pub fn load32(&self, address: u32) -> Result<u32, Exc>
        ensures is { result ≡ loaded32 self.now address }
        ensures bytes { IfOk result (λ word. bytes_of_word self.now.order word ≡ bytes_at self.now (address - base) 4) }
    {
        let at = self.place(address, 4, Exc::AdEL, Exc::DBE)?;
        Ok(word_of(self.bytes_at(at), self.order))
    }

    /// Stores a data byte at an address: DBE where it isn't in RAM.
    pub fn store8(&mut self, address: u32, byte: u8) -> Result<(), Exc>
        ensures { Stores (stored8 self.old address byte) self.old result self.new }
    {
        let at = self.place(address, 1, Exc::AdES, Exc::DBE)?;
        self.put_in_page(at, &[byte]);
        Ok(())
    }

    /// Stores a data halfword at an address: AdES where it isn't aligned, then DBE where it isn't in RAM.
    pub fn store16(&mut self, address: u32, half: u16) -> Result<(), Exc>
        ensures { Stores (stored16 self.old address half) self.old result self.new }
    {
        let at = self.place(address, 2, Exc::AdES, Exc::DBE)?;
        self.put_in_page(at, &half_bytes_of(half, self.order));
        Ok(())
    }

    /// Stores a data word at an address: AdES where it isn't aligned, then DBE where it isn't in RAM.
    pub fn store32(&mut self, address: u32, word: u32) -> Result<(), Exc>
        ensures { Stores (stored32 self.old address word) self.old result self.new }
    {
        let at = self.place(address, 4, Exc::AdES, Exc::DBE)?;
        self.put_in_page(at, &bytes_of(word, self.order));
        Ok(())
    }

    /// Whether a data word could be stored at an address: AdES where it isn't aligned, then DBE where it isn't in RAM.
    pub fn may_store32(&self, address: u32) -> Result<(), Exc>
        ensures { result ≡ storable32 self.now address }
    {
        self.place(address, 4, Exc::AdES, Exc::DBE)?;
        Ok(())
    }

    /// The place of `len` bytes from an address on: `unaligned` where it is no multiple of `len`, then `outside` where
    /// they aren't in RAM.
    fn place(&self, address: u32, len: u32, unaligned: Exc, outside: Exc) -> Result<usize, Exc>
        requires some { 0 < len }
        requires few { len ≤ 4 }
        ensures { result ≡ place_of self.now address len unaligned outside }
    {
        if address % len != 0 {
            return Err(unaligned);
        }
        let at = address.wrapping_sub(BASE) as usize;
        if at > self.bytes.len() - len as usize {
            return Err(outside);
        }
        Ok(at)
    }

    /// Writes these bytes from an address on.
    pub fn copy_in(&mut self, address: u32, bytes: &[u8])
        requires { contains (size_of self.old) address (length bytes.now) ≡ true }
        ensures is { self.new ≡ copied self.old address bytes.now }
        ensures same_size { size_of self.new ≡ size_of self.old }
    {
        self.put_bytes((address - BASE) as usize, bytes);
    }

    /// The pages in which it differs from a RAM of its size and order, with the bytes that it has there itself.
    pub fn pages(&self, base: &Ram) -> Result<Pages, NoMemory>
        requires sizes { size_of self.now ≡ size_of base.now }
        requires orders { self.now.order ≡ base.now.order }
        ensures is { IfOk result (λ pages. pages ≡ differing base.now self.now) }
        ensures within { IfOk result (LieWithin (size_of base.now)) }
        ensures back { IfOk result (λ pages. with_pages base.now pages ≡ self.now) }
    {
        self.pages_after(base, &Pages::new(*self.bytes.allocator()))
    }

    /// Whether both have the same bytes in a page. Where neither has a mark, both have zeros.
    fn has_alike(&self, number: usize, base: &Ram) -> bool
        requires sizes { size_of self.now ≡ size_of base.now }
        requires within { number * page_size + page_size ≤ size_of self.now }
        ensures { result ≡ bytes_eq (page_of self.now number).bytes (page_of base.now number).bytes }
    {
        if !self.marks[number] && !base.marks[number] {
            return true;
        }
        self.page(number) == base.page(number)
    }

    /// Becomes the base, a RAM of its size and order, with these pages in their places. So it becomes the RAM that they
    /// were taken of, where that was compared with an equal base.
    pub fn put_back(&mut self, base: &Ram, pages: &Pages)
        requires sizes { size_of self.old ≡ size_of base.now }
        requires orders { self.old.order ≡ base.now.order }
        requires within { LieWithin (size_of base.now) pages.now }
        ensures { self.new ≡ with_pages base.now pages.now }
    {
        self.copy_from(base);
        for shared in pages.as_slice() {
            let page = shared.page();
            self.put_in_page(page.number as usize * PAGE_SIZE, &page.bytes);
        }
    }

    /// The bytes of a page.
    fn page(&self, number: usize) -> &[u8]
        requires { number * page_size + page_size ≤ size_of self.now }
        ensures is { result.now ≡ (page_of self.now number).bytes }
        ensures long { length result.now ≡ page_size }
    {
        let bytes = self.bytes.as_slice();
        let at = number * PAGE_SIZE;
        &bytes[at..at + PAGE_SIZE]
    }

    /// The bytes from a place on.
    fn bytes_at<const N: usize>(&self, at: usize) -> [u8; N]
        requires { at + N ≤ size_of self.now }
        ensures { result ≡ bytes_at self.now at N }
    {
        let mut bytes = [0; N];
        bytes.copy_from_slice(&self.bytes[at..at + N]);
        bytes
    }

    /// Puts these bytes, which one page has room for, from a place on.
    fn put_in_page(&mut self, at: usize, bytes: &[u8])
        requires inside { at + length bytes.now ≤ size_of self.old }
        requires some { 0 < length bytes.now }
        requires in_page { at % page_size + length bytes.now ≤ page_size }
        ensures is { self.new ≡ with_bytes self.old at bytes.now }
        ensures same_size { size_of self.new ≡ size_of self.old }
    {
        self.marks[at / PAGE_SIZE] = true;
        self.bytes[at..at + bytes.len()].copy_from_slice(bytes);
    }

    /// Puts these bytes from a place on.
    fn put_bytes(&mut self, at: usize, bytes: &[u8])
        requires { at + length bytes.now ≤ size_of self.old }
        ensures is { self.new ≡ with_bytes self.old at bytes.now }
        ensures same_size { size_of self.new ≡ size_of self.old }
    {
        self.bytes[at..at + bytes.len()].copy_from_slice(bytes);
        let end = (at + bytes.len()).div_ceil(PAGE_SIZE);
        self.marks[at / PAGE_SIZE..end].fill(true);
    }
}
