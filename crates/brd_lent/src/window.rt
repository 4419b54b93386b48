//! Windows of code.

ghost use Rattle.std.specs.Prelude.{◌≡◌, ◌+◌, ◌%◌, ◌^◌, ◌<◌, ◌≤◌, length, slice_index};
ghost use Rattle.std.specs.Prelude.{Decides, true, false, Some, None, IfSome};
ghost use Rattle.brd_mem.specs.Memory.{size_of};
ghost use Rattle.brd_mem.specs.Window.{words_at, window_at};
ghost use Rattle.brd_exec.specs.Lent.{word_in};
ghost use Rattle.brd_lent.specs.Window.{words_of};

use brd_base::BASE;
use brd_lanes::same_words;
use brd_mem::Ram;
use brd_word::{Order, bytes_of, word_of};
use std::marker::Model;

/// How many bytes a window has.
const BYTES: u32 = 256;

/// The 64 words of the aligned 256 bytes round an address, as they lie in RAM. So it is read from RAM and compared with
/// it as bytes are, and the order of RAM counts only where a word is taken out.
#[derive(Drop)]
pub struct Window {
    /// Each word's four bytes as one number: the little-endian word of them, whatever the order is.
    raw: [u32; 64],
    order: Order,
}

impl Model for Window {
    ghost use Rattle.std.specs.Prelude.{ℕ, List};
    ghost use Rattle.brd_lent.specs.Window.{words_of};

    ghost Value = { List ℕ };

    ghost view = { λ window. words_of window.order window.raw };
}

impl Window {
    /// A window of zeros.
    pub fn zeros() -> Window {
        Window {
            raw: [0; 64],
            order: Order::Big,
        }
    }

    /// Becomes the window round an address. Answers whether there is one; else it stays as it was.
    pub fn read(&mut self, ram: &Ram, address: u32) -> bool
        ensures read { result ≡ true → window_at ram.now address ≡ Some self.new }
        ensures none { result ≡ false → (window_at ram.now address ≡ None) × (self.new ≡ self.old) }
    {
        let start = address - address % BYTES;
        if !ram.contains(start, BYTES as usize) {
            return false;
        }
        self.raw = raw_at(ram, (start - BASE) as usize);
        self.order = ram.order();
        true
    }

    /// Whether it is the window round an address.
    #[inline(always)]
    pub fn is_at(&self, ram: &Ram, address: u32) -> bool
        ensures { Decides result (window_at ram.now address ≡ Some self.now) }
    {
        self.lies_at(ram, address) || self.has_words_at(ram, address)
    }

    /// Whether its bytes lie round an address in the same order.
    #[inline(always)]
    fn lies_at(&self, ram: &Ram, address: u32) -> bool
        ensures { result ≡ true → window_at ram.now address ≡ Some self.now }
    {
        let start = address - address % BYTES;
        if self.order != ram.order() || !ram.contains(start, BYTES as usize) {
            return false;
        }
        same_words(&raw_at(ram, (start - BASE) as usize), &self.raw)
    }

    /// Whether its words lie round an address, in either order: the long way, for windows that differ.
    #[inline(never)]
    fn has_words_at(&self, ram: &Ram, address: u32) -> bool
        ensures { Decides result (window_at ram.now address ≡ Some self.now) }
    {
        match ram.window(address) {
            Some(words) => same_words(&words, &self.words()),
            None => false,
        }
    }

    /// Its words.
    fn words(&self) -> [u32; 64]
        ensures { result ≡ self.now }
    {
        let first = self.word(0);
        let mut words = [first; 64];
        for i in 0..64usize {
            words[i] = self.word(i);
        }
        words
    }

    /// The word at an address, where the window that begins at `start` has it.
    #[inline(always)]
    pub fn word_in(&self, start: u32, address: u32) -> Option<u32>
        requires { start % 256 ≡ 0 }
        ensures is { result ≡ word_in self.now start address }
        ensures aligned { IfSome result (λ _. address % 4 ≡ 0) }
    {
        let ahead = address.wrapping_sub(start);
        if ahead % 4 != 0 || ahead >= BYTES {
            return None;
        }
        Some(self.word(ahead as usize / 4))
    }

    /// The word of a number, counted from 0.
    #[inline(always)]
    fn word(&self, number: usize) -> u32
        requires { number + 1 ≤ 64 }
        ensures is { result ≡ slice_index self.now number }
        ensures long { length self.now ≡ 64 }
    {
        word_of(bytes_of(self.raw[number], Order::Little), self.order)
    }
}

/// The 64 words from a place on, as they lie in RAM.
#[inline(always)]
#[tactic(auto, unfolding(brd_mem::specs::Window::words_at))]
fn raw_at(ram: &Ram, at: usize) -> [u32; 64]
    requires inside { at + 256 ≤ size_of ram.now }
    requires aligned { at % 4 ≡ 0 }
    requires few { at < 2 ^ 32 }
    ensures is { words_of ram.now.order result ≡ words_at ram.now at 64 }
    ensures count { length result ≡ 64 }
{
    let mut raw = [0; 64];
    for i in 0..64usize {
        raw[i] = ram.raw_at(at + 4 * i);
    }
    raw
}
