//! Numbers for the strings at the places of a string table: two places have one number exactly if they have one string.

ghost use Rattle.std.specs.Prelude.{◌≡◌, ℕ, ◌+◌, ◌^◌, ◌<◌, ◌≤◌, [], ◌∷◌, length, drop, replicate, slice_index_or};
ghost use Rattle.std.specs.Prelude.{slice_set, option_copied, option_map, Some, None, IfOk, IfSome, IfNone};
ghost use Rattle.brd_elf.specs.Symbols.{string_of};
ghost use Rattle.brd_elf.specs.Trie.{path_of, AreDistinct, IsMore};
ghost use Rattle.brd_elf.specs.Places.{AreLetters, AreNew};

use crate::trie::Trie;
use brd_base::NoMemory;
use std::alloc::Global;
use std::marker::Model;

/// The number of the empty string.
const EMPTY: u32 = 0;

/// A string table, and numbers for those of its strings that were asked for.
pub struct Places<'a> {
    strings: &'a [u8],
    /// The number of the string at each place, where it has one. A string gets its number from its end to its front, so
    /// each end of it has one too, and no place is numbered twice.
    numbers: Vec<Option<u32>>,
    trie: Trie,
}

impl<'a> Model for Places<'a> {
    ghost use Rattle.brd_elf.specs.Places.{Numbered, IsNumbering};

    ghost Value = { Numbered };

    ghost view = { λ places.
        record { strings = places.strings.now; numbers = places.numbers.items; paths = places.trie } };

    ghost invariant = { λ places. IsNumbering
        (record { strings = places.strings.now; numbers = places.numbers.items; paths = places.trie }) };
}

/// Written out, so that a function that lets one go is proved with a call, and not with the end of each part.
impl Drop for Places<'_> {
    fn drop(self) {
        let Places {
            strings: _,
            numbers: _,
            trie: _,
        } = self;
    }
}

impl<'a> Places<'a> {
    /// A string table of which no place has a number.
    pub fn new(alloc: Global, strings: &'a [u8]) -> Result<Self, NoMemory>
        requires { length strings.now < 2 ^ 32 }
        ensures { IfOk result (λ places. places ≡ record {
          strings = strings.now;
          numbers = replicate (length strings.now) None;
          paths = [] ∷ [];
        }) }
    {
        let numbers = vec![in alloc; None; strings.len()]?;
        let trie = Trie::new(alloc)?;
        Ok(Places {
            strings,
            numbers,
            trie,
        })
    }

    /// The string at a place: the bytes before the next byte 0.
    pub fn string_at(&self, start: usize) -> Option<&'a [u8]>
        ensures { option_copied result ≡ string_of (drop start self.now.strings) }
    {
        string_of(self.strings, start)
    }

    /// The number of the string at a place, or nothing if no string ends after it.
    // Inlined it would share the registers of all of `read`, and keep the number of each turn on the stack.
    #[inline(never)]
    pub fn number_of(&mut self, start: usize) -> Result<Option<u32>, NoMemory>
        ensures strings { self.new.strings ≡ self.old.strings }
        ensures string { IfOk result
            (λ number. option_map (path_of self.new.paths) number ≡ string_of (drop start self.old.strings)) }
        ensures there { IfOk result (λ number. IfSome number (λ n. n < length self.new.paths)) }
        ensures kept { IsMore self.old.paths self.new.paths }
        ensures distinct { AreDistinct self.new.paths }
    {
        let Some(found) = self.numbered_from(start) else {
            return Ok(None);
        };
        let mut at = found.0;
        let mut number = found.1;
        while at > start {
            at -= 1;
            number = self.number_before(at, number)?;
        }
        Ok(Some(number))
    }

    /// The first place from one on where a string ends or has a number, and that number.
    fn numbered_from(&self, start: usize) -> Option<(usize, u32)>
        ensures none { IfNone result (string_of (drop start self.now.strings) ≡ None) }
        ensures within { IfSome result (λ found. (start ≤ found.0) × (found.0 < length self.now.strings)) }
        ensures letters { IfSome result (λ found. AreLetters self.now.strings start found.0) }
        ensures new { IfSome result (λ found. AreNew self.now.numbers start found.0) }
        ensures string { IfSome result
            (λ found. string_of (drop found.0 self.now.strings) ≡ Some (path_of self.now.paths found.1)) }
        ensures there { IfSome result (λ found. found.1 < length self.now.paths) }
        ensures distinct { AreDistinct self.now.paths }
    {
        for at in start..self.strings.len() {
            if self.strings[at] == 0 {
                return Some((at, EMPTY));
            }
            if let Some(number) = self.numbers[at] {
                return Some((at, number));
            }
        }
        None
    }

    /// Numbers a place that has no number, before one whose string has one.
    fn number_before(&mut self, at: usize, rest: u32) -> Result<u32, NoMemory>
        requires within { at < length self.old.strings }
        requires letter { slice_index_or self.old.strings at 0 ≡ 0 → ⊥ }
        requires new { slice_index_or self.old.numbers at None ≡ None }
        requires there { rest < length self.old.paths }
        requires string { string_of (drop (at + 1) self.old.strings) ≡ Some (path_of self.old.paths rest) }
        ensures strings { self.new.strings ≡ self.old.strings }
        ensures numbers { IfOk result (λ number. self.new.numbers ≡ slice_set self.old.numbers at (Some number)) }
        ensures string { IfOk result
            (λ number. string_of (drop at self.old.strings) ≡ Some (path_of self.new.paths number)) }
        ensures there { IfOk result (λ number. number < length self.new.paths) }
        ensures kept { IsMore self.old.paths self.new.paths }
        ensures distinct { AreDistinct self.new.paths }
    {
        let strings = self.strings;
        let number = self.trie.with_byte(rest, strings[at])?;
        self.numbers[at] = Some(number);
        Ok(number)
    }
}

/// The string at a place in a string table: the bytes before the next byte 0.
fn string_of(strings: &[u8], start: usize) -> Option<&[u8]>
    ensures { option_copied result ≡ string_of (drop start strings.now) }
{
    if start >= strings.len() {
        return None;
    }
    let rest = &strings[start..];
    for (i, byte) in rest.iter().enumerate() {
        if *byte == 0 {
            return Some(&rest[..i]);
        }
    }
    None
}
