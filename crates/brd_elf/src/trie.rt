//! A trie: numbers for strings, each of which but the empty one is a byte in front of an earlier one.

ghost use Rattle.std.specs.Prelude.{◌≡◌, ℕ, ◌+◌, ◌^◌, ◌<◌, ◌≤◌, [], ◌∷◌, length, IfOk, OnErr, IfSome, IfNone};
ghost use Rattle.brd_elf.specs.Trie.{path_of, AreDistinct, IsMore};

use brd_base::NoMemory;
use std::alloc::Global;
use std::marker::Model;

/// A string that is a byte in front of another one.
#[derive(Clone, Copy)]
pub struct Node {
    /// The byte.
    pub byte: u8,
    /// The number of the other string.
    pub rest: u32,
    /// Of the nodes before this one, the last that is a byte in front of the same string.
    pub before: Option<u32>,
}

/// Strings with their numbers, which count from 0, the empty string.
pub struct Trie {
    /// The strings from number 1 on.
    nodes: Vec<Node>,
    /// For each string, the last node that is a byte in front of it. A growth that is refused may leave room for one
    /// string more.
    lasts: Vec<Option<u32>>,
}

impl Model for Trie {
    ghost use Rattle.std.specs.Prelude.{ℕ, List};
    ghost use Rattle.brd_elf.specs.Trie.{paths_of, IsTrie};

    ghost Value = { List (List ℕ) };

    ghost view = { λ trie. paths_of trie.nodes.items };

    ghost invariant = { λ trie. IsTrie trie.lasts.items trie.nodes.items };
}

/// Written out, so that a function that lets one go is proved with a call, and not with the end of each part.
impl Drop for Trie {
    fn drop(self) {
        let Trie { nodes: _, lasts: _ } = self;
    }
}

impl Trie {
    /// The empty string alone.
    pub fn new(alloc: Global) -> Result<Self, NoMemory>
        ensures { IfOk result (λ trie. trie ≡ [] ∷ []) }
    {
        let lasts = vec![in alloc; None]?;
        Ok(Trie {
            nodes: Vec::new(alloc),
            lasts,
        })
    }

    /// The number of the string that is a byte in front of another one, a new number if the string has none.
    pub fn with_byte(&mut self, rest: u32, byte: u8) -> Result<u32, NoMemory>
        requires rest { rest < length self.old }
        requires room { length self.old < 2 ^ 32 }
        ensures path { IfOk result (λ number. path_of self.new number ≡ byte ∷ path_of self.old rest) }
        ensures there { IfOk result (λ number. number < length self.new) }
        ensures few { length self.new ≤ length self.old + 1 }
        ensures err { OnErr result (self.new ≡ self.old) }
        ensures kept { IsMore self.old self.new }
        ensures distinct { AreDistinct self.new }
    {
        match self.find(rest, byte) {
            Some(number) => Ok(number),
            None => self.add(rest, byte),
        }
    }

    /// The number of the string that is a byte in front of another one, if it has one.
    fn find(&self, rest: u32, byte: u8) -> Option<u32>
        requires { rest < length self.now }
        ensures path { IfSome result (λ number. path_of self.now number ≡ byte ∷ path_of self.now rest) }
        ensures there { IfSome result (λ number. number < length self.now) }
        ensures none { IfNone result ((number : ℕ) → number < length self.now
            → path_of self.now number ≡ byte ∷ path_of self.now rest → ⊥) }
        ensures distinct { AreDistinct self.now }
    {
        let mut next = self.lasts[rest as usize];
        while let Some(at) = next {
            let node = self.nodes[at as usize];
            if node.byte == byte {
                return Some(at + 1);
            }
            next = node.before;
        }
        None
    }

    /// Gives the next number to the string that is a byte in front of another one.
    fn add(&mut self, rest: u32, byte: u8) -> Result<u32, NoMemory>
        requires rest { rest < length self.old }
        requires room { length self.old < 2 ^ 32 }
        requires new { (number : ℕ) → number < length self.old
            → path_of self.old number ≡ byte ∷ path_of self.old rest → ⊥ }
        ensures path { IfOk result (λ number. path_of self.new number ≡ byte ∷ path_of self.old rest) }
        ensures there { IfOk result (λ number. number < length self.new) }
        ensures few { length self.new ≤ length self.old + 1 }
        ensures err { OnErr result (self.new ≡ self.old) }
        ensures kept { IsMore self.old self.new }
        ensures distinct { AreDistinct self.new }
    {
        let at = self.nodes.len() as u32;
        self.lasts.push(None)?;
        let before = self.lasts[rest as usize];
        self.nodes.push(Node { byte, rest, before })?;
        self.lasts[rest as usize] = Some(at);
        Ok(at + 1)
    }
}
