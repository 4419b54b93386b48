//! Where a processor is in RAM, and how far it may go.

ghost use Rattle.std.specs.Prelude.{◌≡◌, ◌+◌, ◌*◌, ◌/◌, ◌%◌, ◌^◌, ◌≤◌, ◌<◌, ℕ, true, false, IfSome};
ghost use Rattle.brd_mem.specs.Memory.{size_of};
ghost use Rattle.brd_link.specs.LinkSet.{LinkSet};
ghost use Rattle.brd_exec.specs.State.{State};
ghost use Rattle.brd_fast.specs.Place.{Place, IsAt, Leaves, address_of_word, state_of, reached};
ghost use Rattle.brd_fast.specs.Steps.{GoesFrom};

use brd_base::BASE;
use brd_exec::Context;
use brd_isa::JumpIndex;
use brd_mem::Ram;
use std::marker::Model;

/// What comes after a line.
#[derive(Clone, Copy)]
enum Next {
    /// The word after it.
    Following,
    /// A delay slot, and then the target. The line is empty.
    Slot,
    /// The target. The line is a delay slot.
    Target,
}

/// A straight line: instructions that lie one after the other, which a processor does without a look at where it is.
/// Places are counted in words from RAM's first, and the end of the line is the only test of where a step is: it stands
/// for the end of the words that have entries, for the delay slot that a branch makes of the next word, and for the
/// last of the steps that are asked for.
#[derive(Drop)]
pub struct StraightLine {
    /// The next instruction's word.
    at: usize,
    /// The word before which the line ends.
    end: usize,
    /// The word before which the steps that are asked for end, if the way from here, or from the target, is straight.
    stop: usize,
    /// How many words there are.
    words: usize,
    next: Next,
    /// The word of the target, where one comes after the line.
    target: usize,
}

impl Model for StraightLine {
    ghost use Rattle.brd_fast.specs.Place.{Place};
    ghost use Rattle.brd_fast.specs.Line.{placed, IsLine};

    ghost Value = { Place };

    ghost view = { λ line. placed line.at line.end line.stop line.words line.next line.target };

    ghost invariant = { λ line. IsLine line.at line.end line.stop line.words line.next line.target };
}

impl StraightLine {
    /// The line of a context that is to do `count` steps in the first `words` of RAM; None where its next instruction,
    /// or the target after the delay slot in which that is, isn't one of them, where no step is to be done, and where
    /// outside of a delay slot another instruction than the next word's comes after it.
    pub fn of(context: &Context, words: usize, count: u32) -> Option<StraightLine>
        requires few { words ≤ 2 ^ 22 }
        ensures place { IfSome result (λ line. state_of context.now line ≡ context.now) }
        ensures left { IfSome result (λ line. line.left ≡ count) }
        ensures words { IfSome result (λ line. line.words ≡ words) }
    {
        let at = index_of(context.pc());
        if at >= words || count == 0 {
            return None;
        }
        if context.slot() {
            let target = index_of(context.npc());
            if target >= words {
                return None;
            }
            return Some(StraightLine {
                at,
                end: at,
                stop: target + count as usize - 1,
                words,
                next: Next::Slot,
                target,
            });
        }
        if context.npc() != context.pc().wrapping_add(4) {
            return None;
        }
        let stop = at + count as usize;
        Some(StraightLine {
            at,
            end: stop.min(words),
            stop,
            words,
            next: Next::Following,
            target: at,
        })
    }

    /// Puts the place back into its context.
    pub fn put(&self, context: &mut Context)
        ensures { context.new ≡ state_of context.old self.now }
    {
        let at = address_of(self.at);
        let target = address_of(self.target);
        match self.next {
            Next::Following => context.go_to(at, at + 4, false),
            Next::Target if self.at == self.end => context.go_to(target, target + 4, false),
            Next::Slot | Next::Target => context.go_to(at, target, true),
        }
    }

    /// How many of the steps are left.
    pub fn left(&self) -> u32
        ensures { result ≡ self.now.left }
    {
        match self.next {
            Next::Following => (self.stop - self.at) as u32,
            Next::Target if self.at == self.end => (self.stop - self.target) as u32,
            Next::Slot | Next::Target => (self.stop - self.target + 1) as u32,
        }
    }

    /// Whether the next step may be done.
    #[inline(always)]
    pub fn is_on(&self) -> bool
        ensures { result ≡ self.now.on }
    {
        self.at < self.end
    }

    /// Which word the next instruction is.
    #[inline(always)]
    pub fn at(&self) -> usize
        requires on { self.now.on ≡ true }
        ensures is { self.now.pc ≡ address_of_word result }
        ensures inside { result < self.now.words }
        ensures few { self.now.words ≤ 2 ^ 22 }
    {
        self.at
    }

    /// The address of the next instruction.
    #[inline(always)]
    pub fn pc(&self) -> u32
        requires on { self.now.on ≡ true }
        ensures { result ≡ self.now.pc }
    {
        address_of(self.at)
    }

    /// Whether there is room for a branch with its delay slot: never where the next instruction is in one.
    #[inline(always)]
    pub fn has_room(&self) -> bool
        requires on { self.now.on ≡ true }
        ensures is { result ≡ self.now.room }
        ensures outside { result ≡ true → self.now.slot ≡ false }
    {
        self.at + 2 <= self.end
    }

    /// Goes on to the next instruction, or to the target after the delay slot.
    #[inline(always)]
    pub fn advance(&mut self)
        requires on { self.old.on ≡ true }
        ensures is { IsAt self.new self.old.npc ((self.old.npc + 4) % 2 ^ 32) false }
        ensures leaves { Leaves self.old true self.new }
    {
        self.at += 1;
    }

    /// The word that lies so far ahead of the next instruction, where there is one or it would be the first past the
    /// last: where a branch goes that is taken.
    #[inline(always)]
    pub fn ahead(&self, reach: u32) -> Option<usize>
        requires on { self.now.on ≡ true }
        requires outside { self.now.slot ≡ false }
        ensures is { IfSome result (λ target. address_of_word target ≡ reached self.now.npc reach) }
        ensures inside { IfSome result (λ target. target ≤ self.now.words) }
    {
        let target = (self.at as u32).wrapping_add(reach) as usize;
        if target > self.words {
            return None;
        }
        Some(target)
    }

    /// The word that a jump by an index goes to, where there is one or it would be the first past the last: the top
    /// four bits of its address are those of the delay slot's (MD00086, J).
    #[inline(always)]
    pub fn indexed(&self, index: JumpIndex) -> Option<usize>
        requires on { self.now.on ≡ true }
        requires outside { self.now.slot ≡ false }
        ensures is { IfSome result (λ target. address_of_word target ≡ self.now.npc / 2 ^ 28 * 2 ^ 28 + 4 * index) }
        ensures inside { IfSome result (λ target. target ≤ self.now.words) }
    {
        let target = index.words() as usize;
        if target > self.words {
            return None;
        }
        Some(target)
    }

    /// The word at an address, where there is one.
    #[inline(always)]
    pub fn addressed(&self, address: u32) -> Option<usize>
        ensures is { IfSome result (λ target. address_of_word target ≡ address) }
        ensures inside { IfSome result (λ target. target ≤ self.now.words) }
    {
        let target = index_of(address);
        if target >= self.words {
            return None;
        }
        Some(target)
    }

    /// Goes on to the delay slot of a branch or a jump to this word.
    #[inline(always)]
    pub fn turn(&mut self, target: usize)
        requires room { self.old.room ≡ true }
        requires inside { target ≤ self.old.words }
        ensures is { IsAt self.new self.old.npc (address_of_word target) true }
        ensures leaves { Leaves self.old true self.new }
    {
        self.stop = target + (self.stop - self.at - 2);
        self.at += 1;
        self.end = self.at;
        self.next = Next::Slot;
        self.target = target;
    }

    /// Goes on to the word after the delay slot of a branch-likely that isn't taken.
    #[inline(always)]
    pub fn skip(&mut self, next: usize)
        requires room { self.old.room ≡ true }
        requires inside { next ≤ self.old.words }
        requires past { address_of_word next ≡ (self.old.npc + 4) % 2 ^ 32 }
        ensures is { IsAt self.new (address_of_word next) ((self.old.npc + 8) % 2 ^ 32) false }
        ensures leaves { Leaves self.old true self.new }
    {
        self.at = next;
        self.stop += 1;
        self.end = self.stop.min(self.words);
    }

    /// Goes on to the line that comes after this one, which has come to its end. An empty delay slot before it (a word
    /// that is 0, a NOP) is done at once. Answers whether there is such a line.
    #[inline(always)]
    pub fn goes_on(&mut self, ram: &Ram) -> bool
        requires over { self.old.on ≡ false }
        requires size { 4 * self.old.words ≤ size_of ram.now }
        ensures { (cpu : ℕ) (s : State) (links : LinkSet) → GoesFrom cpu s ram.now links self.old self.new }
    {
        match self.next {
            Next::Following => false,
            Next::Target => {
                self.at = self.target;
                self.end = self.stop.min(self.words);
                self.next = Next::Following;
                true
            }
            Next::Slot => {
                if ram.raw_at(4 * self.at) == 0 {
                    self.at = self.target;
                    self.end = self.stop.min(self.words);
                    self.next = Next::Following;
                    return true;
                }
                self.end = self.at + 1;
                self.next = Next::Target;
                true
            }
        }
    }
}

/// The address of a word.
#[inline(always)]
fn address_of(word: usize) -> u32
    requires { word ≤ 2 ^ 22 }
    ensures is { result ≡ address_of_word word }
{
    BASE + 4 * word as u32
}

/// Which word lies at an address; a number that is too large for every RAM where the address isn't aligned, so that one
/// comparison tests both.
#[inline(always)]
pub fn index_of(address: u32) -> usize
    ensures { result < 2 ^ 22 → address_of_word result ≡ address }
{
    let ahead = address.wrapping_sub(BASE);
    ((ahead >> 2) + ahead % 4 * 0x4000_0000) as usize
}
