//! Decoded words, kept for the next time, and what is done by them.

ghost use Rattle.std.specs.Prelude.{◌≡◌, ◌%◌, All, Some};
ghost use Rattle.brd_exec.specs.Lent.{lent_step, lent_word, DoesLent};
ghost use Rattle.brd_lent.specs.Known.{IsRight};
ghost use Rattle.brd_lent.specs.Most.{DoesMost};

use crate::entries::act;
use crate::known::Known;
use crate::window::Window;
use brd_entries::CodeEntry;
use brd_exec::{Context, run_local};

/// How many words are kept (own choice): those of 2 KiB of code, each at a place by its address.
const PLACES: usize = 512;

/// Words with their entries. Of memory they say nothing: an entry is used only where the word that it was made of is
/// the one to be done.
#[derive(Drop)]
pub struct Decoded {
    known: [Known; PLACES],
    ghost right: { All IsRight known },
}

impl Decoded {
    /// Without any word but 0, which is `sll $zero, $zero, 0` and does nothing.
    pub fn new() -> Self {
        Decoded {
            known: [Known {
                word: 0,
                entry: CodeEntry::Nop,
            }; PLACES],
        }
    }

    /// Does as many lent steps of a context by a window of code, the 64 words from the address `start` on, as there
    /// are, up to `most` of them. Answers how many.
    pub fn run(&mut self, context: &mut Context, window: &Window, start: u32, most: u32) -> u32
        requires { start % 256 ≡ 0 }
        ensures { DoesMost window.now start most context.old context.new result }
    {
        for done in 0..most {
            if !self.step(context, window, start) {
                return done;
            }
        }
        most
    }

    /// Does the next instruction of a context, where the window has its word and it is lent. Answers whether it did;
    /// else the context stays as it was.
    #[inline(always)]
    #[tactic(auto, unfolding(brd_exec::specs::Lent::lent_step))]
    fn step(&mut self, context: &mut Context, window: &Window, start: u32) -> bool
        requires { start % 256 ≡ 0 }
        ensures { DoesLent (lent_step context.old window.now start) context.old result context.new }
    {
        let Some(word) = window.word_in(start, context.pc()) else {
            return false;
        };
        self.do_word(context, word)
    }

    /// Does the instruction of a word, by the word's entry if that is kept.
    #[inline(always)]
    fn do_word(&mut self, context: &mut Context, word: u32) -> bool
        requires { context.old.pc % 4 ≡ 0 }
        ensures { DoesLent (lent_word context.old (Some word)) context.old result context.new }
    {
        let place = context.pc() as usize / 4 % PLACES;
        if self.known[place].word != word {
            self.known[place] = Known::of(word);
        }
        do_known(context, &self.known[place])
    }
}

/// Does the instruction of a word, by its entry.
#[inline(always)]
fn do_known(context: &mut Context, known: &Known) -> bool
    requires right { IsRight known.now }
    requires aligned { context.old.pc % 4 ≡ 0 }
    ensures { DoesLent (lent_word context.old (Some known.now.word)) context.old result context.new }
{
    if act(&known.entry, context) {
        return true;
    }
    by_word(context, known.word)
}

/// Does the instruction of a word, which is decoded for it: what has no entry that says all of it.
#[inline(always)]
fn by_word(context: &mut Context, word: u32) -> bool
    requires { context.old.pc % 4 ≡ 0 }
    ensures { DoesLent (lent_word context.old (Some word)) context.old result context.new }
{
    let pc = context.pc();
    run_local(context, &[word; 64], pc)
}
