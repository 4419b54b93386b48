//! Who may touch which word of RAM, and which tasks others may terminate.

ghost use Rattle.std.specs.Prelude.{◌≡◌, ◌/◌, false, true, IfOk, replicate};
ghost use Rattle.brd_blocks.specs.declared.owner.Owner.TheVariants.{Nobody};
ghost use Rattle.brd_blocks.specs.Owning.{owner_at, sharing_of, StayMortal, StayShared};

use crate::learning::{learn_end, learn_touch};
use crate::owner::Owner;
use crate::owners::{give, owner_at};
use brd_base::NoMemory;
use brd_board::Board;
use std::alloc::Global;
use std::marker::Model;

/// How many IDs tasks may have, with 0, which none has.
const IDS: usize = 256;

/// Who may touch which word of RAM, and which tasks are mortal: others may terminate them.
#[derive(Drop)]
pub struct Sharing {
    /// By the number of the aligned word, from the first of RAM on.
    owners: Vec<Owner>,
    /// Whether a task is mortal, by its ID.
    mortals: Vec<bool>,
}

impl Model for Sharing {
    ghost use Rattle.brd_blocks.specs.Owning.{Known};

    ghost Value = { Known };

    ghost view = { λ s. record { owners = s.owners.items; mortals = s.mortals.items } };
}

impl Sharing {
    /// The words of a RAM of this many bytes: each is nobody's. No task is mortal.
    pub fn new(alloc: Global, size: u32) -> Result<Sharing, NoMemory>
        ensures owners { IfOk result (λ sharing. sharing.owners ≡ replicate (size / 4) Nobody) }
        ensures mortals { IfOk result (λ sharing. sharing.mortals ≡ replicate 256 false) }
    {
        Ok(Sharing {
            owners: vec![in alloc; Owner::Nobody; (size / 4) as usize]?,
            mortals: vec![in alloc; false; IDS]?,
        })
    }

    /// Who may touch the word of an address; all may where RAM hasn't it.
    pub fn owner(&self, address: u32) -> Owner
        ensures { result ≡ owner_at self.now.owners address }
    {
        owner_at(self.owners(), u64::from(address))
    }

    /// Whether all may touch the word of an address.
    pub fn is_shared(&self, address: u32) -> bool
        ensures { result ≡ (sharing_of self.now).shared address }
    {
        self.owner(address).is_shared()
    }

    /// All may touch the word of an address from now on.
    pub fn share(&mut self, address: u32)
        ensures stay { StayShared self.old self.new }
        ensures mortal { StayMortal self.old self.new }
        ensures shared { (sharing_of self.new).shared address ≡ true }
    {
        let _ = give(
            self.owners.as_mut_slice(),
            u64::from(address),
            Owner::Shared,
        );
    }

    /// Takes in what the next step of a processor touches, if it executes an instruction: a word of nobody's to which
    /// it stores becomes its agent's own; another's becomes shared; so does one of an LL or an SC, and one to which it
    /// stores while another processor is linked to a word of the same block. A task becomes mortal of which it asks for
    /// ter_tsk. Answers whether anything has changed.
    pub fn learn(&mut self, board: &Board, cpu: u8) -> bool
        ensures shared { StayShared self.old self.new }
        ensures mortal { StayMortal self.old self.new }
    {
        let touches = learn_touch(self.owners.as_mut_slice(), board, cpu);
        let ends = learn_end(self.mortals.as_mut_slice(), board, cpu);
        touches || ends
    }

    /// The owners of the words.
    pub(crate) fn owners(&self) -> &[Owner]
        ensures { result.now ≡ self.now.owners }
    {
        self.owners.as_slice()
    }

    /// Whether tasks are mortal, by their IDs.
    pub(crate) fn mortals(&self) -> &[bool]
        ensures { result.now ≡ self.now.mortals }
    {
        self.mortals.as_slice()
    }
}
