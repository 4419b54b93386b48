//! Owners of words, by the number of the word.

ghost use Rattle.std.specs.Prelude.{◌≡◌, true};
ghost use Rattle.brd_blocks.specs.declared.owner.Owner.TheVariants.{Shared};
ghost use Rattle.brd_blocks.specs.Owning.{is_shared, owner_at, WordsStayShared};

use crate::owner::Owner;
use brd_base::BASE;

/// Whose the word of an address is.
pub(crate) fn owner_at(owners: &[Owner], address: u64) -> Owner
    ensures { result ≡ owner_at owners.now address }
{
    if address < u64::from(BASE) {
        return Owner::Shared;
    }
    let place = ((address - u64::from(BASE)) / 4) as usize;
    if place < owners.len() {
        return owners[place];
    }
    Owner::Shared
}

/// Gives the word of an address another owner, unless all may touch it. Answers whether it did.
pub(crate) fn give(owners: &mut [Owner], address: u64, to: Owner) -> bool
    ensures stay { WordsStayShared owners.old owners.new }
    ensures shared { to ≡ Shared → is_shared (owner_at owners.new address) ≡ true }
{
    if address < u64::from(BASE) {
        return false;
    }
    let place = ((address - u64::from(BASE)) / 4) as usize;
    if place >= owners.len() || owners[place].is_shared() {
        return false;
    }
    owners[place] = to;
    true
}
