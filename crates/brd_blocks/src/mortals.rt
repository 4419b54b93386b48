//! Which tasks are mortal, by ID: others may terminate them.

ghost use Rattle.std.specs.Prelude.{◌≡◌, true};
ghost use Rattle.brd_blocks.specs.Owning.{TasksStayMortal, is_mortal};

/// Whether a task is mortal. Those past the end count as if they were.
pub(crate) fn is_mortal(mortals: &[bool], id: u32) -> bool
    ensures { result ≡ is_mortal mortals.now id }
{
    let place = id as usize;
    if place < mortals.len() {
        return mortals[place];
    }
    true
}

/// A task is mortal from now on. Answers whether that is new.
pub(crate) fn expose(mortals: &mut [bool], id: u32) -> bool
    ensures stay { TasksStayMortal mortals.old mortals.new }
    ensures mortal { is_mortal mortals.new id ≡ true }
{
    let place = id as usize;
    if place >= mortals.len() || mortals[place] {
        return false;
    }
    mortals[place] = true;
    true
}
