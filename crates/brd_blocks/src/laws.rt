//! What is true of links.

ghost use Rattle.brd_blocks.specs.Stepping.{LinkSetLaw};

/// Links of a board that are a set (none are one) stay a set, whatever happens on the processors 1 to 8.
pub fn links_stay_a_set()
    ensures { LinkSetLaw }
{}
