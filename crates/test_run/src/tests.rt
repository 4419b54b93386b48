//! Boards, faults and journals that were worked out by hand, and large ones.

mod image;
mod journal;
