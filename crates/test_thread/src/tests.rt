//! What no clause says: worked examples, that threads overlap, that no race is broken.

mod boards;
mod gate;
mod races;
mod script;
mod station;
