//! Races that are found, their repaired forms, schedules that were counted by hand, what is left of one, and what
//! searches are asked for.

mod find;
mod only;
mod options;
mod shrink;
mod sources;
mod told;
