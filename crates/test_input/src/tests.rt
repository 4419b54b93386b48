//! Sources, configurations and object files with answers that were worked out by hand, large ones, and changed ones.
//!
//! Rows stand in constant tables. A function says whether a row is right, another answers the first row that isn't, by
//! its number from 0 on, and a test fails by `none_wrong`, which says it.

mod asm;
mod changed;
mod config;
mod elf;
mod numbered;
mod shown;
