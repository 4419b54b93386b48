//! The board's RAM, and the images that are loaded into it.
#![tactic(auto)]

mod fault;
mod image;
pub mod laws;
mod pages;
mod plain;
mod ram;
mod words;

pub use fault::{Exc, RamFault};
pub use image::{Bytes, Image, Segment, Segments, Symbol, Symbols, symbol_value};
pub use pages::{PAGE_SIZE, Page, Pages, SharedPage};
pub use plain::is_plain;
pub use ram::Ram;
