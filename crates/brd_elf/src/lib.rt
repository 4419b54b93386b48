//! ELF32 object files for MIPS (System V ABI): a reader of files that nobody vouches for, and a writer.
//!
//! `read` answers what `specs/Meaning.antt` says a file means, an image that can be loaded; `write` answers what
//! `specs/File.antt` says is the file of an image. A plain image that `fits` is read again as itself.
#![tactic(auto)]

mod fault;
mod fields;
mod header;
pub mod laws;
mod loaded;
mod named;
mod parts;
mod places;
mod reading;
mod sections;
mod segments;
mod size;
mod symbols;
mod trie;
mod writing;

pub use fault::ElfFault;
pub use fields::{half_at, word_at};
pub use header::order_of;
pub use reading::read;
pub use size::fits;
pub use writing::write;
