//! The assembler: source text to an image.
//!
//! `specs/Image.antt` says what the image of a source is: `specs/Layout.antt` where its statements stand and what its
//! names are, `specs/Meaning.antt` what stands there once all names are known.
#![tactic(auto)]

mod assembler;
mod effect;
mod fault;
mod instruction;
mod key;
pub mod laws;
mod layout;
mod names;
mod operand;
mod output;
mod piece;
mod pieces;
mod stretches;
mod text;
mod value;

pub use assembler::assemble;
pub use effect::{Effect, effect_of, own_name};
pub use fault::AsmFault;
pub use layout::Layout;
pub use names::Names;
pub use output::{greatest_of, least_of};
pub use piece::{Content, Piece};
pub use pieces::Pieces;
