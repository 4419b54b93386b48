//! What fills addresses.

ghost use Rattle.std.specs.Prelude.{◌≡◌, ◌<◌, ◌^◌};
ghost use Rattle.brd_asm.specs.Layout.{bytes_in, size_of, alignment_of};
ghost use Rattle.brd_asm.specs.View as view;

use brd_base::List;
use brd_source::{Expression, Instruction, Width};

/// What fills addresses, with names whose values may not be known yet.
#[derive(Drop)]
pub enum Content<'a> {
    /// An instruction.
    Code(Instruction<'a>),
    /// Values of n bytes each.
    Values(Width, List<Expression<'a>>),
    /// Bytes.
    Bytes(List<u8>),
    /// As many bytes of zero.
    Zeros(u32),
}

/// Content that stands at a place.
#[derive(Drop)]
pub struct Piece<'a> {
    /// The address of its first byte.
    pub place: u32,
    /// The line that it is written on.
    pub line: usize,
    /// What stands there.
    pub content: Content<'a>,
}

impl<'a> Content<'a> {
    /// How many bytes it has.
    pub fn size(&self) -> u128
        ensures is { result ≡ size_of (view.content self.now) }
        ensures small { result < 2 ^ 100 }
    {
        match self {
            Content::Code(_) => 4,
            Content::Values(width, values) => {
                u128::from(bytes_in(*width)) * (values.len() as u128)
            }
            Content::Bytes(bytes) => bytes.len() as u128,
            Content::Zeros(n) => u128::from(*n),
        }
    }

    /// What its place has to be a multiple of.
    pub fn alignment(&self) -> u32
        ensures { result ≡ alignment_of (view.content self.now) }
    {
        match self {
            Content::Code(_) => 4,
            Content::Values(width, _) => bytes_in(*width),
            Content::Bytes(_) => 1,
            Content::Zeros(_) => 1,
        }
    }
}

/// How many bytes a value of a width has.
pub fn bytes_in(width: Width) -> u32
    ensures { result ≡ bytes_in width }
{
    match width {
        Width::Byte => 1,
        Width::Half => 2,
        Width::Word => 4,
    }
}
