//! The touches of instructions.

ghost use Rattle.std.specs.Prelude.{◌≡◌, ◌≤◌};
ghost use Rattle.brd_deeds.specs.Touches.{does_store, size_of, synchronizing, touch_at};

use brd_happening::AccessKind;
use brd_isa::AccessSize;
use brd_order::Touch;

/// How many bytes an access touches: all of the word, where it is a part of it that depends on the byte order.
pub(crate) fn size_of(size: AccessSize) -> u8
    ensures is { result ≡ size_of size }
    ensures few { result ≤ 4 }
{
    match size {
        AccessSize::Byte => 1,
        AccessSize::Halfword => 2,
        AccessSize::Word | AccessSize::LeftPart | AccessSize::RightPart => 4,
    }
}

/// Whether an access is a store.
pub(crate) fn does_store(kind: AccessKind) -> bool
    ensures { result ≡ does_store kind }
{
    !matches!(kind, AccessKind::Loads)
}

/// The touch of so many bytes at an address, or of the whole word. It doesn't synchronize.
pub(crate) fn touch_at(address: u32, size: u8, stores: bool) -> Touch
    requires { size ≤ 4 }
    ensures { result ≡ touch_at address size stores }
{
    let within = (address % 4) as u8;
    let from = if size == 4 { 0 } else { within };
    Touch {
        word: address - address % 4,
        from,
        to: from + size,
        stores,
        synchronizes: false,
    }
}

/// The same touch, which synchronizes.
pub(crate) fn synchronizing(touch: Touch) -> Touch
    ensures { result ≡ synchronizing touch }
{
    Touch {
        synchronizes: true,
        ..touch
    }
}
