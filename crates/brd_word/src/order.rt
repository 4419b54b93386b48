//! Byte order: how the bytes of words and halfwords lie in memory.

ghost use Rattle.std.specs.Prelude.{◌≡◌};
ghost use Rattle.brd_word.specs.Words.{
  bytes_of_word,
  word_of_bytes,
  bytes_of_half,
  half_of_bytes,
};

/// In which order the bytes of a word or a halfword lie, from the lowest address on (MD00086, "Byte Ordering and
/// Endianness").
#[derive(Clone, Copy, Debug, PartialEq, Eq)]
pub enum Order {
    /// The most significant byte first.
    Big,
    /// The least significant byte first.
    Little,
}

/// The four bytes of a word, in the order in which they lie.
pub fn bytes_of(word: u32, order: Order) -> [u8; 4]
    ensures is { result ≡ bytes_of_word order word }
    ensures again { word_of_bytes order result ≡ word }
{
    // Not a `match` of two arrays: so the compiler makes one swap of it, and not four shifts.
    let high_first = match order {
        Order::Big => word,
        Order::Little => word.swap_bytes(),
    };
    high_first.to_be_bytes()
}

/// The word of four bytes that lie in this order.
pub fn word_of(bytes: [u8; 4], order: Order) -> u32
    ensures is { result ≡ word_of_bytes order bytes }
    ensures again { bytes_of_word order result ≡ bytes }
{
    match order {
        Order::Big => u32::from_be_bytes(bytes),
        Order::Little => u32::from_le_bytes(bytes),
    }
}

/// The two bytes of a halfword, in the order in which they lie.
pub fn half_bytes_of(half: u16, order: Order) -> [u8; 2]
    ensures is { result ≡ bytes_of_half order half }
    ensures again { half_of_bytes order result ≡ half }
{
    let high_first = match order {
        Order::Big => half,
        Order::Little => half.swap_bytes(),
    };
    high_first.to_be_bytes()
}

/// The halfword of two bytes that lie in this order.
pub fn half_of(bytes: [u8; 2], order: Order) -> u16
    ensures is { result ≡ half_of_bytes order bytes }
    ensures again { bytes_of_half order result ≡ bytes }
{
    match order {
        Order::Big => u16::from_be_bytes(bytes),
        Order::Little => u16::from_le_bytes(bytes),
    }
}
