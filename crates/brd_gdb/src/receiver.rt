//! Packets that come.

ghost use Rattle.std.specs.Prelude.{◌≡◌, ◌≤◌, [], false, length, OnOk, IfOk, Some as some};
ghost use Rattle.brd_text.specs.Numbers.{hex_digit_value};
ghost use Rattle.brd_gdb.specs.declared.receiver.Part.TheVariants.{Outside as outside, Payload as payload};
ghost use Rattle.brd_gdb.specs.declared.receiver.Part.TheVariants.{LastDigit as last_digit};
ghost use Rattle.brd_gdb.specs.Receiving as receiving;

use brd_base::NoMemory;
use brd_text::hex_value;
use std::alloc::Global;
use std::marker::Model;

/// How many bytes a packet's payload may have (own choice).
pub const PACKET_SIZE: usize = 16_384;

/// What has come with a byte.
#[derive(Clone, Copy, PartialEq, Eq)]
pub enum Arrival {
    /// A packet.
    Packet,
    /// A packet that is longer than `PACKET_SIZE`.
    TooLong,
    /// A packet with a wrong sum.
    Damaged,
    /// That a packet was received: `+`.
    Accepted,
    /// That a packet was damaged: `-`.
    Refused,
    /// That the program is to stop: the byte 3.
    Interrupt,
}

/// Where within a stream a receiver is.
#[derive(Clone, Copy, PartialEq, Eq)]
pub enum Part {
    /// Before a packet.
    Outside,
    /// In a payload.
    Payload,
    /// After the `}` of an escape.
    Escape,
    /// Before the two digits of the sum.
    Sum,
    /// Before the last digit of the sum, of which this is the first.
    LastDigit(u8),
}

/// Takes a stream byte by byte. It keeps the payload of one packet.
pub struct Receiver {
    part: Part,
    payload: Vec<u8>,
    sum: u8,
    is_long: bool,
}

impl Model for Receiver {
    ghost use Rattle.std.specs.Prelude.{◌≤◌, length};
    ghost use Rattle.brd_gdb.specs.Receiving.{ReceiverState, packet_size};

    ghost Value = { ReceiverState };

    ghost view = { λ receiver. record {
      part = receiver.part;
      payload = receiver.payload.items;
      sum = receiver.sum;
      is_long = receiver.is_long;
    } };

    ghost invariant = { λ receiver. length receiver.payload.items ≤ packet_size };
}

/// Written out, so that a function that lets one go is proved with a call, and not with the end of each part.
impl Drop for Receiver {
    fn drop(self) {
        let Receiver {
            part: _,
            payload: _,
            sum: _,
            is_long: _,
        } = self;
    }
}

impl Receiver {
    /// A receiver before a stream, with room for a payload.
    pub fn new(alloc: Global) -> Result<Receiver, NoMemory>
        ensures { IfOk result
            (λ r. r ≡ record { part = outside; payload = []; sum = 0; is_long = false }) }
    {
        Ok(Receiver {
            part: Part::Outside,
            payload: Vec::with_capacity(alloc, PACKET_SIZE)?,
            sum: 0,
            is_long: false,
        })
    }

    /// The payload of the packet that came last.
    pub fn payload(&self) -> &[u8]
        ensures is { result.now ≡ self.now.payload }
        ensures few { length result.now ≤ receiving.packet_size }
    {
        self.payload.as_slice()
    }

    /// Takes a byte, and answers what has come with it.
    pub fn take(&mut self, byte: u8) -> Result<Option<Arrival>, NoMemory>
        ensures next { OnOk result (self.new ≡ receiving.next self.old byte) }
        ensures arrival { IfOk result (λ arrival. arrival ≡ receiving.arrival self.old byte) }
    {
        match self.part {
            Part::Outside => Ok(self.outside(byte)),
            Part::Payload => {
                self.within(byte)?;
                Ok(None)
            }
            Part::Escape => {
                self.count(byte);
                self.part = Part::Payload;
                self.keep(byte ^ 0x20)?;
                Ok(None)
            }
            Part::Sum => {
                self.part = Part::LastDigit(byte);
                Ok(None)
            }
            Part::LastDigit(first) => {
                self.part = Part::Outside;
                Ok(Some(self.ended(first, byte)))
            }
        }
    }

    /// Takes a byte before a packet.
    fn outside(&mut self, byte: u8) -> Option<Arrival>
        ensures next { self.new ≡ receiving.next_in outside self.old byte }
        ensures arrival { result ≡ receiving.arrival_in outside self.old byte }
    {
        match byte {
            b'$' => {
                self.begin();
                None
            }
            b'+' => Some(Arrival::Accepted),
            b'-' => Some(Arrival::Refused),
            3 => Some(Arrival::Interrupt),
            _ => None,
        }
    }

    /// Takes a byte of a payload.
    fn within(&mut self, byte: u8) -> Result<(), NoMemory>
        ensures { OnOk result (self.new ≡ receiving.next_in payload self.old byte) }
    {
        if byte == b'$' {
            self.begin();
            return Ok(());
        }
        if byte == b'#' {
            self.part = Part::Sum;
            return Ok(());
        }
        self.count(byte);
        if byte == b'}' {
            self.part = Part::Escape;
            return Ok(());
        }
        self.part = Part::Payload;
        self.keep(byte)
    }

    /// Begins a packet.
    fn begin(&mut self)
        ensures { self.new ≡ receiving.begun }
    {
        self.part = Part::Payload;
        self.payload.clear();
        self.sum = 0;
        self.is_long = false;
    }

    /// Adds a byte to the sum.
    fn count(&mut self, byte: u8)
        ensures { self.new ≡ receiving.at self.old self.old.part byte }
    {
        self.sum = self.sum.wrapping_add(byte);
    }

    /// Keeps a byte of a payload, if there is room.
    fn keep(&mut self, byte: u8) -> Result<(), NoMemory>
        ensures { OnOk result (self.new ≡ receiving.kept self.old byte) }
    {
        if self.payload.len() < PACKET_SIZE {
            self.payload.push(byte)?;
        } else {
            self.is_long = true;
        }
        Ok(())
    }

    /// What the end of a packet means, of which these are the sum's digits.
    fn ended(&self, first: u8, last: u8) -> Arrival
        ensures { some result ≡ receiving.arrival_in (last_digit first) self.now last }
    {
        if !is_number(first, last, self.sum) {
            return Arrival::Damaged;
        }
        if self.is_long {
            Arrival::TooLong
        } else {
            Arrival::Packet
        }
    }
}

/// Whether two digits are this number.
fn is_number(high: u8, low: u8, number: u8) -> bool
    ensures { result ≡ receiving.is_number (hex_digit_value high) (hex_digit_value low) number }
{
    let (Some(high), Some(low)) = (hex_value(high), hex_value(low)) else {
        return false;
    };
    16 * high + low == number as u32
}
