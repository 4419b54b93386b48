//! GDB's remote serial protocol: packets within a stream of bytes, the requests that they make, and what replies are
//! made of.
//!
//! `specs/Grammar.antt` says which packet makes which request, `specs/Packets.antt` how a packet is framed, and
//! `specs/Receiving.antt` what comes with each byte of a stream.
#![tactic(auto)]

mod actions;
mod description;
mod digits;
pub mod laws;
mod monitor;
mod packet;
mod parts;
mod reading;
mod receiver;
mod request;

pub use description::{features, put_slice};
pub use digits::put_hex;
pub use packet::{put_output, put_packet};
pub use reading::request_of;
pub use receiver::{Arrival, PACKET_SIZE, Receiver};
pub use request::{MarkName, Monitor, Move, PointKind, Request, ThreadId, ThreadKind};
