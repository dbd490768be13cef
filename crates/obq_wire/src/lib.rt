//! Frames: the bytes that sites send each other, and what they say.
#![tactic(auto)]

mod frames;
mod laws;
mod misplaced;
mod order;
mod packets;
mod parts;
mod read_packets;
mod read_values;
mod refusal;
mod tags;
mod values;
mod write_packets;
mod write_values;

pub use frames::{decode, encode};
pub use laws::{one_frame, one_packet, operations_have_their_numbers};
pub use packets::{Current, Operation, Outcome, Packet, Reply, Request, Wake};
pub use refusal::WireRefused;
pub use values::{TableEntry, TableMember, WireBody, WireField, WireValue};
