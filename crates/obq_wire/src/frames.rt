//! Frames as packets, and packets as frames.

ghost use Rattle.std.specs.Prelude.{◌≡◌, ◌<◌, length, option_map, Ok, IfOk};
ghost use Rattle.obq_wire.specs.declared.packets.Packet.{Packet as Said};
ghost use Rattle.obq_wire.specs.Fits.{HasFields};
ghost use Rattle.obq_wire.specs.Frames.{Answers, CanBeSent, Spells, entry_place, frame_at, in_order};
ghost use Rattle.obq_wire.specs.Order.{misplaced};
ghost use Rattle.obq_wire.specs.Spelling.{table_of};

use crate::misplaced::{entries, first_misplaced};
use crate::packets::Packet;
use crate::read_packets::packet_of;
use crate::refusal::{Refused, WireRefused};
use crate::write_packets::{put_before_entries, put_behind_entries};
use crate::write_values::put_entries;
use obq_base::NoMemory;
use std::alloc::Global;

/// The first byte of an entry, by writing what stands before it.
fn place_of_entry(alloc: Global, packet: &Packet, k: usize) -> Result<u64, NoMemory>
    requires { k < length (table_of packet.now) }
    ensures { IfOk result (λ n. n ≡ entry_place packet.now k) }
{
    let mut before = Vec::new(alloc);
    put_before_entries(&mut before, packet)?;
    put_entries(&mut before, &entries(packet)[..k])?;
    Ok(before.len() as u64)
}

/// The first byte of the first entry that is misplaced.
fn misplaced_at(alloc: Global, packet: &Packet) -> Result<Option<u64>, NoMemory>
    requires { HasFields packet.now }
    ensures { IfOk result (λ n. n ≡ option_map (entry_place packet.now) (misplaced packet.now)) }
{
    match first_misplaced(alloc, packet)? {
        Some(k) => Ok(Some(place_of_entry(alloc, packet, k)?)),
        None => Ok(None),
    }
}

fn ordered(alloc: Global, packet: Packet) -> Result<Packet, WireRefused>
    requires { HasFields packet }
    ensures { Answers result (in_order packet (misplaced packet)) }
{
    match misplaced_at(alloc, &packet) {
        Ok(None) => Ok(packet),
        Ok(Some(place)) => {
            drop(packet);
            Err(WireRefused::BadFrame { place })
        }
        Err(_) => {
            drop(packet);
            Err(WireRefused::NoMemory)
        }
    }
}

#[tactic(auto, unfolding(crate::specs::Frames::frame_at))]
fn read_frame(alloc: Global, bytes: &[u8]) -> Result<Packet, WireRefused>
    ensures { Answers result (frame_at bytes.now) }
{
    match packet_of(alloc, bytes) {
        Err(Refused::NoMemory) => Err(WireRefused::NoMemory),
        Err(Refused::Bad { left }) => Err(WireRefused::BadFrame {
            place: bytes.len().saturating_sub(left) as u64,
        }),
        Ok((packet, rest)) => {
            if rest.is_empty() {
                return ordered(alloc, packet);
            }
            drop(packet);
            Err(WireRefused::BadFrame {
                place: bytes.len().saturating_sub(rest.len()) as u64,
            })
        }
    }
}

/// The packet of a frame. `BadFrame` comes exactly where the bytes are the frame of no packet, at the first field from the
/// left that is cut, out of its range, of the wrong kind or of a wrong index; or where there is none, at the first byte too
/// many; or else at the first entry of the table that has the number of an earlier one or isn't needed at its place. The
/// memory that it takes grows with the bytes, not with what they claim to hold.
pub fn decode(alloc: Global, bytes: &[u8]) -> Result<Packet, WireRefused>
    // What is read is what the bytes spell.
    ensures found { IfOk result (λ p. Spells bytes.now p) }
    // What the bytes spell is read, unless memory runs out.
    ensures only { (p : Said) → Spells bytes.now p → Answers result (Ok p) }
    // Where they go wrong.
    ensures place { Answers result (frame_at bytes.now) }
{
    read_frame(alloc, bytes)
}

/// The frame of a packet.
pub fn encode(alloc: Global, packet: &Packet) -> Result<Vec<u8>, NoMemory>
    requires { CanBeSent packet.now }
    ensures { IfOk result (λ frame. Spells frame.items packet.now) }
{
    let mut frame = Vec::new(alloc);
    put_before_entries(&mut frame, packet)?;
    put_entries(&mut frame, entries(packet))?;
    put_behind_entries(&mut frame, packet)?;
    Ok(frame)
}
