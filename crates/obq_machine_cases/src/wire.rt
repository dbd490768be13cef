//! Frames: read and written back, cut, made longer, and with one byte changed.

use crate::samples::kept;
use obq_base::NoMemory;
use obq_wire::{WireRefused, decode, encode};
use std::alloc::{AllocError, Global};
use std::io;

/// How many cases of one kind are as they should be, and how many aren't.
#[derive(Clone, Copy)]
struct Count {
    agree: u64,
    differ: u64,
}

impl Count {
    fn new() -> Count {
        Count {
            agree: 0,
            differ: 0,
        }
    }

    fn add(&mut self, agrees: bool) {
        if agrees {
            self.agree = self.agree.wrapping_add(1);
        } else {
            self.differ = self.differ.wrapping_add(1);
        }
    }
}

fn digit(c: u8) -> u8 {
    match c {
        b'0'..=b'9' => c - b'0',
        b'a'..=b'f' => c - b'a' + 10,
        _ => 0,
    }
}

/// The bytes with these hexadecimal digits.
pub fn bytes_of(alloc: Global, digits: &str) -> Result<Vec<u8>, AllocError> {
    let mut bytes = Vec::new(alloc);
    let mut high = None;
    for c in digits.bytes() {
        match high {
            None => high = Some(digit(c)),
            Some(h) => {
                bytes.push(digit(c) | (h << 4))?;
                high = None;
            }
        }
    }
    Ok(bytes)
}

/// Whether what is read is written back as it was, or where nothing is, the place is none behind the end.
fn agrees(alloc: Global, bytes: &[u8]) -> Result<bool, NoMemory> {
    match decode(alloc, bytes) {
        Ok(packet) => Ok(encode(alloc, &packet)?.as_slice() == bytes),
        Err(WireRefused::BadFrame { place }) => Ok(place <= bytes.len() as u64),
        Err(WireRefused::NoMemory) => Err(NoMemory),
    }
}

fn is_refused(alloc: Global, bytes: &[u8]) -> bool {
    matches!(decode(alloc, bytes), Err(WireRefused::BadFrame { .. }))
}

/// How many of the shorter ones are refused.
fn shorter(alloc: Global, bytes: &[u8]) -> Count {
    let mut count = Count::new();
    for at in 0..bytes.len() {
        count.add(is_refused(alloc, &bytes[..at]));
    }
    count
}

fn agrees_changed(alloc: Global, bytes: &[u8], at: usize, value: u8) -> Result<bool, NoMemory> {
    let mut changed = Vec::from_slice(alloc, bytes)?;
    if let Some(byte) = changed.get_mut(at) {
        *byte = value;
    }
    agrees(alloc, changed.as_slice())
}

/// How many of those agree that have one byte as 0, 1, 255 or one more.
fn changed(alloc: Global, bytes: &[u8]) -> Result<Count, NoMemory> {
    let mut count = Count::new();
    for at in 0..bytes.len() {
        for value in [0, 1, 255, bytes[at].wrapping_add(1)] {
            count.add(agrees_changed(alloc, bytes, at, value)?);
        }
    }
    Ok(count)
}

/// Prints what came of a frame, of each shorter one, of one that is a byte longer, and of those with one byte changed.
pub fn print_frame(rt: &impl Print, alloc: Global, digits: &str) -> io::Result<()> {
    let mut bytes = bytes_of(alloc, digits)?;
    let read = !is_refused(alloc, &bytes);
    let same = kept(agrees(alloc, &bytes))?;
    let cut = shorter(alloc, &bytes);
    let near = kept(changed(alloc, &bytes))?;
    bytes.push(0)?;
    let longer = is_refused(alloc, &bytes);
    println!(rt; "{digits}")?;
    println!(rt; "    read {read}, written back as it was {same}, a longer one refused {longer}")?;
    println!(rt;
        "    shorter ones refused {}, not refused {}",
        cut.agree, cut.differ
    )?;
    println!(rt;
        "    with one byte changed, those that agree {}, that don't {}",
        near.agree, near.differ
    )
}

/// Prints why these bytes, `-` for none, are no frame.
pub fn print_fault(rt: &impl Print, alloc: Global, digits: &str) -> io::Result<()> {
    let bytes = bytes_of(alloc, digits)?;
    let refused = decode(alloc, &bytes).err();
    println!(rt; "{digits}  =>  {refused:?}")
}
