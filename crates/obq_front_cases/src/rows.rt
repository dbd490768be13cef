//! The bytes of a row, and bytes as text.

use obq_base::NoMemory;
use percent_encoding::percent_decode;
use std::alloc::{AllocError, Global};
use std::{io, str};

pub fn out_of_memory(_error: NoMemory) -> io::Error {
    io::Error::from(io::ErrorKind::OutOfMemory)
}

/// What a row says, where `%` and two hexadecimal digits are one byte.
pub fn bytes_of(alloc: Global, row: &str) -> Result<Vec<u8>, AllocError> {
    let mut bytes = Vec::new(alloc);
    percent_decode(row.as_bytes()).append_to(&mut bytes)?;
    Ok(bytes)
}

fn append(source: &mut Vec<u8>, count: u32, piece: &[u8]) -> Result<(), AllocError> {
    for _ in 0..count {
        source.extend_from_slice(piece)?;
    }
    Ok(())
}

/// What a row of parts says, with `|` between two parts: a number, a space, and what stands so many times.
pub fn repeated(alloc: Global, row: &str) -> Result<Vec<u8>, AllocError> {
    let mut source = Vec::new(alloc);
    for part in row.split('|') {
        let (count, piece) = part.split_once(' ').unwrap_or(("0", ""));
        let piece = bytes_of(alloc, piece)?;
        append(&mut source, count.parse::<u32>().unwrap_or(0), &piece)?;
    }
    Ok(source)
}

pub fn text_of(bytes: &[u8]) -> &str {
    str::from_utf8(bytes).unwrap_or("no text")
}
