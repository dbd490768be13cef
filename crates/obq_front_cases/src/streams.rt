//! Files and sinks of the system, and in memory.

use crate::rows::{out_of_memory, text_of};
use obq_io::{
    DiskFiles, Files, MemFiles, MemSink, Sink, StdSink, read_file, write_pieces, write_text,
};
use std::alloc::Global;
use std::{io, rt};

/// A file of the system that is there and one that isn't, and a standard stream.
pub fn print_disk<R: rt::Files + Print>(rt: &R) -> io::Result<()> {
    let mut files = DiskFiles::new(rt);
    let mut into = [0u8; 2];
    let unbegun = files.read("held", &mut into);
    println!(rt; "held, not begun  =>  {unbegun:?}")?;
    let begun = files.begin("held");
    let read = files.read("held", &mut into);
    println!(rt; "held  =>  {begun:?}, {read:?} {into:?}")?;
    let begun = files.begin("none");
    let read = files.read("held", &mut into);
    println!(rt; "none  =>  {begun:?}, then held {read:?}")?;
    let mut sink = StdSink::new(io::sink());
    let written = sink.write(b"abc");
    println!(rt; "abc to a standard stream  =>  {written:?}")
}

/// A file in memory whose reading fails behind 8 calls, read up to limits, and a sink of 5 bytes.
pub fn print_memory(rt: &impl Print, alloc: Global) -> io::Result<()> {
    let held = (String::from_str(alloc, "held")?, b"abc".to_vec(alloc)?);
    let mut files = MemFiles::new(vec![in alloc; held]?, vec![in alloc; 8]?);
    for limit in [3, 2, 9] {
        let found = read_file(alloc, &mut files, "held", limit).map(|bytes| bytes.len());
        println!(rt; "abc in memory, up to {limit} bytes  =>  {found:?}")?;
    }
    let mut sink = MemSink::new(alloc, 5).map_err(out_of_memory)?;
    let pieces = write_pieces(&mut sink, &[b"ab", b"", b"cd"]);
    let text = write_text(&mut sink, b"ef");
    let bytes = text_of(sink.bytes());
    println!(rt; "ab, nothing and cd, then ef, to 5 bytes  =>  {pieces:?}, {text:?} {bytes:?}")
}
