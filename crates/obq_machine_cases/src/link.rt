//! Lines of frames from one site to another.

use crate::samples::{kept, tell};
use obq_base::NoMemory;
use obq_link::Line;
use std::alloc::Global;
use std::io;

fn post(alloc: Global, line: &mut Line, bytes: &[u8]) -> Result<(), NoMemory> {
    line.post(Vec::from_slice(alloc, bytes)?)
}

fn print_taken(rt: &impl Print, line: &mut Line) -> io::Result<()> {
    match line.take() {
        Some(frame) => tell(rt, "take", frame.as_slice()),
        None => rt.println("take  =>  none"),
    }
}

fn print_first(rt: &impl Print, line: &Line) -> io::Result<()> {
    tell(rt, "length", line.len())?;
    match line.first() {
        Some(frame) => tell(rt, "first", frame),
        None => rt.println("first  =>  none"),
    }
}

pub fn print_cases(rt: &impl Print, alloc: Global) -> io::Result<()> {
    rt.println("link")?;
    let mut line = Line::new(alloc);
    print_first(rt, &line)?;
    print_taken(rt, &mut line)?;
    rt.println("post [1], [2, 3] and []")?;
    kept(post(alloc, &mut line, &[1]))?;
    kept(post(alloc, &mut line, &[2, 3]))?;
    kept(post(alloc, &mut line, &[]))?;
    print_first(rt, &line)?;
    print_taken(rt, &mut line)?;
    print_first(rt, &line)?;
    print_taken(rt, &mut line)?;
    rt.println("post [4]")?;
    kept(post(alloc, &mut line, &[4]))?;
    print_first(rt, &line)?;
    print_taken(rt, &mut line)?;
    print_taken(rt, &mut line)?;
    print_first(rt, &line)?;
    print_taken(rt, &mut line)?;
    rt.println("")
}
