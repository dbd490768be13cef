//! Runs cases of the crates that the parts of a machine stand in, and prints what came of each. The files that the arguments name
//! have a case a line (`print_row` says what each is); what takes several calls one after another is written out in a module
//! of its crate. No call is proved to be right here: what is printed is compared with a stored file.
#![tactic(auto)]

mod alias;
mod builtin;
mod engine;
mod except;
mod heap;
mod link;
mod marshal;
mod namer;
mod objects;
mod samples;
mod serial;
mod terms;
mod thread;
mod watch;
mod wire;

use std::alloc::Global;
use std::{env, fs, io};

/// Runs a row of the file of this name: frames, bytes that are none, operators on values, built-ins on arguments, raisings within
/// frames, or values put into a term.
fn print_row(rt: &impl Print, alloc: Global, name: &str, row: &str) -> io::Result<()> {
    match name.as_bytes() {
        b"frames" => wire::print_frame(rt, alloc, row),
        b"faults" => wire::print_fault(rt, alloc, row),
        b"operators" => builtin::print_operator(rt, alloc, row),
        b"builtins" => builtin::print_call(rt, alloc, row),
        b"raisings" => except::print_raising(rt, alloc, row),
        b"puttings" => terms::print_putting(rt, alloc, row),
        _ => rt.println("no such file"),
    }
}

/// Runs the cases of one site's cells.
fn print_cells(rt: &impl Print, alloc: Global) -> io::Result<()> {
    heap::print_cases(rt, alloc)?;
    objects::print_cases(rt, alloc)?;
    alias::print_cases(rt, alloc)?;
    serial::print_cases(rt, alloc)?;
    watch::print_cases(rt, alloc)?;
    engine::print_cases(rt, alloc)
}

/// Runs the cases of what stands beside the cells: names, threads, lines, closures that travel, and depths of terms.
fn print_others(rt: &impl Print, alloc: Global) -> io::Result<()> {
    namer::print_cases(rt, alloc)?;
    thread::print_cases(rt, alloc)?;
    link::print_cases(rt, alloc)?;
    marshal::print_cases(rt, alloc)?;
    terms::print_depth(rt, alloc)
}

fn main(rt: HostRuntime) -> io::Result<()> {
    let alloc = rt.alloc();
    for name in env::args(&rt)?.skip(1) {
        let rows = fs::read_to_string(&rt, name.as_str())?;
        rt.println(name.as_str())?;
        for row in rows.trim_end_matches('\n').split('\n') {
            print_row(&rt, alloc, name.as_str(), row)?;
        }
        rt.println("")?;
    }
    print_cells(&rt, alloc)?;
    print_others(&rt, alloc)
}
