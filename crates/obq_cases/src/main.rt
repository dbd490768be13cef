//! Runs the cases of the files that the arguments name through `obliq`, over files and sinks in memory, and prints what came
//! of each. A file has blocks, with an empty line between each two. A block that begins with `call` is one case, a line for
//! each part of it (`Call::add_line`). Of any other block each line is a case (`print_row`); a first line that begins with
//! `before` has what stands before each source. Lines that begin with `#` are remarks.
#![tactic(auto)]

mod calls;
mod changes;
mod rows;
mod turns;

use crate::calls::Call;
use crate::rows::{print_call, print_row};
use std::alloc::Global;
use std::rt::{Env, Files};
use std::sync::Wait;
use std::thread::{Builder, Threads};
use std::{env, fs, io, thread};

/// The stack of the thread that runs the cases, as large as that of the program.
const STACK_BYTES: usize = 1 << 30;

/// Runs a block that is one case.
fn run_call<R: Threads + Wait + Sync + Print>(
    rt: &R,
    alloc: Global,
    block: &str,
) -> io::Result<()> {
    let mut call = Call::new(alloc);
    for line in block.split('\n') {
        let (word, rest) = line.split_once(' ').unwrap_or((line, ""));
        call.add_line(alloc, word, rest)?;
        rt.println(line)?;
    }
    print_call(rt, alloc, call)
}

/// Runs the cases that are a line each, with this text before each source.
fn run_rows<R: Threads + Wait + Sync + Print>(
    rt: &R,
    alloc: Global,
    before: &str,
    rows: &str,
) -> io::Result<()> {
    for row in rows.split('\n') {
        if !row.is_empty() && !row.starts_with("#") {
            print_row(rt, alloc, before, row)?;
        }
    }
    Ok(())
}

fn run_block<R: Threads + Wait + Sync + Print>(
    rt: &R,
    alloc: Global,
    block: &str,
) -> io::Result<()> {
    if block.starts_with("call") {
        return run_call(rt, alloc, block);
    }
    match block.strip_prefix("before ") {
        Some(rest) => {
            let (before, rows) = rest.split_once('\n').unwrap_or((rest, ""));
            println!(rt; "before {before}")?;
            run_rows(rt, alloc, before, rows)
        }
        None => run_rows(rt, alloc, "", block),
    }
}

/// Runs the cases of the files that the arguments name.
fn run_files<R: Threads + Wait + Sync + Print + Env + Files + AllocGlobal>(
    rt: &R,
) -> io::Result<()> {
    let alloc = rt.alloc();
    for path in env::args(rt)?.skip(1) {
        let text = fs::read_to_string(rt, path.as_str())?;
        for block in text.trim_end_matches('\n').split("\n\n") {
            run_block(rt, alloc, block)?;
            rt.println("")?;
        }
    }
    Ok(())
}

fn main(rt: HostRuntime) -> io::Result<()> {
    thread::scope(thread::scope_env(), &rt, |scope| {
        Builder::new()
            .stack_size(STACK_BYTES)
            .spawn_scoped(scope, || run_files(&rt))?
            .join(&rt)
    })
}
