//! `obliq`: checks, runs and replays Obliq sources. The words behind the program's name say what it does.
#![tactic(auto)]

use obq_io::{DiskFiles, PlainGate, Sink, StdSink, words_of};
use obq_run::obliq;
use std::io::Write;
use std::process::ExitCode;
use std::rt::{Env, Files};
use std::sync::Wait;
use std::thread;
use std::thread::{Builder, Threads};

/// Terms and trees are walked and freed part by part, so the stack bounds their depth. The system gives memory for as much of
/// it as is used.
const STACK_BYTES: usize = 1 << 30;

/// The status where there is no memory.
const NO_MEMORY: u8 = 6;

/// Tells that there is no memory, not even for the words or for a stack.
fn refuse<E: Write + Drop>(err: E) -> u8 {
    let _ = StdSink::new(err).write(b"no memory\n");
    NO_MEMORY
}

/// Does what the words of the command line say, and answers the status.
fn run<R, O, E>(rt: &R, out: O, err: E) -> u8
where
    R: Threads + Wait + Sync + Env + Files + AllocGlobal,
    O: Write + Drop,
    E: Write + Drop,
{
    let Ok(words) = words_of(rt) else {
        return refuse(err);
    };
    let end = obliq(
        rt,
        rt.alloc(),
        &words,
        &mut DiskFiles::new(rt),
        &mut StdSink::new(out),
        &mut StdSink::new(err),
        &PlainGate,
    );
    end.status
}

fn main(rt: HostRuntime) -> ExitCode {
    let (out, err) = (rt.stdout(), rt.stderr());
    let status = thread::scope(thread::scope_env(), &rt, |scope| {
        match Builder::new()
            .stack_size(STACK_BYTES)
            .spawn_scoped(scope, || run(&rt, out, err))
        {
            Ok(worker) => worker.join(&rt),
            Err(_) => refuse(err),
        }
    });
    ExitCode::from(status)
}
