//! Running and suspended segments of threads, and their endings.

use crate::samples::{kept, tell};
use obq_base::{NoMemory, SiteId, ThreadId, Value};
use obq_thread::{Ended, Segment, Threads};
use std::alloc::Global;
use std::io;

const ONE: ThreadId = ThreadId(1);

const TWO: ThreadId = ThreadId(2);

fn window(threads: &Threads<u32>, thread: ThreadId) -> Option<u32> {
    threads.running(thread).map(|segment| segment.window)
}

fn answers(threads: &Threads<u32>, thread: ThreadId) -> Option<u64> {
    match threads.running(thread) {
        Some(
            Segment {
                answers: Some((_, call)),
                ..
            },
        ) => Some(*call),
        _ => None,
    }
}

fn ending(threads: &Threads<u32>, thread: ThreadId) -> Option<i64> {
    match threads.ended(thread) {
        Some(Ended::Value(Value::Int(n))) => Some(*n),
        _ => None,
    }
}

/// Gives the running segment, if there is one, this window.
fn set(threads: &mut Threads<u32>, thread: ThreadId, window: u32) -> Option<u32> {
    match threads.running(thread) {
        Some(_) => Some(threads.set(thread, window)),
        None => None,
    }
}

/// Suspends the running segment, if there is one, and else answers a number that no call has here.
fn suspend(threads: &mut Threads<u32>, thread: ThreadId) -> Result<u64, NoMemory> {
    match threads.running(thread) {
        Some(_) => threads.suspend(thread),
        None => Ok(99),
    }
}

fn finished(threads: &mut Threads<u32>, thread: ThreadId) -> Option<u32> {
    threads.finish(thread).map(|segment| segment.window)
}

/// Thread 1 runs in window 10; the one segment of thread 2 that was suspended has window 20, the other 21.
fn two_suspended(threads: &mut Threads<u32>) -> Result<(u64, u64), NoMemory> {
    threads.start(TWO, 20, Some((SiteId(3), 7)))?;
    threads.start(ONE, 10, None)?;
    let first = suspend(threads, TWO)?;
    threads.start(TWO, 21, None)?;
    let second = suspend(threads, TWO)?;
    Ok((first, second))
}

fn print_resumed(rt: &impl Print, threads: &mut Threads<u32>, calls: (u64, u64)) -> io::Result<()> {
    let (first, second) = calls;
    tell(rt, "resume the first", threads.resume(first))?;
    tell(rt, "window of thread 2", window(threads, TWO))?;
    tell(rt, "the call that it answers", answers(threads, TWO))?;
    tell(rt, "resume the first again", threads.resume(first))?;
    tell(rt, "finish", finished(threads, TWO))?;
    tell(rt, "resume the second", threads.resume(second))?;
    tell(rt, "window of thread 2", window(threads, TWO))
}

pub fn print_cases(rt: &impl Print, alloc: Global) -> io::Result<()> {
    rt.println("thread")?;
    let mut threads: Threads<u32> = Threads::new(alloc, SiteId(0));
    let calls = kept(two_suspended(&mut threads))?;
    tell(
        rt,
        "window of thread 2, suspended twice",
        window(&threads, TWO),
    )?;
    tell(rt, "the two calls have one number", calls.0 == calls.1)?;
    tell(
        rt,
        "window of thread 1 := 11, before",
        set(&mut threads, ONE, 11),
    )?;
    tell(rt, "window of thread 1", window(&threads, ONE))?;
    print_resumed(rt, &mut threads, calls)?;
    kept(threads.end(ONE, Ended::Value(Value::Int(5))))?;
    tell(rt, "ending of thread 1", ending(&threads, ONE))?;
    tell(rt, "ending of thread 2", ending(&threads, TWO))?;
    rt.println("")
}
