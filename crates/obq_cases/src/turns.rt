//! A run once more with few turns for each thread.

use crate::calls::{Call, Outcome};
use crate::rows::{outcome_of, output_and_journal};
use obq_run::{Cause, Entry, Journal};
use std::alloc::{AllocError, Global};
use std::io;
use std::sync::Wait;
use std::thread::Threads;

/// Threads of a run, ended ones included.
const THREADS: usize = 64;

/// The turns that an entry takes.
fn turns_of(entry: Entry) -> u32 {
    entry.pure.saturating_add(u32::from(entry.act.is_some()))
}

/// The turns of the thread that took most of them in this journal.
fn most_turns(alloc: Global, journal: &Journal) -> Result<u32, AllocError> {
    let mut taken = vec![in alloc; 0u32; THREADS]?;
    for entry in journal.entries() {
        if let Some(turns) = taken.get_mut(entry.thread as usize) {
            *turns = turns.saturating_add(turns_of(*entry));
        }
    }
    Ok(taken.iter().copied().max().unwrap_or(0))
}

/// Whether a run is replayed from the journal that it printed, to the same output and status.
fn is_replayed<R: Threads + Wait + Sync>(
    rt: &R,
    alloc: Global,
    call: &Call,
    found: &Outcome,
) -> io::Result<bool> {
    let (out, journal) = output_and_journal(found);
    let mut replay = call.replay(alloc)?;
    replay.add_bytes(1, journal.as_bytes())?;
    let again = outcome_of(rt, alloc, replay)?;
    let is_same = again.out.as_slice() == out.as_bytes() && again.end.status == found.end.status;
    Ok(is_same && again.end.cause == Cause::Replayed)
}

fn print_limit<R: Threads + Wait + Sync + Print>(
    rt: &R,
    alloc: Global,
    call: &Call,
    turns: u32,
) -> io::Result<()> {
    let found = outcome_of(rt, alloc, call.with_number(alloc, "--turns", turns)?)?;
    let (out, _) = output_and_journal(&found);
    let cause = &found.end.cause;
    let status = found.end.status;
    let is_same = is_replayed(rt, alloc, call, &found)?;
    println!(rt; "    {turns} turns: {cause:?}, status {status}, out {out:?}, replayed: {is_same}")
}

/// Prints how a run ends with 1 turn for each thread, with 2, with one less than the most that a thread took in this journal of it,
/// and with just that, and whether each journal is replayed.
pub fn print_limits<R: Threads + Wait + Sync + Print>(
    rt: &R,
    alloc: Global,
    call: &Call,
    journal: &Journal,
) -> io::Result<()> {
    let most = most_turns(alloc, journal)?;
    let least = most.saturating_sub(1);
    let mut last = 0;
    for turns in [least.min(1), least.min(2), least, most] {
        if turns > last {
            print_limit(rt, alloc, call, turns)?;
            last = turns;
        }
    }
    Ok(())
}
