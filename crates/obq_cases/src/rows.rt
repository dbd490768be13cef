//! Cases as lines of text, and what came of them.

use crate::calls::{Call, Outcome, Shown};
use crate::changes::print_changes;
use crate::turns::print_limits;
use obq_base::NoMemory;
use obq_run::Journal;
use std::alloc::{AllocError, Global};
use std::sync::Wait;
use std::thread::Threads;
use std::{io, str};

/// The words of the sites of a row, with the paths of their sources.
const SITES: [(&str, &str); 2] = [("A=a", "a"), ("E=e", "e")];

fn text_of(bytes: &[u8]) -> &str {
    str::from_utf8(bytes).unwrap_or("no text")
}

/// What a run with its journal printed: its output, and the journal's text.
pub fn output_and_journal(found: &Outcome) -> (&str, &str) {
    let text = text_of(&found.out);
    text.split_once("== journal ==\n").unwrap_or((text, ""))
}

fn print_journal(rt: &impl Print, journal: &Journal) -> io::Result<()> {
    if journal.len() == 0 {
        return Ok(());
    }
    let turns = journal.turns();
    println!(rt; "    journal of {turns} turns")?;
    for k in 0..journal.len() {
        if let Some(entry) = journal.get(k) {
            println!(rt; "      {entry:?}")?;
        }
    }
    Ok(())
}

fn print_outcome(rt: &impl Print, found: &Outcome) -> io::Result<()> {
    let cause = &found.end.cause;
    let status = found.end.status;
    let out = text_of(&found.out);
    let err = text_of(&found.err);
    println!(rt; "    {cause:?}, status {status}")?;
    println!(rt; "    out {out:?}")?;
    println!(rt; "    err {err:?}")?;
    print_journal(rt, &found.end.journal)
}

/// Prints how a run with its journal ended, and what a replay of that journal comes to.
fn print_replay<R: Threads + Wait + Sync + Print>(
    rt: &R,
    alloc: Global,
    found: &Outcome,
    replay: Call,
) -> io::Result<()> {
    let cause = &found.end.cause;
    let status = found.end.status;
    let (out, journal) = output_and_journal(found);
    println!(rt; "    {cause:?}, status {status}")?;
    println!(rt; "    out {out:?}")?;
    let mut replay = replay;
    replay.add_bytes(1, journal.as_bytes())?;
    let again = outcome_of(rt, alloc, replay)?;
    let cause = &again.end.cause;
    let is_same = text_of(&again.out) == out && again.end.status == status;
    println!(rt; "    {cause:?}, same text and status: {is_same}")
}

/// Prints the entries of a run with its journal, as a line of a case has them.
fn print_entries(rt: &impl Print, alloc: Global, found: &Outcome) -> io::Result<()> {
    let (_, journal) = output_and_journal(found);
    let mut text = String::new(alloc);
    for (k, entry) in journal.lines().skip(2).enumerate() {
        if k > 0 {
            text.push_str(", ")?;
        }
        text.push_str(entry)?;
    }
    println!(rt; "    entries {text}")
}

/// What came of a run with its journal, which is printed as by `print_replay`.
fn played<R: Threads + Wait + Sync + Print>(
    rt: &R,
    alloc: Global,
    call: &Call,
) -> io::Result<Outcome> {
    let found = outcome_of(rt, alloc, call.copied(alloc)?)?;
    print_replay(rt, alloc, &found, call.replay(alloc)?)?;
    Ok(found)
}

/// Prints how a call ended over sinks that keep the number of bytes alone.
fn print_counted<R: Threads + Wait + Sync + Print>(
    rt: &R,
    alloc: Global,
    call: Call,
) -> io::Result<()> {
    let found = call.counted(rt, alloc);
    let cause = &found.end.cause;
    let status = found.end.status;
    let (out, err) = (found.out, found.err);
    let entries = found.end.journal.len();
    println!(rt; "    {cause:?}, status {status}")?;
    println!(rt; "    out {out} bytes, err {err} bytes, journal {entries} entries")
}

/// Prints how a call ended, and the number of its journal's entries.
fn print_brief(rt: &impl Print, found: &Outcome) -> io::Result<()> {
    let cause = &found.end.cause;
    let status = found.end.status;
    let entries = found.end.journal.len();
    let out = text_of(&found.out);
    let err = text_of(&found.err);
    println!(rt; "    {cause:?}, status {status}, journal {entries} entries")?;
    println!(rt; "    out {out:?}")?;
    println!(rt; "    err {err:?}")
}

/// Makes the call over files and sinks in memory.
pub fn outcome_of<R: Threads + Wait + Sync>(
    rt: &R,
    alloc: Global,
    call: Call,
) -> io::Result<Outcome> {
    match call.outcome(rt, alloc) {
        Ok(found) => Ok(found),
        Err(NoMemory) => Err(io::Error::from(io::ErrorKind::OutOfMemory)),
    }
}

/// Makes the call and prints what is to be shown of it.
pub fn print_call<R: Threads + Wait + Sync + Print>(
    rt: &R,
    alloc: Global,
    call: Call,
) -> io::Result<()> {
    match call.shown() {
        Shown::Whole => print_outcome(rt, &outcome_of(rt, alloc, call)?),
        Shown::Brief => print_brief(rt, &outcome_of(rt, alloc, call)?),
        Shown::Counted => print_counted(rt, alloc, call),
        Shown::Replayed => {
            let replay = call.replay(alloc)?;
            print_replay(rt, alloc, &outcome_of(rt, alloc, call)?, replay)
        }
        Shown::Limited => {
            let found = played(rt, alloc, &call)?;
            print_limits(rt, alloc, &call, &found.end.journal)
        }
        Shown::Changed => print_changes(rt, alloc, &call),
    }
}

/// The call of these words over these sources, with ` || ` between two, which are at the sites A and E, each behind the text
/// `before`.
fn call_of(alloc: Global, words: &[&str], before: &str, sources: &str) -> Result<Call, AllocError> {
    let mut call = Call::new(alloc);
    for word in words {
        call.add_word(alloc, word)?;
    }
    for ((word, path), source) in SITES.iter().zip(sources.split(" || ")) {
        call.add_word(alloc, word)?;
        call.add_file(alloc, path)?;
        call.add_bytes(1, before.as_bytes())?;
        call.add_bytes(1, source.as_bytes())?;
    }
    Ok(call)
}

/// Prints a row, a word and sources behind it (`call_of`). The word `acts` is of a run whose journal is printed and replayed, also
/// with few turns. Any other is a command: behind the row stand the status, and what `out` and `err` got.
pub fn print_row<R: Threads + Wait + Sync + Print>(
    rt: &R,
    alloc: Global,
    before: &str,
    row: &str,
) -> io::Result<()> {
    let (command, sources) = row.split_once(' ').unwrap_or((row, ""));
    if command == "acts" {
        rt.println(row)?;
        let call = call_of(alloc, &["run", "--journal"], before, sources)?;
        let found = played(rt, alloc, &call)?;
        print_entries(rt, alloc, &found)?;
        return print_limits(rt, alloc, &call, &found.end.journal);
    }
    let call = call_of(alloc, &[command], before, sources)?;
    let found = outcome_of(rt, alloc, call)?;
    let status = found.end.status;
    let out = text_of(&found.out);
    let err = text_of(&found.err);
    println!(rt; "{row}  =>  {status} {out:?} {err:?}")
}
