//! Journals and their texts.

use crate::rows::bytes_of;
use obq_base::{Entry, NoMemory};
use obq_journal::{Journal, JournalRefused, read_journal, write_journal};
use std::alloc::Global;
use std::io;

/// No longer text is read here.
const LONGEST: usize = 1_000;

/// Whether a journal is written as this text.
fn is_written_as(alloc: Global, journal: &Journal, text: &[u8]) -> Result<bool, NoMemory> {
    let written = write_journal(alloc, journal)?;
    Ok(written.as_slice() == text)
}

fn print_journal(
    rt: &impl Print,
    alloc: Global,
    row: &str,
    journal: &Journal,
    text: &[u8],
) -> io::Result<()> {
    let turns = journal.turns();
    let entries = journal.len();
    match is_written_as(alloc, journal, text) {
        Ok(true) => println!(rt; "{row}  =>  {turns} turns, {entries} entries, written so again"),
        Ok(false) => println!(rt; "{row}  =>  {turns} turns, {entries} entries, written otherwise"),
        Err(NoMemory) => println!(rt; "{row}  =>  no memory"),
    }
}

/// Texts, a line each, with the first bad line of each, or how long the journal is and whether it is written as that text
/// again.
pub fn print_texts(rt: &impl Print, alloc: Global, rows: &str) -> io::Result<()> {
    for row in rows.trim_end_matches('\n').split('\n') {
        let text = bytes_of(alloc, row)?;
        if text.len() > LONGEST {
            println!(rt; "{row}  =>  too long a text")?;
            continue;
        }
        match read_journal(alloc, &text) {
            Ok(journal) => print_journal(rt, alloc, row, &journal, &text)?,
            Err(JournalRefused::BadJournal { line }) => println!(rt; "{row}  =>  bad line {line}")?,
            Err(JournalRefused::NoMemory) => println!(rt; "{row}  =>  no memory")?,
        }
    }
    Ok(())
}

/// A journal of one entry.
pub fn print_built(rt: &impl Print, alloc: Global) -> io::Result<()> {
    let mut journal = Journal::new(alloc, 7);
    let is_reserved = journal.reserve().is_ok();
    let entry = Entry {
        thread: 0,
        pure: 1,
        act: None,
    };
    let is_pushed = journal.push(entry).is_ok();
    let turns = journal.turns();
    let entries = journal.len();
    let first = journal.get(0);
    let second = journal.get(1);
    println!(rt; "reserved {is_reserved}, pushed {is_pushed}: {turns} turns, {entries} entries")?;
    println!(rt; "    first {first:?}, second {second:?}")
}
