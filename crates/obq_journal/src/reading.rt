//! A journal read from its text.

ghost use Rattle.std.specs.Prelude.{◌≡◌, ◌≤◌, length};
ghost use Rattle.obq_base.specs.declared.limits.TheConstants.{JOURNAL_LIMIT};
ghost use Rattle.obq_model.specs.JournalText.{journal_in};
ghost use Rattle.obq_journal.specs.Answers.{Answers, AnswersEntries};

use crate::journals::Journal;
use crate::lines::{entry_in, turns_in};
use crate::pieces::cut_at;
use obq_base::NoMemory;
use std::alloc::Global;

/// Why a text was not read as a journal.
#[derive(Clone, Copy, Debug, PartialEq, Eq)]
pub enum JournalRefused {
    /// The first bad line, from 1. A line without its end is bad, and so is the first or second line where it is missing.
    BadJournal { line: u32 },
    NoMemory,
}

impl From<NoMemory> for JournalRefused {
    ghost use Rattle.obq_journal.specs.declared.reading.JournalRefused.TheVariants as refused;

    ghost from_gives = { λ _ e. e ≡ refused.NoMemory };

    fn from(_error: NoMemory) -> JournalRefused {
        JournalRefused::NoMemory
    }
}

/// Reads entries to the end of the text, from the third line on.
fn read_entries(alloc: Global, turns: u32, text: &[u8]) -> Result<Journal, JournalRefused>
    requires { length text.now ≤ JOURNAL_LIMIT }
    ensures { AnswersEntries turns text.now result }
{
    let mut journal = Journal::new(alloc, turns);
    let mut rest = text;
    let mut line = 3;
    while !rest.is_empty() {
        let Some((words, behind)) = cut_at(rest, b'\n') else {
            return Err(JournalRefused::BadJournal { line });
        };
        let Some(entry) = entry_in(words) else {
            return Err(JournalRefused::BadJournal { line });
        };
        journal.push(entry)?;
        rest = behind;
        line += 1;
    }
    Ok(journal)
}

/// Reads the text of a journal, first form, version 1, in time that grows with its length.
pub fn read_journal(alloc: Global, text: &[u8]) -> Result<Journal, JournalRefused>
    requires { length text.now ≤ JOURNAL_LIMIT }
    ensures { Answers (journal_in text.now) result }
{
    let Some((first, behind)) = cut_at(text, b'\n') else {
        return Err(JournalRefused::BadJournal { line: 1 });
    };
    if first != b"obliq-journal 1".as_slice() {
        return Err(JournalRefused::BadJournal { line: 1 });
    }
    let Some((second, behind)) = cut_at(behind, b'\n') else {
        return Err(JournalRefused::BadJournal { line: 2 });
    };
    let Some(turns) = turns_in(second) else {
        return Err(JournalRefused::BadJournal { line: 2 });
    };
    read_entries(alloc, turns, behind)
}
