//! A journal written as its text.

ghost use Rattle.std.specs.Prelude.{◌≡◌, ◌++◌, IfOk, OnOk};
ghost use Rattle.obq_model.specs.JournalText.{act_words, entry_line, journal_text};
ghost use Rattle.obq_journal.specs.Recording.{shown};

use crate::journals::Journal;
use crate::kinds::kind_name;
use itoa::Buffer;
use obq_base::{Act, Entry, NoMemory};
use std::alloc::Global;

/// Appends an act with its location, or `-`.
fn write_act(text: &mut Vec<u8>, act: Option<Act>) -> Result<(), NoMemory>
    ensures { OnOk result (text.new.items ≡ text.old.items ++ act_words act) }
{
    let Some(act) = act else {
        text.extend_from_slice(b"-")?;
        return Ok(());
    };
    let mut loc = Buffer::new();
    text.extend_from_slice(kind_name(act.kind))?;
    text.extend_from_slice(b" ")?;
    text.extend_from_slice(loc.format(act.loc).as_bytes())?;
    Ok(())
}

/// Appends the line of an entry.
fn write_entry(text: &mut Vec<u8>, entry: Entry) -> Result<(), NoMemory>
    ensures { OnOk result (text.new.items ≡ text.old.items ++ entry_line entry) }
{
    let mut number = Buffer::new();
    text.extend_from_slice(number.format(entry.thread).as_bytes())?;
    text.extend_from_slice(b" ")?;
    text.extend_from_slice(number.format(entry.pure).as_bytes())?;
    text.extend_from_slice(b" ")?;
    write_act(text, entry.act)?;
    text.extend_from_slice(b"\n")?;
    Ok(())
}

/// The text of a journal, first form, version 1.
pub fn write_journal(alloc: Global, j: &Journal) -> Result<Vec<u8>, NoMemory>
    ensures { IfOk result (λ text. text.items ≡ journal_text (shown j.now)) }
{
    let mut number = Buffer::new();
    let mut text = Vec::from_slice(alloc, b"obliq-journal 1\nturns ")?;
    text.extend_from_slice(number.format(j.turns()).as_bytes())?;
    text.extend_from_slice(b"\n")?;
    for entry in j.entries() {
        write_entry(&mut text, *entry)?;
    }
    Ok(text)
}
