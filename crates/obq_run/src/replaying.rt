//! A journal that the plain machine takes entry by entry.

ghost use Rattle.std.specs.Prelude.{◌≡◌, ◌≤◌, MatchResult, length, map};
ghost use Rattle.obq_base.specs.View.{block_tree};
ghost use Rattle.obq_base.specs.declared.limits.TheConstants.{JOURNAL_LIMIT};
ghost use Rattle.obq_run.specs.Played.{IsReplayed, TakesAll, TextRefusal};

use crate::ends::Cause;
use crate::outcome::outcome_of;
use crate::playing::Played;
use obq_base::{Block, Entry};
use obq_journal::{JournalRefused, read_journal};
use obq_plain::{PlainRun, TakeRefused};
use std::alloc::Global;

/// Why entries were not taken.
#[derive(Clone, Copy, Debug, PartialEq, Eq)]
pub enum EntriesRefused {
    /// The first that isn't legal, from 0.
    NotLegal { entry: u64 },
    NoMemory,
}

/// Takes entries one after the other.
fn take_entries(
    alloc: Global,
    machine: &mut PlainRun,
    entries: &[Entry],
) -> Result<(), EntriesRefused>
    ensures { TakesAll machine.old entries.now result machine.new }
{
    for (i, entry) in entries.iter().enumerate() {
        match machine.take(alloc, *entry) {
            Ok(()) => {}
            Err(TakeRefused::NotLegal { why: _ }) => {
                return Err(EntriesRefused::NotLegal { entry: i as u64 });
            }
            Err(TakeRefused::NoMemory) => return Err(EntriesRefused::NoMemory),
        }
    }
    Ok(())
}

/// Reads the text of a journal and takes its entries over the blocks, until no thread can go on.
pub fn replay_text(alloc: Global, blocks: &[Block], text: &[u8]) -> Result<Played, Cause>
    requires blocks { length blocks.now ≤ 16 }
    requires text { length text.now ≤ JOURNAL_LIMIT }
    ensures { MatchResult result (IsReplayed (map block_tree blocks.now) text.now) (TextRefusal (map block_tree blocks.now) text.now) }
{
    let journal = match read_journal(alloc, text) {
        Ok(journal) => journal,
        Err(JournalRefused::BadJournal { line }) => return Err(Cause::BadJournal { line }),
        Err(JournalRefused::NoMemory) => return Err(Cause::NoMemory),
    };
    let Ok(mut machine) = PlainRun::begin(alloc, blocks, journal.turns()) else {
        return Err(Cause::NoMemory);
    };
    match take_entries(alloc, &mut machine, journal.entries()) {
        Ok(()) => {}
        Err(EntriesRefused::NotLegal { entry }) => return Err(Cause::NotLegal { entry }),
        Err(EntriesRefused::NoMemory) => return Err(Cause::NoMemory),
    }
    match machine.first_able(alloc) {
        Ok(None) => {}
        Ok(Some(thread)) => return Err(Cause::Unfinished { thread }),
        Err(_) => return Err(Cause::NoMemory),
    }
    match outcome_of(alloc, &machine) {
        Ok(outcome) => Ok(Played { outcome, journal }),
        Err(_) => Err(Cause::NoMemory),
    }
}
