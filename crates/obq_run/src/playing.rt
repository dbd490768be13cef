//! A run of a program by the plain machine, one thread after the other.

ghost use Rattle.std.specs.Prelude.{◌≡◌, ◌≤◌, ◌++◌, ◌∷◌, [], IfOk, OnOk, Some, length, map};
ghost use Rattle.obq_base.specs.View.{block_tree};
ghost use Rattle.obq_journal.specs.Recording.{shown};
ghost use Rattle.obq_model.specs.Config.{Config};
ghost use Rattle.obq_model.specs.Replay.{take_entry};
ghost use Rattle.obq_run.specs.Played.{IsRun};

use crate::outcome::{Outcome, outcome_of};
use obq_base::{Block, Entry, NoMemory};
use obq_journal::Journal;
use obq_plain::{PlainRun, TakeRefused};
use std::alloc::Global;

/// How many pure steps a thread does at most before another has its turn.
pub const SLICE: u32 = 1000;

/// What a run came to in which no thread can go on, and the journal that led there.
#[derive(Drop)]
pub struct Played {
    pub outcome: Outcome,
    pub journal: Journal,
}

/// Does what an entry says, and notes it.
fn do_entry(
    alloc: Global,
    machine: &mut PlainRun,
    journal: &mut Journal,
    entry: Entry,
) -> Result<(), NoMemory>
    requires { (k : Config) × (take_entry machine.old.turns machine.old.config entry ≡ Some k) }
    ensures took { OnOk result (take_entry machine.old.turns machine.old.config entry ≡ Some machine.new.config) }
    ensures sites { OnOk result (machine.new.sites ≡ machine.old.sites) }
    ensures turns { OnOk result (machine.new.turns ≡ machine.old.turns) }
    ensures noted { OnOk result (shown journal.new ≡ record (shown journal.old) { entries = journal.old.entries ++ entry ∷ [] }) }
{
    match machine.take(alloc, entry) {
        Ok(()) => {}
        Err(TakeRefused::NotLegal { why: _ }) => unreachable!(),
        Err(TakeRefused::NoMemory) => return Err(NoMemory),
    }
    journal.push(entry)?;
    Ok(())
}

/// Runs the blocks until no thread can go on. Threads that can go on take turns, in the order of their
/// numbers.
pub fn play(alloc: Global, blocks: &[Block], turns: u32) -> Result<Played, NoMemory>
    requires { length blocks.now ≤ 16 }
    ensures { IfOk result (IsRun (map block_tree blocks.now) turns) }
{
    let mut machine = PlainRun::begin(alloc, blocks, turns)?;
    let mut journal = Journal::new(alloc, turns);
    let mut next = 0;
    for _ in 0..u64::MAX {
        match machine.next_entry(alloc, next, SLICE)? {
            Some(entry) => {
                do_entry(alloc, &mut machine, &mut journal, entry)?;
                next = entry.thread.saturating_add(1);
            }
            None => {
                let outcome = outcome_of(alloc, &machine)?;
                return Ok(Played { outcome, journal });
            }
        }
    }
    // A thread has a limit of turns, and there are at most 64: no run has so many entries.
    Err(NoMemory)
}
