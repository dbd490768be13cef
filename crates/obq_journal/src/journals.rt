//! The history of a run, as it grows.

ghost use Rattle.std.specs.Prelude.{◌≡◌, ◌≤◌, ◌++◌, ◌∷◌, [], IsOk, OnErr, OnOk, length, slice_get};
ghost use Rattle.obq_journal.specs.Recording.{shown};

use obq_base::{Entry, NoMemory};
use std::alloc::Global;
use std::marker::Model;

/// The history of a run: its turn limit, and its entries in order. Contracts see these and `spare`, the number of
/// entries that it has room for without taking memory.
#[derive(Debug, Drop)]
pub struct Journal {
    turns: u32,
    entries: Vec<Entry>,
}

impl Model for Journal {
    ghost use Rattle.std.specs.Prelude.{◌-◌};
    ghost use Rattle.std.specs.Vec.{vec_capacity, vec_len};
    ghost use Rattle.obq_journal.specs.Recording.{Recording};

    ghost Value = { Recording };

    ghost view = { λ j. record { turns = j.turns; entries = j.entries.items; spare = vec_capacity j.entries - vec_len j.entries } };
}

impl Journal {
    /// A journal without entries, of a run whose threads have this many turns. It takes no memory.
    pub fn new(alloc: Global, turns: u32) -> Journal
        ensures { shown result ≡ record { turns = turns; entries = [] } }
    {
        Journal {
            turns,
            entries: Vec::new(alloc),
        }
    }

    /// Appends an entry. It takes memory only where no entry is spare.
    pub fn push(&mut self, entry: Entry) -> Result<(), NoMemory>
        ensures ok { OnOk result (shown self.new ≡ record (shown self.old) { entries = self.old.entries ++ entry ∷ [] }) }
        ensures err { OnErr result (shown self.new ≡ shown self.old) }
        ensures sure { 1 ≤ self.old.spare → IsOk result }
    {
        self.entries.push(entry)?;
        Ok(())
    }

    /// Makes room for one entry more.
    pub fn reserve(&mut self) -> Result<(), NoMemory>
        ensures same { shown self.new ≡ shown self.old }
        ensures room { OnOk result (1 ≤ self.new.spare) }
    {
        self.entries.reserve(1)?;
        Ok(())
    }

    /// The limit on a thread's turns that the run had.
    pub fn turns(&self) -> u32
        ensures { result ≡ self.now.turns }
    {
        self.turns
    }

    /// The number of entries.
    pub fn len(&self) -> u64
        ensures { result ≡ length self.now.entries }
    {
        self.entries.len() as u64
    }

    /// The entry with this number, from 0; none past the end.
    pub fn get(&self, k: u64) -> Option<Entry>
        ensures { result ≡ slice_get self.now.entries k }
    {
        self.entries.get(k as usize).copied()
    }

    /// All entries in order.
    pub fn entries(&self) -> &[Entry]
        ensures { result.now ≡ self.now.entries }
    {
        &self.entries
    }
}
