//! The plain machine as a whole: a configuration of the definition, and what journals do to it.

ghost use Rattle.std.specs.Prelude.{IfOk, MatchOption, None, Some, length, map, slice_get, ◌≡◌, ◌≤◌};
ghost use Rattle.obq_base.specs.View.{block_tree};
ghost use Rattle.obq_model.specs.Opening.{opening};
ghost use Rattle.obq_model.specs.Replay.{first_able, output, report};
ghost use Rattle.obq_plain.specs.PlainStates.{NextCases, TakeCases};
ghost use Rattle.obq_plain.specs.Threads.{machine_of};

use crate::machine::Machine;
use crate::refusals::TakeRefused;
use obq_base::{Block, Entry, NoMemory, Report};
use std::alloc::Global;
use std::marker::Model;

/// A run on the plain machine: the one store and its threads, with the number of sites and the limit on a thread's turns.
#[derive(Drop)]
pub struct PlainRun {
    machine: Machine,
    sites: u16,
    turns: u32,
}

impl Model for PlainRun {
    ghost use Rattle.std.specs.Prelude.{length, ◌≤◌};
    ghost use Rattle.obq_plain.specs.PlainStates.{PlainState, plain_code};

    ghost Value = { PlainState };

    ghost coded = { plain_code };

    ghost use Rattle.obq_plain.specs.Threads.{machine_of};

    ghost view = { λ r. record { config = machine_of r.machine; sites = r.sites; turns = r.turns } };

    ghost invariant = { λ r. length r.machine.threads.items ≤ 64 };
}

impl PlainRun {
    /// The configuration that a program of these blocks opens as, block k at site k.
    pub fn begin(alloc: Global, blocks: &[Block], turns: u32) -> Result<PlainRun, NoMemory>
        requires { length blocks.now ≤ 16 }
        ensures config { IfOk result (λ r. r.config ≡ opening (map block_tree blocks.now)) }
        ensures sites { IfOk result (λ r. r.sites ≡ length blocks.now) }
        ensures turns { IfOk result (λ r. r.turns ≡ turns) }
    {
        let machine = Machine::begin(alloc, blocks)?;
        Ok(PlainRun {
            machine,
            sites: blocks.len() as u16,
            turns,
        })
    }

    /// Does what an entry says, where it is legal.
    pub fn take(&mut self, alloc: Global, entry: Entry) -> Result<(), TakeRefused>
        ensures { TakeCases self.old entry result self.new }
    {
        self.machine.take(alloc, self.turns, entry)
    }

    /// The first thread that is able: none exactly where every thread has ended, waits or has spent its turns.
    pub fn first_able(&self, alloc: Global) -> Result<Option<u32>, NoMemory>
        ensures { IfOk result (λ t. t ≡ first_able self.now.turns self.now.config) }
    {
        self.machine.first_able(alloc, self.turns)
    }

    /// What an able thread does next, looked for from thread `from` on and then from the first one on: at most `most` pure steps, and then its act, if one
    /// stands there that doesn't wait and a turn is left. None exactly where no thread is able.
    pub fn next_entry(&self, alloc: Global, from: u32, most: u32) -> Result<Option<Entry>, NoMemory>
        requires { 1 ≤ most }
        ensures { IfOk result (λ e. NextCases self.now e) }
    {
        self.machine.next_entry(alloc, self.turns, from, most)
    }

    /// What was written at a site; none exactly where there is no such site.
    pub fn output(&self, site: u16) -> Option<&[u8]>
        ensures { MatchOption result (slice_get (output self.now.sites self.now.config) site ≡ None) (λ bytes. slice_get (output self.now.sites self.now.config) site ≡ Some bytes.now) }
    {
        self.machine.output(self.sites, site)
    }

    /// How many threads have ended by a value, ended by an exception, wait, or have spent their turns.
    pub fn report(&self) -> Report
        ensures { result ≡ report self.now.turns self.now.config }
    {
        self.machine.report(self.turns)
    }

    /// The machine.
    pub(crate) fn machine(&self) -> &Machine
        ensures config { machine_of result.now ≡ self.now.config }
        ensures few { length result.now.threads.items ≤ 64 }
    {
        &self.machine
    }

    /// The number of sites.
    pub fn sites(&self) -> u16
        ensures { result ≡ self.now.sites }
    {
        self.sites
    }

    /// The limit on a thread's turns.
    pub fn turns(&self) -> u32
        ensures { result ≡ self.now.turns }
    {
        self.turns
    }
}
