//! A machine that runs a journal, with its sites beside it.

ghost use Rattle.std.specs.Prelude.{IfOk, OnOk, slice_get, ◌≡◌};
ghost use Rattle.obq_links.specs.Sited.{numbers_of, with_replies};
ghost use Rattle.obq_model.specs.Located as model;
ghost use Rattle.obq_model.specs.Replay as replay;
ghost use Rattle.obq_plain.specs.Following.{acted_behind, all_followed, followed, followed_behind, followed_from, kept_behind, running_term, steps_on, taken, when};
ghost use Rattle.obq_plain.specs.Threads.{machine_of};

use crate::activations::activations_of;
use crate::machine::Machine;
use crate::places::place_next;
use crate::plain::PlainRun;
use crate::refusals::TakeRefused;
use crate::taking::pure_step;
use crate::threads::Execution;
use obq_base::{Entry, NoMemory};
use obq_links::{Numbers, Sites, Trail};
use obq_terms::{Term, copy_term};
use std::alloc::Global;

impl Machine {
    /// The term of a thread, if it runs.
    fn running(&self, alloc: Global, thread: u32) -> Result<Option<Term>, NoMemory>
        ensures { IfOk result (λ term. term ≡ running_term (slice_get (machine_of self.now).threads thread)) }
    {
        let Some(state) = self.threads.get(thread as usize) else {
            return Ok(None);
        };
        match &state.execution {
            Execution::Running(term) => {
                let term = copy_term(alloc, term)?;
                Ok(Some(term))
            }
            Execution::Returned(_) | Execution::Failed(_) => Ok(None),
        }
    }

    /// How many activations a thread has.
    fn thread_activations(&self, thread: u32) -> Result<u64, NoMemory>
        ensures { IfOk result (λ count. count ≡ model.thread_activations (machine_of self.now) thread) }
    {
        let Some(state) = self.threads.get(thread as usize) else {
            return Ok(0);
        };
        match &state.execution {
            Execution::Running(term) => activations_of(term),
            Execution::Returned(_) | Execution::Failed(_) => Ok(0),
        }
    }

    /// How many cells and threads there are, with so many activations.
    fn numbers(&self, activations: u64) -> Numbers
        ensures { result ≡ numbers_of (machine_of self.now) activations }
    {
        Numbers {
            cells: self.store.len() as u64,
            threads: self.threads.len() as u64,
            activations,
        }
    }
}

/// The term behind so many pure steps, if there are so many. A closure that is called is where its caller is.
fn steps_on(
    alloc: Global,
    sites: &mut Sites,
    trail: &mut Trail,
    term: Term,
    count: u32,
) -> Result<Option<Term>, NoMemory>
    ensures last { IfOk result (λ last. last ≡ replay.after_pure count term) }
    ensures trail { OnOk result (trail.new ≡ (steps_on count term (trail.old, sites.old.replies)).0) }
    ensures sites { OnOk result (sites.new ≡ with_replies (steps_on count term (trail.old, sites.old.replies)).1 sites.old) }
{
    let mut term = term;
    let mut before = activations_of(&term)?;
    for _ in 0..count {
        let found = pure_step(alloc, term)?;
        let Some(next) = found else {
            return Ok(None);
        };
        let after = activations_of(&next)?;
        let here = trail.here();
        sites.turn(trail, here, before, after)?;
        term = next;
        before = after;
    }
    Ok(Some(term))
}

/// Does what an entry says, and tells whether it is legal.
fn take(run: &mut PlainRun, alloc: Global, entry: Entry) -> Result<bool, NoMemory>
    ensures { IfOk result (λ legal. taken run.old entry ≡ when legal run.new) }
{
    match run.take(alloc, entry) {
        Ok(()) => Ok(true),
        Err(TakeRefused::NotLegal { .. }) => Ok(false),
        Err(TakeRefused::NoMemory) => Err(NoMemory),
    }
}

/// A plain machine with its sites beside it.
#[derive(Drop)]
pub(crate) struct Following {
    pub run: PlainRun,
    pub sites: Sites,
}

impl Following {
    /// An entry without an act, whose thread has this trail behind its pure steps. Tells whether it is legal.
    fn keep(&mut self, alloc: Global, entry: Entry, trail: Trail) -> Result<bool, NoMemory>
        ensures { IfOk result (λ legal. kept_behind self.old.run self.old.sites entry trail ≡ when legal (self.new.run, self.new.sites)) }
    {
        let legal = take(&mut self.run, alloc, entry)?;
        self.sites.keep(entry.thread, trail);
        Ok(legal)
    }

    /// An entry with an act, whose thread has this term and this trail behind its pure steps. Tells whether it is legal.
    fn act(
        &mut self,
        alloc: Global,
        entry: Entry,
        term: Term,
        trail: Trail,
    ) -> Result<bool, NoMemory>
        ensures { IfOk result (λ legal. acted_behind self.old.run self.old.sites entry term trail ≡ when legal (self.new.run, self.new.sites)) }
    {
        let activations = activations_of(&term)?;
        let before = self.run.machine().numbers(activations);
        let place = place_next(alloc, term)?;
        let there = self.sites.site_at(trail.here(), place);
        let legal = take(&mut self.run, alloc, entry)?;
        let activations = self.run.machine().thread_activations(entry.thread)?;
        let after = self.run.machine().numbers(activations);
        self.sites
            .act(alloc, entry.thread, trail, there, before, after)?;
        Ok(legal)
    }

    /// An entry whose thread has this term and this trail behind its pure steps. Tells whether it is legal.
    fn behind(
        &mut self,
        alloc: Global,
        entry: Entry,
        term: Term,
        trail: Trail,
    ) -> Result<bool, NoMemory>
        ensures { IfOk result (λ legal. followed_behind self.old.run self.old.sites entry entry.act term trail ≡ when legal (self.new.run, self.new.sites)) }
    {
        match entry.act {
            None => {
                drop(term);
                self.keep(alloc, entry, trail)
            }
            Some(_) => self.act(alloc, entry, term, trail),
        }
    }

    /// An entry whose thread has this term before it. Tells whether it is legal.
    fn from(&mut self, alloc: Global, entry: Entry, term: Term) -> Result<bool, NoMemory>
        ensures { IfOk result (λ legal. followed_from self.old.run self.old.sites entry term ≡ when legal (self.new.run, self.new.sites)) }
    {
        let mut trail = self.sites.trail(alloc, entry.thread)?;
        let last = steps_on(alloc, &mut self.sites, &mut trail, term, entry.pure)?;
        let Some(term) = last else {
            drop(trail);
            return Ok(false);
        };
        self.behind(alloc, entry, term, trail)
    }

    /// Does what an entry says, and tells whether it is legal.
    fn take(&mut self, alloc: Global, entry: Entry) -> Result<bool, NoMemory>
        ensures { IfOk result (λ legal. followed self.old.run self.old.sites entry ≡ when legal (self.new.run, self.new.sites)) }
    {
        let running = self.run.machine().running(alloc, entry.thread)?;
        match running {
            None => Ok(false),
            Some(term) => self.from(alloc, entry, term),
        }
    }

    /// Does what the entries of a journal say, and tells whether all are legal.
    pub fn take_all(&mut self, alloc: Global, entries: &[Entry]) -> Result<bool, NoMemory>
        ensures { IfOk result (λ legal. all_followed self.old.run self.old.sites entries.now ≡ when legal (self.new.run, self.new.sites)) }
    {
        for entry in entries {
            if !self.take(alloc, *entry)? {
                return Ok(false);
            }
        }
        Ok(true)
    }
}
