//! Entries of a journal: what they do where they are legal, and why they aren't.

ghost use Rattle.std.specs.Prelude.{IfOk, Some, length, nat_lt, option_map, slice_get, true, ◌+◌, ◌^◌, ◌<◌, ◌≡◌, ◌≤◌, ℕ, []};
ghost use Rattle.obq_base.specs.declared.acts.ActKind.{ActKind};
ghost use Rattle.obq_model.specs.Config as config;
ghost use Rattle.obq_model.specs.Effect as model;
ghost use Rattle.obq_model.specs.Replay as replay;
ghost use Rattle.obq_model.specs.Step as step;
ghost use Rattle.obq_model.specs.Store.{same_loc};
ghost use Rattle.obq_model.specs.Terms as terms;
ghost use Rattle.obq_plain.specs.Ahead.{act_of};
ghost use Rattle.obq_plain.specs.PlainStates.{why_of};
ghost use Rattle.obq_plain.specs.Taking.{ActCases, EntryCases, ReadyCases, ThenCases, put_thread, runs, why_ahead};
ghost use Rattle.obq_plain.specs.Threads.{execution_of, machine_of};
ghost use Rattle.obq_reduce.specs.Founds.{around, found_of, operation_of};
ghost use Rattle.obq_plain.specs.declared.refusals.TakeRefused.TheVariants as refusal;
ghost use Rattle.obq_terms.specs.Values.{raised_of};

use crate::ahead::act_ahead;
use crate::machine::Machine;
use crate::refusals::{TakeRefused, Why};
use crate::threads::Execution;
use obq_base::{Act, ActKind, Entry, NoMemory, Text};
use obq_find::find;
use obq_reduce::{Found, Frame, Operation};
use obq_store::self_at;
use obq_terms::{Raised, Term, copy_term};
use sqlite_items::Items;
use std::alloc::Global;

/// The term behind a pure step, where one was found.
fn into_next(found: Found) -> Option<Term>
    ensures { result ≡ step.next_of (found_of found) }
{
    match found {
        Found::Next(next) => Some(next),
        other => {
            drop(other);
            None
        }
    }
}

/// The term behind a pure step of a term; none where another thing stands next.
pub(crate) fn pure_step(alloc: Global, term: Term) -> Result<Option<Term>, NoMemory>
    ensures { IfOk result (λ next. next ≡ step.pure same_loc term) }
{
    let found = find(term, alloc)?;
    Ok(into_next(found))
}

/// The term behind so many pure steps; none where there are fewer.
fn after_pure(alloc: Global, term: Term, count: u32) -> Result<Option<Term>, NoMemory>
    ensures { IfOk result (λ last. last ≡ replay.after_pure count term) }
{
    let mut term = term;
    for _ in 0..count {
        let found = pure_step(alloc, term)?;
        let Some(next) = found else {
            return Ok(None);
        };
        term = next;
    }
    Ok(Some(term))
}

/// The turns that an entry's act takes.
fn act_turns(act: Option<Act>) -> u64
    ensures { result ≡ replay.act_turns act }
{
    match act {
        Some(_) => 1,
        None => 0,
    }
}

/// Whether a thread that has used so many turns would pass the limit by this entry.
fn passes(turns: u32, used: u64, entry: Entry) -> bool
    ensures { result ≡ nat_lt turns (used + entry.pure + replay.act_turns entry.act) }
{
    let limit = u64::from(turns);
    if used > limit {
        return true;
    }
    used + u64::from(entry.pure) + act_turns(entry.act) > limit
}

fn refused(why: Why) -> TakeRefused
    ensures { result ≡ refusal.NotLegal why }
{
    TakeRefused::NotLegal { why }
}

/// A thread behind the pure steps of an entry.
#[derive(Drop)]
struct Ready {
    term: Term,
    /// The turns that it has used then.
    used: u64,
}

/// A thread that goes on with this term, behind the pure steps of an entry.
fn ready_with(
    alloc: Global,
    turns: u32,
    used: u64,
    term: &Term,
    entry: Entry,
) -> Result<Ready, TakeRefused>
    ensures { (k : config.Config) → slice_get k.threads entry.thread ≡ Some (record { execution = config.Running term.now; used = used }) → ReadyCases turns k entry result }
{
    if passes(turns, used, entry) {
        return Err(refused(Why::Turns));
    }
    let term = copy_term(alloc, term)?;
    let Some(term) = after_pure(alloc, term, entry.pure)? else {
        return Err(refused(Why::NoPure));
    };
    Ok(Ready {
        term,
        used: used + u64::from(entry.pure),
    })
}

/// Whether these are the same.
fn are_same(one: Act, other: Act) -> bool
    ensures { result ≡ replay.act_same one other }
{
    one == other
}

/// Why the named act isn't the one that is foreseen, if it isn't.
fn why_ahead(act: Act, ahead: Option<Act>) -> Option<Why>
    ensures { option_map why_of result ≡ why_ahead act ahead }
{
    match ahead {
        None => Some(Why::Waits),
        Some(other) => {
            if are_same(act, other) {
                return None;
            }
            Some(Why::WrongAct { should: ahead })
        }
    }
}

/// How a raising ends its thread.
fn end_by(alloc: Global, raised: Raised) -> Result<Execution, NoMemory>
    ensures { IfOk result (λ ended. execution_of ended ≡ model.end_by (raised_of raised)) }
{
    match raised {
        Raised::Exception(text) => Ok(Execution::Failed(text)),
        Raised::Exit => {
            let text = Vec::from_slice(alloc, "exit_outside".as_bytes())?;
            Ok(Execution::Failed(Text::new(text)))
        }
    }
}

impl Machine {
    /// A thread behind the pure steps of an entry, if they are there.
    fn ready(&self, alloc: Global, turns: u32, entry: Entry) -> Result<Ready, TakeRefused>
        ensures { ReadyCases turns (machine_of self.now) entry result }
    {
        let Some(state) = self.threads.get(entry.thread as usize) else {
            return Err(refused(Why::NoThread));
        };
        match &state.execution {
            Execution::Running(term) => ready_with(alloc, turns, state.used, term, entry),
            Execution::Returned(_) | Execution::Failed(_) => Err(refused(Why::NoThread)),
        }
    }

    /// Why the named act isn't the one of this operation of a thread, if it isn't.
    fn why_operation(
        &self,
        thread: u32,
        act: Act,
        operation: &Operation,
        frames: &[Frame],
    ) -> Option<Why>
        ensures { option_map why_of result ≡ why_ahead act (act_of (model.perform (machine_of self.now) thread (step.self_at step.no_self (around frames.now [])) (operation_of operation.now))) }
    {
        let current = self_at(frames);
        let ahead = act_ahead(&self.store, &self.threads, thread, current, operation);
        why_ahead(act, ahead)
    }

    /// The named act, where a thread needs this operation; it had used so many turns before.
    fn take_operation(
        &mut self,
        alloc: Global,
        thread: u32,
        used: u64,
        act: Act,
        operation: &Operation,
        frames: Items<Frame>,
    ) -> Result<(), TakeRefused>
        requires runs { runs (slice_get (machine_of self.old).threads thread) ≡ true }
        requires room { used + 1 < 2 ^ 64 }
        ensures cases { (u : terms.Term ℕ) → ActCases act thread (model.effect_of (put_thread (machine_of self.old) thread (config.Running u) used) thread (step.Needs (operation_of operation.now) (around frames []))) (machine_of self.old) result (machine_of self.new) }
        ensures few { length self.old.threads.items ≤ 64 → length self.new.threads.items ≤ 64 }
    {
        match self.why_operation(thread, act, operation, frames.as_slice()) {
            Some(why) => {
                drop(frames);
                Err(TakeRefused::NotLegal { why })
            }
            None => {
                self.act(alloc, thread, used + 1, operation, frames)?;
                Ok(())
            }
        }
    }

    /// The named act, where a thread ends so; it had used so many turns before.
    fn take_end(
        &mut self,
        thread: u32,
        used: u64,
        act: Act,
        ended: Execution,
    ) -> Result<(), TakeRefused>
        requires runs { runs (slice_get (machine_of self.old).threads thread) ≡ true }
        requires room { used + 1 < 2 ^ 64 }
        ensures cases { (u : terms.Term ℕ) → ActCases act thread (model.Does (config.act ActKind.End thread) (config.with_execution (put_thread (machine_of self.old) thread (config.Running u) used) thread (execution_of ended))) (machine_of self.old) result (machine_of self.new) }
        ensures few { length self.old.threads.items ≤ 64 → length self.new.threads.items ≤ 64 }
    {
        let end = Act {
            kind: ActKind::End,
            loc: u64::from(thread),
        };
        match why_ahead(act, Some(end)) {
            Some(why) => {
                drop(ended);
                Err(TakeRefused::NotLegal { why })
            }
            None => {
                self.set_thread(thread, ended, used + 1);
                Ok(())
            }
        }
    }

    /// The named act, where this is found in a thread.
    fn take_found(
        &mut self,
        alloc: Global,
        thread: u32,
        used: u64,
        act: Act,
        found: Found,
    ) -> Result<(), TakeRefused>
        requires runs { runs (slice_get (machine_of self.old).threads thread) ≡ true }
        requires room { used + 1 < 2 ^ 64 }
        ensures cases { (u : terms.Term ℕ) → ActCases act thread (model.effect_of (put_thread (machine_of self.old) thread (config.Running u) used) thread (found_of found)) (machine_of self.old) result (machine_of self.new) }
        ensures few { length self.old.threads.items ≤ 64 → length self.new.threads.items ≤ 64 }
    {
        match found {
            Found::Next(term) => {
                drop(term);
                Err(refused(Why::WrongAct { should: None }))
            }
            Found::Needs { operation, frames } => {
                let taken = self.take_operation(alloc, thread, used, act, &operation, frames);
                drop(operation);
                taken
            }
            Found::Done(value) => self.take_end(thread, used, act, Execution::Returned(value)),
            Found::Uncaught(raised) => {
                let ended = end_by(alloc, raised)?;
                self.take_end(thread, used, act, ended)
            }
        }
    }

    /// The act of an entry, if it names one, of a thread behind the entry's pure steps.
    fn take_ready(
        &mut self,
        alloc: Global,
        thread: u32,
        act: Option<Act>,
        ready: Ready,
    ) -> Result<(), TakeRefused>
        requires runs { runs (slice_get (machine_of self.old).threads thread) ≡ true }
        requires room { ready.used + 1 < 2 ^ 64 }
        ensures cases { ThenCases act thread (put_thread (machine_of self.old) thread (config.Running ready.term) ready.used) (machine_of self.old) result (machine_of self.new) }
        ensures few { length self.old.threads.items ≤ 64 → length self.new.threads.items ≤ 64 }
    {
        let Ready { term, used } = ready;
        match act {
            None => {
                self.set_thread(thread, Execution::Running(term), used);
                Ok(())
            }
            Some(act) => {
                let found = find(term, alloc)?;
                self.take_found(alloc, thread, used, act, found)
            }
        }
    }

    /// Does what an entry says, where it is legal under this turn limit.
    pub fn take(&mut self, alloc: Global, turns: u32, entry: Entry) -> Result<(), TakeRefused>
        ensures cases { EntryCases turns (machine_of self.old) entry result (machine_of self.new) }
        ensures few { length self.old.threads.items ≤ 64 → length self.new.threads.items ≤ 64 }
    {
        let ready = self.ready(alloc, turns, entry)?;
        self.take_ready(alloc, entry.thread, entry.act, ready)
    }
}
