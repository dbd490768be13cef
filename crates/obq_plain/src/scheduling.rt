//! Which threads are able, and what they do next.

ghost use Rattle.std.specs.Prelude.{IfOk, MatchOption, Some, false, if◌then◌else◌, is_some, length, min, slice_get, suc, ◌+◌, ◌-◌, ◌<◌, ◌≡◌, ◌^◌, ◌≤◌, ◌||◌, ℕ};
ghost use Rattle.obq_model.specs.Config as config;
ghost use Rattle.obq_model.specs.Replay as replay;
ghost use Rattle.obq_model.specs.Replay.{is_able};
ghost use Rattle.obq_model.specs.Step as step;
ghost use Rattle.obq_model.specs.Store.{same_loc};
ghost use Rattle.obq_plain.specs.PlainStates.{IsNextOf};
ghost use Rattle.obq_plain.specs.Scheduling.{IsNext, act_found, entry_behind, entry_of_execution, entry_of_state, entry_with, steps_found};
ghost use Rattle.obq_plain.specs.Threads.{machine_of};
ghost use Rattle.obq_reduce.specs.Founds.{found_of};

use crate::ahead::act_ahead;
use crate::machine::Machine;
use crate::threads::Execution;
use obq_base::{Act, ActKind, Entry, NoMemory};
use obq_find::find;
use obq_reduce::Found;
use obq_store::self_at;
use obq_terms::{Term, copy_term};
use std::alloc::Global;

/// What stands next behind one pure step, or what stands next where that is none.
#[derive(Drop)]
struct Moved {
    moved: bool,
    found: Found,
}

fn move_on(alloc: Global, found: Found) -> Result<Moved, NoMemory>
    ensures { (k n : ℕ) → IfOk result (λ m. steps_found k (suc n) (found_of found) ≡ (if m.moved then steps_found (suc k) n (found_of m.found) else (k, found_of m.found))) }
{
    match found {
        Found::Next(term) => {
            let found = find(term, alloc)?;
            Ok(Moved { moved: true, found })
        }
        found => Ok(Moved {
            moved: false,
            found,
        }),
    }
}

/// What stands next in a term behind some pure steps.
#[derive(Drop)]
struct Stepped {
    count: u32,
    found: Found,
}

/// What stands next behind so many pure steps, or behind all where there are fewer.
fn step_on(alloc: Global, found: Found, most: u32) -> Result<Stepped, NoMemory>
    ensures { IfOk result (λ s. (s.count, found_of s.found) ≡ steps_found 0 most (found_of found)) }
{
    let mut found = found;
    for count in 0..most {
        let Moved { moved, found: next } = move_on(alloc, found)?;
        found = next;
        if !moved {
            return Ok(Stepped { count, found });
        }
    }
    Ok(Stepped { count: most, found })
}

/// What stands next in a term.
pub(crate) fn find_in(alloc: Global, term: &Term) -> Result<Found, NoMemory>
    ensures { IfOk result (λ found. found_of found ≡ step.find same_loc 0 step.no_self term.now) }
{
    let term = copy_term(alloc, term)?;
    find(term, alloc)
}

/// What stands next in a term behind so many pure steps, or behind all where there are fewer.
fn steps_of(alloc: Global, term: &Term, most: u32) -> Result<Stepped, NoMemory>
    ensures { IfOk result (λ s. (s.count, found_of s.found) ≡ steps_found 0 most (step.find same_loc 0 step.no_self term.now)) }
{
    let found = find_in(alloc, term)?;
    let stepped = step_on(alloc, found, most)?;
    Ok(stepped)
}

/// So many pure steps, and no more than the turns that are left.
fn most_steps(turns: u32, used: u64, most: u32) -> u32
    requires { used < turns }
    ensures { result ≡ min most (turns - used) }
{
    let left = u64::from(turns) - used;
    if u64::from(most) < left {
        return most;
    }
    left as u32
}

/// Whether a pure step stands next.
fn is_step(found: &Found) -> bool
    ensures { result ≡ is_some (step.next_of (found_of found.now)) }
{
    matches!(found, Found::Next(_))
}

/// The entry of so many pure steps and this act; none where it takes no turn.
fn entry_with(thread: u32, pure: u32, act: Option<Act>) -> Option<Entry>
    ensures { result ≡ entry_with thread pure act }
{
    if pure == 0 && act.is_none() {
        return None;
    }
    Some(Entry { thread, pure, act })
}

impl Machine {
    /// The act of a thread in whose term this stands next; none where that is a pure step or waits.
    fn act_found(&self, thread: u32, found: &Found) -> Option<Act>
        ensures { result ≡ act_found (machine_of self.now) thread (found_of found.now) }
    {
        let end = Act {
            kind: ActKind::End,
            loc: u64::from(thread),
        };
        match found {
            Found::Next(_) => None,
            Found::Needs { operation, frames } => {
                let current = self_at(frames.as_slice());
                act_ahead(&self.store, &self.threads, thread, current, operation)
            }
            Found::Done(_) => Some(end),
            Found::Uncaught(_) => Some(end),
        }
    }

    /// What a thread does next behind so many pure steps, where it had used so many turns before.
    fn entry_behind(&self, turns: u32, thread: u32, used: u64, stepped: &Stepped) -> Option<Entry>
        requires { used + stepped.now.count < 2 ^ 64 }
        ensures { result ≡ entry_behind turns (machine_of self.now) thread used stepped.now.count (found_of stepped.now.found) }
    {
        let count = stepped.count;
        if used + u64::from(count) < u64::from(turns) {
            let act = self.act_found(thread, &stepped.found);
            return entry_with(thread, count, act);
        }
        entry_with(thread, count, None)
    }

    /// The same of what is let go behind it.
    fn entry_from(&self, turns: u32, thread: u32, used: u64, stepped: Stepped) -> Option<Entry>
        requires { used + stepped.count < 2 ^ 64 }
        ensures { result ≡ entry_behind turns (machine_of self.now) thread used stepped.count (found_of stepped.found) }
    {
        let entry = self.entry_behind(turns, thread, used, &stepped);
        drop(stepped);
        entry
    }

    /// What a thread that goes on with this term does next.
    fn entry_of_term(
        &self,
        alloc: Global,
        turns: u32,
        most: u32,
        thread: u32,
        used: u64,
        term: &Term,
    ) -> Result<Option<Entry>, NoMemory>
        ensures { IfOk result (λ e. e ≡ entry_of_execution turns (machine_of self.now) most thread used (config.Running term.now)) }
    {
        if used >= u64::from(turns) {
            return Ok(None);
        }
        let stepped = steps_of(alloc, term, most_steps(turns, used, most))?;
        Ok(self.entry_from(turns, thread, used, stepped))
    }

    /// What a thread does next: at most so many pure steps, and then its act.
    fn entry_of(
        &self,
        alloc: Global,
        turns: u32,
        most: u32,
        thread: u32,
    ) -> Result<Option<Entry>, NoMemory>
        ensures { IfOk result (λ e. e ≡ entry_of_state turns (machine_of self.now) most thread (slice_get (machine_of self.now).threads thread)) }
    {
        let Some(state) = self.threads.get(thread as usize) else {
            return Ok(None);
        };
        match &state.execution {
            Execution::Running(term) => {
                self.entry_of_term(alloc, turns, most, thread, state.used, term)
            }
            Execution::Returned(_) | Execution::Failed(_) => Ok(None),
        }
    }

    /// What a thread does next, if it is able.
    fn next_of(
        &self,
        alloc: Global,
        turns: u32,
        most: u32,
        thread: u32,
    ) -> Result<Option<Entry>, NoMemory>
        requires { 1 ≤ most }
        ensures { IfOk result (λ o. MatchOption o (is_able turns (machine_of self.now) thread ≡ false) (λ e. IsNext turns (machine_of self.now) e)) }
    {
        let entry = self.entry_of(alloc, turns, most, thread)?;
        Ok(entry)
    }

    /// What the first able one of these threads does next.
    fn next_among(
        &self,
        alloc: Global,
        turns: u32,
        most: u32,
        from: u32,
        to: u32,
    ) -> Result<Option<Entry>, NoMemory>
        requires { 1 ≤ most }
        ensures { IfOk result (λ o. MatchOption o ((t : ℕ) → from ≤ t → t < to → is_able turns (machine_of self.now) t ≡ false) (λ e. IsNext turns (machine_of self.now) e)) }
    {
        for thread in from..to {
            let next = self.next_of(alloc, turns, most, thread)?;
            match next {
                Some(entry) => return Ok(Some(entry)),
                None => {}
            }
        }
        Ok(None)
    }

    /// What an able thread does next, looked for from thread `from` on and then from the first one on.
    pub fn next_entry(
        &self,
        alloc: Global,
        turns: u32,
        from: u32,
        most: u32,
    ) -> Result<Option<Entry>, NoMemory>
        requires most { 1 ≤ most }
        requires few { length self.now.threads.items ≤ 64 }
        ensures { IfOk result (λ o. IsNextOf turns (machine_of self.now) o) }
    {
        let count = self.threads.len() as u32;
        let from = from.min(count);
        let behind = self.next_among(alloc, turns, most, from, count)?;
        match behind {
            Some(entry) => Ok(Some(entry)),
            None => self.next_among(alloc, turns, most, 0, from),
        }
    }

    /// Whether this, which stands next in a thread, is a pure step or an act that doesn't wait.
    fn moves(&self, thread: u32, found: Found) -> bool
        ensures { result ≡ (is_some (step.next_of (found_of found)) || is_some (act_found (machine_of self.now) thread (found_of found))) }
    {
        let moves = is_step(&found) || self.act_found(thread, &found).is_some();
        drop(found);
        moves
    }

    /// Whether a thread is able that goes on with this term.
    fn is_able_with(
        &self,
        alloc: Global,
        turns: u32,
        thread: u32,
        used: u64,
        term: &Term,
    ) -> Result<bool, NoMemory>
        ensures { slice_get (machine_of self.now).threads thread ≡ Some (record { execution = config.Running term.now; used = used }) → IfOk result (λ able. able ≡ is_able turns (machine_of self.now) thread) }
    {
        if used >= u64::from(turns) {
            return Ok(false);
        }
        let found = find_in(alloc, term)?;
        Ok(self.moves(thread, found))
    }

    /// Whether a thread is able.
    fn is_able(&self, alloc: Global, turns: u32, thread: u32) -> Result<bool, NoMemory>
        ensures { IfOk result (λ able. able ≡ is_able turns (machine_of self.now) thread) }
    {
        let Some(state) = self.threads.get(thread as usize) else {
            return Ok(false);
        };
        match &state.execution {
            Execution::Running(term) => {
                self.is_able_with(alloc, turns, thread, state.used, term)
            }
            Execution::Returned(_) | Execution::Failed(_) => Ok(false),
        }
    }

    /// The first thread that is able.
    pub fn first_able(&self, alloc: Global, turns: u32) -> Result<Option<u32>, NoMemory>
        requires { length self.now.threads.items ≤ 64 }
        ensures { IfOk result (λ t. t ≡ replay.first_able turns (machine_of self.now)) }
    {
        let count = self.threads.len() as u32;
        for thread in 0..count {
            if self.is_able(alloc, turns, thread)? {
                return Ok(Some(thread));
            }
        }
        Ok(None)
    }
}
