//! The requests of threads that wait at the end of a run.

ghost use Rattle.std.specs.Prelude.{IfOk, OnOk, option_map, length, ◌≡◌, ◌≤◌};
ghost use Rattle.obq_links.specs.Places.{place_as};
ghost use Rattle.obq_plain.specs.Following.{all_asked, asked_at, place_waiting, waits_at};
ghost use Rattle.obq_plain.specs.Threads.{execution_of, machine_of};
ghost use Rattle.obq_reduce.specs.Founds.{found_of};

use crate::ahead::act_ahead;
use crate::machine::Machine;
use crate::places::place_of;
use crate::scheduling::find_in;
use crate::threads::{Execution, ThreadState};
use obq_base::NoMemory;
use obq_links::{Place, Sites};
use obq_reduce::Found;
use obq_store::self_at;
use std::alloc::Global;

impl Machine {
    /// The place where a thread waits in whose term this stands next, if it waits.
    fn place_waiting(&self, thread: u32, found: &Found) -> Option<Place>
        ensures { option_map place_as result ≡ place_waiting (machine_of self.now) thread (found_of found.now) }
    {
        match found {
            Found::Next(_) => None,
            Found::Needs { operation, frames } => {
                let current = self_at(frames.as_slice());
                match act_ahead(&self.store, &self.threads, thread, current, operation) {
                    Some(_) => None,
                    None => Some(place_of(operation)),
                }
            }
            Found::Done(_) => None,
            Found::Uncaught(_) => None,
        }
    }

    /// The place where a thread waits that has a turn left, if it waits.
    fn waits_at(
        &self,
        alloc: Global,
        turns: u32,
        thread: u32,
        state: &ThreadState,
    ) -> Result<Option<Place>, NoMemory>
        ensures { IfOk result (λ place. option_map place_as place ≡ waits_at turns (machine_of self.now) thread state.now.used (execution_of state.now.execution)) }
    {
        if state.used >= u64::from(turns) {
            return Ok(None);
        }
        match &state.execution {
            Execution::Running(term) => {
                let found = find_in(alloc, term)?;
                let place = self.place_waiting(thread, &found);
                drop(found);
                Ok(place)
            }
            Execution::Returned(_) | Execution::Failed(_) => Ok(None),
        }
    }

    /// With the request of a thread, if it waits and has a turn left.
    fn ask(
        &self,
        alloc: Global,
        turns: u32,
        thread: u32,
        state: &ThreadState,
        sites: &mut Sites,
    ) -> Result<(), NoMemory>
        ensures { OnOk result (sites.new ≡ asked_at thread (waits_at turns (machine_of self.now) thread state.now.used (execution_of state.now.execution)) sites.old) }
    {
        let place = self.waits_at(alloc, turns, thread, state)?;
        match place {
            Some(place) => sites.ask(thread, place),
            None => Ok(()),
        }
    }

    /// With the requests of all threads that wait and have a turn left.
    pub fn ask_all(&self, alloc: Global, turns: u32, sites: &mut Sites) -> Result<(), NoMemory>
        requires { length self.now.threads.items ≤ 64 }
        ensures { OnOk result (sites.new ≡ all_asked turns (machine_of self.now) 0 (machine_of self.now).threads sites.old) }
    {
        let mut at = self.threads.len();
        while at > 0 {
            at -= 1;
            self.ask(alloc, turns, at as u32, &self.threads[at], sites)?;
        }
        Ok(())
    }
}
