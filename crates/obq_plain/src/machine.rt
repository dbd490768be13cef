//! A configuration, and what a thread's act does to it.

ghost use Rattle.std.specs.Prelude.{OnErr, OnOk, length, true, ◌+◌, ◌++◌, ◌<◌, ◌≡◌, ◌≤◌, ◌∷◌, []};
ghost use Rattle.obq_model.specs.Config as config;
ghost use Rattle.obq_model.specs.Effect as model;
ghost use Rattle.obq_model.specs.Step as step;
ghost use Rattle.obq_plain.specs.Holes.{plugged};
ghost use Rattle.obq_plain.specs.Taking.{behind_outcome, is_forking, put_thread};
ghost use Rattle.obq_plain.specs.Threads.{execution_of, machine_of, performed_of};
ghost use Rattle.obq_reduce.specs.Founds.{around, operation_of};
ghost use Rattle.obq_store.specs.Stores.{store_of};

use crate::holes::{all_occupied, plug};
use crate::performing::{Performed, perform};
use crate::threads::{Execution, ThreadState};
use obq_base::NoMemory;
use obq_reduce::{Frame, Operation};
use obq_store::{Store, self_at};
use obq_terms::Term;
use sqlite_items::Items;
use std::alloc::Global;

/// The one store and the threads by their numbers.
#[derive(Drop)]
pub(crate) struct Machine {
    pub store: Store,
    pub threads: Vec<ThreadState>,
}

impl Machine {
    /// A thread goes on with this, and has used so many turns.
    #[tactic(auto, using(crate::proofs::PutThread::thread_put))]
    pub fn set_thread(&mut self, thread: u32, execution: Execution, used: u64)
        requires { thread < length self.old.threads.items }
        ensures set { machine_of self.new ≡ put_thread (machine_of self.old) thread (execution_of execution) used }
        ensures count { length self.new.threads.items ≡ length self.old.threads.items }
    {
        self.threads[thread as usize] = ThreadState { execution, used };
    }

    /// Another thread, which goes on with this term.
    fn add_thread(&mut self, term: Term) -> Result<(), NoMemory>
        ensures ok { OnOk result (machine_of self.new ≡ record (machine_of self.old) { threads = (machine_of self.old).threads ++ record { execution = config.Running term; used = 0 } ∷ [] }) }
        ensures count { OnOk result (length self.new.threads.items ≡ length self.old.threads.items + 1) }
        ensures err { OnErr result (machine_of self.new ≡ machine_of self.old) }
    {
        self.threads.push(ThreadState {
            execution: Execution::Running(term),
            used: 0,
        })?;
        Ok(())
    }

    /// What was performed at the focus of a thread goes on there, with these frames around it.
    fn go_on(
        &mut self,
        thread: u32,
        used: u64,
        frames: Items<Frame>,
        performed: Performed,
    ) -> Result<(), NoMemory>
        requires { thread < length self.old.threads.items }
        ensures ok { OnOk result (machine_of self.new ≡ behind_outcome (machine_of self.old) thread used (plugged frames) (performed_of (store_of self.old.store) performed)) }
        ensures few { OnOk result ((is_forking (performed_of (store_of self.old.store) performed) ≡ true → length self.old.threads.items < 64) → length self.old.threads.items ≤ 64 → length self.new.threads.items ≤ 64) }
        ensures err { OnErr result ((is_forking (performed_of (store_of self.old.store) performed) ≡ true) × (machine_of self.new ≡ machine_of self.old)) }
    {
        match performed {
            Performed::Waits => {
                drop(frames);
                Ok(())
            }
            Performed::Acts { focus, .. } => {
                let term = plug(frames, focus);
                self.set_thread(thread, Execution::Running(term), used);
                Ok(())
            }
            Performed::Forks {
                thread: new,
                focus,
                ..
            } => {
                self.add_thread(new)?;
                let term = plug(frames, focus);
                self.set_thread(thread, Execution::Running(term), used);
                Ok(())
            }
        }
    }

    /// The operation at the focus of a thread is done, if it doesn't wait; the thread has then used so many turns.
    pub fn act(
        &mut self,
        alloc: Global,
        thread: u32,
        used: u64,
        operation: &Operation,
        frames: Items<Frame>,
    ) -> Result<(), NoMemory>
        requires { thread < length self.old.threads.items }
        ensures ok { OnOk result (machine_of self.new ≡ behind_outcome (machine_of self.old) thread used (step.plug (around frames [])) (model.perform (machine_of self.old) thread (step.self_at step.no_self (around frames [])) (operation_of operation.now))) }
        ensures few { OnOk result (length self.old.threads.items ≤ 64 → length self.new.threads.items ≤ 64) }
        ensures err { OnErr result (machine_of self.new ≡ machine_of self.old) }
    {
        let current = self_at(frames.as_slice());
        let frames = all_occupied(alloc, frames)?;
        let performed = perform(
            alloc,
            &mut self.store,
            &self.threads,
            thread,
            current,
            operation,
        )?;
        self.go_on(thread, used, frames, performed)
    }
}
