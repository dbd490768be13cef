//! Claims on threads, and the work that is done on them.

ghost use Rattle.std.specs.Prelude.{◌≡◌, ◌≤◌, IfOk};
ghost use Rattle.obq_world.specs.Work.{IsCut, steps_in};

use crate::lending::{Lends, Ran};
use crate::machine::Machine;
use crate::naming::Naming;
use obq_base::{NoMemory, ThreadId};
use std::alloc::Global;
use std::marker::{Model, PhantomData};

/// A thread that a worker may run.
#[derive(Drop)]
pub struct Claim<J: Naming, M: Machine<J>> {
    pub(crate) thread: ThreadId,
    pub(crate) start: M::Window,
    pub(crate) window: M::Window,
    pub(crate) codes: M::Codes,
    pub(crate) of: PhantomData<J>,
}

impl<J: Naming, M: Machine<J>> Model for Claim<J, M> {
    ghost use Rattle.std.specs.Prelude.{◌≡◌};
    ghost use Rattle.obq_world.specs.Work.{ClaimState};

    ghost Value = { ClaimState M.Window };

    ghost view = { λ c. record { thread = c.thread.0; start = c.start } };

    ghost invariant = { λ c. (c.window ≡ c.start) × M.meaning.are_codes c.codes };
}

/// What pure steps on a claim came to.
#[derive(Drop)]
pub enum Done<W> {
    Steps(Ran<W>),
    NoMemory,
}

/// A claim with pure steps done. Its type keeps that they are such.
#[derive(Drop)]
pub struct Work<J: Naming, M: Machine<J>> {
    pub(crate) thread: ThreadId,
    pub(crate) start: M::Window,
    pub(crate) done: Done<M::Window>,
    pub(crate) of: PhantomData<J>,
}

impl<J: Naming, M: Machine<J>> Model for Work<J, M> {
    ghost use Rattle.obq_world.specs.Work.{WorkState, AreDone};

    ghost Value = { WorkState M.Window };

    ghost view = { λ w. record { thread = w.thread.0; start = w.start; done = w.done } };

    ghost invariant = { λ w. AreDone M.meaning w.start w.done };
}

impl<J: Naming, M: Lends<J>> Claim<J, M> {
    /// The thread.
    pub fn thread(&self) -> ThreadId
        ensures { result.0 ≡ self.now.thread }
    {
        self.thread
    }

    /// Does at most so many pure steps. It takes no lock.
    pub fn work(self, most: u32) -> Work<J, M>
        ensures thread { result.thread ≡ self.thread }
        ensures start { result.start ≡ self.start }
        ensures steps { steps_in result.done ≤ most }
    {
        let Claim {
            thread,
            start,
            window,
            codes,
            of: _,
        } = self;
        let done = match M::run_pure(&codes, window, most) {
            Ok(ran) => Done::Steps(ran),
            Err(NoMemory) => Done::NoMemory,
        };
        Work {
            thread,
            start,
            done,
            of: PhantomData,
        }
    }
}

impl<J: Naming, M: Machine<J>> Work<J, M> {
    /// The thread.
    pub fn thread(&self) -> ThreadId
        ensures { result.0 ≡ self.now.thread }
    {
        self.thread
    }

    /// How many steps were done.
    pub fn steps(&self) -> u32
        ensures { result ≡ steps_in self.now.done }
    {
        match &self.done {
            Done::Steps(ran) => ran.steps,
            Done::NoMemory => 0,
        }
    }
}

/// The work with so many of its steps. Where there are fewer, or memory is wanting, there is none.
pub(crate) fn cut<J: Naming, M: Lends<J>>(
    alloc: Global,
    codes: &M::Codes,
    work: &Work<J, M>,
    left: u32,
) -> Result<Work<J, M>, NoMemory>
    requires { M.meaning.are_codes codes.now }
    ensures { IfOk result (λ short. IsCut work.now left short) }
{
    let start = M::copy(alloc, &work.start)?;
    let window = M::copy(alloc, &work.start)?;
    let ran = M::run_pure(codes, window, left)?;
    if ran.steps < left {
        return Err(NoMemory);
    }
    Ok(Work {
        thread: work.thread,
        start,
        done: Done::Steps(ran),
        of: PhantomData,
    })
}
