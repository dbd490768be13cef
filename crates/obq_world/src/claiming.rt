//! A World whose threads are run by workers: claims on them, and the work that comes back.

ghost use Rattle.std.specs.Prelude.{◌≡◌, ◌<◌, ◌≤◌, ◌+◌, ◌^◌, IfOk, Some, length, slice_get};
ghost use Rattle.obq_world.specs.Claims.{CommitCases, Commits, CommitsSteps, PickCases, StandsAt};
ghost use Rattle.obq_world.specs.Going.{MayGo};
ghost use Rattle.obq_world.specs.Meaning.{IsRunning, Runs, StopsAs};
ghost use Rattle.obq_world.specs.State.{used_in};
ghost use Rattle.obq_world.specs.Work.{TakesIn, steps_in};

use crate::claims::{Claim, Done, Work, cut};
use crate::going::{Gone, note, try_act};
use crate::lending::{Lends, Ran};
use crate::machine::{Machine, Refused};
use crate::naming::Naming;
use crate::parts::{any_claim, first_able, is_wanted, spent};
use crate::seen::Seen;
use crate::slots::ThreadSlot;
use crate::world::World;
use obq_base::{NoMemory, ThreadId};
use std::marker::PhantomData;

/// What a worker does next.
#[derive(Drop)]
pub enum Picked<J: Naming, M: Machine<J>> {
    Go(Claim<J, M>),
    NothingNow,
    Over(Seen<J>),
}

/// What became of a work: the World has it, or it didn't fit, and the World is as it was.
#[derive(Drop)]
pub enum Committed<J: Naming, M: Machine<J>> {
    Took(World<J, M>),
    /// The thread doesn't stand where the work began. Its slot has this version.
    Stale(World<J, M>, u64),
}

/// The thread takes a window in that stands so many steps ahead, and tries its act if one is due and a turn is left for it.
fn take_window<J: Naming, M: Lends<J>>(
    site: &mut M,
    codes: &M::Codes,
    thread: ThreadId,
    ran: Ran<M::Window>,
    left: u32,
    cells: u64,
    threads: u32,
) -> Result<Gone, Refused>
    requires codes { M.meaning.are_codes codes.now }
    requires running { IsRunning M.meaning site.old thread.0 }
    requires runs { (w : M.Window) → M.meaning.windows site.old thread.0 ≡ Some w → Runs M.meaning w ran.steps ran.window }
    requires stops { StopsAs M.meaning ran.stop ran.window }
    requires few { ran.steps ≤ left }
    requires can { MayGo M.meaning J.program threads site.old thread.0 left }
    requires room { (M.meaning.size site.old ≤ cells) × (cells + 1 < 2 ^ 32) }
    requires threads { threads ≤ 64 }
    ensures { IfOk result (λ gone. TakesIn M.meaning site.old thread.0 left cells threads ran gone site.new) }
{
    let Ran {
        window,
        steps,
        stop,
    } = ran;
    site.set_window(thread, window);
    let wanted = is_wanted(steps, left, stop);
    let tried = try_act(site, codes, thread, wanted, cells, threads)?;
    Ok(Gone { steps, stop, tried })
}

impl<J: Naming, M: Lends<J>> World<J, M> {
    /// A claim on a thread that can go; or what there is in its place.
    pub fn pick(&mut self) -> Result<Picked<J, M>, NoMemory>
        ensures { PickCases M.meaning self.old result self.new }
    {
        match first_able(&self.site, &self.slots, self.journal.turns()) {
            Some(k) => {
                let thread = ThreadId(k as u32);
                let start = self.site.copy_window(thread)?;
                let window = M::copy(self.alloc, &start)?;
                let codes = M::share(&self.codes)?;
                let slot = self.slots[k];
                self.slots[k] = ThreadSlot {
                    used: slot.used,
                    version: slot.version,
                    claimed: true,
                };
                Ok(Picked::Go(Claim {
                    thread,
                    start,
                    window,
                    codes,
                    of: PhantomData,
                }))
            }
            None => {
                if any_claim(&self.slots) {
                    Ok(Picked::NothingNow)
                } else {
                    Ok(Picked::Over(Seen {
                        entries: self.journal.len(),
                        of: PhantomData,
                    }))
                }
            }
        }
    }

    /// Takes a work in: at most as many of its steps as turns are left, with the act that is then due if it is done.
    pub fn commit(self, work: Work<J, M>) -> Result<Committed<J, M>, Refused>
        ensures { IfOk result (λ committed. CommitCases M.meaning J.turns self work committed) }
    {
        let k = work.thread.0 as usize;
        if k >= self.slots.len() {
            return Ok(Committed::Stale(self, 0));
        }
        let slot = self.slots[k];
        if !self.site.is_at(work.thread, &work.start) {
            return Ok(Committed::Stale(self, slot.version));
        }
        let left = self.journal.turns() - slot.used;
        if work.steps() <= left {
            let world = self.take_in(work)?;
            return Ok(Committed::Took(world));
        }
        let short = cut(self.alloc, &self.codes, &work, left)?;
        let world = self.take_in(short)?;
        Ok(Committed::Took(world))
    }

    /// Takes a work in whose start the thread has, and for whose steps there are turns.
    fn take_in(self, work: Work<J, M>) -> Result<World<J, M>, Refused>
        requires here { StandsAt M.meaning self work }
        requires there { work.thread < length self.slots }
        requires fits { used_in (slice_get self.slots work.thread) + steps_in work.done ≤ J.turns }
        ensures { IfOk result (λ w. Commits M.meaning J.turns self work w) }
    {
        let Work {
            thread,
            start: _,
            done,
            of: _,
        } = work;
        match done {
            Done::NoMemory => {
                let mut world = self;
                world.give_back(thread);
                Ok(world)
            }
            Done::Steps(ran) => self.take_steps(thread, ran),
        }
    }

    /// Takes pure steps of a thread in, for which there are turns.
    fn take_steps(self, thread: ThreadId, ran: Ran<M::Window>) -> Result<World<J, M>, Refused>
        requires running { IsRunning M.meaning self.site thread.0 }
        requires there { thread.0 < length self.slots }
        requires fits { used_in (slice_get self.slots thread.0) + ran.steps ≤ J.turns }
        requires runs { (w : M.Window) → M.meaning.windows self.site thread.0 ≡ Some w → Runs M.meaning w ran.steps ran.window }
        requires stops { StopsAs M.meaning ran.stop ran.window }
        ensures { IfOk result (λ w. CommitsSteps M.meaning J.turns self thread.0 ran w) }
    {
        let World {
            alloc,
            mut site,
            mut slots,
            cells,
            codes,
            mut journal,
            next,
            of: _,
        } = self;
        let k = thread.0 as usize;
        let left = journal.turns() - slots[k].used;
        let gone = take_window(
            &mut site,
            &codes,
            thread,
            ran,
            left,
            cells,
            slots.len() as u32,
        )?;
        let cells = note(&mut slots, cells, &mut journal, thread, gone)?;
        Ok(World {
            alloc,
            site,
            slots,
            cells,
            codes,
            journal,
            next,
            of: PhantomData,
        })
    }
}

impl<J: Naming, M: Machine<J>> World<J, M> {
    /// The claim on the thread is out no more.
    pub fn give_back(&mut self, thread: ThreadId)
        ensures journal { self.new.journal ≡ self.old.journal }
        ensures site { self.new.site ≡ self.old.site }
    {
        let k = thread.0 as usize;
        if k < self.slots.len() {
            self.slots[k] = spent(self.slots[k], 0);
        }
    }
}
