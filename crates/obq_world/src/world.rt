//! The World of a run: its site, its threads, and the journal of what they did.

ghost use Rattle.std.specs.Prelude.{◌≡◌, ◌<◌, ◌≤◌, [], IfOk, IsTrue, MatchOption, length};
ghost use Rattle.obq_model.specs.Replay.{TakeTurns};
ghost use Rattle.obq_world.specs.Calls.{AdvanceCases, TurnCases};
ghost use Rattle.obq_world.specs.Meaning.{IsRunning};
ghost use Rattle.obq_world.specs.Reports.{Outputs, Reports};
ghost use Rattle.obq_world.specs.State.{EndsOver, Replays};

use crate::going::{go_on, note, turns_taken};
use crate::machine::{Machine, Refused};
use crate::naming::Naming;
use crate::parts::{all_stopped, any_claim, next_able};
use crate::reports::report_of;
use crate::seen::Seen;
use crate::slots::ThreadSlot;
use obq_base::limits::THREAD_LIMIT;
use obq_base::{NoMemory, Report, ThreadId};
use obq_journal::Journal;
use std::alloc::Global;
use std::marker::{Model, PhantomData};

/// The sites of a program, of which there is one, its threads, and the journal that replays to where they stand.
#[derive(Drop)]
pub struct World<J: Naming, M: Machine<J>> {
    pub(crate) alloc: Global,
    pub(crate) site: M,
    pub(crate) slots: Vec<ThreadSlot>,
    pub(crate) cells: u64,
    pub(crate) codes: M::Codes,
    pub(crate) journal: Journal,
    /// The thread from which on `advance` looks for one that can go.
    pub(crate) next: u32,
    pub(crate) of: PhantomData<J>,
}

impl<J: Naming, M: Machine<J>> Model for World<J, M> {
    ghost use Rattle.std.specs.Prelude.{◌≡◌};
    ghost use Rattle.obq_model.specs.Replay.{TakeTurns};
    ghost use Rattle.obq_world.specs.State.{State, WorldStands};

    ghost Value = { State M };

    ghost view = { λ w. record { site = w.site; slots = w.slots.items; cells = w.cells; journal = w.journal.entries } };

    ghost invariant = { λ w. WorldStands M.meaning J.program J.turns (record { site = w.site; slots = w.slots.items; cells = w.cells; journal = w.journal.entries }) × (w.journal.turns ≡ J.turns) × M.meaning.are_codes w.codes × (J.sites ≡ 1) × TakeTurns w.journal.entries };
}

/// What became of a World that was to advance.
#[derive(Drop)]
pub enum Advanced<J: Naming, M: Machine<J>> {
    /// A thread went on.
    Went(World<J, M>),
    /// No thread can go.
    Over(World<J, M>, Seen<J>),
    /// Each thread that can go has a claim out.
    Claimed(World<J, M>),
}

/// What became of a World in a turn.
#[derive(Drop)]
pub(crate) enum Turn<J: Naming, M: Machine<J>> {
    Came(Advanced<J, M>),
    /// A thread was found to wait before it did anything. The journal is as it was.
    Waited(World<J, M>),
}

impl<J: Naming, M: Machine<J>> World<J, M> {
    /// A World with no entries, whose thread stands at the beginning of the program.
    pub fn begin(alloc: Global, codes: M::Codes, turns: u32) -> Result<World<J, M>, NoMemory>
        requires codes { M.meaning.are_codes codes }
        requires sites { (length J.program ≡ J.sites) × (J.sites ≡ 1) }
        requires turns { (turns ≡ J.turns) × (turns ≤ 1000000) }
        ensures { IfOk result (λ w. w.journal ≡ []) }
    {
        let mut slots = Vec::new(alloc);
        slots.push(ThreadSlot {
            used: 0,
            version: 0,
            claimed: false,
        })?;
        let site = M::begin(alloc, &codes)?;
        Ok(World {
            alloc,
            site,
            slots,
            cells: 1,
            codes,
            journal: Journal::new(alloc, turns),
            next: 0,
            of: PhantomData,
        })
    }

    /// A thread that can go, and on which no claim is out, goes on, in the order of their numbers: at most so many pure steps, with the act that is then due. The journal
    /// has one entry more, which takes a turn.
    pub fn advance(self, most: u32) -> Result<Advanced<J, M>, Refused>
        ensures { IfOk result (λ advanced. AdvanceCases J.program J.turns self.journal advanced) }
    {
        let mut world = self;
        for _ in 0..=THREAD_LIMIT {
            match world.turn(most)? {
                Turn::Came(advanced) => return Ok(advanced),
                Turn::Waited(next) => world = next,
            }
        }
        // A thread that was found to wait is known to: no more than all threads are.
        Err(Refused::Beyond)
    }

    /// A thread that can go goes on, or is found to wait.
    fn turn(self, most: u32) -> Result<Turn<J, M>, Refused>
        ensures { IfOk result (λ turn. TurnCases J.program J.turns self.journal turn) }
    {
        let from = self.next as usize;
        match next_able(&self.site, &self.slots, self.journal.turns(), from) {
            Some(k) => self.go(ThreadId(k as u32), most),
            None => {
                if any_claim(&self.slots) {
                    Ok(Turn::Came(Advanced::Claimed(self)))
                } else {
                    let seen = Seen {
                        entries: self.journal.len(),
                        of: PhantomData,
                    };
                    Ok(Turn::Came(Advanced::Over(self, seen)))
                }
            }
        }
    }

    /// A thread that is running goes on, or is found to wait.
    fn go(self, thread: ThreadId, most: u32) -> Result<Turn<J, M>, Refused>
        requires running { IsRunning M.meaning self.site thread.0 }
        requires there { thread.0 < length self.slots }
        ensures { IfOk result (λ turn. TurnCases J.program J.turns self.journal turn) }
    {
        let World {
            alloc,
            mut site,
            mut slots,
            cells,
            codes,
            mut journal,
            next: _,
            of: _,
        } = self;
        let k = thread.0 as usize;
        let left = journal.turns() - slots[k].used;
        let gone = go_on(
            &mut site,
            &codes,
            thread,
            most,
            left,
            cells,
            slots.len() as u32,
        )?;
        let cells = note(&mut slots, cells, &mut journal, thread, gone)?;
        let world = World {
            alloc,
            site,
            slots,
            cells,
            codes,
            journal,
            next: thread.0.saturating_add(1),
            of: PhantomData,
        };
        if turns_taken(gone) == 0 {
            return Ok(Turn::Waited(world));
        }
        Ok(Turn::Came(Advanced::Went(world)))
    }

    /// Whether no thread can go and no claim is out.
    pub fn is_over(&self) -> bool
        ensures over { IsTrue result → EndsOver J.program J.turns self.now.journal }
    {
        all_stopped(&self.site, &self.slots, self.journal.turns()) && !any_claim(&self.slots)
    }

    /// The output of a site so far: none exactly where there is no such site.
    pub fn output(&self, site: u16) -> Option<&[u8]>
        ensures { MatchOption result (J.sites ≤ site) (λ text. Outputs J.program J.turns J.sites self.now.journal site text.now) }
    {
        if site == 0 {
            Some(self.site.text())
        } else {
            None
        }
    }

    /// How many threads have ended, wait, or have spent their turns.
    pub fn report(&self) -> Report
        ensures { Reports J.program J.turns self.now.journal result }
    {
        report_of(&self.site, &self.slots, self.journal.turns())
    }

    /// The journal, which replays to what the World stands for.
    pub fn into_journal(self) -> Journal
        ensures entries { result.entries ≡ self.journal }
        ensures turns { result.turns ≡ J.turns }
        ensures replays { Replays J.program J.turns result.entries }
        ensures each { TakeTurns result.entries }
    {
        let World {
            alloc: _,
            site: _,
            slots: _,
            cells: _,
            codes: _,
            journal,
            next: _,
            of: _,
        } = self;
        journal
    }
}
