//! The threads of one site.

ghost use Rattle.std.specs.Prelude.{◌≡◌, ℕ, Some, None, true, length, is_some, IfOk, IfNone, OnOk, OnErr, option_copied, option_map};
ghost use Rattle.obq_thread.specs.Rows.{ArePlaced, Same, Sets};

use crate::rows::{fill, make_room, row, take};
use crate::segments::{Ended, Segment, Suspended};
use obq_base::{NoMemory, SiteId, ThreadId};
use slab::Slab;
use std::alloc::Global;

/// The running and the suspended segments of one site, and the endings of the threads that have their home there.
#[derive(Drop)]
pub struct Threads<W> {
    site: SiteId,
    running: Vec<Option<Segment<W>>>,
    pending: Slab<Suspended<W>>,
    ended: Vec<Option<Ended>>,
    ghost placed: { ArePlaced pending.slots (length running.items) },
}

impl<W> Threads<W> {
    ghost use Rattle.obq_thread.specs.Threads.{running_at, pending_at, ended_at};

    /// No segments and no endings.
    pub fn new(alloc: Global, site: SiteId) -> Threads<W>
        ensures running { (t : ℕ) → running_at result t ≡ None }
        ensures pending { (call : ℕ) → pending_at result call ≡ None }
        ensures ended { (t : ℕ) → ended_at result t ≡ None }
        ensures site { result.site ≡ site }
    {
        Threads {
            site,
            running: Vec::new(alloc),
            pending: Slab::new(alloc),
            ended: Vec::new(alloc),
        }
    }

    /// The site.
    pub fn site(&self) -> SiteId
        ensures { result ≡ self.now.site }
    {
        self.site
    }

    /// The running segment of a thread: none exactly where it has none here. It takes no memory.
    pub fn running(&self, thread: ThreadId) -> Option<&Segment<W>>
        ensures { option_copied result ≡ running_at self.now thread.0 }
    {
        row(&self.running, thread.0 as usize)
    }

    /// How a thread ended: none exactly where it hasn't ended here. It takes no memory.
    pub fn ended(&self, thread: ThreadId) -> Option<&Ended>
        ensures { option_copied result ≡ ended_at self.now thread.0 }
    {
        row(&self.ended, thread.0 as usize)
    }

    /// Takes the running segment of a thread away: none exactly where it has none here. It takes no memory.
    pub fn finish(&mut self, thread: ThreadId) -> Option<Segment<W>>
        ensures segment { result ≡ running_at self.old thread.0 }
        ensures running { Sets (running_at self.old) (running_at self.new) thread.0 None }
        ensures pending { Same (pending_at self.old) (pending_at self.new) }
        ensures ended { Same (ended_at self.old) (ended_at self.new) }
        ensures site { self.new.site ≡ self.old.site }
    {
        take(&mut self.running, thread.0 as usize)
    }
}

impl<W: Drop> Threads<W> {
    ghost use Rattle.obq_thread.specs.declared.segments.Segment.{Segment};
    ghost use Rattle.obq_thread.specs.declared.segments.Suspended.{Suspended};
    ghost use Rattle.obq_thread.specs.Threads.{running_at, pending_at, ended_at};

    /// The thread has a running segment with this window, which answers this pending call, if any. It should have none here; its
    /// suspended segments stay.
    pub fn start(
        &mut self,
        thread: ThreadId,
        window: W,
        answers: Option<(SiteId, u64)>,
    ) -> Result<(), NoMemory>
        ensures running { OnOk result (Sets (running_at self.old) (running_at self.new) thread.0 (Some (record { window = window; answers = answers }))) }
        ensures err { OnErr result (Same (running_at self.old) (running_at self.new)) }
        ensures pending { Same (pending_at self.old) (pending_at self.new) }
        ensures ended { Same (ended_at self.old) (ended_at self.new) }
        ensures site { self.new.site ≡ self.old.site }
    {
        let place = thread.0 as usize;
        make_room(&mut self.running, place)?;
        fill(&mut self.running, place, Segment { window, answers });
        Ok(())
    }

    /// The thread has ended so.
    pub fn end(&mut self, thread: ThreadId, how: Ended) -> Result<(), NoMemory>
        ensures ended { OnOk result (Sets (ended_at self.old) (ended_at self.new) thread.0 (Some how)) }
        ensures err { OnErr result (Same (ended_at self.old) (ended_at self.new)) }
        ensures running { Same (running_at self.old) (running_at self.new) }
        ensures pending { Same (pending_at self.old) (pending_at self.new) }
        ensures site { self.new.site ≡ self.old.site }
    {
        let place = thread.0 as usize;
        make_room(&mut self.ended, place)?;
        fill(&mut self.ended, place, how);
        Ok(())
    }

    /// Gives the running segment of a thread a new window, and answers the former one. It takes no memory.
    pub fn set(&mut self, thread: ThreadId, window: W) -> W
        requires { is_some (running_at self.old thread.0) ≡ true }
        ensures former { (s : Segment W) → running_at self.old thread.0 ≡ Some s → result ≡ s.window }
        ensures running { (s : Segment W) → running_at self.old thread.0 ≡ Some s → Sets (running_at self.old) (running_at self.new) thread.0 (Some (record { window = window; answers = s.answers })) }
        ensures pending { Same (pending_at self.old) (pending_at self.new) }
        ensures ended { Same (ended_at self.old) (ended_at self.new) }
        ensures site { self.new.site ≡ self.old.site }
    {
        let place = thread.0 as usize;
        match take(&mut self.running, place) {
            Some(
                Segment {
                    window: former,
                    answers,
                },
            ) => {
                fill(&mut self.running, place, Segment { window, answers });
                former
            }
            None => unreachable!(),
        }
    }

    /// Suspends the running segment of a thread, and answers the number of a new pending call.
    pub fn suspend(&mut self, thread: ThreadId) -> Result<u64, NoMemory>
        requires { is_some (running_at self.old thread.0) ≡ true }
        ensures call { IfOk result (λ call. pending_at self.old call ≡ None) }
        ensures pending { (s : Segment W) → running_at self.old thread.0 ≡ Some s → IfOk result (λ call. Sets (pending_at self.old) (pending_at self.new) call (Some (record { thread = thread; segment = s }))) }
        ensures running { OnOk result (Sets (running_at self.old) (running_at self.new) thread.0 None) }
        ensures err_running { OnErr result (Same (running_at self.old) (running_at self.new)) }
        ensures err_pending { OnErr result (Same (pending_at self.old) (pending_at self.new)) }
        ensures ended { Same (ended_at self.old) (ended_at self.new) }
        ensures site { self.new.site ≡ self.old.site }
    {
        self.pending.reserve(1)?;
        match take(&mut self.running, thread.0 as usize) {
            Some(segment) => {
                let call = self.pending.insert_reserved(Suspended { thread, segment });
                Ok(call as u64)
            }
            None => unreachable!(),
        }
    }

    /// Makes the segment of a pending call its thread's running one again: none exactly where that call isn't pending. That thread
    /// should have no running segment here. It takes no memory.
    pub fn resume(&mut self, call: u64) -> Option<ThreadId>
        ensures thread { result ≡ option_map (λ e. e.thread) (pending_at self.old call) }
        ensures running { (e : Suspended W) → pending_at self.old call ≡ Some e → Sets (running_at self.old) (running_at self.new) e.thread.0 (Some e.segment) }
        ensures pending { Sets (pending_at self.old) (pending_at self.new) call None }
        ensures none { IfNone result (Same (running_at self.old) (running_at self.new)) }
        ensures ended { Same (ended_at self.old) (ended_at self.new) }
        ensures site { self.new.site ≡ self.old.site }
    {
        match self.pending.try_remove(call as usize) {
            Some(Suspended { thread, segment }) => {
                fill(&mut self.running, thread.0 as usize, segment);
                Some(thread)
            }
            None => None,
        }
    }
}
