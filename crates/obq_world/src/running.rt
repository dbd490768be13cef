//! The end of a run at one site.

ghost use Rattle.std.specs.Prelude.{IfOk};
ghost use Rattle.obq_world.specs.Ends.{IsEndOf};
ghost use Rattle.obq_world.specs.State.{EndsOver};

use crate::machine::{Machine, Refused};
use crate::naming::Naming;
use crate::world::{Advanced, World};
use obq_base::limits::THREAD_LIMIT;
use obq_base::{Report, ThreadId};
use obq_journal::Journal;
use std::alloc::Global;

/// A run that is over: what its site wrote, how its threads stand, and its history.
#[derive(Drop)]
pub struct Ended {
    pub text: Vec<u8>,
    pub report: Report,
    pub journal: Journal,
}

/// What a World tells where it is over.
fn tell_end<J: Naming, M: Machine<J>>(alloc: Global, world: World<J, M>) -> Result<Ended, Refused>
    requires over { EndsOver J.program J.turns world.journal }
    ensures { IfOk result (IsEndOf J.program J.turns) }
{
    let Some(written) = world.output(0) else {
        return Err(Refused::Beyond);
    };
    let text = Vec::from_slice(alloc, written)?;
    let report = world.report();
    let journal = world.into_journal();
    Ok(Ended {
        text,
        report,
        journal,
    })
}

/// No claim is out any more.
fn end_claims<J: Naming, M: Machine<J>>(world: &mut World<J, M>) {
    for thread in 0..THREAD_LIMIT {
        world.give_back(ThreadId(thread));
    }
}

/// Goes on with a World until no thread can go on, whatever claims were out. In each turn of the run a thread does at most so many pure steps.
pub fn run_on<J: Naming, M: Machine<J>>(
    alloc: Global,
    world: World<J, M>,
    most: u32,
) -> Result<Ended, Refused>
    ensures { IfOk result (IsEndOf J.program J.turns) }
{
    let mut world = world;
    end_claims(&mut world);
    for _ in 0..u64::MAX {
        match world.advance(most)? {
            Advanced::Went(next) => world = next,
            Advanced::Over(last, _) => return tell_end(alloc, last),
            Advanced::Claimed(_) => return Err(Refused::Beyond),
        }
    }
    // A thread has a limit of turns, and there are at most 64: no run has so many entries.
    Err(Refused::Beyond)
}
