//! A run under one lock, and the workers that take turns with it.

ghost use Rattle.std.specs.Prelude.{◌≡◌, ◌<◌, ◌^◌, IfOk, vec_len};

use obq_io::{Gate, GateAt};
use obq_world::{Naming, Refused, Seen};
use std::alloc::Global;
use std::marker::PhantomData;
use std::sync::{Condvar, Mutex, Wait};
use std::thread;
use std::thread::Threads;

/// How often threads go on at most before the lock is given to another worker.
const BATCH: u32 = 64;

/// What became of a run that was to go on.
#[derive(Drop)]
pub enum Step<J: Naming> {
    /// A thread went on.
    Went,
    /// No thread can go.
    Over(Seen<J>),
    /// Each thread that can go has a claim out.
    Claimed,
    /// The run has ended for this.
    Refused(Refused),
}

/// A run whose threads go on one step after the other.
pub trait Steps<J: Naming>: Drop + Send {
    /// A thread goes on by at most so many pure steps and an act, if one can.
    fn step(&mut self, most: u32) -> Step<J>;
}

/// A run under one lock. The lock's type keeps which program, how many sites and which limit of turns it is about, and that its journal replays
/// to where it stands.
#[derive(Drop)]
pub struct Cluster<J: Naming, W: Steps<J>> {
    held: Mutex<W>,
    changed: Condvar,
    /// How many pure steps a thread does at most before another has its turn.
    most: u32,
    of: PhantomData<J>,
}

/// How a turn of a worker ended.
#[derive(Drop)]
pub enum Turn<J: Naming> {
    Went,
    /// The run was over under the lock.
    Over(Seen<J>),
    /// The run has ended for this.
    Refused(Refused),
}

/// Threads go on until none can, or as often as one worker may have the lock for.
fn go<J: Naming, W: Steps<J>>(held: &mut W, most: u32) -> Step<J> {
    for _ in 0..BATCH {
        match held.step(most) {
            Step::Went => {}
            step => return step,
        }
    }
    Step::Went
}

impl<J: Naming, W: Steps<J>> Cluster<J, W> {
    /// Puts a run under a lock. A thread will do at most so many pure steps before another has its turn.
    pub fn new(held: W, most: u32) -> Cluster<J, W> {
        Cluster {
            held: Mutex::new(held),
            changed: Condvar::new(),
            most,
            of: PhantomData,
        }
    }

    /// What lies under the lock.
    pub fn into_inner(self) -> W {
        let Cluster {
            held,
            changed: _,
            most: _,
            of: _,
        } = self;
        held.into_inner()
    }

    /// A turn of a worker: it takes the lock, and threads go on under it. Where each thread that can go has a claim out it waits until something
    /// has changed.
    pub fn turn<R: Wait, G: Gate>(&self, rt: &R, worker: u32, gate: &G) -> Turn<J> {
        gate.pass(worker, GateAt::Before);
        let mut held = self.held.lock(rt);
        for _ in rt.forever() {
            match go(&mut *held, self.most) {
                Step::Went => {
                    self.changed.notify_all();
                    return Turn::Went;
                }
                Step::Over(seen) => return Turn::Over(seen),
                Step::Claimed => held = self.changed.wait(rt, held),
                Step::Refused(why) => {
                    self.changed.notify_all();
                    return Turn::Refused(why);
                }
            }
        }
        unreachable!()
    }

    /// Turns of a worker until the run is over or has ended for something else.
    fn turns<R: Wait, G: Gate>(&self, rt: &R, worker: u32, gate: &G) -> Result<Seen<J>, Refused> {
        for _ in rt.forever() {
            match self.turn(rt, worker, gate) {
                Turn::Went => {}
                Turn::Over(seen) => return Ok(seen),
                Turn::Refused(why) => return Err(why),
            }
        }
        unreachable!()
    }
}

/// Runs so many workers until each has seen that the run is over, and answers what they saw in the order of their numbers.
pub fn run_workers<J, W, R, G>(
    rt: &R,
    alloc: Global,
    cluster: &Cluster<J, W>,
    workers: u32,
    gate: &G,
) -> Result<Vec<Seen<J>>, Refused>
where
    J: Naming + Send + Sync,
    W: Steps<J>,
    R: Threads + Wait + Sync,
    G: Gate,
    ensures { IfOk result (λ seen. vec_len seen ≡ workers) }
{
    let ends = thread::map_indices(
        rt,
        alloc,
        workers as usize,
        &|i| -> Result<Seen<J>, Refused>
            requires { i < 2 ^ 32 }
        { cluster.turns(rt, i as u32, gate) },
    )?;
    all_seen(alloc, ends)
}

/// What each worker saw, if each saw the run over.
fn all_seen<J: Naming>(
    alloc: Global,
    ends: Vec<Result<Seen<J>, Refused>>,
) -> Result<Vec<Seen<J>>, Refused>
    ensures { IfOk result (λ seen. vec_len seen ≡ vec_len ends) }
{
    let mut ends = ends;
    let mut all = Vec::new(alloc);
    while let Some(end) = ends.pop() {
        if all.push(end?).is_err() {
            return Err(Refused::NoMemory);
        }
    }
    all.reverse();
    Ok(all)
}
