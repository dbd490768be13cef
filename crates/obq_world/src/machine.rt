//! What a World needs of the machine below it: windows that run pure steps, and a site that does acts. This crate stands below the crates
//! that have them, so it speaks of them by a trait.

ghost use Rattle.std.specs.Prelude.{◌≡◌, ◌<◌, ◌≤◌, ◌+◌, ◌^◌, IfOk, IsTrue, Some, MatchBool};
ghost use Rattle.obq_world.specs.Meaning.{Meaning, IsRunning};
ghost use Rattle.obq_world.specs.Acts.{Begins, CanAct, IsDue, IsRunOn, TellsEnding, TellsText, TriedCases, WaitsHere};

use crate::naming::Naming;
use obq_base::{Act, NoMemory, ThreadId};
use std::alloc::{AllocError, Global};

/// Why pure steps stopped.
#[derive(Clone, Copy, Debug, PartialEq, Eq)]
pub enum Stop {
    /// As many were done as were wanted.
    Most,
    /// The form of an act stands next.
    Needs,
    /// A value or a raising stands outside of all frames.
    Bottom,
}

/// What an act made besides.
#[derive(Clone, Copy, Debug, PartialEq, Eq)]
pub enum Made {
    Nothing,
    Cell,
    Thread,
}

/// What came of an act that was tried.
#[derive(Clone, Copy, Debug, PartialEq, Eq)]
pub enum Tried {
    Did(Act, Made),
    /// The act waits.
    Waits,
}

/// Why a machine doesn't go on. Nothing is known of it then.
#[derive(Clone, Copy, Debug, PartialEq, Eq)]
pub enum Refused {
    NoMemory,
    /// The act is one that this machine doesn't do.
    Beyond,
}

impl From<NoMemory> for Refused {
    fn from(_: NoMemory) -> Refused {
        Refused::NoMemory
    }
}

impl From<AllocError> for Refused {
    fn from(_: AllocError) -> Refused {
        Refused::NoMemory
    }
}

/// So many pure steps were done, and why they stopped.
#[derive(Clone, Copy, Debug, PartialEq, Eq)]
pub struct Slice {
    pub steps: u32,
    pub stop: Stop,
}

/// How a thread ended.
#[derive(Clone, Copy, Debug, PartialEq, Eq)]
pub enum HowEnded {
    ByValue,
    ByException,
}

/// A site of a program's machine: its cells, the windows of the threads that run there, and the endings that are kept there. After a refusal
/// it is spent: nothing is known of it.
pub trait Machine<J: Naming>: Drop {
    type Codes: Drop;

    type Window: Drop;

    /// What codes, windows and sites mean.
    ghost meaning: { Meaning Self.Codes Self.Window Self };

    /// The site with its writer and thread 0, whose window is that in which the block of source 0 begins.
    fn begin(alloc: Global, codes: &Self::Codes) -> Result<Self, NoMemory>
        requires { meaning.are_codes codes.now }
        ensures { IfOk result (λ site. Begins meaning J.program site) };

    /// Pure steps of a thread until an act or the end stands next, at most so many.
    fn run(&mut self, codes: &Self::Codes, thread: ThreadId, most: u32) -> Result<Slice, NoMemory>
        requires codes { meaning.are_codes codes.now }
        requires running { IsRunning meaning self.old thread.0 }
        ensures { IfOk result (λ slice. IsRunOn meaning self.old thread.0 most slice self.new) };

    /// Whether the thread has a window here.
    fn is_running(&self, thread: ThreadId) -> bool
        ensures { MatchBool result (IsRunning meaning self.now thread.0) (IsRunning meaning self.now thread.0 → ⊥) };

    /// Whether the act that stands next in the thread's window waits. It may also be told `false` of an act that waits.
    fn waits(&self, thread: ThreadId) -> bool
        requires { IsRunning meaning self.now thread.0 }
        ensures { IsTrue result → WaitsHere meaning self.now thread.0 };

    /// Tries the act that is due in the thread's window. So many cells and threads were made before it.
    fn act(
        &mut self,
        codes: &Self::Codes,
        thread: ThreadId,
        cells: u64,
        threads: u32,
    ) -> Result<Tried, Refused>
        requires codes { meaning.are_codes codes.now }
        requires running { IsRunning meaning self.old thread.0 }
        requires due { (w : Self.Window) → meaning.windows self.old thread.0 ≡ Some w → IsDue meaning w }
        requires can { (w : Self.Window) → meaning.windows self.old thread.0 ≡ Some w → CanAct meaning J.program threads self.old thread.0 w }
        requires room { (meaning.size self.old ≤ cells) × (cells + 1 < 2 ^ 32) }
        requires threads { threads ≤ 64 }
        ensures { IfOk result (λ tried. TriedCases meaning self.old thread.0 cells threads tried self.new) };

    /// How the thread ended, if its ending is kept here.
    fn ending(&self, thread: ThreadId) -> Option<HowEnded>
        ensures { TellsEnding meaning self.now thread.0 result };

    /// The text of the site's writer.
    fn text(&self) -> &[u8]
        ensures { TellsText meaning self.now result.now };
}
