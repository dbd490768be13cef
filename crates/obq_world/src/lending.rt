//! What claims on threads need of a machine besides: windows that are copied, run apart from their site, and given back.

ghost use Rattle.std.specs.Prelude.{◌≡◌, IfOk, MatchBool, Some};
ghost use Rattle.obq_world.specs.Acts.{Rewinds};
ghost use Rattle.obq_world.specs.Meaning.{IsRan, IsRunning};

use crate::machine::{Machine, Stop};
use crate::naming::Naming;
use obq_base::{NoMemory, ThreadId};
use std::alloc::Global;

/// A window behind so many pure steps.
#[derive(Drop)]
pub struct Ran<W> {
    pub window: W,
    pub steps: u32,
    pub stop: Stop,
}

/// A machine whose windows can be run apart from their site.
pub trait Lends<J: Naming>: Machine<J> {
    /// One more owner of the codes.
    fn share(codes: &Self::Codes) -> Result<Self::Codes, NoMemory>
        ensures { IfOk result (λ c. c ≡ codes.now) };

    /// An equal window.
    fn copy(alloc: Global, window: &Self::Window) -> Result<Self::Window, NoMemory>
        ensures { IfOk result (λ w. w ≡ window.now) };

    /// Pure steps until an act or the end stands next, at most so many.
    fn run_pure(
        codes: &Self::Codes,
        window: Self::Window,
        most: u32,
    ) -> Result<Ran<Self::Window>, NoMemory>
        requires { Self.meaning.are_codes codes.now }
        ensures { IfOk result (λ ran. IsRan Self.meaning window most ran) };

    /// Whether the thread has this window here.
    fn is_at(&self, thread: ThreadId, window: &Self::Window) -> bool
        ensures { MatchBool result (Self.meaning.windows self.now thread.0 ≡ Some window.now) (Self.meaning.windows self.now thread.0 ≡ Some window.now → ⊥) };

    /// A copy of the thread's window.
    fn copy_window(&self, thread: ThreadId) -> Result<Self::Window, NoMemory>
        requires { IsRunning Self.meaning self.now thread.0 }
        ensures { IfOk result (λ w. Self.meaning.windows self.now thread.0 ≡ Some w) };

    /// Gives the thread this window in place of its own.
    fn set_window(&mut self, thread: ThreadId, window: Self::Window)
        requires { IsRunning Self.meaning self.old thread.0 }
        ensures { Rewinds Self.meaning self.old thread.0 window self.new };
}
