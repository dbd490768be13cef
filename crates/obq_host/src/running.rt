//! Pure steps of a thread.

ghost use Rattle.std.specs.Prelude.{◌≡◌, ◌≤◌, IfOk};
ghost use Rattle.obq_host.specs.Running.{OpensSo, RunsSo};
ghost use Rattle.obq_host.specs.Turns.{IsRunningHere, RunsHere};
ghost use Rattle.obq_moves.specs.Views.{shown};

use crate::host::Host;
use crate::places::{put_at, take_at};
use obq_base::{CodeNo, NoMemory, ThreadId};
use obq_code::Codes;
use obq_except::Window;
use obq_world::{Slice, Stop};
use std::alloc::Global;

/// How windows do pure steps. The crate that has them stands above this one.
pub trait PureSteps {
    /// The window of the code of a source's block, outside of all activations and objects.
    fn main_window(alloc: Global, main: CodeNo, thread: ThreadId) -> Window
        ensures { OpensSo main (shown result) };

    /// Pure steps of a window until an act or the end stands next, at most so many. After want of memory the window is spent.
    fn run_pure(
        alloc: Global,
        codes: &Codes,
        window: &mut Window,
        most: u32,
    ) -> Result<Slice, NoMemory>
        ensures few { IfOk result (λ slice. slice.steps ≤ most) }
        ensures runs { IfOk result (λ slice. RunsSo codes.now (shown window.old) slice.steps slice.stop (shown window.new)) };
}

/// A window behind pure steps.
#[derive(Drop)]
struct Ran {
    window: Window,
    slice: Slice,
}

fn run_window<P: PureSteps>(
    alloc: Global,
    codes: &Codes,
    mut window: Window,
    most: u32,
) -> Result<Ran, NoMemory>
    ensures few { IfOk result (λ ran. ran.slice.steps ≤ most) }
    ensures runs { IfOk result (λ ran. RunsSo codes.now (shown window) ran.slice.steps ran.slice.stop (shown ran.window)) }
{
    let slice = P::run_pure(alloc, codes, &mut window, most)?;
    Ok(Ran { window, slice })
}

impl Host {
    /// Pure steps of a thread that runs here, until an act or the end stands next, at most so many.
    pub fn run<P: PureSteps>(
        &mut self,
        codes: &Codes,
        thread: ThreadId,
        most: u32,
    ) -> Result<Slice, NoMemory>
        ensures { IfOk result (λ slice. IsRunningHere self.old thread.0 → RunsHere codes.now self.old thread.0 most slice self.new) }
    {
        let Some(window) = take_at(&mut self.windows, thread.0 as usize) else {
            return Ok(Slice {
                steps: 0,
                stop: Stop::Most,
            });
        };
        let Ran { window, slice } = run_window::<P>(self.alloc, codes, window, most)?;
        put_at(&mut self.windows, thread.0 as usize, window)?;
        Ok(slice)
    }
}
