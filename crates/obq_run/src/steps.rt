//! The pure steps of a site's windows are those of the pure machine.

ghost use Rattle.std.specs.Prelude.{◌≡◌};
ghost use Rattle.obq_run.specs.Stops.{stop_of};

use obq_base::{CodeNo, NoMemory, ThreadId};
use obq_calls::machine::Machine;
use obq_code::Codes;
use obq_except::Window;
use obq_host::PureSteps;
use obq_pure::opening::main_window;
use obq_pure::steps::{Stop as Why, run_pure};
use obq_world::{Slice, Stop};
use std::alloc::Global;

/// The pure machine.
pub struct Steps;

fn stop_of(why: Why) -> Stop
    ensures { result ≡ stop_of why }
{
    match why {
        Why::Most => Stop::Most,
        Why::Needs => Stop::Needs,
        Why::Bottom => Stop::Bottom,
    }
}

impl PureSteps for Steps {
    fn main_window(alloc: Global, main: CodeNo, thread: ThreadId) -> Window {
        main_window(alloc, main, thread)
    }

    fn run_pure(
        alloc: Global,
        codes: &Codes,
        window: &mut Window,
        most: u32,
    ) -> Result<Slice, NoMemory> {
        let machine = Machine { alloc, codes };
        let run = run_pure(&machine, window, most)?;
        Ok(Slice {
            steps: run.n,
            stop: stop_of(run.stop),
        })
    }
}
