//! The site as the machine of a run.

ghost use Rattle.std.specs.Prelude.{◌≡◌, option_map, slice_get, unwrap_or};

use crate::host::Host;
use crate::running::PureSteps;
use obq_base::{CodeNo, NoMemory, ThreadId};
use obq_code::Codes;
use obq_except::Window;
use obq_world::{HowEnded, Machine, Naming, Refused, Slice, Tried};
use std::alloc::Global;
use std::marker::{Model, PhantomData};

/// A site whose windows do their pure steps by `P`.
#[derive(Drop)]
pub struct Site<P> {
    host: Host,
    steps: PhantomData<P>,
}

impl<P> Model for Site<P> {
    ghost use Rattle.obq_host.specs.contracts.host.Host as held;
    ghost use Rattle.obq_host.specs.declared.host.Host.{Host};

    ghost Value = { Host };

    ghost coded = { held.the_row.coded };

    ghost view = { λ site. site.host };
}

/// The code of the first block; any where there is none.
fn first_code(codes: &Codes) -> CodeNo
    ensures { result ≡ unwrap_or (option_map (λ part. part.main) (slice_get codes.now 0)) (record { source = 0; n = 0 }) }
{
    match codes.main(0) {
        Some(number) => number,
        None => CodeNo { source: 0, n: 0 },
    }
}

impl<J: Naming, P: PureSteps> Machine<J> for Site<P> {
    ghost use Rattle.obq_host.specs.Meanings.{meaning_of};

    type Codes = Codes;

    type Window = Window;

    ghost meaning = { meaning_of J.parts J.table J.program };

    fn begin(alloc: Global, codes: &Codes) -> Result<Site<P>, NoMemory> {
        let window = P::main_window(alloc, first_code(codes), ThreadId(0));
        let host = Host::begin(alloc, window)?;
        Ok(Site {
            host,
            steps: PhantomData,
        })
    }

    fn run(&mut self, codes: &Codes, thread: ThreadId, most: u32) -> Result<Slice, NoMemory> {
        self.host.run::<P>(codes, thread, most)
    }

    fn is_running(&self, thread: ThreadId) -> bool {
        self.host.is_running(thread)
    }

    fn waits(&self, thread: ThreadId) -> bool {
        self.host.waits(thread)
    }

    fn act(
        &mut self,
        codes: &Codes,
        thread: ThreadId,
        cells: u64,
        threads: u32,
    ) -> Result<Tried, Refused> {
        self.host.act(codes, thread, cells, threads)
    }

    fn ending(&self, thread: ThreadId) -> Option<HowEnded> {
        self.host.ending(thread)
    }

    fn text(&self) -> &[u8] {
        self.host.text()
    }
}
