//! The system's writers as sinks.

ghost use Rattle.std.specs.Prelude.{◌≡◌, ◌-◌, ◌≤◌, ◌^◌};
ghost use Rattle.obq_io.specs.Causes.{capped};
ghost use Rattle.std.proofs.Common.{arith};

use crate::files::{Failed, Sink};
use std::io::Write;

/// A writer, as standard output or error, as a sink. It tells what the writer tells, which for the
/// system's streams is nothing. A write that takes nothing counts as a fault.
#[derive(Drop)]
pub struct StdSink<W: Write + Drop> {
    inner: W,
    faults: u64,
}

impl<W: Write + Drop> StdSink<W> {
    /// A sink that writes to `inner` and counts the writes that it refuses.
    pub fn new(inner: W) -> StdSink<W>
        ensures written { W.contents result.inner ≡ W.contents inner }
        ensures faults { result.faults ≡ 0 }
    {
        StdSink { inner, faults: 0 }
    }
}

impl<W: Write + Drop> Sink for StdSink<W> {
    ghost written = { λ s. W.contents s.inner };

    ghost faults = { λ s. capped s.faults };

    ghost bounded = { λ s. Prim.omega arith };

    fn write(&mut self, piece: &[u8]) -> Result<usize, Failed> {
        match self.inner.write(piece) {
            Ok(count) => {
                if count > 0 || piece.is_empty() {
                    return Ok(count);
                }
            }
            Err(_) => {}
        }
        self.faults = self.faults.saturating_add(1);
        Err(Failed)
    }
}
