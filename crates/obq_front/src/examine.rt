//! Several sources, one after another.

ghost use Rattle.std.specs.Prelude.{◌≡◌, ◌≤◌, IfErr, IfOk, length};
ghost use Rattle.obq_model.specs.Sources.{IsFirstRefused};
ghost use Rattle.obq_front.specs.Contents.{AllWithin, IsProgram, contents};
ghost use Rattle.obq_front.specs.Refusals.{IfRefused, refused_at};

use crate::gathered::Gathered;
use crate::program::{FrontRefused, Program, Source};
use crate::single::SourceRefused;
use obq_base::limits::SOURCE_LIMIT;
use std::alloc::Global;

/// The refusal of the source with this number.
fn refused(source: u16, why: SourceRefused) -> FrontRefused
    ensures { result ≡ refused_at source why }
{
    match why {
        SourceRefused::Fault(fault) => FrontRefused::Refused { source, fault },
        SourceRefused::NoMemory => FrontRefused::NoMemory,
    }
}

/// Examines sources in order, each wholly before the next: its bytes, its tokens, its names. The
/// first fault refuses them all; without one they give their program, as no sources do.
pub fn front(alloc: Global, sources: &[Source]) -> Result<Program, FrontRefused>
    requires most { length sources.now ≤ 16 }
    requires within { AllWithin SOURCE_LIMIT (contents sources.now) }
    ensures accepted { IfOk result (λ program. IsProgram sources.now program) }
    ensures refused { IfErr result (λ why. IfRefused why (IsFirstRefused (contents sources.now))) }
{
    let mut gathered = Gathered::new(alloc);
    for (i, source) in sources.iter().enumerate() {
        match gathered.add(alloc, i as u16, source) {
            Ok(()) => {}
            Err(why) => {
                drop(gathered);
                return Err(refused(i as u16, why));
            }
        }
    }
    match gathered.into_program() {
        Ok(program) => Ok(program),
        Err(_) => Err(FrontRefused::NoMemory),
    }
}
