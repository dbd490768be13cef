//! Sources that are read and examined.

ghost use Rattle.std.specs.Prelude.{◌≡◌, ◌<◌, ◌≤◌, IfErr, IfOk, List, length, ℕ};
ghost use Rattle.obq_front.specs.Contents.{IsProgram, contents};
ghost use Rattle.obq_run.specs.Ends.{IfReadFault, IfRefused, IfTooLong, IsSourceRefusal, refusal_cause, read_refusal_cause};
ghost use Rattle.obq_run.specs.Held.{AreHeld, IsFaultAt, IsTooLongAt, PathRose};
ghost use Rattle.obq_run.specs.Runs.{IsRefusalOf};
ghost use Rattle.obq_words.specs.Words.{paths_of};

use crate::ends::Cause;
use crate::reading::{SourcesRefused, read_sources};
use obq_base::limits::SOURCE_LIMIT;
use obq_front::{FrontRefused, Program, Source, front};
use obq_io::{Files, ReadRefused};
use obq_words::SiteWord;
use std::alloc::Global;

/// The cause where a file wasn't read.
pub fn cause_of(refused: SourcesRefused) -> Cause
    ensures { result ≡ read_refusal_cause refused }
{
    match refused.why {
        ReadRefused::Fault => Cause::ReadFault { file: refused.file },
        ReadRefused::TooLong => Cause::SourceTooLong {
            source: refused.file,
        },
        ReadRefused::NoMemory => Cause::NoMemory,
    }
}

/// The cause where sources aren't accepted.
pub fn cause_of_refusal(refused: FrontRefused) -> Cause
    ensures { result ≡ refusal_cause refused }
{
    match refused {
        FrontRefused::Refused { source, fault } => Cause::Refused { source, fault },
        FrontRefused::NoMemory => Cause::NoMemory,
    }
}

/// Sources that are accepted, and the program that they give.
#[derive(Drop)]
pub struct Accepted {
    pub sources: Vec<Source>,
    pub program: Program,
}

/// Reads the sources of the sites, all before the first is examined, and examines them.
pub fn accepted_sources<F: Files>(
    alloc: Global,
    files: &mut F,
    sites: &[SiteWord],
) -> Result<Accepted, Cause>
    requires { length sites.now ≤ 16 }
    ensures same { (n : List ℕ) → F.holds files.new n ≡ F.holds files.old n }
    ensures held { IfOk result (λ accepted. AreHeld (F.holds files.old) SOURCE_LIMIT (paths_of sites.now) (contents accepted.sources.items)) }
    ensures program { IfOk result (λ accepted. IsProgram accepted.sources.items accepted.program) }
    ensures only { IfErr result IsSourceRefusal }
    ensures read_fault { IfErr result (λ cause. IfReadFault cause (IsFaultAt (F.holds files.old) SOURCE_LIMIT (PathRose (F.faults files.old) (F.faults files.new)) (paths_of sites.now))) }
    ensures too_long { IfErr result (λ cause. IfTooLong cause (IsTooLongAt (F.holds files.old) SOURCE_LIMIT (paths_of sites.now))) }
    ensures refused { IfErr result (λ cause. IfRefused cause (IsRefusalOf (F.holds files.old) SOURCE_LIMIT (paths_of sites.now))) }
{
    let sources = match read_sources(alloc, files, sites) {
        Ok(sources) => sources,
        Err(refused) => return Err(cause_of(refused)),
    };
    match front(alloc, &sources) {
        Ok(program) => Ok(Accepted { sources, program }),
        Err(refused) => Err(cause_of_refusal(refused)),
    }
}
