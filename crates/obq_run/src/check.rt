//! The examination of sources that aren't run.

ghost use Rattle.std.specs.Prelude.{◌≡◌, ◌⊎◌, ◌<◌, ◌≤◌, [], IfErr, List, OnOk, length, ℕ};
ghost use Rattle.std.specs.Io.KnownBytes.{Appends};
ghost use Rattle.obq_io.specs.Causes.{Rose};
ghost use Rattle.obq_io.specs.Known.{GetsPrefix};
ghost use Rattle.obq_model.specs.Output.{check_text};
ghost use Rattle.obq_run.specs.Ends.{GetsLine, IfReadFault, IfRefused, IfTooLong, IsCheckEnd, IsCheckFinish, HasStatus, IsRefusal, IsSourceRefusal, OnChecked, OnWriteFault, line_of};
ghost use Rattle.obq_run.specs.Held.{IsFaultAt, IsTooLongAt, PathRose};
ghost use Rattle.obq_run.specs.Runs.{CheckCompletes, IsCheckOf, IsRefusalOf, RefusalCompletes, TooLongCompletes};
ghost use Rattle.obq_words.specs.Words.{AreInForm, names_of, paths_of};

use crate::accepted::accepted_sources;
use crate::ends::{Cause, End, status_for};
use crate::finish::refuse;
use crate::texts::{write_cause, write_checked};
use obq_base::limits::SOURCE_LIMIT;
use obq_io::{Files, Sink};
use obq_journal::Journal;
use obq_words::SiteWord;
use std::alloc::Global;

/// Reads and examines the sources of the sites, without writing anything.
fn check_files<F: Files>(alloc: Global, files: &mut F, sites: &[SiteWord]) -> Result<(), Cause>
    requires { length sites.now ≤ 16 }
    ensures same { (n : List ℕ) → F.holds files.new n ≡ F.holds files.old n }
    ensures accepted { OnOk result (IsCheckOf (F.holds files.old) SOURCE_LIMIT (paths_of sites.now)) }
    ensures only { IfErr result IsSourceRefusal }
    ensures read_fault { IfErr result (λ cause. IfReadFault cause (IsFaultAt (F.holds files.old) SOURCE_LIMIT (PathRose (F.faults files.old) (F.faults files.new)) (paths_of sites.now))) }
    ensures too_long { IfErr result (λ cause. IfTooLong cause (IsTooLongAt (F.holds files.old) SOURCE_LIMIT (paths_of sites.now))) }
    ensures refused { IfErr result (λ cause. IfRefused cause (IsRefusalOf (F.holds files.old) SOURCE_LIMIT (paths_of sites.now))) }
{
    match accepted_sources(alloc, files, sites) {
        Ok(_accepted) => Ok(()),
        Err(cause) => Err(cause),
    }
}

/// The end of a call whose sources are accepted: that is written.
fn finish<O: Sink, E: Sink>(alloc: Global, out: &mut O, err: &mut E, sites: &[SiteWord]) -> End
    ensures no_journal { result.journal.entries ≡ [] }
    ensures whole { OnChecked result.cause (Appends (O.written out.old) (O.written out.new) (check_text (names_of sites.now))) }
    ensures part { OnWriteFault result.cause (GetsPrefix (O.written out.old) (O.written out.new) (check_text (names_of sites.now))) }
    ensures write_fault { OnWriteFault result.cause (Rose (O.faults out.old) (O.faults out.new)) }
    ensures only { IsCheckFinish result.cause }
    ensures status { HasStatus result.cause result.status }
    ensures told { GetsLine (E.written err.old) (E.written err.new) (Rose (E.faults err.old) (E.faults err.new)) (line_of (names_of sites.now) result.cause) }
    ensures quiet { OnChecked result.cause (err.new ≡ err.old) }
{
    let cause = match write_checked(out, sites) {
        Ok(()) => Cause::Checked,
        Err(_) => {
            let _ = write_cause(err, sites, &Cause::WriteFault);
            Cause::WriteFault
        }
    };
    End {
        status: status_for(&cause),
        cause,
        journal: Journal::new(alloc, 0),
    }
}

/// Examines the sources of the sites in order, and writes to `out` that they are accepted, or tells
/// on `err` why they aren't. It waits for nobody.
pub fn check_sources<F: Files, O: Sink, E: Sink>(
    alloc: Global,
    sites: &[SiteWord],
    files: &mut F,
    out: &mut O,
    err: &mut E,
) -> End
    requires { AreInForm sites.now }

    // Each cause comes only where it may.
    ensures only { IsCheckEnd result.cause }
    ensures read_fault { IfReadFault result.cause (IsFaultAt (F.holds files.old) SOURCE_LIMIT (PathRose (F.faults files.old) (F.faults files.new)) (paths_of sites.now)) }
    ensures too_long { IfTooLong result.cause (IsTooLongAt (F.holds files.old) SOURCE_LIMIT (paths_of sites.now)) }
    ensures refused { IfRefused result.cause (IsRefusalOf (F.holds files.old) SOURCE_LIMIT (paths_of sites.now)) }
    ensures write_fault { OnWriteFault result.cause (Rose (O.faults out.old) (O.faults out.new)) }

    // The sources derive trees without an unbound name, and that is what is written.
    ensures checked { OnChecked result.cause (IsCheckOf (F.holds files.old) SOURCE_LIMIT (paths_of sites.now)
        × Appends (O.written out.old) (O.written out.new) (check_text (names_of sites.now))) }
    ensures part { OnWriteFault result.cause (IsCheckOf (F.holds files.old) SOURCE_LIMIT (paths_of sites.now)
        × GetsPrefix (O.written out.old) (O.written out.new) (check_text (names_of sites.now))) }
    ensures status { HasStatus result.cause result.status }
    ensures completes { CheckCompletes (F.holds files.old) SOURCE_LIMIT (paths_of sites.now) (PathRose (F.faults files.old) (F.faults files.new)) (Rose (O.faults out.old) (O.faults out.new)) result.cause }
    ensures completes_refused { RefusalCompletes (F.holds files.old) SOURCE_LIMIT (paths_of sites.now) (PathRose (F.faults files.old) (F.faults files.new)) result.cause }
    ensures completes_too_long { TooLongCompletes (F.holds files.old) SOURCE_LIMIT (paths_of sites.now) (PathRose (F.faults files.old) (F.faults files.new)) result.cause }

    // A refusal writes nothing but its line.
    ensures unwritten { IsRefusal result.cause → out.new ≡ out.old }
    ensures no_journal { result.journal.entries ≡ [] }
    ensures told { GetsLine (E.written err.old) (E.written err.new) (Rose (E.faults err.old) (E.faults err.new)) (line_of (names_of sites.now) result.cause) }
    ensures quiet { OnChecked result.cause (err.new ≡ err.old) }
    ensures same { (n : List ℕ) → F.holds files.new n ≡ F.holds files.old n }
{
    match check_files(alloc, files, sites) {
        Ok(()) => finish(alloc, out, err, sites),
        Err(cause) => refuse(alloc, err, sites, cause),
    }
}
