//! The ends of calls: a refusal that is told, and an output that is written.

ghost use Rattle.std.specs.Prelude.{◌≡◌, ◌⊎◌, []};
ghost use Rattle.std.specs.Io.KnownBytes.{Appends};
ghost use Rattle.obq_io.specs.Causes.{Rose};
ghost use Rattle.obq_io.specs.Known.{GetsPrefix};
ghost use Rattle.obq_run.specs.Ends.{GetsLine, HasStatus, IsRefusal, line_of};
ghost use Rattle.obq_run.specs.Played.{Wrote, output_text};
ghost use Rattle.obq_words.specs.Words.{names_of};

use crate::ends::{Cause, End, status_for};
use crate::outcome::Outcome;
use crate::texts::{write_cause, write_output};
use obq_io::{Failed, Sink};
use obq_journal::Journal;
use obq_words::SiteWord;
use std::alloc::Global;

/// The end of a call that is refused before it writes: the cause is told on `err`.
pub fn refuse<E: Sink>(alloc: Global, err: &mut E, sites: &[SiteWord], cause: Cause) -> End
    requires { IsRefusal cause }
    ensures cause { result.cause ≡ cause }
    ensures status { HasStatus cause result.status }
    ensures no_journal { result.journal.entries ≡ [] }
    ensures told { GetsLine (E.written err.old) (E.written err.new) (Rose (E.faults err.old) (E.faults err.new)) (line_of (names_of sites.now) cause) }
{
    let _ = write_cause(err, sites, &cause);
    End {
        status: status_for(&cause),
        cause,
        journal: Journal::new(alloc, 0),
    }
}

/// Writes what a run came to, with this text behind it; where that fails it is told on `err`.
pub fn write_whole<O: Sink, E: Sink>(
    out: &mut O,
    err: &mut E,
    sites: &[SiteWord],
    outcome: &Outcome,
    journal: &[u8],
) -> Result<(), Failed>
    ensures { Wrote (output_text (names_of sites.now) outcome.now journal.now) (O.written out.old) (O.written out.new) (Rose (O.faults out.old) (O.faults out.new)) (E.written err.old) (E.written err.new) (Rose (E.faults err.old) (E.faults err.new)) (err.new ≡ err.old) result }
{
    match write_output(out, sites, outcome, journal) {
        Ok(()) => Ok(()),
        Err(failed) => {
            let _ = write_cause(err, sites, &Cause::WriteFault);
            Err(failed)
        }
    }
}
