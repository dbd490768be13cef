//! The replay of a journal over sources.

ghost use Rattle.std.specs.Prelude.{◌≡◌, ◌⊎◌, ◌≤◌, [], IfErr, IfOk, List, MatchResult, length, map, ℕ};
ghost use Rattle.std.specs.Io.KnownBytes.{Appends};
ghost use Rattle.obq_base.specs.declared.limits.TheConstants.{JOURNAL_LIMIT, SOURCE_LIMIT};
ghost use Rattle.obq_front.specs.Contents.{AllWithin, contents};
ghost use Rattle.obq_io.specs.Causes.{Rose};
ghost use Rattle.obq_io.specs.Known.{GetsPrefix, IsIt};
ghost use Rattle.obq_journal.specs.Recording.{shown};
ghost use Rattle.obq_model.specs.Journal as history;
ghost use Rattle.obq_model.specs.Replay.{status};
ghost use Rattle.obq_run.specs.Ends.{GetsLine, HasStatus, IsRefusal, IsReplayEnd, IsReplayFinish, OnReplayed, OnWriteFault, line_of, unread_journal_cause};
ghost use Rattle.obq_run.specs.Held.{AreHeld, PathRose};
ghost use Rattle.obq_run.specs.Played.{ReplaysOf, SourcesReplay, output_text};
ghost use Rattle.obq_run.specs.Runs.{ReplayCompletes, ReplayRefusal, ReplaysTo, WithJournal};
ghost use Rattle.obq_words.specs.Words.{AreInForm, names_of, paths_of};

use crate::accepted::{cause_of, cause_of_refusal};
use crate::ends::{Cause, End, status_for};
use crate::finish::{refuse, write_whole};
use crate::playing::Played;
use crate::reading::read_sources;
use crate::replaying::replay_text;
use obq_base::limits::{JOURNAL_LIMIT, SOURCE_LIMIT};
use obq_ends::status_of;
use obq_front::{Source, front};
use obq_io::{Files, ReadRefused, Sink, read_file};
use obq_journal::Journal;
use obq_words::SiteWord;
use std::alloc::Global;

/// The bytes of the sources and of the journal's file.
#[derive(Drop)]
struct Given {
    sources: Vec<Source>,
    journal: Vec<u8>,
}

/// The cause where the journal wasn't read, which is the file with this number.
fn journal_cause(file: u16, refused: ReadRefused) -> Cause
    ensures { result ≡ unread_journal_cause file refused }
{
    match refused {
        ReadRefused::Fault => Cause::ReadFault { file },
        ReadRefused::TooLong => Cause::JournalTooLong,
        ReadRefused::NoMemory => Cause::NoMemory,
    }
}

/// Reads the sources of the sites in order, and then the journal.
fn read_given<F: Files>(
    alloc: Global,
    from: &str,
    files: &mut F,
    sites: &[SiteWord],
) -> Result<Given, Cause>
    requires { length sites.now ≤ 16 }
    ensures same { (n : List ℕ) → F.holds files.new n ≡ F.holds files.old n }
    ensures held { IfOk result (λ given. AreHeld (F.holds files.old) SOURCE_LIMIT (paths_of sites.now) (contents given.sources.items)) }
    ensures told { IfOk result (λ given. IsIt (F.holds files.old from.now) given.journal.items) }
    ensures within { IfOk result (λ given. length given.journal.items ≤ JOURNAL_LIMIT) }
    ensures unread { IfErr result (ReplayRefusal (F.holds files.old) (PathRose (F.faults files.old) (F.faults files.new)) (paths_of sites.now) from.now) }
{
    let sources = match read_sources(alloc, files, sites) {
        Ok(sources) => sources,
        Err(refused) => return Err(cause_of(refused)),
    };
    match read_file(alloc, files, from, JOURNAL_LIMIT) {
        Ok(journal) => Ok(Given { sources, journal }),
        Err(refused) => Err(journal_cause(sites.len() as u16, refused)),
    }
}

/// Examines the sources, and takes the entries of the journal over them.
fn replay_given(alloc: Global, given: &Given) -> Result<Played, Cause>
    requires sources { length given.now.sources.items ≤ 16 }
    requires within { AllWithin SOURCE_LIMIT (contents given.now.sources.items) }
    requires journal { length given.now.journal.items ≤ JOURNAL_LIMIT }
    ensures { SourcesReplay (contents given.now.sources.items) given.now.journal.items result }
{
    let program = match front(alloc, &given.sources) {
        Ok(program) => program,
        Err(refused) => return Err(cause_of_refusal(refused)),
    };
    replay_text(alloc, &program.blocks, &given.journal)
}

/// Reads the sources and the journal and replays it over them, without writing anything.
fn replay_files<F: Files>(
    alloc: Global,
    from: &str,
    files: &mut F,
    sites: &[SiteWord],
) -> Result<Played, Cause>
    requires { length sites.now ≤ 16 }
    ensures same { (n : List ℕ) → F.holds files.new n ≡ F.holds files.old n }
    ensures replayed { IfOk result (ReplaysOf (F.holds files.old) (paths_of sites.now) from.now) }
    ensures refused { IfErr result (ReplayRefusal (F.holds files.old) (PathRose (F.faults files.old) (F.faults files.new)) (paths_of sites.now) from.now) }
{
    let given = match read_given(alloc, from, files, sites) {
        Ok(given) => given,
        Err(cause) => return Err(cause),
    };
    replay_given(alloc, &given)
}

/// The end of a call whose journal was replayed: its output is written.
fn finish<O: Sink, E: Sink>(
    alloc: Global,
    out: &mut O,
    err: &mut E,
    sites: &[SiteWord],
    played: Played,
) -> End
    ensures replayed { OnReplayed result.cause ((shown result.journal ≡ shown played.journal) × (result.status ≡ status played.outcome.report)
        × Appends (O.written out.old) (O.written out.new) (output_text (names_of sites.now) played.outcome [])) }
    ensures part { OnWriteFault result.cause (GetsPrefix (O.written out.old) (O.written out.new) (output_text (names_of sites.now) played.outcome [])) }
    ensures write_fault { OnWriteFault result.cause (Rose (O.faults out.old) (O.faults out.new)) }
    ensures no_journal { OnWriteFault result.cause (result.journal.entries ≡ []) }
    ensures only { IsReplayFinish result.cause }
    ensures status { HasStatus result.cause result.status }
    ensures told { GetsLine (E.written err.old) (E.written err.new) (Rose (E.faults err.old) (E.faults err.new)) (line_of (names_of sites.now) result.cause) }
    ensures quiet { OnReplayed result.cause (err.new ≡ err.old) }
{
    let Played { outcome, journal } = played;
    match write_whole(out, err, sites, &outcome, b"") {
        Ok(()) => End {
            status: status_of(outcome.report),
            cause: Cause::Replayed,
            journal,
        },
        Err(_) => End {
            status: status_for(&Cause::WriteFault),
            cause: Cause::WriteFault,
            journal: Journal::new(alloc, 0),
        },
    }
}

/// Replays the journal in the file `from` over the sources of the sites, and writes their output to
/// `out` as a run does, or tells on `err` what isn't so. It waits for nobody.
pub fn replay_run<F: Files, O: Sink, E: Sink>(
    alloc: Global,
    from: &str,
    sites: &[SiteWord],
    files: &mut F,
    out: &mut O,
    err: &mut E,
) -> End
    requires { AreInForm sites.now }

    // Each cause comes only where it may.
    ensures only { IsReplayEnd result.cause }
    ensures refused { IsRefusal result.cause → ReplayRefusal (F.holds files.old) (PathRose (F.faults files.old) (F.faults files.new)) (paths_of sites.now) from.now result.cause }
    ensures write_fault { OnWriteFault result.cause (Rose (O.faults out.old) (O.faults out.new)) }

    // The journal of the file is a history of the sources, and what is written is its output.
    ensures replayed { OnReplayed result.cause ((text : List ℕ)
        × WithJournal (F.holds files.old) (paths_of sites.now) from.now (ReplaysTo (names_of sites.now) (shown result.journal) text result.status)
        × Appends (O.written out.old) (O.written out.new) text) }
    ensures part { OnWriteFault result.cause ((journal : history.Journal) × (text : List ℕ) × (ended : ℕ)
        × WithJournal (F.holds files.old) (paths_of sites.now) from.now (ReplaysTo (names_of sites.now) journal text ended)
        × GetsPrefix (O.written out.old) (O.written out.new) text) }
    ensures status { HasStatus result.cause result.status }
    ensures completes { ReplayCompletes (F.holds files.old) (paths_of sites.now) from.now (PathRose (F.faults files.old) (F.faults files.new)) (Rose (O.faults out.old) (O.faults out.new)) result.cause }

    // A refusal writes nothing but its line.
    ensures unwritten { IsRefusal result.cause → out.new ≡ out.old }
    ensures no_journal { IsRefusal result.cause → result.journal.entries ≡ [] }
    ensures no_journal_part { OnWriteFault result.cause (result.journal.entries ≡ []) }
    ensures told { GetsLine (E.written err.old) (E.written err.new) (Rose (E.faults err.old) (E.faults err.new)) (line_of (names_of sites.now) result.cause) }
    ensures quiet { OnReplayed result.cause (err.new ≡ err.old) }
    ensures same { (n : List ℕ) → F.holds files.new n ≡ F.holds files.old n }
{
    match replay_files(alloc, from, files, sites) {
        Ok(played) => finish(alloc, out, err, sites, played),
        Err(cause) => refuse(alloc, err, sites, cause),
    }
}
