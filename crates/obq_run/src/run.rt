//! The run of sources.

ghost use Rattle.std.specs.Prelude.{◌≡◌, ◌⊎◌, ◌≤◌, ◌++◌, [], IfErr, IfOk, List, OnOk, length, map, ℕ};
ghost use Rattle.std.specs.Io.KnownBytes.{Appends};
ghost use Rattle.obq_base.specs.View.{block_tree};
ghost use Rattle.obq_front.specs.Contents.{AreTabled};
ghost use Rattle.obq_io.specs.Causes.{Rose};
ghost use Rattle.obq_io.specs.Known.{GetsPrefix};
ghost use Rattle.obq_journal.specs.Recording.{shown};
ghost use Rattle.obq_model.specs.Replay.{status};
ghost use Rattle.obq_run.specs.Ends.{GetsLine, HasStatus, IfReadFault, IfRefused, IfTooLong, IsRefusal, IsRunEnd, IsRunFinish, IsSourceRefusal, OnRan, OnWriteFault, line_of};
ghost use Rattle.obq_run.specs.Held.{IsFaultAt, IsTooLongAt, PathRose};
ghost use Rattle.obq_run.specs.Played.{IsRanSo, RunsOf, behind_threads, output_text};
ghost use Rattle.obq_run.specs.Runs.{IsRefusalOf, IsRunOf, RefusalCompletes, RunCompletes, TooLongCompletes, journal_part};
ghost use Rattle.obq_words.specs.Words.{AreInForm, names_of, paths_of};

use crate::accepted::{Accepted, accepted_sources};
use crate::alone::play_program;
use crate::ends::{Cause, End, status_for};
use crate::finish::{refuse, write_whole};
use crate::links::{link_rows, links_part};
use crate::playing::Played;
use obq_base::NoMemory;
use obq_base::limits::SOURCE_LIMIT;
use obq_ends::status_of;
use obq_front::Program;
use obq_io::{Files, Sink};
use obq_journal::{Journal, write_journal};
use obq_links::LinkCount;
use obq_words::SiteWord;
use std::alloc::Global;

/// How sources are run, and what is written besides what they wrote.
#[derive(Clone, Copy, Debug, PartialEq, Eq)]
pub struct RunOrder {
    /// How many turns each thread has.
    pub turns: u32,
    /// Whether the journal is written, too.
    pub journal: bool,
    /// Whether the table of links is.
    pub links: bool,
}

/// A run, and the rows of its table of links where that is wanted.
#[derive(Drop)]
pub struct Ran {
    pub played: Played,
    pub links: Vec<LinkCount>,
}

/// Runs a program.
fn run_program(alloc: Global, program: Program, order: RunOrder) -> Result<Ran, NoMemory>
    requires few { length program.blocks.items ≤ 16 }
    requires codes { AreTabled 0 program.blocks.items program.codes }
    ensures { IfOk result (IsRanSo (map block_tree program.blocks.items) order.turns order.links) }
{
    let Program {
        names: _,
        blocks,
        codes,
    } = program;
    let played = play_program(alloc, &blocks, codes, order.turns)?;
    let links = link_rows(alloc, order.links, &blocks, &played.journal)?;
    Ok(Ran { played, links })
}

/// Reads, examines and runs the sources of the sites, without writing anything.
fn run_files<F: Files>(
    alloc: Global,
    files: &mut F,
    sites: &[SiteWord],
    order: RunOrder,
) -> Result<Ran, Cause>
    requires { length sites.now ≤ 16 }
    ensures same { (n : List ℕ) → F.holds files.new n ≡ F.holds files.old n }
    ensures ran { IfOk result (RunsOf (F.holds files.old) SOURCE_LIMIT (paths_of sites.now) order.turns order.links) }
    ensures only { IfErr result IsSourceRefusal }
    ensures read_fault { IfErr result (λ cause. IfReadFault cause (IsFaultAt (F.holds files.old) SOURCE_LIMIT (PathRose (F.faults files.old) (F.faults files.new)) (paths_of sites.now))) }
    ensures too_long { IfErr result (λ cause. IfTooLong cause (IsTooLongAt (F.holds files.old) SOURCE_LIMIT (paths_of sites.now))) }
    ensures refused { IfErr result (λ cause. IfRefused cause (IsRefusalOf (F.holds files.old) SOURCE_LIMIT (paths_of sites.now))) }
{
    let accepted = match accepted_sources(alloc, files, sites) {
        Ok(accepted) => accepted,
        Err(cause) => return Err(cause),
    };
    let Accepted {
        sources: _,
        program,
    } = accepted;
    match run_program(alloc, program, order) {
        Ok(ran) => Ok(ran),
        Err(_) => Err(Cause::NoMemory),
    }
}

/// Appends the journal, where it is wanted.
fn write_journal_part(
    text: &mut Vec<u8>,
    alloc: Global,
    wanted: bool,
    journal: &Journal,
) -> Result<(), NoMemory>
    ensures { OnOk result (text.new.items ≡ text.old.items ++ journal_part wanted (shown journal.now)) }
{
    if !wanted {
        return Ok(());
    }
    let lines = write_journal(alloc, journal)?;
    text.extend_from_slice(b"== journal ==\n")?;
    text.extend_from_slice(&lines)?;
    Ok(())
}

/// What stands behind the threads in the output of a run.
fn text_behind(
    alloc: Global,
    order: RunOrder,
    sites: &[SiteWord],
    ran: &Ran,
) -> Result<Vec<u8>, NoMemory>
    ensures { IfOk result (λ text. text.items ≡ behind_threads order.links order.journal (names_of sites.now) ran.now) }
{
    let mut text = links_part(alloc, order.links, sites, &ran.links)?;
    write_journal_part(&mut text, alloc, order.journal, &ran.played.journal)?;
    Ok(text)
}

/// The end of a call whose sources ran: its output is written, with this text behind it.
fn finish<O: Sink, E: Sink>(
    out: &mut O,
    err: &mut E,
    sites: &[SiteWord],
    played: Played,
    text: &[u8],
) -> End
    ensures journal { shown result.journal ≡ shown played.journal }
    ensures ran { OnRan result.cause ((result.status ≡ status played.outcome.report)
        × Appends (O.written out.old) (O.written out.new) (output_text (names_of sites.now) played.outcome text.now)) }
    ensures part { OnWriteFault result.cause (GetsPrefix (O.written out.old) (O.written out.new) (output_text (names_of sites.now) played.outcome text.now)) }
    ensures write_fault { OnWriteFault result.cause (Rose (O.faults out.old) (O.faults out.new)) }
    ensures only { IsRunFinish result.cause }
    ensures status { HasStatus result.cause result.status }
    ensures told { GetsLine (E.written err.old) (E.written err.new) (Rose (E.faults err.old) (E.faults err.new)) (line_of (names_of sites.now) result.cause) }
    ensures quiet { OnRan result.cause (err.new ≡ err.old) }
{
    let Played { outcome, journal } = played;
    match write_whole(out, err, sites, &outcome, text) {
        Ok(()) => End {
            status: status_of(outcome.report),
            cause: Cause::Ran,
            journal,
        },
        Err(_) => End {
            status: status_for(&Cause::WriteFault),
            cause: Cause::WriteFault,
            journal,
        },
    }
}

/// Runs the sources of the sites as the order says, and writes what they wrote to `out`, with the table of
/// links and the journal behind it where they are wanted; or tells on `err` why they don't run.
pub fn run_sites<F: Files, O: Sink, E: Sink>(
    alloc: Global,
    sites: &[SiteWord],
    order: RunOrder,
    files: &mut F,
    out: &mut O,
    err: &mut E,
) -> End
    requires { AreInForm sites.now }

    // Each cause comes only where it may.
    ensures only { IsRunEnd result.cause }
    ensures read_fault { IfReadFault result.cause (IsFaultAt (F.holds files.old) SOURCE_LIMIT (PathRose (F.faults files.old) (F.faults files.new)) (paths_of sites.now)) }
    ensures too_long { IfTooLong result.cause (IsTooLongAt (F.holds files.old) SOURCE_LIMIT (paths_of sites.now)) }
    ensures refused { IfRefused result.cause (IsRefusalOf (F.holds files.old) SOURCE_LIMIT (paths_of sites.now)) }
    ensures write_fault { OnWriteFault result.cause (Rose (O.faults out.old) (O.faults out.new)) }

    // The journal is a history of the sources, and what is written is its output.
    ensures ran { OnRan result.cause ((text : List ℕ) × IsRunOf (F.holds files.old) SOURCE_LIMIT (names_of sites.now) (paths_of sites.now) order.turns order.links order.journal (shown result.journal) text result.status
        × Appends (O.written out.old) (O.written out.new) text) }
    ensures part { OnWriteFault result.cause ((text : List ℕ) × (ended : ℕ) × IsRunOf (F.holds files.old) SOURCE_LIMIT (names_of sites.now) (paths_of sites.now) order.turns order.links order.journal (shown result.journal) text ended
        × GetsPrefix (O.written out.old) (O.written out.new) text) }
    ensures status { HasStatus result.cause result.status }
    ensures completes { RunCompletes (F.holds files.old) SOURCE_LIMIT (paths_of sites.now) (PathRose (F.faults files.old) (F.faults files.new)) (Rose (O.faults out.old) (O.faults out.new)) result.cause }
    ensures completes_refused { RefusalCompletes (F.holds files.old) SOURCE_LIMIT (paths_of sites.now) (PathRose (F.faults files.old) (F.faults files.new)) result.cause }
    ensures completes_too_long { TooLongCompletes (F.holds files.old) SOURCE_LIMIT (paths_of sites.now) (PathRose (F.faults files.old) (F.faults files.new)) result.cause }

    // A refusal writes nothing but its line.
    ensures unwritten { IsRefusal result.cause → out.new ≡ out.old }
    ensures no_journal { IsRefusal result.cause → result.journal.entries ≡ [] }
    ensures told { GetsLine (E.written err.old) (E.written err.new) (Rose (E.faults err.old) (E.faults err.new)) (line_of (names_of sites.now) result.cause) }
    ensures quiet { OnRan result.cause (err.new ≡ err.old) }
    ensures same { (n : List ℕ) → F.holds files.new n ≡ F.holds files.old n }
{
    let ran = match run_files(alloc, files, sites, order) {
        Ok(ran) => ran,
        Err(cause) => return refuse(alloc, err, sites, cause),
    };
    match text_behind(alloc, order, sites, &ran) {
        Ok(text) => finish(out, err, sites, ran.played, &text),
        Err(_) => refuse(alloc, err, sites, Cause::NoMemory),
    }
}
