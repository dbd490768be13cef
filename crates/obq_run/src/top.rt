//! The call that the program makes.

ghost use Rattle.std.specs.Prelude.{◌≡◌, ◌⊎◌, ◌<◌, [], None, Some, List, false, true, ℕ};
ghost use Rattle.std.specs.Io.KnownBytes.{Appends};
ghost use Rattle.obq_io.specs.Causes.{Rose};
ghost use Rattle.obq_io.specs.Known.{GetsPrefix};
ghost use Rattle.obq_journal.specs.Recording.{shown};
ghost use Rattle.obq_model.specs.Journal as history;
ghost use Rattle.obq_model.specs.Output.{check_text};
ghost use Rattle.obq_run.specs.Ends.{GetsLine, HasStatus, IfReadFault, IfRefused, IfTooLong, IsEndOf, IsRefusal, MatchWords, OnChecked, OnRan, OnReplayed, OnWriteFault, line_of};
ghost use Rattle.obq_run.specs.Held.{IsFaultAt, IsTooLongAt, PathRose};
ghost use Rattle.obq_run.specs.Runs.{CheckCompletes, IsCheckOf, IsRefusalOf, IsRunOf, RefusalCompletes, ReplayCompletes, ReplayRefusal, ReplaysTo, RunCompletes, TooLongCompletes, WithJournal};
ghost use Rattle.obq_words.specs.CommandLine.{TooManyAt, UsageAt, bad_word, is_checking, is_replaying, journal_path, turns_of, wants_journal, wants_links};
ghost use Rattle.obq_words.specs.Words.{bytes_of, given_names, given_paths};

use crate::check::check_sources;
use crate::ends::{Cause, End};
use crate::finish::refuse;
use crate::replay::replay_run;
use crate::run::{RunOrder, run_sites};
use obq_base::limits::SOURCE_LIMIT;
use obq_io::{Files, Gate, Sink};
use obq_words::{Order, WordsRefused, read_words};
use std::alloc::Global;
use std::sync::Wait;
use std::thread::Threads;

/// Does what the words say: reads the sources, runs or examines them, and writes what they wrote, or
/// that they are accepted, to `out`, or tells on `err` why it didn't. `docs/LANGUAGE.md` has the
/// words, the texts and the statuses.
pub fn obliq<R: Threads + Wait + Sync, F: Files, O: Sink, E: Sink, G: Gate>(
    _rt: &R,
    alloc: Global,
    words: &[String],
    files: &mut F,
    out: &mut O,
    err: &mut E,
    _gate: &G,
) -> End
    // Words that can't stand are always refused; each other cause comes only where it may.
    ensures usage { MatchWords result.cause (λ k. bad_word (bytes_of words.now) ≡ Some (UsageAt k)) (λ k. bad_word (bytes_of words.now) ≡ Some (TooManyAt k)) (bad_word (bytes_of words.now) ≡ None) }
    ensures ends { bad_word (bytes_of words.now) ≡ None → IsEndOf (is_checking (bytes_of words.now)) (is_replaying (bytes_of words.now)) result.cause }
    ensures read_fault { is_replaying (bytes_of words.now) ≡ false → IfReadFault result.cause (IsFaultAt (F.holds files.old) SOURCE_LIMIT (PathRose (F.faults files.old) (F.faults files.new)) (given_paths (bytes_of words.now))) }
    ensures too_long { is_replaying (bytes_of words.now) ≡ false → IfTooLong result.cause (IsTooLongAt (F.holds files.old) SOURCE_LIMIT (given_paths (bytes_of words.now))) }
    ensures refused { is_replaying (bytes_of words.now) ≡ false → IfRefused result.cause (IsRefusalOf (F.holds files.old) SOURCE_LIMIT (given_paths (bytes_of words.now))) }
    ensures not_replayed { bad_word (bytes_of words.now) ≡ None → is_replaying (bytes_of words.now) ≡ true → IsRefusal result.cause
        → ReplayRefusal (F.holds files.old) (PathRose (F.faults files.old) (F.faults files.new)) (given_paths (bytes_of words.now)) (journal_path (bytes_of words.now)) result.cause }
    ensures write_fault { OnWriteFault result.cause (Rose (O.faults out.old) (O.faults out.new)) }

    // The journal of a run is a history of its sources, and what is written is the output of that
    // history.
    ensures ran { OnRan result.cause ((text : List ℕ)
        × IsRunOf (F.holds files.old) SOURCE_LIMIT (given_names (bytes_of words.now)) (given_paths (bytes_of words.now)) (turns_of (bytes_of words.now)) (wants_links (bytes_of words.now)) (wants_journal (bytes_of words.now)) (shown result.journal) text result.status
        × Appends (O.written out.old) (O.written out.new) text) }
    ensures part { is_checking (bytes_of words.now) ≡ false → is_replaying (bytes_of words.now) ≡ false → OnWriteFault result.cause ((text : List ℕ)
        × (ended : ℕ) × IsRunOf (F.holds files.old) SOURCE_LIMIT (given_names (bytes_of words.now)) (given_paths (bytes_of words.now)) (turns_of (bytes_of words.now)) (wants_links (bytes_of words.now)) (wants_journal (bytes_of words.now)) (shown result.journal) text ended
        × GetsPrefix (O.written out.old) (O.written out.new) text) }

    // What is checked is accepted, and that is what is written.
    ensures checked { OnChecked result.cause (IsCheckOf (F.holds files.old) SOURCE_LIMIT (given_paths (bytes_of words.now))
        × Appends (O.written out.old) (O.written out.new) (check_text (given_names (bytes_of words.now)))) }
    ensures part_checked { is_checking (bytes_of words.now) ≡ true → OnWriteFault result.cause (IsCheckOf (F.holds files.old) SOURCE_LIMIT (given_paths (bytes_of words.now))
        × GetsPrefix (O.written out.old) (O.written out.new) (check_text (given_names (bytes_of words.now)))) }

    // The journal that is replayed is a history of the sources, and what is written is the output of
    // that history.
    ensures replayed { OnReplayed result.cause ((text : List ℕ)
        × WithJournal (F.holds files.old) (given_paths (bytes_of words.now)) (journal_path (bytes_of words.now)) (ReplaysTo (given_names (bytes_of words.now)) (shown result.journal) text result.status)
        × Appends (O.written out.old) (O.written out.new) text) }
    ensures part_replayed { is_replaying (bytes_of words.now) ≡ true → OnWriteFault result.cause ((journal : history.Journal) × (text : List ℕ)
        × (ended : ℕ) × WithJournal (F.holds files.old) (given_paths (bytes_of words.now)) (journal_path (bytes_of words.now)) (ReplaysTo (given_names (bytes_of words.now)) journal text ended)
        × GetsPrefix (O.written out.old) (O.written out.new) text) }

    // Each command comes to its end where nothing fails.
    ensures status { HasStatus result.cause result.status }
    ensures completes { bad_word (bytes_of words.now) ≡ None → is_checking (bytes_of words.now) ≡ false → is_replaying (bytes_of words.now) ≡ false
        → RunCompletes (F.holds files.old) SOURCE_LIMIT (given_paths (bytes_of words.now)) (PathRose (F.faults files.old) (F.faults files.new)) (Rose (O.faults out.old) (O.faults out.new)) result.cause }
    ensures completes_check { bad_word (bytes_of words.now) ≡ None → is_checking (bytes_of words.now) ≡ true
        → CheckCompletes (F.holds files.old) SOURCE_LIMIT (given_paths (bytes_of words.now)) (PathRose (F.faults files.old) (F.faults files.new)) (Rose (O.faults out.old) (O.faults out.new)) result.cause }
    ensures completes_replay { bad_word (bytes_of words.now) ≡ None → is_replaying (bytes_of words.now) ≡ true
        → ReplayCompletes (F.holds files.old) (given_paths (bytes_of words.now)) (journal_path (bytes_of words.now)) (PathRose (F.faults files.old) (F.faults files.new)) (Rose (O.faults out.old) (O.faults out.new)) result.cause }
    ensures completes_refused { bad_word (bytes_of words.now) ≡ None → is_replaying (bytes_of words.now) ≡ false
        → RefusalCompletes (F.holds files.old) SOURCE_LIMIT (given_paths (bytes_of words.now)) (PathRose (F.faults files.old) (F.faults files.new)) result.cause }
    ensures completes_too_long { bad_word (bytes_of words.now) ≡ None → is_replaying (bytes_of words.now) ≡ false
        → TooLongCompletes (F.holds files.old) SOURCE_LIMIT (given_paths (bytes_of words.now)) (PathRose (F.faults files.old) (F.faults files.new)) result.cause }

    // A refusal writes nothing but its line.
    ensures unwritten { IsRefusal result.cause → out.new ≡ out.old }
    ensures no_journal { IsRefusal result.cause → result.journal.entries ≡ [] }
    ensures no_journal_checked { is_checking (bytes_of words.now) ≡ true → result.journal.entries ≡ [] }
    ensures told { GetsLine (E.written err.old) (E.written err.new) (Rose (E.faults err.old) (E.faults err.new)) (line_of (given_names (bytes_of words.now)) result.cause) }
    ensures quiet { OnRan result.cause (err.new ≡ err.old) }
    ensures quiet_checked { OnChecked result.cause (err.new ≡ err.old) }
    ensures quiet_replayed { OnReplayed result.cause (err.new ≡ err.old) }
    ensures same { (n : List ℕ) → F.holds files.new n ≡ F.holds files.old n }
{
    match read_words(alloc, words) {
        Err(WordsRefused::Usage { word }) => refuse(alloc, err, &[], Cause::Usage { word }),
        Err(WordsRefused::TooManySites { word }) => {
            refuse(alloc, err, &[], Cause::TooManySites { word })
        }
        Err(WordsRefused::NoMemory) => refuse(alloc, err, &[], Cause::NoMemory),
        Ok(
            Order::Run {
                turns,
                workers,
                journal,
                links,
                sites,
            },
        ) => {
            // One thread of the host runs a program yet.
            let _ = workers;
            let order = RunOrder {
                turns,
                journal,
                links,
            };
            run_sites(alloc, &sites, order, files, out, err)
        }
        Ok(Order::Check { sites }) => check_sources(alloc, &sites, files, out, err),
        Ok(Order::Replay { from, sites }) => {
            replay_run(alloc, from.as_str(), &sites, files, out, err)
        }
    }
}
