//! How a call ends.

ghost use Rattle.obq_run.specs.Ends.{HasStatus};

use obq_base::SourceFault;
use obq_journal::Journal;

/// Why a call ended as it did. Words count from 0, the program's name left out; sources and files
/// from 0 in word order, the journal of a replay behind the sources.
#[derive(Debug, PartialEq, Drop)]
pub enum Cause {
    Ran,
    /// Each source is accepted.
    Checked,
    /// Each entry of the journal is legal, and no thread can go on behind the last.
    Replayed,
    /// The first word that can't stand in its place; a missing word is the number of words.
    Usage { word: u32 },
    /// The word that gives a 17th site.
    TooManySites { word: u32 },
    SourceTooLong { source: u16 },
    JournalTooLong,
    /// The first fault of the first source that has one.
    Refused { source: u16, fault: SourceFault },
    ReadFault { file: u16 },
    WriteFault,
    /// The first bad line of the journal, from 1.
    BadJournal { line: u32 },
    /// The first entry of the journal that isn't legal, from 0.
    NotLegal { entry: u64 },
    /// The lowest thread that can go on where the journal ends.
    Unfinished { thread: u32 },
    NoMemory,
}

/// The end of a call. The journal is the run's where it ran, also where writing then failed, and the
/// one that was read where it was replayed; else it has no entries.
#[derive(Drop)]
pub struct End {
    pub status: u8,
    pub cause: Cause,
    pub journal: Journal,
}

/// The status of a call that ended so. That of a run and of a replay is its report's.
pub fn status_for(cause: &Cause) -> u8
    ensures { HasStatus cause.now result }
{
    match cause {
        Cause::Ran | Cause::Checked | Cause::Replayed => 0,
        Cause::Usage { word: _ } => 2,
        Cause::TooManySites { word: _ } => 7,
        Cause::SourceTooLong { source: _ } => 7,
        Cause::JournalTooLong => 7,
        Cause::Refused {
            source: _,
            fault: _,
        } => 3,
        Cause::ReadFault { file: _ } => 4,
        Cause::WriteFault => 5,
        Cause::BadJournal { line: _ } => 8,
        Cause::NotLegal { entry: _ } => 8,
        Cause::Unfinished { thread: _ } => 8,
        Cause::NoMemory => 6,
    }
}
