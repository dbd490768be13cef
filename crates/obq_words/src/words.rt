//! The words of the command line.

ghost use Rattle.std.specs.Prelude.{◌∷◌, codes};
ghost use Rattle.obq_words.specs.Words.{Answers, bytes_of};

use crate::options::{DEFAULT_WORKERS, RunOptions, read_options};
use crate::sites::read_sites;
use obq_base::Name;
use obq_base::limits::DEFAULT_TURNS;
use std::alloc::Global;

/// A site's name and the path of its source.
#[derive(Drop)]
pub struct SiteWord {
    pub name: Name,
    pub path: String,
}

/// What a command line asks for.
#[derive(Drop)]
pub enum Order {
    /// Runs the sources by so many workers, with so many turns for each thread, and prints the journal
    /// and the links too where they are wanted.
    Run {
        turns: u32,
        workers: u32,
        journal: bool,
        links: bool,
        sites: Vec<SiteWord>,
    },
    /// Examines the sources.
    Check {
        sites: Vec<SiteWord>,
    },
    /// Goes over the journal in the file `from` again.
    Replay {
        from: String,
        sites: Vec<SiteWord>,
    },
}

/// Why a command line gives no order. A word's number counts from the command, which is word 0.
#[derive(Clone, Copy, Debug, PartialEq, Eq)]
pub enum WordsRefused {
    /// The first word that can't stand in its place, or the number of words where one is missing.
    Usage { word: u32 },
    /// The word of the first site beyond those that a command line may give.
    TooManySites { word: u32 },
    NoMemory,
}

/// What the words behind `run` ask for.
fn read_run(alloc: Global, words: &[String]) -> Result<Order, WordsRefused>
    ensures { Answers (codes "run" ∷ bytes_of words.now) result }
{
    let none = RunOptions {
        turns: None,
        workers: None,
        journal: false,
        links: false,
    };
    let read = match read_options(none, 1, words) {
        Ok(read) => read,
        Err(word) => return Err(WordsRefused::Usage { word }),
    };
    let sites = read_sites(alloc, read.place, read.words)?;
    Ok(Order::Run {
        turns: read.options.turns.unwrap_or(DEFAULT_TURNS),
        workers: read.options.workers.unwrap_or(DEFAULT_WORKERS),
        journal: read.options.journal,
        links: read.options.links,
        sites,
    })
}

/// What the words behind `check` ask for.
fn read_check(alloc: Global, words: &[String]) -> Result<Order, WordsRefused>
    ensures { Answers (codes "check" ∷ bytes_of words.now) result }
{
    Ok(Order::Check {
        sites: read_sites(alloc, 1, words)?,
    })
}

/// What the words behind `replay` ask for.
fn read_replay(alloc: Global, words: &[String]) -> Result<Order, WordsRefused>
    ensures { Answers (codes "replay" ∷ bytes_of words.now) result }
{
    let [option, more @ ..] = words else {
        return Err(WordsRefused::Usage { word: 1 });
    };
    if option.as_str() != "--from" {
        return Err(WordsRefused::Usage { word: 1 });
    }
    let [path, site_words @ ..] = more else {
        return Err(WordsRefused::Usage { word: 2 });
    };
    if path.is_empty() {
        return Err(WordsRefused::Usage { word: 2 });
    }
    let sites = read_sites(alloc, 3, site_words)?;
    match String::from_str(alloc, path.as_str()) {
        Ok(from) => Ok(Order::Replay { from, sites }),
        Err(_) => Err(WordsRefused::NoMemory),
    }
}

/// What a command line asks for, or the first word that can't stand in its place. Memory is taken
/// only where every word can stand.
pub fn read_words(alloc: Global, words: &[String]) -> Result<Order, WordsRefused>
    ensures { Answers (bytes_of words.now) result }
{
    let [command, more @ ..] = words else {
        return Err(WordsRefused::Usage { word: 0 });
    };
    match command.as_str() {
        "run" => read_run(alloc, more),
        "check" => read_check(alloc, more),
        "replay" => read_replay(alloc, more),
        _ => Err(WordsRefused::Usage { word: 0 }),
    }
}
