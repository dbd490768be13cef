//! The options of `run`.

ghost use Rattle.std.specs.Prelude.{◌≡◌, ◌+◌, ◌≤◌, IfOk, Some, true};
ghost use Rattle.obq_model.specs.JournalText as text;
ghost use Rattle.obq_words.specs.CommandLine.{OptionOrSite, run_words};
ghost use Rattle.obq_words.specs.Options.{words_open};
ghost use Rattle.obq_words.specs.Words.{ReadsOptions, bytes_of};

use obq_base::limits::{TURN_LIMIT, WORKER_LIMIT};

/// Worker threads where the command line says nothing.
pub const DEFAULT_WORKERS: u32 = 2;

/// The options that were given.
#[derive(Clone, Copy)]
pub struct RunOptions {
    pub turns: Option<u32>,
    pub workers: Option<u32>,
    pub journal: bool,
    pub links: bool,
}

impl RunOptions {
    fn with_turns(self, turns: u32) -> RunOptions
        ensures { result ≡ record self { turns = Some turns } }
    {
        RunOptions {
            turns: Some(turns),
            ..self
        }
    }

    fn with_workers(self, workers: u32) -> RunOptions
        ensures { result ≡ record self { workers = Some workers } }
    {
        RunOptions {
            workers: Some(workers),
            ..self
        }
    }

    fn with_journal(self) -> RunOptions
        ensures { result ≡ record self { journal = true } }
    {
        RunOptions {
            journal: true,
            ..self
        }
    }

    fn with_links(self) -> RunOptions
        ensures { result ≡ record self { links = true } }
    {
        RunOptions {
            links: true,
            ..self
        }
    }
}

/// The options that words begin with, and the words behind them.
#[derive(Clone, Copy)]
pub struct OptionsRead<'a> {
    pub options: RunOptions,
    /// The number of the first word behind the options.
    pub place: u32,
    pub words: &'a [String],
}

/// Whether these are decimal digits without a leading zero.
fn is_number(word: &[u8]) -> bool
    ensures { result ≡ text.is_number word.now }
{
    match word {
        [] => false,
        [digit] => digit.is_ascii_digit(),
        [first, ..] => *first != b'0' && word.iter().all(|b| b.is_ascii_digit()),
    }
}

/// The number that a word says, from 1 to this limit.
fn number_in(word: &str, limit: u32) -> Option<u32>
    ensures { result ≡ text.number_from 1 limit word.now }
{
    if !is_number(word.as_bytes()) {
        return None;
    }
    let Ok(number) = word.parse::<u32>() else {
        return None;
    };
    if 1 <= number && number <= limit {
        Some(number)
    } else {
        None
    }
}

/// Takes the options that these words begin with, the first of which is the word at this place behind
/// earlier options. A word that can't stand, or is missing, is answered by its number.
pub fn read_options(
    options: RunOptions,
    place: u32,
    words: &[String],
) -> Result<OptionsRead<'_>, u32>
    requires { place + words_open options ≤ 7 }
    ensures reads { ReadsOptions (run_words place (OptionOrSite options) (bytes_of words.now)) result }
    ensures early { IfOk result (λ read. read.place ≤ 7) }
{
    match words {
        [word, more @ ..] if word.as_str() == "--turns" && options.turns.is_none() => {
            let [number, more @ ..] = more else {
                return Err(place + 1);
            };
            let Some(turns) = number_in(number.as_str(), TURN_LIMIT) else {
                return Err(place + 1);
            };
            read_options(options.with_turns(turns), place + 2, more)
        }
        [word, more @ ..] if word.as_str() == "--workers" && options.workers.is_none() => {
            let [number, more @ ..] = more else {
                return Err(place + 1);
            };
            let Some(workers) = number_in(number.as_str(), WORKER_LIMIT) else {
                return Err(place + 1);
            };
            read_options(options.with_workers(workers), place + 2, more)
        }
        [word, more @ ..] if word.as_str() == "--journal" && !options.journal => {
            read_options(options.with_journal(), place + 1, more)
        }
        [word, more @ ..] if word.as_str() == "--links" && !options.links => {
            read_options(options.with_links(), place + 1, more)
        }
        _ => Ok(OptionsRead {
            options,
            place,
            words,
        }),
    }
}
