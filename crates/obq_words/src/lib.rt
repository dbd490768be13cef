//! The command line of the program: `run`, `check` or `replay`, its options, and the sites with their
//! sources.
#![tactic(auto)]

mod options;
mod sites;
mod words;

pub use options::DEFAULT_WORKERS;
pub use words::{Order, SiteWord, WordsRefused, read_words};
