//! Journals of runs, and their texts both ways.
#![tactic(auto)]

mod journals;
mod kinds;
mod laws;
mod lines;
mod pieces;
mod reading;
mod writing;

pub use journals::Journal;
pub use laws::written_is_read;
pub use reading::{JournalRefused, read_journal};
pub use writing::write_journal;
