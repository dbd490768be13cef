//! The call that the program makes: it reads the command line and the sources, runs, examines or
//! replays them, and writes what the run wrote, or that they are accepted, or why not.
#![tactic(auto)]

mod accepted;
mod alone;
mod check;
mod ends;
mod finish;
mod links;
mod outcome;
mod playing;
mod reading;
mod replay;
mod replaying;
mod run;
mod steps;
mod texts;
mod top;

pub use check::check_sources;
pub use ends::{Cause, End};
pub use obq_base::{Entry, SourceFault};
pub use obq_journal::Journal;
pub use replay::replay_run;
pub use top::obliq;
