//! The parts of threads at one site, and the endings that are kept there.
#![tactic(auto)]

mod rows;
mod segments;
mod threads;

pub use segments::{Ended, Segment, Suspended};
pub use threads::Threads;
