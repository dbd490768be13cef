//! Conditions, their lines of threads, and the mutex that a watch gives up and takes again.
#![tactic(auto)]

mod lines;
mod retake;

pub use lines::{broadcast, line_up, signal};
pub use retake::{Retaken, again, give_up};
