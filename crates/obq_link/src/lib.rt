//! Lines of frames between two sites.
#![tactic(auto)]

mod line;

pub use line::Line;
