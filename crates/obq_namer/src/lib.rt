//! The table of a name server.
#![tactic(auto)]

mod namer;

pub use namer::Namer;
