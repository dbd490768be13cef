//! The parser: from the tokens of a source to its syntax tree, or to the first token that no
//! program has there.
#![tactic(auto)]

mod parser;
mod program;

pub use program::{ParseRefused, parse};
