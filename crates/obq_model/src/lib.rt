//! The definitions that every contract cites. No code runs here; a function is a law, its contract.
#![tactic(auto)]

pub mod codes;
pub mod tokens;
pub mod words;
