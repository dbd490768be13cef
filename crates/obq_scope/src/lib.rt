//! The resolver: from the tree of a source to its code, or to its first unbound name.
#![tactic(auto)]

mod ahead;
mod coder;
mod counts;
mod emit;
mod emitter;
mod heads;
mod output;
mod outside;
mod refused;
mod resolver;
mod slots;

pub use refused::ScopeRefused;
pub use resolver::resolve;
