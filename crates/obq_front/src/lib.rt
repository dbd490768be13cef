//! From the sources of a program to its trees and its codes, or to the first fault.
#![tactic(auto)]

mod examine;
mod gathered;
mod program;
mod single;

pub use examine::front;
pub use obq_base::SourceFault;
pub use program::{FrontRefused, Program, Source};
