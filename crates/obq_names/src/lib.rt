//! What the names of a tree stand for: its occurrences without a binder, and what its procedures
//! capture. One walk finds both.
#![tactic(auto)]

mod binders;
mod members;
mod names;
mod places;
mod walk;
mod walker;

pub use binders::Binders;
pub use members::push_members;
pub use names::{Names, find_names};
