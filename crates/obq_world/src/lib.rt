//! All sites of a run and its journal, over a machine that runs windows and does acts at its site.
#![tactic(auto)]

mod claiming;
mod claims;
mod going;
mod lending;
mod machine;
mod naming;
mod parts;
mod reports;
mod running;
mod seen;
mod slots;
mod world;

pub use claiming::{Committed, Picked};
pub use claims::{Claim, Done, Work};
pub use lending::{Lends, Ran};
pub use machine::{HowEnded, Machine, Made, Refused, Slice, Stop, Tried};
pub use naming::Naming;
pub use running::{Ended, run_on};
pub use seen::Seen;
pub use world::{Advanced, World};
