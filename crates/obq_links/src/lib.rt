//! Sites beside a run: where its cells, threads and activations are, and how many requests and replies went from each site to each.
#![tactic(auto)]

mod numbers;
mod places;
mod rows;
mod sites;
mod tallies;
mod trails;

pub use numbers::Numbers;
pub use places::Place;
pub use rows::LinkCount;
pub use sites::Sites;
pub use trails::Trail;
