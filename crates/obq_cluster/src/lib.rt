//! Workers that take turns with one World under one lock.
#![tactic(auto)]

mod cluster;
mod held;

pub use cluster::{Cluster, Step, Steps, Turn, run_workers};
pub use held::Held;
