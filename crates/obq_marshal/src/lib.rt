//! Values on their way: a table of the closed groups that they need, and values over it.
#![tactic(auto)]

mod cache;
mod carried;
mod laws;
mod packing;
mod unpacking;

pub use cache::ImportCache;
pub use carried::Carried;
pub use laws::{closures_travel, packed_in_order, packed_in_range};
pub use packing::pack;
