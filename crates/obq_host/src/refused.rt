//! Why a site doesn't go on.

pub use obq_world::Refused;
