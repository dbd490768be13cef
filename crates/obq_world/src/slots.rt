//! What a World keeps of each thread besides its window.

/// The turns that the thread has used, the version of what it stands at, and whether a claim on it is out.
#[derive(Clone, Copy, Debug, PartialEq, Eq)]
pub struct ThreadSlot {
    pub used: u32,
    pub version: u64,
    pub claimed: bool,
}
