//! Numbers of what a configuration has.

/// How many cells and threads there are, and how many activations the thread has that is spoken of.
#[derive(Clone, Copy, Debug)]
pub struct Numbers {
    pub cells: u64,
    pub threads: u64,
    pub activations: u64,
}
