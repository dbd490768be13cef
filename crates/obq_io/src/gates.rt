//! A gate: a place outside every lock that a worker passes, where a test can hold it.

/// Where a worker is: before it takes the lock, or with a claim in its hands.
#[derive(Clone, Copy, Debug, PartialEq, Eq)]
pub enum GateAt {
    Before,
    Claimed,
}

/// It has no meaning for a run: it may only make a worker wait.
pub trait Gate: Sync {
    fn pass(&self, worker: u32, at: GateAt);
}

/// The gate that holds nobody.
#[derive(Clone, Copy, Debug, PartialEq, Eq)]
pub struct PlainGate;

impl Gate for PlainGate {
    fn pass(&self, _worker: u32, _at: GateAt) {}
}
